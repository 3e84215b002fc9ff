// Tests of the register, over a board and over a list: refusals at their places, and what is left after each.
#![tactic(auto)]

#[cfg(test)]
mod openings;
#[cfg(test)]
mod questions;
#[cfg(test)]
mod refusals;
#[cfg(test)]
mod requests;
#[cfg(test)]
mod samples;
