// Tests of the rulings: the matrix alone, one filter, piles of filters.
#![tactic(auto)]

#[cfg(test)]
mod filters;
#[cfg(test)]
mod matrix;
#[cfg(test)]
mod piles;
#[cfg(test)]
mod questions;
