// Tests of the opening reader: the worked opening, and each refusal at its place, over either store.
#![tactic(auto)]

#[cfg(test)]
mod opened;
#[cfg(test)]
mod refusals;
#[cfg(test)]
mod samples;
