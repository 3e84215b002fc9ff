// Tests of the vocabulary and of the scheme reader: examples, refusals at their places, and boundaries.
#![tactic(auto)]

#[cfg(test)]
mod refusals;
#[cfg(test)]
mod samples;
#[cfg(test)]
mod vocabulary;
