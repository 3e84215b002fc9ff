// Tests of the checker: what it accepts, and each refusal at its place, with a witness.
#![tactic(auto)]

#[cfg(test)]
mod accepted;
#[cfg(test)]
mod containing;
#[cfg(test)]
mod forbidding;
#[cfg(test)]
mod outliving;
#[cfg(test)]
mod refusing;
#[cfg(test)]
mod samples;
