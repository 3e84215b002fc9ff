// Tests of the readers of certificates and bans: the worked tapes, and each refusal at its place.
#![tactic(auto)]

#[cfg(test)]
mod bans;
#[cfg(test)]
mod listed;
#[cfg(test)]
mod refusals;
#[cfg(test)]
mod samples;
