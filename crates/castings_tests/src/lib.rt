// Tests of closedness: small commands that escape and that do not, each condition that fails, and a scheme of the largest size.
#![tactic(auto)]

#[cfg(test)]
mod bindings;
#[cfg(test)]
mod breaches;
#[cfg(test)]
mod largest;
#[cfg(test)]
mod places;
#[cfg(test)]
mod samples;
