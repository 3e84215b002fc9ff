// Tests of the maker: what it makes, byte by byte, and each refusal, with nothing touched.
#![tactic(auto)]

#[cfg(test)]
mod growing;
#[cfg(test)]
mod made;
#[cfg(test)]
mod refusing;
#[cfg(test)]
mod samples;
