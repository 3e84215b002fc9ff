// Tests of writing certificates: their bytes, the buffers that they go into, and reading them back.
#![tactic(auto)]

#[cfg(test)]
mod buffers;
#[cfg(test)]
mod bytes;
#[cfg(test)]
mod largest;
#[cfg(test)]
mod samples;
