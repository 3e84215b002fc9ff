// Writing a certificate as the bytes that list it. Nothing here allocates.
#![tactic(auto)]

mod buffer;
mod masks;
mod orders;
mod scales;
mod stamps;
pub mod writer;
