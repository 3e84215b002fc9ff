// The rights register: an access matrix with attributes, its commands, and a ruling that has the last word.
#![tactic(auto)]

mod admission;
mod putting;
pub mod register;
