// The protection state of a register: who stands, who may do what with whom, and what a command makes of it.
#![tactic(auto)]

pub mod entries;
pub mod excerpt;
pub mod outcome;
pub mod passing;
pub mod refusal;
