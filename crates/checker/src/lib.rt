// The checker of safety certificates. Nothing here allocates.
#![tactic(auto)]

pub mod check;
pub mod closed;
pub mod contained;
pub mod flaw;
pub mod judgement;
pub mod met;
