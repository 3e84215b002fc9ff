// Castings of commands by the stamps of a certificate, and whether a certificate is closed under a command. Nothing here allocates.
#![tactic(auto)]

pub mod closure;
pub mod escape;
mod keeping;
mod moving;
mod numbers;
pub mod places;
mod readiness;
mod seeing;
mod shifts;
