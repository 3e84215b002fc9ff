// The maker of the least certificate. Nothing here allocates.
#![tactic(auto)]

mod closing;
mod containing;
mod growing;
pub mod least;
pub mod make;
mod need;
mod needs;
