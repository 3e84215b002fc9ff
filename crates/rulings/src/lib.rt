// Rulings: what has the last word on an access question. Nothing here allocates.
#![tactic(auto)]

pub mod filter;
pub mod matrix;
pub mod pile;
pub mod question;
pub mod ruling;
