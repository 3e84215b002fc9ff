// Says in words for people why a certificate is refused.
#![tactic(auto)]

pub mod breach;
pub mod escape;
pub mod flaw;
pub mod stray;
