// Makings and checks that hand on the certificate, to be kept.
#![tactic(auto)]

pub mod checked;
pub mod made;
