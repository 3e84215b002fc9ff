// Shows a certificate to people, as a table and by the bytes of its tape.
#![tactic(auto)]

pub mod rights;
pub mod table;
pub mod tape;
