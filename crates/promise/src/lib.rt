// A register's five calls, with what is promised of it for good. Nothing here allocates.
#![tactic(auto)]

pub mod calls;
