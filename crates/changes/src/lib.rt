// What a request changes: the names that it goes by, and the cells of a store that it makes other.
#![tactic(auto)]

pub mod change;
pub mod names;
