// Tapes and their orders: the table of orders, and a reader that hands on one order after the other.
#![tactic(auto)]

pub mod order;
pub mod orders;
pub mod reader;
pub mod table;
pub mod tape;
pub mod value;
