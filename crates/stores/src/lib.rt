// Where a register's cells lie: what a cell store is, and two of them.
#![tactic(auto)]

pub mod board;
pub mod list;
pub mod record;
pub mod store;
pub mod unfit;
