// What a script chooses for a register, and the register that is put together from it.
#![tactic(auto)]

pub mod making;
pub mod setup;
pub mod size;
pub mod store;
