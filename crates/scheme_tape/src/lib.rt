// The scheme tape: which commands it stands for, or why it is refused.
#![tactic(auto)]

mod draft;
pub mod lawful;
pub mod reader;
