// The opening tape: which entries and rights stand at the start, or why it is refused.
#![tactic(auto)]

mod items;
mod orders;
pub mod reader;
