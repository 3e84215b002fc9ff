// Says things in words for people: why a call is refused, and what a command tests and does.
#![tactic(auto)]

pub mod fault;
pub mod kind;
pub mod listing;
pub mod mask;
pub mod role;
pub mod stamp;
pub mod state;
pub mod step;
pub mod test;
pub mod value;

// A value of another crate, to be shown in words.
#[derive(Clone, Copy)]
pub struct InWords<T>(pub T);
