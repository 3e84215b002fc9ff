// The vocabulary of the rights register: what an entry, a right, a scale and a refusal are. Nothing here allocates.
#![tactic(auto)]

pub mod bounded;
pub mod counts;
pub mod fault;
pub mod kind;
pub mod labels;
pub mod ladder;
pub mod mask;
pub mod name;
pub mod scale;
pub mod scales;
pub mod stamp;
