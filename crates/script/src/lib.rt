// Reads one line of a script.
#![tactic(auto)]

mod error;
mod hex;
mod keyword;
mod line;
mod making;
mod number;
mod series;
mod settings;
mod sides;
mod words;

pub use error::ReadError;
pub use hex::read_hex;
pub use line::{Call, read_line};
