// Commands and the schemes that they make up. A value of these types keeps the rules on parameters; nothing here allocates.
#![tactic(auto)]

pub mod command;
pub mod placing;
pub mod scheme;
pub mod step;
pub mod test;
