// Entries go by names, which are numbers from 0 to 63.
pub type Name = u8;

// How many names there are.
pub const NAMES: Name = 64;
