// A ban names a right that no card of one sort may ever hold on an entry of another sort.

use model::mask::Right;
use model::stamp::{Attribute, Value};

// The entries that have this value as this attribute, or null where it is null.
#[derive(Clone, Copy, Debug, PartialEq, Eq)]
pub struct Sort {
    pub attribute: Attribute,
    pub value: Option<Value>,
}

#[derive(Clone, Copy, Debug, PartialEq, Eq)]
pub struct Ban {
    pub right: Right,
    pub row: Sort,
    pub column: Sort,
}
