// An access question: may the entry `row` use `right` on the entry `column`?
use model::mask::{Mask, Right};
use model::name::Name;
use model::stamp::Stamp;

// The two names, the right, what sort of entries the two are, and what the cell [row, column] holds.
#[derive(Clone, Copy)]
pub struct Question {
    pub row: Name,
    pub column: Name,
    pub right: Right,
    pub row_stamp: Stamp,
    pub column_stamp: Stamp,
    pub cell: Mask,
}
