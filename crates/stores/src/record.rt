// One cell of a list: its row, its column and its mask.
use model::mask::Mask;
use model::name::Name;

#[derive(Clone, Copy, PartialEq, Eq)]
pub struct Record {
    pub row: Name,
    pub column: Name,
    pub mask: Mask,
}
