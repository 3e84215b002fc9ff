// Questions for the tests.
use model::kind::Kind;
use model::mask::{Mask, Right};
use model::stamp::{PerAttribute, Stamp, Value};
use rulings::question::Question;

pub fn stamp(attributes: PerAttribute<Option<Value>>) -> Stamp {
    Stamp {
        kind: Kind::Subject,
        attributes,
    }
}

// Entry 2 asks for a right on entry 5.
pub fn question(right: Right, cell: Mask, row_stamp: Stamp, column_stamp: Stamp) -> Question {
    Question {
        row: 2,
        column: 5,
        right,
        row_stamp,
        column_stamp,
        cell,
    }
}
