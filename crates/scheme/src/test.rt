// A test is read in the state before a command's steps.
ghost use Rattle.std.specs.Prelude.{◌≡◌, Bool, ◌&&◌};
ghost use Rattle.scheme.specs.Tests.{names_in_test, test_shaped, test_valued, test_row_declared};

use model::counts::Counts;
use model::mask::{RIGHTS, Right, holds};
use model::stamp::{ATTRIBUTES, Attribute, Value};

// A command's parameters are numbered from 0.
pub type Parameter = u8;

#[derive(Clone, Copy, Debug, PartialEq, Eq)]
pub enum Test {
    // The right is in the cell [row, column].
    Holds {
        right: Right,
        row: Parameter,
        column: Parameter,
    },
    // The parameter's attribute is the value, which may be null.
    Is {
        parameter: Parameter,
        attribute: Attribute,
        value: Option<Value>,
    },
    // The parameter's attribute is not the value, which may be null.
    IsNot {
        parameter: Parameter,
        attribute: Attribute,
        value: Option<Value>,
    },
    // The attribute of `upper` covers that of `lower`, and neither is null.
    Covers {
        upper: Parameter,
        attribute: Attribute,
        lower: Parameter,
    },
}

impl Test {
    pub fn names(self, i: Parameter) -> bool
        ensures { result ≡ names_in_test i self }
    {
        match self {
            Test::Holds { row, column, .. } => i == row || i == column,
            Test::Is { parameter, .. } | Test::IsNot { parameter, .. } => i == parameter,
            Test::Covers { upper, lower, .. } => i == upper || i == lower,
        }
    }

    // Whether parameters, right and attribute are in range; a value is `is_valued`'s matter.
    fn is_shaped(self, params: u8) -> bool
        ensures { result ≡ test_shaped params self }
    {
        match self {
            Test::Holds { right, row, column } => right < RIGHTS && row < params && column < params,
            Test::Is {
                parameter,
                attribute,
                ..
            }
            | Test::IsNot {
                parameter,
                attribute,
                ..
            } => parameter < params && attribute < ATTRIBUTES,
            Test::Covers {
                upper,
                attribute,
                lower,
            } => upper < params && attribute < ATTRIBUTES && lower < params,
        }
    }

    // Whether a value that is compared with is null or in its scale.
    fn is_valued(self, counts: &Counts) -> bool
        ensures { result ≡ test_valued counts.now self }
    {
        match self {
            Test::Is {
                attribute,
                value,
                ..
            }
            | Test::IsNot {
                attribute,
                value,
                ..
            } => counts.is_null_or_value(attribute, value),
            _ => true,
        }
    }

    // `Step` has the same line, and says why.
    pub fn is_in_range(self, params: u8, counts: &Counts) -> bool
        ensures { result ≡ (test_shaped params self && test_valued counts.now self) }
    {
        self.is_shaped(params) && self.is_valued(counts)
    }

    // Whether the row of a cell that is read is declared a card.
    pub fn is_row_declared(self, cards: u8) -> bool
        ensures { result ≡ test_row_declared cards self }
    {
        match self {
            Test::Holds { row, .. } => holds(u16::from(cards), row),
            _ => true,
        }
    }
}
