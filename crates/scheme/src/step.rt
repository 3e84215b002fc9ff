// A step changes the state; the steps of a command run in order.
ghost use Rattle.std.specs.Prelude.{◌≡◌, Bool, ◌&&◌};
ghost use Rattle.scheme.specs.Steps.{names_in_step, creates_in_step, destroys_in_step, step_shaped, step_valued, step_row_declared};

use crate::test::Parameter;
use model::counts::Counts;
use model::mask::{RIGHTS, Right, holds};
use model::stamp::{ATTRIBUTES, Attribute, Value};

// As in a test, the fields are named in each variant, which reads plainer than a struct of them.
#[derive(Clone, Copy, Debug, PartialEq, Eq)]
pub enum Step {
    // Put the right into the cell [row, column].
    Enter {
        right: Right,
        row: Parameter,
        column: Parameter,
    },
    // Take the right out of the cell [row, column].
    Delete {
        right: Right,
        row: Parameter,
        column: Parameter,
    },
    // Make the parameter's attribute the value, which is not null.
    Set {
        parameter: Parameter,
        attribute: Attribute,
        value: Value,
    },
    // Make the entry, all null, with no rights.
    Create {
        parameter: Parameter,
    },
    // End the entry and all rights to it and of it.
    Destroy {
        parameter: Parameter,
    },
}

impl Step {
    pub fn names(self, i: Parameter) -> bool
        ensures { result ≡ names_in_step i self }
    {
        match self {
            Step::Enter { row, column, .. } | Step::Delete { row, column, .. } => {
                i == row || i == column
            }
            Step::Set { parameter, .. }
            | Step::Create { parameter }
            | Step::Destroy { parameter } => i == parameter,
        }
    }

    // It differs from `destroys` in a variant, and a variant can't be a parameter.
    pub fn creates(self, i: Parameter) -> bool
        ensures { result ≡ creates_in_step i self }
    {
        matches!(self, Step::Create { parameter } if i == parameter)
    }

    pub fn destroys(self, i: Parameter) -> bool
        ensures { result ≡ destroys_in_step i self }
    {
        matches!(self, Step::Destroy { parameter } if i == parameter)
    }

    // Whether parameters, right and attribute are in range; a value is `is_valued`'s matter.
    fn is_shaped(self, params: u8) -> bool
        ensures { result ≡ step_shaped params self }
    {
        match self {
            Step::Enter { right, row, column } | Step::Delete { right, row, column } => {
                right < RIGHTS && row < params && column < params
            }
            Step::Set {
                parameter,
                attribute,
                ..
            } => parameter < params && attribute < ATTRIBUTES,
            Step::Create { parameter } | Step::Destroy { parameter } => parameter < params,
        }
    }

    // Whether a value that is set is in its scale.
    fn is_valued(self, counts: &Counts) -> bool
        ensures { result ≡ step_valued counts.now self }
    {
        match self {
            Step::Set {
                attribute,
                value,
                ..
            } => counts.is_value(attribute, value),
            _ => true,
        }
    }

    // `Test` has the same line: a trait of both would need two methods and two ghost members, and be longer than the twins.
    pub fn is_in_range(self, params: u8, counts: &Counts) -> bool
        ensures { result ≡ (step_shaped params self && step_valued counts.now self) }
    {
        self.is_shaped(params) && self.is_valued(counts)
    }

    // Whether the row of a cell that is changed is declared a card.
    pub fn is_row_declared(self, cards: u8) -> bool
        ensures { result ≡ step_row_declared cards self }
    {
        match self {
            Step::Enter { row, .. } | Step::Delete { row, .. } => holds(u16::from(cards), row),
            _ => true,
        }
    }
}
