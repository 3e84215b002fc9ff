// What shows that a certificate is not closed under a command.

use model::mask::Right;
use model::stamp::Stamp;
use protection::excerpt::PARAMETERS;
use scheme::test::Parameter;

// Which condition fails, and where.
#[derive(Clone, Copy, Debug, PartialEq, Eq)]
pub enum Breach {
    // The parameter's new stamp is not listed.
    Unlisted {
        parameter: Parameter,
    },
    // The cell holds a right that is not allowed between the new stamps.
    Cell {
        row: Parameter,
        column: Parameter,
        right: Right,
    },
    // The parameter's new stamp is not allowed a right on another stamp that its old one is allowed.
    Row {
        parameter: Parameter,
        other: Stamp,
        right: Right,
    },
    // Another stamp is not allowed a right on the parameter's new stamp that it is allowed on its old one.
    Column {
        parameter: Parameter,
        other: Stamp,
        right: Right,
    },
}

// The stamps that are cast, none for a parameter that is created, and the condition that fails.
#[derive(Clone, Copy, Debug, PartialEq, Eq)]
pub struct Escape {
    pub stamps: [Option<Stamp>; PARAMETERS],
    pub breach: Breach,
}
