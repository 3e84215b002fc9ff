// Which condition a casting fails, and where.
ghost use Rattle.std.specs.Prelude.{Some};
ghost use Rattle.flaw_words.specs.Words.{breach_words};

use castings::escape::Breach;
use std::fmt;
use words::InWords;

#[derive(Clone, Copy)]
pub struct BreachWords(pub Breach);

impl fmt::Display for BreachWords {
    ghost output = { λ b. Some (breach_words b.0) };

    fn fmt<W: fmt::Write>(&self, f: &mut fmt::Formatter<W>) -> fmt::Result {
        match self.0 {
            Breach::Unlisted { parameter } => {
                write!(f, "the new stamp of parameter {parameter} is not listed")
            }
            Breach::Cell { row, column, right } => write!(
                f,
                "right {right} is then in the cell of parameters {row} and {column}, and is not allowed there"
            ),
            Breach::Row {
                parameter,
                other,
                right,
            } => {
                let other = InWords(other);
                write!(
                    f,
                    "parameter {parameter} keeps right {right} on {other}, which its new stamp is not allowed"
                )
            }
            Breach::Column {
                parameter,
                other,
                right,
            } => {
                let other = InWords(other);
                write!(
                    f,
                    "{other} keeps right {right} on parameter {parameter}, which is not allowed on its new stamp"
                )
            }
        }
    }
}
