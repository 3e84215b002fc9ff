// What a test asks.
ghost use Rattle.std.specs.Prelude.{Some};
ghost use Rattle.words.specs.Words.{test_words};

use crate::InWords;
use scheme::test::Test;
use std::fmt;

impl fmt::Display for InWords<Test> {
    ghost output = { λ x. Some (test_words x.0) };

    fn fmt<W: fmt::Write>(&self, f: &mut fmt::Formatter<W>) -> fmt::Result {
        // Arms of one shape differ in their words.
        match self.0 {
            Test::Holds { right, row, column } => write!(
                f,
                "right {right} is in [{row}, {column}]"
            ),
            Test::Is {
                parameter,
                attribute,
                value,
            } => {
                let value = InWords(value);
                write!(f, "attribute {attribute} of {parameter} is {value}")
            }
            Test::IsNot {
                parameter,
                attribute,
                value,
            } => {
                let value = InWords(value);
                write!(f, "attribute {attribute} of {parameter} is not {value}")
            }
            Test::Covers {
                upper,
                attribute,
                lower,
            } => {
                write!(
                    f,
                    "attribute {attribute} of {upper} covers attribute {attribute} of {lower}"
                )
            }
        }
    }
}
