// What a step does.
ghost use Rattle.std.specs.Prelude.{Some};
ghost use Rattle.words.specs.Words.{step_words};

use crate::InWords;
use crate::value::value_set;
use scheme::step::Step;
use std::fmt;

impl fmt::Display for InWords<Step> {
    ghost output = { λ x. Some (step_words x.0) };

    fn fmt<W: fmt::Write>(&self, f: &mut fmt::Formatter<W>) -> fmt::Result {
        // Arms of one shape differ in their words.
        match self.0 {
            Step::Enter { right, row, column } => write!(
                f,
                "enter right {right} into [{row}, {column}]"
            ),
            Step::Delete { right, row, column } => write!(
                f,
                "delete right {right} from [{row}, {column}]"
            ),
            Step::Set {
                parameter,
                attribute,
                value,
            } => {
                let value = InWords(value_set(value));
                write!(f, "set attribute {attribute} of {parameter} to {value}")
            }
            Step::Create { parameter } => write!(f, "create {parameter}"),
            Step::Destroy { parameter } => write!(f, "destroy {parameter}"),
        }
    }
}
