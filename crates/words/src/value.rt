// A value of an attribute, or null.
ghost use Rattle.std.specs.Prelude.{◌≡◌, Some};
ghost use Rattle.words.specs.Words.{value_words, value_set};

use crate::InWords;
use model::stamp::Value;
use std::fmt;

impl fmt::Display for InWords<Option<Value>> {
    ghost output = { λ x. Some (value_words x.0) };

    fn fmt<W: fmt::Write>(&self, f: &mut fmt::Formatter<W>) -> fmt::Result {
        match self.0 {
            None => write!(f, "null"),
            Some(value) => write!(f, "{value}"),
        }
    }
}

// What a step sets, as it is shown: 255 is a value of no scale, and stands for null.
pub(crate) fn value_set(value: Value) -> Option<Value>
    ensures { result ≡ value_set value }
{
    (value != u8::MAX).then_some(value)
}
