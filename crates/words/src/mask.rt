// A mask as four hex digits, in upper case.
ghost use Rattle.std.specs.Prelude.{Some};
ghost use Rattle.words.specs.Masks.{mask_words};

use model::mask::Mask;
use std::fmt;

// A mask is a plain number in code, so it takes a type of its own to be shown by its digits.
#[derive(Clone, Copy)]
pub struct MaskDigits(pub Mask);

impl fmt::Display for MaskDigits {
    ghost output = { λ m. Some (mask_words m.0) };

    fn fmt<W: fmt::Write>(&self, f: &mut fmt::Formatter<W>) -> fmt::Result {
        let [high, low] = self.0.to_be_bytes();
        write!(f, "{high:02X}{low:02X}")
    }
}
