// A tape in hex digits, after how many bytes it has.
ghost use Rattle.std.specs.Prelude.{Some};
ghost use Rattle.table_words.specs.Tapes.{byte_words, digits_of, tape_words};

use std::fmt;

// A byte as two hex digits, in upper case.
#[derive(Clone, Copy)]
struct ByteWords(u8);

impl fmt::Display for ByteWords {
    ghost output = { λ b. Some (byte_words b.0) };

    fn fmt<W: fmt::Write>(&self, f: &mut fmt::Formatter<W>) -> fmt::Result {
        let byte = self.0;
        write!(f, "{byte:02X}")
    }
}

#[derive(Drop)]
struct Digits<'a>(&'a [u8]);

impl fmt::Display for Digits<'_> {
    ghost output = { λ d. Some (digits_of d.0.now) };

    fn fmt<W: fmt::Write>(&self, f: &mut fmt::Formatter<W>) -> fmt::Result {
        for byte in self.0 {
            write!(f, "{}", ByteWords(*byte))?;
        }
        Ok(())
    }
}

// Of a tape without bytes only the length is said.
#[derive(Drop)]
pub struct TapeWords<'a>(pub &'a [u8]);

impl fmt::Display for TapeWords<'_> {
    ghost output = { λ t. Some (tape_words t.0.now) };

    fn fmt<W: fmt::Write>(&self, f: &mut fmt::Formatter<W>) -> fmt::Result {
        let length = self.0.len();
        if length == 0 {
            write!(f, "0")
        } else {
            write!(f, "{length} {}", Digits(self.0))
        }
    }
}
