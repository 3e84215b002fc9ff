// A name that is at fault, and what shows it.
ghost use Rattle.std.specs.Prelude.{Some};
ghost use Rattle.flaw_words.specs.Words.{stray_words};

use checker::flaw::Stray;
use model::stamp::Stamp;
use std::fmt;
use words::InWords;

// Beside a name whose stamp is not listed its entry is said, if it is known.
#[derive(Clone, Copy)]
pub struct StrayWords {
    pub stray: Stray,
    pub entry: Option<Stamp>,
}

impl fmt::Display for StrayWords {
    ghost output = { λ s. Some (stray_words s.stray s.entry) };

    fn fmt<W: fmt::Write>(&self, f: &mut fmt::Formatter<W>) -> fmt::Result {
        match (self.stray, self.entry) {
            (Stray::Unlisted(name), None) => write!(f, "the stamp of entry {name} is not listed"),
            (Stray::Unlisted(name), Some(stamp)) => {
                let stamp = InWords(stamp);
                write!(f, "the stamp of entry {name}, {stamp}, is not listed")
            }
            (Stray::Cell { row, column, right }, _) => write!(
                f,
                "right {right} is in [{row}, {column}], and is not allowed there"
            ),
        }
    }
}
