// Why a certificate is refused, and what shows it.
ghost use Rattle.std.specs.Prelude.{Some};
ghost use Rattle.flaw_words.specs.Words.{flaw_words};

use crate::escape::EscapeWords;
use crate::stray::StrayWords;
use checker::flaw::Flaw;
use model::stamp::Stamp;
use std::fmt;
use words::InWords;

// The entry is that of a name whose stamp is not listed.
#[derive(Clone, Copy)]
pub struct FlawWords {
    pub flaw: Flaw,
    pub entry: Option<Stamp>,
}

impl fmt::Display for FlawWords {
    ghost output = { λ w. Some (flaw_words w.flaw w.entry) };

    fn fmt<W: fmt::Write>(&self, f: &mut fmt::Formatter<W>) -> fmt::Result {
        let entry = self.entry;
        match self.flaw {
            Flaw::NotContained(stray) => write!(f, "{}", StrayWords { stray, entry }),
            Flaw::NotClosed { command, escape } => {
                write!(f, "command {command}{}", EscapeWords(escape))
            }
            Flaw::BanMet { ban, row, column } => {
                write!(f, "ban {ban}, by {} on {}", InWords(row), InWords(column))
            }
        }
    }
}
