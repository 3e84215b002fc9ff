// A casting, and the condition that it fails.
ghost use Rattle.std.specs.Prelude.{Some};
ghost use Rattle.flaw_words.specs.Words.{cast_words, escape_words};

use crate::breach::BreachWords;
use castings::escape::Escape;
use model::stamp::Stamp;
use scheme::test::Parameter;
use std::fmt;
use words::InWords;

// A parameter, after a comma, and what it is cast as. Of one that is not cast nothing is said.
#[derive(Clone, Copy)]
struct CastWords {
    i: Parameter,
    stamp: Option<Stamp>,
}

impl fmt::Display for CastWords {
    ghost output = { λ c. Some (cast_words c.i c.stamp) };

    fn fmt<W: fmt::Write>(&self, f: &mut fmt::Formatter<W>) -> fmt::Result {
        let i = self.i;
        match self.stamp {
            None => Ok(()),
            Some(stamp) => write!(f, ", parameter {i} as {}", InWords(stamp)),
        }
    }
}

#[derive(Clone, Copy)]
pub struct EscapeWords(pub Escape);

impl fmt::Display for EscapeWords {
    ghost output = { λ e. Some (escape_words e.0) };

    fn fmt<W: fmt::Write>(&self, f: &mut fmt::Formatter<W>) -> fmt::Result {
        let [s0, s1, s2] = self.0.stamps;
        let first = CastWords { i: 0, stamp: s0 };
        let second = CastWords { i: 1, stamp: s1 };
        let third = CastWords { i: 2, stamp: s2 };
        let breach = BreachWords(self.0.breach);
        write!(f, "{first}{second}{third}: {breach}")
    }
}
