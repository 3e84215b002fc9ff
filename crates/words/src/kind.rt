// The kinds as the kiosk calls them.
ghost use Rattle.std.specs.Prelude.{Some};
ghost use Rattle.words.specs.Words.{kind_words};

use crate::InWords;
use model::kind::Kind;
use std::fmt;

impl fmt::Display for InWords<Kind> {
    ghost output = { λ x. Some (kind_words x.0) };

    fn fmt<W: fmt::Write>(&self, f: &mut fmt::Formatter<W>) -> fmt::Result {
        match self.0 {
            Kind::Subject => write!(f, "card"),
            Kind::Object => write!(f, "thing"),
        }
    }
}
