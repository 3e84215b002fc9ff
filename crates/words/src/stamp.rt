// A stamp in words: its kind, and then its four attributes.
ghost use Rattle.std.specs.Prelude.{Some};
ghost use Rattle.words.specs.Stamps.{attribute_word, attribute_words, stamp_words};

use crate::InWords;
use model::stamp::{PerAttribute, Stamp, Value};
use std::fmt;

// A value in decimal, and null as `FF`.
#[derive(Clone, Copy)]
struct AttributeWord(Option<Value>);

impl fmt::Display for AttributeWord {
    ghost output = { λ a. Some (attribute_word a.0) };

    fn fmt<W: fmt::Write>(&self, f: &mut fmt::Formatter<W>) -> fmt::Result {
        match self.0 {
            None => write!(f, "FF"),
            Some(value) => write!(f, "{value}"),
        }
    }
}

#[derive(Clone, Copy)]
struct AttributeWords(PerAttribute<Option<Value>>);

impl fmt::Display for AttributeWords {
    ghost output = { λ a. Some (attribute_words a.0) };

    fn fmt<W: fmt::Write>(&self, f: &mut fmt::Formatter<W>) -> fmt::Result {
        let [a0, a1, a2, a3] = self.0;
        write!(
            f,
            "{} {} {} {}",
            AttributeWord(a0),
            AttributeWord(a1),
            AttributeWord(a2),
            AttributeWord(a3)
        )
    }
}

impl fmt::Display for InWords<Stamp> {
    ghost output = { λ x. Some (stamp_words x.0) };

    #[tactic(auto, unfolding(crate::specs::Stamps::stamp_words))]
    fn fmt<W: fmt::Write>(&self, f: &mut fmt::Formatter<W>) -> fmt::Result {
        let kind = InWords(self.0.kind);
        let attributes = AttributeWords(self.0.attributes);
        write!(f, "{kind} {attributes}")
    }
}
