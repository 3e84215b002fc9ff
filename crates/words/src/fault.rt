// Why a call is refused: layer, number and place, and the rule as a sentence.
ghost use Rattle.std.specs.Prelude.{◌≡◌, Some};
ghost use Rattle.words.specs.Sentences.{fault_words, reason_words};

use crate::InWords;
use model::fault::{Fault, Reason};
use std::fmt;

impl fmt::Display for InWords<Fault> {
    ghost output = { λ x. Some (fault_words x.0) };

    fn fmt<W: fmt::Write>(&self, f: &mut fmt::Formatter<W>) -> fmt::Result {
        let layer = u8::from(self.0.layer);
        let number = u8::from(self.0.reason);
        let place = self.0.place;
        let words = rule_words(self.0.reason);
        write!(f, "fault {layer} {number} {place} -- {words}")
    }
}

// The rule that was broken. It is no `Display`: it is public, and a text that stands there already can't fail.
pub fn rule_words(reason: Reason) -> &'static str
    ensures { result.now ≡ reason_words reason }
{
    match reason {
        Reason::TapeTooLong => "the tape is longer than 65535 bytes",
        Reason::NoOrder => "no order of this tape stands here, or its operands are cut off",
        Reason::OutOfPlace =>
            "the order stands out of its place, or the tape ends inside a command",
        Reason::TooMany => "one more than there may be",
        Reason::OutOfRange => "an operand is out of its range",
        Reason::ParameterRule => "a rule on rows, or on created or destroyed parameters, is broken",
        Reason::UnfitReference =>
            "the name or stamp is there already, or one that is needed is missing or is no card",
        Reason::OpeningTooLarge => "the opening passes the store's limit",
        Reason::NoSuchCommand => "there is no such command",
        Reason::WrongNumberOfNames => "the command takes another number of names",
        Reason::NoSuchName => "a name is over 63",
        Reason::RepeatedName => "a name is given twice",
        Reason::WrongPresence => "a name to be created stands already, or another does not stand",
        Reason::NotASubject => "a declared card is a thing",
        Reason::TestFails => "a test fails",
        Reason::StoreTooSmall => "the store's limit would be passed",
        Reason::NotContained => "the register is not contained",
        Reason::NotClosed => "a command is not closed",
        Reason::BanMet => "a ban is met",
        Reason::BufferTooSmall => "the buffer is under 5312 bytes",
        Reason::NoCertificate => "no certificate would be accepted",
        Reason::BoardSize => "a board's memory is not 4096 masks",
        Reason::ListSize => "a list's memory is not 1 to 4096 records",
        Reason::NoSuchAttribute => "there is no such attribute",
    }
}
