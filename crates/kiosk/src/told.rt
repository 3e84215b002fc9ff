// What is printed for an answer.
ghost use Rattle.std.specs.Prelude.{Some};
ghost use Rattle.kiosk.specs.Answers.{reply_words, refusal_words};
ghost use Rattle.kiosk.specs.Sessions.{kiosk_of};

use crate::answer::{Refusal, Reply};
use crate::desk::Desk;
use crate::kept::Session;
use crate::state::StateLines;
use flaw_words::flaw::FlawWords;
use std::fmt;
use table_words::table::TableWords;
use table_words::tape::TapeWords;
use words::InWords;
use words::listing::Listings;
use words::mask::MaskDigits;

// A reply beside the session that gives it. It is printed without the last line break. What follows ` -- ` is for people.
#[derive(Drop)]
pub struct Told<'s, 'a> {
    pub session: &'s Session<'a>,
    pub reply: Reply,
}

impl fmt::Display for Told<'_, '_> {
    ghost output = { λ t. Some (reply_words (kiosk_of t.session.now) t.reply) };

    fn fmt<W: fmt::Write>(&self, f: &mut fmt::Formatter<W>) -> fmt::Result {
        let desk = &self.session.desk;
        match &self.reply {
            Reply::Accepted(count) => write!(f, "ok -- the scheme is accepted; commands: {count}"),
            Reply::Listing => match desk {
                Some(Desk::Made(register, setup)) => {
                    let commands = Listings(register.commands());
                    write!(f, "{commands}{setup}end")
                }
                _ => write!(f, "{}", Refusal::NoRegister),
            },
            Reply::StoreChosen(choice) => write!(
                f,
                "ok -- the next register keeps its cells {choice}"
            ),
            Reply::FilterChosen { attribute, mask } => write!(
                f,
                "ok -- the next register filters by attribute {attribute}; rights: {}",
                MaskDigits(*mask)
            ),
            Reply::Opened => write!(f, "ok -- the register is open"),
            Reply::Done(count) => write!(f, "ok {count}"),
            Reply::Ruled(true) => write!(f, "ok yes"),
            Reply::Ruled(false) => write!(f, "ok no"),
            Reply::State => match desk {
                Some(Desk::Made(register, _)) => write!(f, "{}", StateLines(register)),
                _ => write!(f, "{}", Refusal::NoRegister),
            },
            Reply::Checked => write!(
                f,
                "ok -- the certificate is accepted: it holds after every request"
            ),
            Reply::Handed(tape) => write!(f, "ok {}", TapeWords(tape.as_slice())),
            Reply::Table => match &self.session.certificate {
                None => write!(f, "{}", Refusal::NoCertificate),
                Some(certificate) => write!(f, "{}", TableWords(certificate)),
            },
        }
    }
}

impl fmt::Display for Refusal {
    ghost output = { λ refusal. Some (refusal_words refusal) };

    fn fmt<W: fmt::Write>(&self, f: &mut fmt::Formatter<W>) -> fmt::Result {
        match self {
            Refusal::Fault(fault) => write!(f, "{}", InWords(*fault)),
            Refusal::Flawed { fault, flaw, entry } => {
                let fault = InWords(*fault);
                let flaw = FlawWords {
                    flaw: *flaw,
                    entry: *entry,
                };
                write!(f, "{fault}: {flaw}")
            }
            Refusal::NoRegister => write!(f, "error no register"),
            Refusal::NoCertificate => write!(f, "error no certificate"),
            Refusal::BadLine => write!(f, "error bad line"),
        }
    }
}
