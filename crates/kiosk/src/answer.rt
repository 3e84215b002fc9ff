// What a line is answered.
ghost use Rattle.std.specs.Prelude.{◌≡◌};
ghost use Rattle.kiosk.specs.declared.answer.Refusal.{Refusal};

use checker::flaw::Flaw;
use model::fault::Fault;
use model::mask::Mask;
use model::stamp::{Attribute, Stamp};
use setups::setup::StoreChoice;

// What the session keeps is not copied: a listing, a state and a table are named, and printed from the session.
#[derive(Drop)]
pub enum Reply {
    // The scheme is accepted; so many commands it has.
    Accepted(usize),
    Listing,
    StoreChosen(StoreChoice),
    FilterChosen { attribute: Attribute, mask: Mask },
    Opened,
    // The request is done; so many have been accepted since the opening.
    Done(u32),
    // Whether the ruling allows the right.
    Ruled(bool),
    State,
    // The certificate is accepted.
    Checked,
    // A certificate is made; this is its tape.
    Handed(Vec<u8>),
    Table,
}

#[derive(Clone, Copy)]
pub enum Refusal {
    Fault(Fault),
    // A certificate is refused for a flaw. Beside a name whose stamp is not listed stands its entry.
    Flawed {
        fault: Fault,
        flaw: Flaw,
        entry: Option<Stamp>,
    },
    // What is asked for takes a register, and no scheme was accepted yet.
    NoRegister,
    // A table takes a certificate, and none was made or accepted yet.
    NoCertificate,
    BadLine,
}

pub type Answer = Result<Reply, Refusal>;

impl From<Fault> for Refusal {
    ghost from_gives = { λ fault r. r ≡ Refusal.Fault fault };

    fn from(cause: Fault) -> Refusal {
        Refusal::Fault(cause)
    }
}
