// What a certificate is refused for, with a witness.
ghost use Rattle.std.specs.Prelude.{◌≡◌};
ghost use Rattle.model.specs.Faults.{layer_number, reason_number};
ghost use Rattle.checker.specs.Containing.{stray_name};
ghost use Rattle.checker.specs.Flaws.{flaw_number, flaw_place};

use castings::escape::Escape;
use model::fault::{Fault, Layer, Reason};
use model::mask::Right;
use model::name::Name;
use model::stamp::Stamp;

// Why a name is at fault.
#[derive(Clone, Copy, Debug, PartialEq, Eq)]
pub enum Stray {
    // The stamp of its entry is not listed.
    Unlisted(Name),
    // A cell of its row holds a right that is not allowed.
    Cell {
        row: Name,
        column: Name,
        right: Right,
    },
}

#[derive(Clone, Copy, Debug, PartialEq, Eq)]
pub enum Flaw {
    // A name is at fault, and the register not contained.
    NotContained(Stray),
    // The command of this number has a casting that escapes.
    NotClosed { command: u8, escape: Escape },
    // The ban of this number is met by two stamps.
    BanMet { ban: u8, row: Stamp, column: Stamp },
}

impl Stray {
    // The name that is at fault.
    pub fn name(&self) -> Name
        ensures { result ≡ stray_name self.now }
    {
        match *self {
            Stray::Unlisted(name) => name,
            Stray::Cell { row, .. } => row,
        }
    }
}

impl Flaw {
    // The rule that is broken.
    fn reason(&self) -> Reason
        ensures { reason_number result ≡ flaw_number self.now }
    {
        match self {
            Flaw::NotContained(_) => Reason::NotContained,
            Flaw::NotClosed { .. } => Reason::NotClosed,
            Flaw::BanMet { .. } => Reason::BanMet,
        }
    }

    // The name, the command or the ban.
    fn place(&self) -> u8
        ensures { result ≡ flaw_place self.now }
    {
        match self {
            Flaw::NotContained(stray) => stray.name(),
            Flaw::NotClosed { command, .. } => *command,
            Flaw::BanMet { ban, .. } => *ban,
        }
    }

    // The refusal that it is.
    pub fn fault(&self) -> Fault
        ensures layer { layer_number result.layer ≡ 6 }
        ensures rule { reason_number result.reason ≡ flaw_number self.now }
        ensures place { result.place ≡ flaw_place self.now }
    {
        Fault {
            layer: Layer::Checker,
            reason: self.reason(),
            place: u16::from(self.place()),
        }
    }
}
