// A certificate: which stamps are listed, and what each is allowed on each.
ghost use Rattle.model.specs.Bounded.{listed};
ghost use Rattle.certificates.specs.Certificates.{Apart, OnlyListed};
ghost use Rattle.certificates.specs.Places.{masks_of};

use model::bounded::Bounded;
use model::mask::Mask;
use model::stamp::Stamp;

mod building;
mod lookups;
mod places;

// How many stamps a certificate lists at most.
pub const STAMPS: usize = 32;

// How many pairs of numbers there are.
pub(crate) const PAIRS: usize = STAMPS * STAMPS;

// The mask of two numbers lies at place 32 u + v.
#[derive(Clone, Copy)]
pub struct Certificate {
    stamps: Bounded<Stamp, STAMPS>,
    masks: [Mask; PAIRS],
    ghost apart: { Apart (listed stamps) },
    ghost only_listed: { OnlyListed (listed stamps) (masks_of masks) },
}
