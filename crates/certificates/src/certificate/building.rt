// Writing a certificate, one stamp or mask after the other.
ghost use Rattle.std.specs.Prelude.{◌≡◌, not, ◌&&◌, [], ◌∷◌, length, nat_lt, nat_le, slice_get, bit_or};
ghost use Rattle.model.specs.Answers.{refused_by, lowest, unless};
ghost use Rattle.model.specs.Stamps.{is_subject};
ghost use Rattle.certificates.specs.Certificates.{no_stamps, with_stamp, with_mask, lists};
ghost use Rattle.certificates.specs.Views.{certificate_of};

use crate::certificate::places::place_of;
use crate::certificate::{Certificate, PAIRS, STAMPS};
use model::bounded::Bounded;
use model::fault::Reason;
use model::kind::Kind;
use model::mask::{Mask, joined};
use model::stamp::Stamp;

impl Certificate {
    // No stamp is listed, and nothing is allowed.
    pub fn empty() -> Certificate
        ensures { certificate_of result ≡ no_stamps }
    {
        let free = Stamp {
            kind: Kind::Object,
            attributes: [None; 4],
        };
        Certificate {
            stamps: Bounded::empty(free),
            masks: [0; PAIRS],
        }
    }

    // One stamp more, with the next number; or a refusal and no change where there are 32, or this one is listed already.
    pub fn list(&mut self, stamp: Stamp) -> Result<(), Reason>
        ensures answer { refused_by result ≡ lowest ((4, nat_le 32 (length (certificate_of self.old).stamps)) ∷ (7, lists (certificate_of self.old) stamp) ∷ []) }
        ensures after { certificate_of self.new ≡ unless (refused_by result) (certificate_of self.old) (with_stamp (certificate_of self.old) stamp) }
    {
        if self.stamps.len() < STAMPS && self.lists(&stamp) {
            return Err(Reason::UnfitReference);
        }
        self.stamps.push(stamp).map_err(|_| Reason::TooMany)
    }

    // Adds a mask to that of two numbers; or a refusal and no change where a number is over 31 or no stamp's, or the row is no
    // card's.
    pub fn allow(&mut self, u: usize, v: usize, mask: Mask) -> Result<(), Reason>
        ensures answer { refused_by result ≡ lowest ((5, not (nat_lt u 32 && nat_lt v 32)) ∷ (7, not (is_subject (slice_get (certificate_of self.old).stamps u) && nat_lt v (length (certificate_of self.old).stamps))) ∷ []) }
        ensures after { certificate_of self.new ≡ unless (refused_by result) (certificate_of self.old) (with_mask (certificate_of self.old) u v (bit_or ((certificate_of self.old).masks u v) mask)) }
    {
        let place = place_of(u, v).ok_or(Reason::OutOfRange)?;
        if !self.is_subject(u) || v >= self.stamps.len() {
            return Err(Reason::UnfitReference);
        }
        self.masks[place] = joined(self.masks[place], mask);
        Ok(())
    }
}
