// Whether a certificate meets a ban, and by which two of the stamps that it lists.
ghost use Rattle.std.specs.Prelude.{◌≡◌, true, MatchOption};
ghost use Rattle.certificates.specs.Bans.{is_of, fits, met_by, UnmetOn, MetBy, Meets};
ghost use Rattle.certificates.specs.Certificates.{lists};
ghost use Rattle.certificates.specs.Views.{certificate_of};

use crate::ban::{Ban, Sort};
use crate::certificate::Certificate;
use model::kind::Kind;
use model::mask::holds;
use model::stamp::Stamp;

impl Sort {
    // Whether the stamp is of this sort.
    pub fn is_of(&self, stamp: &Stamp) -> bool
        ensures { result ≡ is_of self.now stamp.now }
    {
        stamp.attribute(self.attribute) == self.value
    }
}

impl Ban {
    // Whether the first stamp is a card's of the sort of the row, and the second of the sort of the column.
    pub fn fits(&self, u: &Stamp, v: &Stamp) -> bool
        ensures { result ≡ fits self.now u.now v.now }
    {
        u.kind == Kind::Subject && self.row.is_of(u) && self.column.is_of(v)
    }
}

// Whether the two stamps fit the ban, and the right is allowed.
fn is_met_by(certificate: &Certificate, ban: &Ban, u: &Stamp, v: &Stamp) -> bool
    ensures { result ≡ met_by (certificate_of certificate.now) ban.now u.now v.now }
{
    ban.fits(u, v) && holds(certificate.allows(u, v), ban.right)
}

// A listed stamp by which, as the column, the certificate meets the ban, where the row is this stamp, if there is one.
fn column_met(certificate: &Certificate, ban: &Ban, u: &Stamp) -> Option<Stamp>
    ensures { MatchOption result (UnmetOn (certificate_of certificate.now) ban.now u.now) (λ v. (lists (certificate_of certificate.now) v ≡ true) × (met_by (certificate_of certificate.now) ban.now u.now v ≡ true)) }
{
    for v in certificate.stamps() {
        if is_met_by(certificate, ban, u, v) {
            return Some(*v);
        }
    }
    None
}

// Two listed stamps by which the certificate meets the ban, and none where it does not. They may be the same.
pub fn meeting(certificate: &Certificate, ban: &Ban) -> Option<(Stamp, Stamp)>
    ensures { MatchOption result (Meets (certificate_of certificate.now) ban.now → ⊥) (λ pair. MetBy (certificate_of certificate.now) ban.now pair.0 pair.1) }
{
    for u in certificate.stamps() {
        if let Some(v) = column_met(certificate, ban, u) {
            return Some((*u, v));
        }
    }
    None
}
