// Whether a certificate meets one of a list of bans.
ghost use Rattle.std.specs.Prelude.{MatchOption};
ghost use Rattle.certificates.specs.Views.{bans_of, certificate_of};
ghost use Rattle.checker.specs.Flaws.{IsLowestMet};
ghost use Rattle.checker.specs.Judgements.{MeetsNone};

use certificates::bans::Bans;
use certificates::certificate::Certificate;
use certificates::meeting::meeting;
use model::stamp::Stamp;

// The lowest ban that is met, and two stamps that meet it; none where none is met. There are sixteen bans at most, so the cast
// keeps the number.
pub fn first_met(bans: &Bans, certificate: &Certificate) -> Option<(u8, Stamp, Stamp)>
    ensures { MatchOption result (MeetsNone (certificate_of certificate.now) (bans_of bans.now)) (λ found. IsLowestMet (certificate_of certificate.now) (bans_of bans.now) found.0 found.1 found.2) }
{
    for (number, ban) in bans.bans().iter().enumerate() {
        if let Some((row, column)) = meeting(certificate, ban) {
            return Some((number as u8, row, column));
        }
    }
    None
}
