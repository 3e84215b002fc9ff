// Whether a certificate is closed under the commands of a register, one after the other.
ghost use Rattle.std.specs.Prelude.{MatchOption};
ghost use Rattle.certificates.specs.Views.{certificate_of};
ghost use Rattle.register.specs.Views.{kept_by};
ghost use Rattle.checker.specs.Flaws.{IsLowestEscape};
ghost use Rattle.checker.specs.Judgements.{ClosedUnderAll};

use castings::closure::first_escape;
use castings::escape::Escape;
use certificates::certificate::Certificate;
use model::scales::Scales;
use register::register::Register;
use rulings::ruling::Ruling;
use stores::store::CellStore;

// The lowest command with a casting that escapes, and such a casting; none where the certificate is closed under all. There are
// sixteen commands at most, so the cast keeps the number.
pub fn first_unclosed<S: Scales, C: CellStore, R: Ruling>(
    register: &Register<S, C, R>,
    certificate: &Certificate,
) -> Option<(u8, Escape)>
    ensures { MatchOption result (ClosedUnderAll (kept_by register.now) (certificate_of certificate.now)) (λ found. IsLowestEscape (kept_by register.now) (certificate_of certificate.now) found.0 found.1) }
{
    for (number, command) in register.commands().iter().enumerate() {
        if let Some(escape) = first_escape::<S>(certificate, command) {
            return Some((number as u8, escape));
        }
    }
    None
}
