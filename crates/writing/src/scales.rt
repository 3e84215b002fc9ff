// Whether a lawful tape can list the stamps of a certificate.
ghost use Rattle.std.specs.Prelude.{◌≡◌, true};
ghost use Rattle.std.specs.Bool.{MatchBool};
ghost use Rattle.model.specs.Counts.{in_scales};
ghost use Rattle.certificates.specs.Views.{certificate_of};
ghost use Rattle.writing.specs.Spelling.{Spelt, AllSpelt};
ghost use Rattle.writing.specs.Writing.{InScales};

use certificates::certificate::Certificate;
use model::counts::Counts;
use model::stamp::Stamp;

// Whether the stamp is in its scales, and so each of its attributes has a byte.
fn is_in_scales(counts: &Counts, stamp: Stamp) -> bool
    ensures answer { result ≡ in_scales counts.now stamp }
    ensures spelt { result ≡ true → Spelt stamp }
{
    // They are read for the proof: each count is a byte, so no scale has a value 255.
    let [_a, _b, _c, _d] = counts.each;
    counts.is_in_scales(&stamp)
}

// Whether each stamp that is listed is.
pub(crate) fn are_in_scales(counts: &Counts, certificate: &Certificate) -> bool
    ensures { MatchBool result (InScales counts.now (certificate_of certificate.now) × AllSpelt (certificate_of certificate.now)) (InScales counts.now (certificate_of certificate.now) → ⊥) }
{
    for stamp in certificate.stamps() {
        if !is_in_scales(counts, *stamp) {
            return false;
        }
    }
    true
}
