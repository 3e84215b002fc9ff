// What the parameters of a casting that escapes saw.
ghost use Rattle.std.specs.Prelude.{◌≡◌};
ghost use Rattle.protection.specs.Tables.{protection_of};
ghost use Rattle.certificates.specs.Views.{certificate_of};
ghost use Rattle.castings.specs.Castings.{cast_state};
ghost use Rattle.castings.specs.Escapes.{casting_of};

use crate::escape::Escape;
use certificates::certificate::Certificate;
use protection::excerpt::Excerpt;

impl Escape {
    // The stamps that are cast, and between them what the certificate allows.
    pub fn seen(&self, certificate: &Certificate) -> Excerpt
        ensures { protection_of result ≡ cast_state (certificate_of certificate.now) (casting_of self.now) }
    {
        let [a, b, c] = self.stamps;
        let cell = |row, column| certificate.between(row, column);
        Excerpt {
            entries: [a, b, c],
            cells: [
                [cell(a, a), cell(a, b), cell(a, c)],
                [cell(b, a), cell(b, b), cell(b, c)],
                [cell(c, a), cell(c, b), cell(c, c)],
            ],
        }
    }
}
