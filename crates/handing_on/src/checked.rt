// A check that hands on the certificate that it accepts.
ghost use Rattle.std.specs.Prelude.{MatchResult};
ghost use Rattle.model.specs.Answers.{refusal};
ghost use Rattle.certificates.specs.Views.{certificate_of};
ghost use Rattle.register.specs.Views.{kept_by, state_of};
ghost use Rattle.checker.specs.Checks.{Checked};
ghost use Rattle.handing_on.specs.Handing.{Accepted};

use certificates::certificate::Certificate;
use certificates::reader::read_certificate;
use model::fault::Fault;
use model::scales::Scales;
use promise::calls;
use register::register::Register;
use rulings::ruling::Ruling;
use stores::store::CellStore;

// What the certificate tape lists, where the check accepts it; else what the check answers.
pub fn check_certificate<S: Scales, C: CellStore, R: Ruling>(
    register: &Register<S, C, R>,
    certificate: &[u8],
    bans: &[u8],
) -> Result<Certificate, Fault>
    ensures { MatchResult result (λ c. Accepted (kept_by register.now) (state_of register.now) certificate.now bans.now (certificate_of c)) (λ fault. Checked (kept_by register.now) (state_of register.now) certificate.now bans.now (refusal fault)) }
{
    calls::check(register, certificate, bans)?;
    // A tape that is accepted is lawful.
    read_certificate(&S::counts(), certificate)
}
