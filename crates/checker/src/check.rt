// The check of a certificate against bans, on a register as it stands.
ghost use Rattle.std.specs.Prelude.{MatchResult};
ghost use Rattle.model.specs.Answers.{answer};
ghost use Rattle.model.specs.Faults.{layer_number, reason_number};
ghost use Rattle.certificates.specs.Views.{bans_of, certificate_of};
ghost use Rattle.register.specs.Views.{kept_by, state_of};
ghost use Rattle.checker.specs.Checks.{BothRead, NotBothRead, Checked, AcceptedExactly, OneCheck, Witnessed, ShowsRefusal};
ghost use Rattle.checker.specs.Safety.{KeepsInside};
ghost use Rattle.checker.specs.Worked.{WorkedChecks};

use crate::flaw::Flaw;
use crate::judgement::{find_flaw, judge};
use certificates::ban_reader::read_bans;
use certificates::bans::Bans;
use certificates::certificate::Certificate;
use certificates::reader::read_certificate;
use model::fault::Fault;
use model::scales::Scales;
use register::register::Register;
use rulings::ruling::Ruling;
use stores::store::CellStore;

// Reads the two tapes, that of the certificate first.
fn read_both<S: Scales>(certificate: &[u8], bans: &[u8]) -> Result<(Certificate, Bans), Fault>
    ensures { MatchResult result (λ both. BothRead S.Scales.counts certificate.now bans.now (certificate_of both.0) (bans_of both.1)) (λ fault. NotBothRead S.Scales.counts certificate.now bans.now (layer_number fault.layer) (reason_number fault.reason) fault.place) }
{
    let counts = S::counts();
    let certificate = read_certificate(&counts, certificate)?;
    let bans = read_bans(&counts, bans)?;
    Ok((certificate, bans))
}

// Reads the two tapes, and judges what they say.
fn answer_by<S: Scales, C: CellStore, R: Ruling>(
    register: &Register<S, C, R>,
    certificate: &[u8],
    bans: &[u8],
) -> Result<(), Fault>
    ensures { Checked (kept_by register.now) (state_of register.now) certificate.now bans.now (answer (λ done. done) result) }
{
    let (certificate, bans) = read_both::<S>(certificate, bans)?;
    judge(register, &certificate, &bans)
}

// Whether the certificate contains the register, is closed under every command and meets none of the bans: then it contains the
// register for good, whatever is asked for, until the register is opened anew. The register is as it was, whatever the answer.
pub fn check<S: Scales, C: CellStore, R: Ruling>(
    register: &Register<S, C, R>,
    certificate: &[u8],
    bans: &[u8],
) -> Result<(), Fault>
    ensures check { Checked (kept_by register.now) (state_of register.now) certificate.now bans.now (answer (λ done. done) result) }
    ensures exact { AcceptedExactly (kept_by register.now) (state_of register.now) certificate.now bans.now (answer (λ done. done) result) }
    ensures one { OneCheck (kept_by register.now) }
    ensures law { KeepsInside (kept_by register.now) }
    ensures worked { WorkedChecks }
{
    answer_by(register, certificate, bans)
}

// For a person, after a check that the checker itself refused: the flaw that it was refused for. There is none where the check is
// accepted, or refused for a tape.
pub fn witness<S: Scales, C: CellStore, R: Ruling>(
    register: &Register<S, C, R>,
    certificate: &[u8],
    bans: &[u8],
) -> Option<Flaw>
    ensures shows { Witnessed (kept_by register.now) (state_of register.now) certificate.now bans.now result }
    ensures refusal { ShowsRefusal (kept_by register.now) (state_of register.now) certificate.now bans.now result }
{
    match read_both::<S>(certificate, bans) {
        Ok((certificate, bans)) => find_flaw(register, &certificate, &bans),
        Err(_) => None,
    }
}
