// What is to be said of a certificate and bans, on a register as it stands.
ghost use Rattle.std.specs.Prelude.{MatchOption};
ghost use Rattle.model.specs.Answers.{answer};
ghost use Rattle.certificates.specs.Views.{bans_of, certificate_of};
ghost use Rattle.register.specs.Views.{kept_by, state_of};
ghost use Rattle.checker.specs.Flaws.{IsFlaw};
ghost use Rattle.checker.specs.Judgements.{Accepts, Judged};

use crate::closed::first_unclosed;
use crate::contained::first_stray;
use crate::flaw::Flaw;
use crate::met::first_met;
use certificates::bans::Bans;
use certificates::certificate::Certificate;
use model::fault::Fault;
use model::scales::Scales;
use register::register::Register;
use rulings::ruling::Ruling;
use stores::store::CellStore;

// The first flaw, in the order of the rules, and none where the certificate is accepted.
pub fn find_flaw<S: Scales, C: CellStore, R: Ruling>(
    register: &Register<S, C, R>,
    certificate: &Certificate,
    bans: &Bans,
) -> Option<Flaw>
    ensures { MatchOption result (Accepts (kept_by register.now) (state_of register.now).protection (certificate_of certificate.now) (bans_of bans.now)) (IsFlaw (kept_by register.now) (state_of register.now).protection (certificate_of certificate.now) (bans_of bans.now)) }
{
    if let Some(stray) = first_stray(register, certificate) {
        return Some(Flaw::NotContained(stray));
    }
    if let Some((command, escape)) = first_unclosed(register, certificate) {
        return Some(Flaw::NotClosed { command, escape });
    }
    if let Some((ban, row, column)) = first_met(bans, certificate) {
        return Some(Flaw::BanMet { ban, row, column });
    }
    None
}

// The refusal that the flaw is, or done where there is none.
pub(crate) fn judge<S: Scales, C: CellStore, R: Ruling>(
    register: &Register<S, C, R>,
    certificate: &Certificate,
    bans: &Bans,
) -> Result<(), Fault>
    ensures { Judged (kept_by register.now) (state_of register.now).protection (certificate_of certificate.now) (bans_of bans.now) (answer (λ done. done) result) }
{
    match find_flaw(register, certificate, bans) {
        Some(flaw) => Err(flaw.fault()),
        None => Ok(()),
    }
}
