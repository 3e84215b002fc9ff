// What a refused certificate is answered.
ghost use Rattle.std.specs.Prelude.{◌≡◌};
ghost use Rattle.register.specs.Views.{kept_by, state_of};
ghost use Rattle.kiosk.specs.Checking.{Shows, stray_entry};

use crate::answer::Refusal;
use checker::check::witness;
use checker::flaw::{Flaw, Stray};
use model::fault::Fault;
use model::stamp::Stamp;
use setups::making::KioskRegister;

// What stands under a name whose stamp is not listed.
fn stray_entry(register: &KioskRegister<'_>, flaw: &Flaw) -> Option<Stamp>
    ensures { result ≡ stray_entry (state_of register.now).protection flaw.now }
{
    match flaw {
        Flaw::NotContained(Stray::Unlisted(name)) => register.entry(*name),
        _ => None,
    }
}

// The fault with what shows it, if the two tapes were read.
pub(crate) fn show_fault(
    register: &KioskRegister<'_>,
    certificate: &[u8],
    bans: &[u8],
    fault: Fault,
) -> Refusal
    ensures { Shows (kept_by register.now) (state_of register.now) certificate.now bans.now fault result }
{
    match witness(register, certificate, bans) {
        None => Refusal::Fault(fault),
        Some(flaw) => {
            let entry = stray_entry(register, &flaw);
            Refusal::Flawed { fault, flaw, entry }
        }
    }
}
