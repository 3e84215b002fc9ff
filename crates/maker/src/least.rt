// The least certificate of a register as it stands.
ghost use Rattle.std.specs.Prelude.{MatchOption, MatchResult};
ghost use Rattle.certificates.specs.Views.{certificate_of};
ghost use Rattle.register.specs.Views.{kept_by, state_of};
ghost use Rattle.maker.specs.Least.{Least, TooMany};

use crate::closing::close;
use crate::containing::containing;
use crate::need::Overfull;
use certificates::certificate::Certificate;
use model::scales::Scales;
use register::register::Register;
use rulings::ruling::Ruling;
use stores::store::CellStore;

// The least certificate that contains the register and is closed under its commands; none where it would list more than 32 stamps.
pub fn least_certificate<S: Scales, C: CellStore, R: Ruling>(
    register: &Register<S, C, R>,
) -> Option<Certificate>
    ensures { MatchOption result (TooMany (kept_by register.now) (state_of register.now).protection) (λ c. Least (kept_by register.now) (state_of register.now).protection (certificate_of c)) }
{
    closed_table(register).ok()
}

// It starts as the least that contains the register, and grows until it is closed.
fn closed_table<S: Scales, C: CellStore, R: Ruling>(
    register: &Register<S, C, R>,
) -> Result<Certificate, Overfull>
    ensures { MatchResult result (λ c. Least (kept_by register.now) (state_of register.now).protection (certificate_of c)) (λ _. TooMany (kept_by register.now) (state_of register.now).protection) }
{
    let mut table = containing(register)?;
    close::<S>(&mut table, register.commands())?;
    Ok(table)
}
