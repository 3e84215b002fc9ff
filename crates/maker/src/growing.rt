// The table grows by what is needed, and by nothing else.
ghost use Rattle.std.specs.Prelude.{◌<◌, ⊤, MatchResult};
ghost use Rattle.certificates.specs.Certificates.{allows};
ghost use Rattle.certificates.specs.Views.{certificate_of};
ghost use Rattle.maker.specs.declared.need.Need.TheVariants.{Stamp as Listing, Rights};
ghost use Rattle.maker.specs.Growing.{Has, Grown, Bursts, room, Met, SameAllowed, Unfit};

use crate::need::{Need, Overfull};
use certificates::certificate::Certificate;
use model::mask::{Mask, is_within};
use model::stamp::Stamp;

// Adds to the table what is needed.
pub(crate) fn meet(table: &mut Certificate, need: Need) -> Result<(), Overfull>
    ensures grown { MatchResult result (λ _. Grown (certificate_of table.old) need (certificate_of table.new)) (λ _. Bursts (certificate_of table.old) need) }
    ensures room { MatchResult result (λ _. (Has (certificate_of table.old) need → ⊥) → room (certificate_of table.new) < room (certificate_of table.old)) (λ _. ⊤) }
{
    match need {
        Need::Stamp(stamp) => list(table, stamp),
        Need::Rights { row, column, mask } => grant(table, row, column, mask),
    }
}

// Lists the stamp, if it is not listed already. No more is allowed by that.
fn list(table: &mut Certificate, stamp: Stamp) -> Result<(), Overfull>
    ensures met { MatchResult result (λ _. Met (certificate_of table.old) (Listing stamp) (certificate_of table.new)) (λ _. Bursts (certificate_of table.old) (Listing stamp)) }
    ensures same { MatchResult result (λ _. SameAllowed (certificate_of table.old) (certificate_of table.new)) (λ _. ⊤) }
{
    if table.lists(&stamp) {
        return Ok(());
    }
    table.list(stamp).map_err(|_| Overfull)
}

// Allows the one stamp these rights on the other, if it is not allowed them already, and lists both for that.
fn grant(table: &mut Certificate, row: Stamp, column: Stamp, mask: Mask) -> Result<(), Overfull>
    ensures { MatchResult result (λ _. Met (certificate_of table.old) (Rights row column mask) (certificate_of table.new)) (λ _. Bursts (certificate_of table.old) (Rights row column mask)) }
{
    let allowed = table.allows(&row, &column);
    if is_within(mask, allowed) {
        return Ok(());
    }
    list(table, row)?;
    list(table, column)?;
    join(table, row, column, mask)
}

// Allows them where both are listed, and refuses where one is not, or the first is no card's.
fn join(table: &mut Certificate, row: Stamp, column: Stamp, mask: Mask) -> Result<(), Overfull>
    requires { allows (certificate_of table.old) row column < 65536 }
    ensures { MatchResult result (λ _. Met (certificate_of table.old) (Rights row column mask) (certificate_of table.new)) (λ _. Unfit (certificate_of table.old) row column) }
{
    let u = table.number_of(&row).ok_or(Overfull)?;
    let v = table.number_of(&column).ok_or(Overfull)?;
    table.allow(u, v, mask).map_err(|_| Overfull)
}
