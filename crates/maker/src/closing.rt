// Closing a table under commands: while a casting escapes, what it lacks is added. Whatever says all that the table says, and is
// closed too, has each addition, so no more is added than must be.
ghost use Rattle.std.specs.Prelude.{map, MatchResult};
ghost use Rattle.scheme.specs.Views.{view};
ghost use Rattle.certificates.specs.Views.{certificate_of};
ghost use Rattle.castings.specs.Closure.{Closed};
ghost use Rattle.checker.specs.Judgements.{ClosedUnderEach};
ghost use Rattle.maker.specs.Closing.{Turned};
ghost use Rattle.maker.specs.Growing.{Completed, Outgrown};

use crate::growing::meet;
use crate::need::Overfull;
use crate::needs::need_of;
use castings::closure::first_escape_from;
use castings::places::FIRST;
use certificates::certificate::Certificate;
use model::scales::Scales;
use scheme::command::Command;

// Adds what the castings of a command lack, and says whether anything was. After each addition they are gone through from the one that
// escaped on: it may escape again, until all that it lacks is there.
fn grow_under<S: Scales>(table: &mut Certificate, command: &Command) -> Result<bool, Overfull>
    ensures { MatchResult result (Turned (λ d. Closed S.Scales.covering d (view command.now)) (certificate_of table.old) (certificate_of table.new)) (λ _. Outgrown (λ d. Closed S.Scales.covering d (view command.now)) (certificate_of table.old)) }
{
    let mut grown = false;
    let mut place = FIRST;
    while let Some(escape) = first_escape_from::<S>(table, command, place) {
        let need = need_of::<S>(table, command, &escape);
        place = escape.place(table);
        meet(table, need)?;
        grown = true;
    }
    Ok(grown)
}

// The same for each of the commands, one after the other.
fn sweep<S: Scales>(table: &mut Certificate, commands: &[Command]) -> Result<bool, Overfull>
    ensures { MatchResult result (Turned (ClosedUnderEach S.Scales.covering (map view commands.now)) (certificate_of table.old) (certificate_of table.new)) (λ _. Outgrown (ClosedUnderEach S.Scales.covering (map view commands.now)) (certificate_of table.old)) }
{
    let mut grown = false;
    for command in commands {
        grown |= grow_under::<S>(table, command)?;
    }
    Ok(grown)
}

// Sweeps over the commands until nothing is added: what was added for one may let a casting of another escape.
pub(crate) fn close<S: Scales>(
    table: &mut Certificate,
    commands: &[Command],
) -> Result<(), Overfull>
    ensures { MatchResult result (λ _. Completed (ClosedUnderEach S.Scales.covering (map view commands.now)) (certificate_of table.old) (certificate_of table.new)) (λ _. Outgrown (ClosedUnderEach S.Scales.covering (map view commands.now)) (certificate_of table.old)) }
{
    while sweep::<S>(table, commands)? {}
    Ok(())
}
