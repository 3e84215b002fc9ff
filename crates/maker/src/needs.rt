// What a table lacks, by a casting that escapes.
ghost use Rattle.std.specs.Prelude.{◌≡◌, ℕ, Bool, true, Some, is_some};
ghost use Rattle.protection.specs.Tables.{protection_of};
ghost use Rattle.scheme.specs.Views.{view};
ghost use Rattle.certificates.specs.Views.{certificate_of};
ghost use Rattle.castings.specs.Escapes.{IsBreach, IsEscape};
ghost use Rattle.maker.specs.Needs.{Mends, NeededBy};

use crate::need::Need;
use castings::escape::{Breach, Escape};
use certificates::certificate::Certificate;
use model::scales::Scales;
use model::stamp::Stamp;
use protection::excerpt::Excerpt;
use protection::outcome::outcome;
use scheme::command::Command;
use scheme::test::Parameter;

// The stamp of a parameter that is left standing.
fn stamp_of(after: &Excerpt, i: Parameter) -> Stamp
    requires { is_some ((protection_of after.now).entry i) ≡ true }
    ensures { (protection_of after.now).entry i ≡ Some result }
{
    after.entry(i).unwrap()
}

// What is to be added where this condition fails.
fn mending(table: &Certificate, before: &Excerpt, after: &Excerpt, breach: Breach) -> Need
    requires { (renewed : ℕ → Bool) × IsBreach (certificate_of table.now) renewed (protection_of before.now) (protection_of after.now) breach }
    ensures { Mends (certificate_of table.now) (protection_of before.now) (protection_of after.now) breach result }
{
    match breach {
        Breach::Unlisted { parameter } => Need::Stamp(stamp_of(after, parameter)),
        Breach::Cell { row, column, .. } => Need::Rights {
            row: stamp_of(after, row),
            column: stamp_of(after, column),
            mask: after.cell(row, column),
        },
        Breach::Row {
            parameter,
            other,
            ..
        } => Need::Rights {
            row: stamp_of(after, parameter),
            column: other,
            mask: table.between(before.entry(parameter), Some(other)),
        },
        Breach::Column {
            parameter,
            other,
            ..
        } => Need::Rights {
            row: other,
            column: stamp_of(after, parameter),
            mask: table.between(Some(other), before.entry(parameter)),
        },
    }
}

// What the table lacks by a casting that escapes.
pub(crate) fn need_of<S: Scales>(table: &Certificate, command: &Command, escape: &Escape) -> Need
    requires { IsEscape S.Scales.covering (certificate_of table.now) (view command.now) escape.now }
    ensures { NeededBy S.Scales.covering (certificate_of table.now) (view command.now) result }
{
    let before = escape.seen(table);
    let after = outcome(command, before);
    mending(table, &before, &after, escape.breach)
}
