// What becomes of a casting: whether one that moves is allowed no less than before, on each listed stamp and by each.
ghost use Rattle.std.specs.Prelude.{◌≡◌, ℕ, Some, MatchResult, slice_get};
ghost use Rattle.model.specs.declared.stamp.Stamp.{Stamp as AnyStamp};
ghost use Rattle.scheme.specs.Views.{view};
ghost use Rattle.protection.specs.Excerpts.{renewed};
ghost use Rattle.protection.specs.Tables.{protection_of};
ghost use Rattle.certificates.specs.Certificates.{stamp_at};
ghost use Rattle.certificates.specs.Views.{certificate_of};
ghost use Rattle.castings.specs.Castings.{cast_state};
ghost use Rattle.castings.specs.Conditions.{MoveKept, MoveKeptOnAll, MoveLost, MovesKept};
ghost use Rattle.castings.specs.Escapes.{IsBreach};
ghost use Rattle.castings.specs.Numbers.{stamps_by};
ghost use Rattle.castings.specs.Shifts.{Known};

use crate::escape::Breach;
use crate::numbers::{Numbers, number_at};
use crate::shifts::Shifts;
use certificates::certificate::Certificate;
use model::mask::outside;
use protection::excerpt::Excerpt;
use protection::outcome::is_renewed;
use scheme::command::Command;
use scheme::test::Parameter;

// Whether parameter `i`, which had the stamp of the one number and has that of another, is allowed no less on the stamp of a third
// number, and this no less on it.
fn move_kept(
    certificate: &Certificate,
    i: Parameter,
    old: Option<usize>,
    new: Option<usize>,
    other: usize,
) -> Result<(), Breach>
    ensures { MatchResult result (λ _. (w : AnyStamp) → slice_get (certificate_of certificate.now).stamps other ≡ Some w → MoveKept (certificate_of certificate.now) (stamp_at (certificate_of certificate.now) old) (stamp_at (certificate_of certificate.now) new) w) (MoveLost (certificate_of certificate.now) i (stamp_at (certificate_of certificate.now) old) (stamp_at (certificate_of certificate.now) new)) }
{
    let Some(stamp) = certificate.stamp_at(Some(other)) else {
        return Ok(());
    };
    let row = outside(
        certificate.between_numbers(old, Some(other)),
        certificate.between_numbers(new, Some(other)),
    );
    if let Some(right) = row {
        return Err(Breach::Row {
            parameter: i,
            other: stamp,
            right,
        });
    }
    let column = outside(
        certificate.between_numbers(Some(other), old),
        certificate.between_numbers(Some(other), new),
    );
    match column {
        None => Ok(()),
        Some(right) => Err(Breach::Column {
            parameter: i,
            other: stamp,
            right,
        }),
    }
}

// The same of each listed stamp.
pub(crate) fn move_kept_on_all(
    certificate: &Certificate,
    i: Parameter,
    old: Option<usize>,
    new: Option<usize>,
) -> Result<(), Breach>
    ensures { MatchResult result (λ _. MoveKeptOnAll (certificate_of certificate.now) (stamp_at (certificate_of certificate.now) old) (stamp_at (certificate_of certificate.now) new)) (MoveLost (certificate_of certificate.now) i (stamp_at (certificate_of certificate.now) old) (stamp_at (certificate_of certificate.now) new)) }
{
    for other in 0..certificate.stamps().len() {
        move_kept(certificate, i, old, new, other)?;
    }
    Ok(())
}

// The same of parameter `i` where it moves. There is nothing to ask where the move is known to lose nothing, as from a stamp to
// itself.
fn moves_kept_of(
    certificate: &Certificate,
    shifts: &Shifts,
    command: &Command,
    old: Numbers,
    new: Numbers,
    after: Excerpt,
    i: Parameter,
) -> Result<(), Breach>
    requires known { Known (certificate_of certificate.now) shifts.now.rows }
    requires after { stamps_by (certificate_of certificate.now) new ≡ (protection_of after).entry }
    ensures { MatchResult result (λ _. MovesKept (certificate_of certificate.now) (renewed (view command.now).steps) (cast_state (certificate_of certificate.now) (stamps_by (certificate_of certificate.now) old)) (protection_of after) i) (IsBreach (certificate_of certificate.now) (renewed (view command.now).steps) (cast_state (certificate_of certificate.now) (stamps_by (certificate_of certificate.now) old)) (protection_of after)) }
{
    let (was, is) = (number_at(old, i), number_at(new, i));
    if shifts.knows(was, is) || after.entry(i).is_none() || is_renewed(command, i) {
        return Ok(());
    }
    move_kept_on_all(certificate, i, was, is)
}

// The same of every parameter.
pub(crate) fn moves_kept(
    certificate: &Certificate,
    shifts: &Shifts,
    command: &Command,
    old: Numbers,
    new: Numbers,
    after: Excerpt,
) -> Result<(), Breach>
    requires known { Known (certificate_of certificate.now) shifts.now.rows }
    requires after { stamps_by (certificate_of certificate.now) new ≡ (protection_of after).entry }
    ensures { MatchResult result (λ _. (i : ℕ) → MovesKept (certificate_of certificate.now) (renewed (view command.now).steps) (cast_state (certificate_of certificate.now) (stamps_by (certificate_of certificate.now) old)) (protection_of after) i) (IsBreach (certificate_of certificate.now) (renewed (view command.now).steps) (cast_state (certificate_of certificate.now) (stamps_by (certificate_of certificate.now) old)) (protection_of after)) }
{
    for i in 0..3 {
        moves_kept_of(certificate, shifts, command, old, new, after, i)?;
    }
    Ok(())
}
