// Whether a certificate is closed under a command: every casting is tried, and one that escapes is shown.
ghost use Rattle.std.specs.Prelude.{◌≡◌, ◌<◌, ◌≤◌, MatchOption, MatchResult};
ghost use Rattle.scheme.specs.Views.{view};
ghost use Rattle.protection.specs.Tables.{protection_of};
ghost use Rattle.certificates.specs.Certificates.{stamp_at};
ghost use Rattle.certificates.specs.Views.{certificate_of};
ghost use Rattle.castings.specs.Binding.{ReadyPass, SuitsBelow, KeepsBy, BreachBy, ShowsBreach, ClosedFrom, ClosedWith};
ghost use Rattle.castings.specs.Castings.{cast_state};
ghost use Rattle.castings.specs.Closure.{Closed};
ghost use Rattle.castings.specs.Escapes.{IsEscape};
ghost use Rattle.castings.specs.Numbers.{stamps_by};
ghost use Rattle.castings.specs.Places.{ClosedAt};
ghost use Rattle.castings.specs.Shifts.{Known};

use crate::escape::{Breach, Escape};
use crate::keeping::{cells_kept, numbers_after};
use crate::moving::moves_kept;
use crate::numbers::{Numbers, bound, is_cast, seen, suits};
use crate::places::{FIRST, Place, first_at, rest_of};
use crate::readiness::ready_pass;
use crate::shifts::Shifts;
use certificates::certificate::Certificate;
use model::scales::Scales;
use protection::excerpt::{Excerpt, PARAMETERS};
use protection::outcome::outcome;
use scheme::command::Command;
use scheme::test::Parameter;

// A casting that passes and escapes, and how; none where the certificate is closed under the command. Castings are tried
// parameter by parameter, each test as soon as all that it names is bound.
pub fn first_escape<S: Scales>(certificate: &Certificate, command: &Command) -> Option<Escape>
    ensures { MatchOption result (Closed S.Scales.covering (certificate_of certificate.now) (view command.now)) (IsEscape S.Scales.covering (certificate_of certificate.now) (view command.now)) }
{
    first_escape_from::<S>(certificate, command, FIRST)
}

// The same of those castings that come at this place or after it. What counts is what none means: which escape is shown is free, and
// it may also come before the place.
pub fn first_escape_from<S: Scales>(
    certificate: &Certificate,
    command: &Command,
    place: Place,
) -> Option<Escape>
    ensures { MatchOption result (ClosedAt S.Scales.covering (certificate_of certificate.now) (view command.now) place) (IsEscape S.Scales.covering (certificate_of certificate.now) (view command.now)) }
{
    let shifts = Shifts::of(certificate);
    closed_from::<S>(certificate, &shifts, command, [None; PARAMETERS], 0, &place).err()
}

// The same of those castings that give the parameters below `d` the stamps of these numbers, and come from `d` on at this place or
// after it.
#[cycle(castings)]
fn closed_from<S: Scales>(
    certificate: &Certificate,
    shifts: &Shifts,
    command: &Command,
    numbers: Numbers,
    d: Parameter,
    place: &[usize],
) -> Result<(), Escape>
    requires known { Known (certificate_of certificate.now) shifts.now.rows }
    requires few { d ≤ 3 }
    requires suits { SuitsBelow (certificate_of certificate.now) (view command.now) (stamps_by (certificate_of certificate.now) numbers) d }
    requires passes { ReadyPass S.Scales.covering (view command.now) (cast_state (certificate_of certificate.now) (stamps_by (certificate_of certificate.now) numbers)) d }
    ensures { MatchResult result (λ _. ClosedFrom S.Scales.covering (certificate_of certificate.now) (view command.now) (stamps_by (certificate_of certificate.now) numbers) d place.now) (IsEscape S.Scales.covering (certificate_of certificate.now) (view command.now)) }
{
    if usize::from(d) >= PARAMETERS {
        return kept(certificate, shifts, command, numbers);
    }
    if !is_cast(command, d) {
        return closed_with::<S>(certificate, shifts, command, numbers, d, place, None);
    }
    for number in first_at(place)..certificate.stamps().len() {
        closed_with::<S>(
            certificate,
            shifts,
            command,
            numbers,
            d,
            place,
            Some(number),
        )?;
    }
    Ok(())
}

// The same of those that also give parameter `d` the stamp of this number, or none.
#[cycle(castings)]
fn closed_with<S: Scales>(
    certificate: &Certificate,
    shifts: &Shifts,
    command: &Command,
    numbers: Numbers,
    d: Parameter,
    place: &[usize],
    number: Option<usize>,
) -> Result<(), Escape>
    requires known { Known (certificate_of certificate.now) shifts.now.rows }
    requires few { d < 3 }
    requires suits { SuitsBelow (certificate_of certificate.now) (view command.now) (stamps_by (certificate_of certificate.now) numbers) d }
    ensures { MatchResult result (λ _. ClosedWith S.Scales.covering (certificate_of certificate.now) (view command.now) (stamps_by (certificate_of certificate.now) numbers) d place.now (stamp_at (certificate_of certificate.now) number)) (IsEscape S.Scales.covering (certificate_of certificate.now) (view command.now)) }
{
    if !suits(certificate, command, d, number) {
        return Ok(());
    }
    let numbers = bound(numbers, d, number);
    if !ready_pass::<S>(&seen(certificate, numbers), command.tests(), d + 1) {
        return Ok(());
    }
    closed_from::<S>(
        certificate,
        shifts,
        command,
        numbers,
        d + 1,
        rest_of(place, number),
    )
}

// Whether what the command makes of this casting is allowed.
fn kept(
    certificate: &Certificate,
    shifts: &Shifts,
    command: &Command,
    numbers: Numbers,
) -> Result<(), Escape>
    requires { Known (certificate_of certificate.now) shifts.now.rows }
    ensures { MatchResult result (λ _. KeepsBy (certificate_of certificate.now) (view command.now) (stamps_by (certificate_of certificate.now) numbers)) (ShowsBreach (certificate_of certificate.now) (view command.now) (stamps_by (certificate_of certificate.now) numbers)) }
{
    let before = seen(certificate, numbers);
    let Err(breach) = outcome_kept(certificate, shifts, command, numbers, before) else {
        return Ok(());
    };
    let stamps = before.entries;
    Err(Escape { stamps, breach })
}

// The same, by a condition that fails.
fn outcome_kept(
    certificate: &Certificate,
    shifts: &Shifts,
    command: &Command,
    numbers: Numbers,
    before: Excerpt,
) -> Result<(), Breach>
    requires known { Known (certificate_of certificate.now) shifts.now.rows }
    requires before { protection_of before ≡ cast_state (certificate_of certificate.now) (stamps_by (certificate_of certificate.now) numbers) }
    ensures { MatchResult result (λ _. KeepsBy (certificate_of certificate.now) (view command.now) (stamps_by (certificate_of certificate.now) numbers)) (BreachBy (certificate_of certificate.now) (view command.now) (stamps_by (certificate_of certificate.now) numbers)) }
{
    let after = outcome(command, before);
    let new = numbers_after(certificate, numbers, after)?;
    cells_kept(certificate, new, after)?;
    moves_kept(certificate, shifts, command, numbers, new, after)
}
