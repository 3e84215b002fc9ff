// Whether a command may be carried out on what its parameters see.
ghost use Rattle.std.specs.Prelude.{◌≡◌};
ghost use Rattle.model.specs.Answers.{answer};
ghost use Rattle.protection.specs.Requests.{first_parameter, lowest_placed, unless_broken, standing_wrong, card_wrong, seen_rules};
ghost use Rattle.protection.specs.Tables.{protection_of};
ghost use Rattle.scheme.specs.Views.{view};

use model::fault::{Fault, Reason};
use model::mask::holds;
use model::scales::Scales;
use protection::entries::is_subject;
use protection::excerpt::Excerpt;
use protection::refusal::refusal;
use scheme::command::Command;
use scheme::test::Parameter;

// The lowest parameter that is created and stands for an entry already, or is not and stands for none.
fn first_misplaced(command: &Command, seen: &Excerpt) -> Option<Parameter>
    ensures { result ≡ first_parameter (view command.now).params (standing_wrong (view command.now) (protection_of seen.now)) }
{
    for i in 0..command.params() {
        if command.creates(i) == seen.entry(i).is_some() {
            return Some(i);
        }
    }
    None
}

// The lowest parameter that is declared a card, is not created, and stands for no subject.
fn first_no_subject(command: &Command, seen: &Excerpt) -> Option<Parameter>
    ensures { result ≡ first_parameter (view command.now).params (card_wrong (view command.now) (protection_of seen.now)) }
{
    for i in 0..command.params() {
        let declared = holds(u16::from(command.cards()), i);
        if declared && (!command.creates(i) && !is_subject(seen.entry(i))) {
            return Some(i);
        }
    }
    None
}

// The rules on what the parameters see, in the order of their numbers. A command has sixteen tests at most, so the cast keeps
// the number of the test.
pub(crate) fn admit<S: Scales>(command: &Command, seen: &Excerpt) -> Result<(), Fault>
    ensures { answer (λ done. done) result ≡ unless_broken (lowest_placed (seen_rules S.Scales.covering (view command.now) (protection_of seen.now))) tt }
{
    if let Some(i) = first_misplaced(command, seen) {
        return Err(refusal(Reason::WrongPresence, u16::from(i)));
    }
    if let Some(i) = first_no_subject(command, seen) {
        return Err(refusal(Reason::NotASubject, u16::from(i)));
    }
    if let Some(test) = seen.first_failing::<S>(command.tests()) {
        return Err(refusal(Reason::TestFails, test as u16));
    }
    Ok(())
}
