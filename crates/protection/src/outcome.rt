// What a command makes of what its parameters see. It knows of no names and of no store, so it serves any state.
ghost use Rattle.std.specs.Prelude.{◌≡◌};
ghost use Rattle.scheme.specs.Views.{view};
ghost use Rattle.protection.specs.Commands.{run};
ghost use Rattle.protection.specs.Excerpts.{itself, renewed, RunsWhole};
ghost use Rattle.protection.specs.Sound.{KeepsSound};
ghost use Rattle.protection.specs.Tables.{protection_of};

use crate::excerpt::Excerpt;
use scheme::command::Command;
use scheme::test::Parameter;

// The steps, run one after the other on what the parameters see. That this is enough, whatever the names are that are put
// for the parameters and whatever else the state holds, is `whole`; that they leave rights only between a subject and an entry that
// stand is `sound`.
pub fn outcome(command: &Command, before: Excerpt) -> Excerpt
    ensures steps { protection_of result ≡ run (view command.now).cards itself (view command.now).steps (protection_of before) }
    ensures whole { RunsWhole (view command.now) }
    ensures sound { KeepsSound (view command.now) }
{
    before.after_all(command.cards(), command.steps())
}

// Whether the entry of the parameter is created or destroyed.
#[tactic(auto, using(crate::proofs::Outside::created_or_destroyed))]
pub fn is_renewed(command: &Command, i: Parameter) -> bool
    ensures { result ≡ renewed (view command.now).steps i }
{
    command.creates(i) || command.destroys(i)
}
