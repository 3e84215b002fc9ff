// A scheme: the commands that a register keeps for good.
ghost use Rattle.std.specs.Prelude.{◌≡◌, [], ◌∷◌, ◌++◌, map, length, nat_le};
ghost use Rattle.model.specs.Answers.{refused_by, lowest, unless};
ghost use Rattle.scheme.specs.Views.{view, commands_of};

use crate::command::Command;
use model::bounded::Bounded;
use model::fault::Reason;

// How many commands a scheme has at most.
pub const COMMANDS: usize = 16;

#[derive(Clone, Copy)]
pub struct Scheme {
    commands: Bounded<Command, COMMANDS>,
}

impl Scheme {
    // The scheme of no commands.
    pub fn empty() -> Scheme
        ensures { commands_of result ≡ [] }
    {
        Scheme {
            commands: Bounded::empty(Command::idle()),
        }
    }

    // One command more, at the end, or a refusal and no change where there are sixteen.
    pub fn add(&mut self, command: Command) -> Result<(), Reason>
        ensures answer { refused_by result ≡ lowest ((4, nat_le 16 (length (commands_of self.old))) ∷ []) }
        ensures after { commands_of self.new ≡ unless (refused_by result) (commands_of self.old) (commands_of self.old ++ view command ∷ []) }
    {
        self.commands.push(command).map_err(|_| Reason::TooMany)
    }

    pub fn len(&self) -> usize
        ensures { result ≡ length (commands_of self.now) }
    {
        self.commands.len()
    }

    pub fn commands(&self) -> &[Command]
        ensures { map view result.now ≡ commands_of self.now }
    {
        self.commands.as_slice()
    }
}
