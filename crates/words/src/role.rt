// What a command takes as a parameter, or makes of it.
ghost use Rattle.std.specs.Prelude.{◌≡◌, Some};
ghost use Rattle.scheme.specs.Views.{view};
ghost use Rattle.words.specs.Roles.{role, role_words};

use model::mask::holds;
use scheme::command::Command;
use scheme::test::Parameter;
use std::fmt;

#[derive(Clone, Copy)]
pub enum Role {
    // Stands before, and is declared a card.
    Card,
    // Stands before, as a card or a thing.
    AnyEntry,
    NewCard,
    NewThing,
}

impl Role {
    pub fn of(command: &Command, i: Parameter) -> Role
        ensures { result ≡ role (view command.now) i }
    {
        let is_card = holds(u16::from(command.cards()), i);
        match (command.creates(i), is_card) {
            (false, true) => Role::Card,
            (false, false) => Role::AnyEntry,
            (true, true) => Role::NewCard,
            (true, false) => Role::NewThing,
        }
    }
}

impl fmt::Display for Role {
    ghost output = { λ r. Some (role_words r) };

    fn fmt<W: fmt::Write>(&self, f: &mut fmt::Formatter<W>) -> fmt::Result {
        match self {
            Role::Card => write!(f, "card"),
            Role::AnyEntry => write!(f, "any entry"),
            Role::NewCard => write!(f, "new card"),
            Role::NewThing => write!(f, "new thing"),
        }
    }
}
