// The names of a request: one for each parameter of its command.
ghost use Rattle.std.specs.Prelude.{◌≡◌, length};
ghost use Rattle.model.specs.Bounded.{listed};
ghost use Rattle.protection.specs.Commands.{name_at};
ghost use Rattle.protection.specs.Excerpts.{parameter_of, Distinct};
ghost use Rattle.changes.specs.Names.{Named};

use model::bounded::Bounded;
use model::name::{NAMES, Name};
use protection::excerpt::PARAMETERS;

mod binding;

// At most three; each is a name, and no two are equal.
#[derive(Clone, Copy)]
pub struct Names {
    items: Bounded<Name, PARAMETERS>,
    ghost named: { Named (listed items) },
    ghost distinct: { Distinct (listed items) },
}

impl Names {
    pub fn as_slice(&self) -> &[Name]
        ensures { result.now ≡ listed self.now.items }
    {
        self.items.as_slice()
    }

    pub fn len(&self) -> usize
        ensures { result ≡ length (listed self.now.items) }
    {
        self.items.len()
    }

    // The parameter that a name is put for.
    pub fn parameter(&self, name: Name) -> Option<usize>
        ensures { result ≡ parameter_of (listed self.now.items) name }
    {
        self.as_slice().iter().position(|other| *other == name)
    }

    // The name that is put for parameter `i`; past the last it is 64, which is no name.
    pub fn at(&self, i: usize) -> Name
        ensures { result ≡ name_at (listed self.now.items) i }
    {
        self.as_slice().get(i).copied().unwrap_or(NAMES)
    }
}
