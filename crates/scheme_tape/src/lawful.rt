// A scheme that is lawful by its type: its values lie in the scales that it is read under.
ghost use Rattle.std.specs.Prelude.{◌≡◌, true, map};
ghost use Rattle.scheme.specs.Schemes.{well_formed};
ghost use Rattle.scheme.specs.Views.{view, commands_of};

use model::scales::Scales;
use scheme::command::Command;
use scheme::scheme::Scheme;
use std::marker::PhantomData;

pub struct LawfulScheme<S: Scales> {
    pub(crate) scheme: Scheme,
    pub(crate) scales: PhantomData<S>,
    ghost lawful: { well_formed S.Scales.counts (commands_of scheme) ≡ true },
}

// Written by hand, since a derive would ask `Drop` of the scales too, of which there is never a value.
impl<S: Scales> Drop for LawfulScheme<S> {
    fn drop(self) {
        let LawfulScheme {
            scheme: _,
            scales: _,
        } = self;
    }
}

impl<S: Scales> LawfulScheme<S> {
    pub fn commands(&self) -> &[Command]
        ensures { map view result.now ≡ commands_of self.now.scheme }
    {
        self.scheme.commands()
    }
}
