// What a command says.
ghost use Rattle.std.specs.Prelude.{◌≡◌};
ghost use Rattle.std.specs.List.{list_any};
ghost use Rattle.scheme.specs.Steps.{creates_in_step, destroys_in_step};
ghost use Rattle.scheme.specs.Views.{view};

use crate::command::Command;
use crate::placing::Before;
use crate::step::Step;
use crate::test::{Parameter, Test};

impl Command {
    pub fn params(&self) -> u8
        ensures { result ≡ (view self.now).params }
    {
        self.parameters.count
    }

    pub fn cards(&self) -> u8
        ensures { result ≡ (view self.now).cards }
    {
        self.parameters.cards
    }

    pub fn tests(&self) -> &[Test]
        ensures { result.now ≡ (view self.now).tests }
    {
        self.tests.as_slice()
    }

    pub fn steps(&self) -> &[Step]
        ensures { result.now ≡ (view self.now).steps }
    {
        self.steps.as_slice()
    }

    // What stands before a step that comes next.
    pub(crate) fn before(&self) -> Before<'_>
        ensures cards { result.cards ≡ (view self.now).cards }
        ensures tests { result.tests.now ≡ (view self.now).tests }
        ensures steps { result.steps.now ≡ (view self.now).steps }
    {
        Before {
            cards: self.parameters.cards,
            tests: self.tests.as_slice(),
            steps: self.steps.as_slice(),
        }
    }

    // Whether one of the steps creates the parameter.
    pub fn creates(&self, i: Parameter) -> bool
        ensures { result ≡ list_any (creates_in_step i) (view self.now).steps }
    {
        self.before().creates(i)
    }

    // Whether one of the steps destroys the parameter.
    pub fn destroys(&self, i: Parameter) -> bool
        ensures { result ≡ list_any (destroys_in_step i) (view self.now).steps }
    {
        self.before().destroys(i)
    }
}
