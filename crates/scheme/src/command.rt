// A command: tests that must hold, then steps that run in order, over one to three parameters.
ghost use Rattle.std.specs.Prelude.{◌≡◌, true, []};
ghost use Rattle.std.specs.List.{list_all};
ghost use Rattle.model.specs.Bounded.{listed};
ghost use Rattle.model.specs.Lists.{each_after};
ghost use Rattle.scheme.specs.Commands.{test_fits, step_fits};

use crate::command::parameters::Parameters;
use crate::step::Step;
use crate::test::Test;
use model::bounded::Bounded;

mod parameters;
pub mod reads;
pub mod writes;

// How many tests, and how many steps, a command has at most.
pub const TESTS: usize = 16;

pub const STEPS: usize = 16;

// Every value keeps the rules on parameters, rows, and what is created and destroyed; whether values lie in their scales is
// the reader's matter, since the scales are not known here.
#[derive(Clone, Copy)]
pub struct Command {
    parameters: Parameters,
    tests: Bounded<Test, TESTS>,
    steps: Bounded<Step, STEPS>,
    ghost tested: { list_all (test_fits parameters.count parameters.cards) (listed tests) ≡ true },
    ghost stepped: { each_after (step_fits parameters.count parameters.cards (listed tests)) [] (listed steps) ≡ true },
}
