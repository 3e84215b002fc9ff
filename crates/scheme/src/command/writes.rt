// How a command is written: begun, then its tests, then its steps. Each call refuses what would break a rule.
ghost use Rattle.std.specs.Prelude.{◌≡◌, IfOk};
ghost use Rattle.model.specs.Answers.{refused_by, lowest, unless};
ghost use Rattle.scheme.specs.Commands.{begun, with_test, with_step, begin_rules, test_rules, step_rules};
ghost use Rattle.scheme.specs.Views.{view};

use crate::command::parameters::Parameters;
use crate::command::{Command, STEPS, TESTS};
use crate::step::Step;
use crate::test::Test;
use model::bounded::Bounded;
use model::counts::Counts;
use model::fault::Reason;

// What stands in the unused room of a list; it is never seen.
const FILLING_TEST: Test = Test::Covers {
    upper: 0,
    attribute: 0,
    lower: 0,
};

const FILLING_STEP: Step = Step::Create { parameter: 0 };

impl Command {
    // The command of one parameter that tests nothing and does nothing.
    pub fn idle() -> Command
        ensures { view result ≡ begun 1 0 }
    {
        Command::over(Parameters { count: 1, cards: 0 })
    }

    // A command with no tests and no steps yet, or a refusal where its parameters or cards are out of range.
    pub fn begin(params: u8, cards: u8) -> Result<Command, Reason>
        ensures answer { refused_by result ≡ lowest (begin_rules params cards) }
        ensures value { IfOk result (λ m. view m ≡ begun params cards) }
    {
        Parameters::new(params, cards).map(Command::over)
    }

    // The command over these parameters with no tests and no steps yet.
    fn over(parameters: Parameters) -> Command
        ensures { view result ≡ begun parameters.count parameters.cards }
    {
        Command {
            parameters,
            tests: Bounded::empty(FILLING_TEST),
            steps: Bounded::empty(FILLING_STEP),
        }
    }

    // One test more, at the end. Rules are tried by their numbers, so a full list is refused before the test is looked at.
    pub fn add_test(&mut self, counts: &Counts, test: Test) -> Result<(), Reason>
        ensures answer { refused_by result ≡ lowest (test_rules counts.now (view self.old) test) }
        ensures after { view self.new ≡ unless (refused_by result) (view self.old) (with_test (view self.old) test) }
    {
        if self.steps.len() > 0 {
            return Err(Reason::OutOfPlace);
        }
        if self.tests.len() >= TESTS {
            return Err(Reason::TooMany);
        }
        if !test.is_in_range(self.parameters.count, counts) {
            return Err(Reason::OutOfRange);
        }
        if !test.is_row_declared(self.parameters.cards) {
            return Err(Reason::ParameterRule);
        }
        self.tests.push(test).map_err(|_| Reason::TooMany)
    }

    // One step more, at the end; here too a full list is refused first. A trait that asks both the same questions would need
    // a ghost member for each of them, and be longer.
    pub fn add_step(&mut self, counts: &Counts, step: Step) -> Result<(), Reason>
        ensures answer { refused_by result ≡ lowest (step_rules counts.now (view self.old) step) }
        ensures after { view self.new ≡ unless (refused_by result) (view self.old) (with_step (view self.old) step) }
    {
        if self.steps.len() >= STEPS {
            return Err(Reason::TooMany);
        }
        if !step.is_in_range(self.parameters.count, counts) {
            return Err(Reason::OutOfRange);
        }
        if !self.before().keeps_parameter_rules(step) {
            return Err(Reason::ParameterRule);
        }
        self.steps.push(step).map_err(|_| Reason::TooMany)
    }
}
