// Where a step may stand among the tests and steps of its command.
ghost use Rattle.std.specs.Prelude.{◌≡◌, ◌&&◌};
ghost use Rattle.std.specs.List.{list_any};
ghost use Rattle.scheme.specs.Steps.{names_in_step, creates_in_step, destroys_in_step, step_row_declared, well_placed};
ghost use Rattle.scheme.specs.Tests.{names_in_test};

use crate::step::Step;
use crate::test::{Parameter, Test};

// What stands in a command before a step. Bit i of `cards` declares parameter i a card.
#[derive(Clone, Copy)]
pub struct Before<'a> {
    pub cards: u8,
    pub tests: &'a [Test],
    pub steps: &'a [Step],
}

impl Before<'_> {
    // Whether one of the tests names the parameter.
    fn tests_name(&self, i: Parameter) -> bool
        ensures { result ≡ list_any (names_in_test i) self.now.tests.now }
    {
        self.tests.iter().any(|test| test.names(i))
    }

    // Whether one of the steps names the parameter. These four are a line each; one of them that takes the question as a
    // closure would say in its contract what each says here by name.
    pub(crate) fn steps_name(&self, i: Parameter) -> bool
        ensures { result ≡ list_any (names_in_step i) self.now.steps.now }
    {
        self.steps.iter().any(|step| step.names(i))
    }

    // Whether one of the steps creates the parameter.
    pub(crate) fn creates(&self, i: Parameter) -> bool
        ensures { result ≡ list_any (creates_in_step i) self.now.steps.now }
    {
        self.steps.iter().any(|step| step.creates(i))
    }

    // Whether one of the steps destroys the parameter.
    pub(crate) fn destroys(&self, i: Parameter) -> bool
        ensures { result ≡ list_any (destroys_in_step i) self.now.steps.now }
    {
        self.steps.iter().any(|step| step.destroys(i))
    }

    // Whether `step` may follow: nothing it names is destroyed before, nothing it creates is named before, and nothing it
    // destroys is created before.
    fn places_well(&self, step: Step) -> bool
        ensures { result ≡ well_placed self.now.tests.now self.now.steps.now step }
    {
        match step {
            Step::Enter { row, column, .. } | Step::Delete { row, column, .. } => {
                !self.destroys(row) && !self.destroys(column)
            }
            Step::Set { parameter, .. } => !self.destroys(parameter),
            Step::Create { parameter } => !self.tests_name(parameter)
                && !self.steps_name(parameter),
            Step::Destroy { parameter } => !self.creates(parameter) && !self.destroys(parameter),
        }
    }

    // Whether `step` keeps the rules on rows and on created and destroyed parameters.
    pub fn keeps_parameter_rules(&self, step: Step) -> bool
        ensures { result ≡ (step_row_declared self.now.cards step && well_placed self.now.tests.now self.now.steps.now step) }
    {
        step.is_row_declared(self.cards) && self.places_well(step)
    }
}
