// Whether a command's tests pass on what it sees of a state.
ghost use Rattle.std.specs.Prelude.{◌≡◌, not, position};
ghost use Rattle.model.specs.Scales.{both_cover};
ghost use Rattle.protection.specs.Commands.{passes};
ghost use Rattle.protection.specs.States.{attribute_at};
ghost use Rattle.protection.specs.Tables.{protection_of};

use crate::excerpt::Excerpt;
use model::mask::holds;
use model::scales::Scales;
use model::stamp::{Attribute, Value};
use scheme::test::{Parameter, Test};

impl Excerpt {
    // The place of the first test that does not pass.
    pub fn first_failing<S: Scales>(&self, tests: &[Test]) -> Option<usize>
        ensures { result ≡ position (λ test. not (passes S.Scales.covering (protection_of self.now) test)) tests.now }
    {
        tests.iter().position(|test| !self.passes::<S>(*test))
    }

    // Whether the test passes.
    pub fn passes<S: Scales>(&self, test: Test) -> bool
        ensures { result ≡ passes S.Scales.covering (protection_of self.now) test }
    {
        match test {
            Test::Holds { right, row, column } => holds(self.cell(row, column), right),
            Test::Is {
                parameter,
                attribute,
                value,
            } => self.attribute(parameter, attribute) == value,
            Test::IsNot {
                parameter,
                attribute,
                value,
            } => self.attribute(parameter, attribute) != value,
            Test::Covers {
                upper,
                attribute,
                lower,
            } => both_cover::<S>(
                attribute,
                self.attribute(upper, attribute),
                self.attribute(lower, attribute),
            ),
        }
    }

    // Attribute `k` of the parameter's entry; where no entry stands, it is null.
    fn attribute(&self, i: Parameter, k: Attribute) -> Option<Value>
        ensures { result ≡ attribute_at ((protection_of self.now).entry i) k }
    {
        self.entry(i).and_then(|stamp| stamp.attribute(k))
    }
}

// Whether neither is null, and `a` covers `b` in the scale of attribute `k`.
fn both_cover<S: Scales>(k: Attribute, a: Option<Value>, b: Option<Value>) -> bool
    ensures { result ≡ both_cover (S.Scales.covering k) a b }
{
    match (a, b) {
        (Some(a), Some(b)) => S::covers(k, a, b),
        _ => false,
    }
}
