// Tests are tried as soon as all that they name is bound.
ghost use Rattle.std.specs.Prelude.{◌≡◌, not, ◌||◌};
ghost use Rattle.std.specs.List.{list_all};
ghost use Rattle.protection.specs.Commands.{passes};
ghost use Rattle.protection.specs.Tables.{protection_of};
ghost use Rattle.castings.specs.Binding.{named_below};

use model::scales::Scales;
use protection::excerpt::Excerpt;
use scheme::test::{Parameter, Test};

// Whether the test names only parameters below `d`.
fn is_ready(test: Test, d: Parameter) -> bool
    ensures { result ≡ named_below d test }
{
    match test {
        Test::Holds { row, column, .. } => row < d && column < d,
        Test::Is { parameter, .. } | Test::IsNot { parameter, .. } => parameter < d,
        Test::Covers { upper, lower, .. } => upper < d && lower < d,
    }
}

// Whether each test passes that names only parameters below `d`.
pub(crate) fn ready_pass<S: Scales>(seen: &Excerpt, tests: &[Test], d: Parameter) -> bool
    ensures { result ≡ list_all (λ test. not (named_below d test) || passes S.Scales.covering (protection_of seen.now) test) tests.now }
{
    tests
        .iter()
        .all(|test| !is_ready(*test, d) || seen.passes::<S>(*test))
}
