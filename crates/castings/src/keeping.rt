// What becomes of a casting: whether each new stamp is listed, and each new cell allowed.
ghost use Rattle.std.specs.Prelude.{◌≡◌, ℕ, true, MatchResult};
ghost use Rattle.protection.specs.Tables.{protection_of};
ghost use Rattle.certificates.specs.Certificates.{stamp_at};
ghost use Rattle.certificates.specs.Views.{certificate_of};
ghost use Rattle.castings.specs.Conditions.{CellKept, BreachAfter, NumberLost};
ghost use Rattle.castings.specs.Numbers.{stamps_by};

use crate::escape::Breach;
use crate::numbers::{Numbers, number_at};
use certificates::certificate::Certificate;
use model::mask::outside;
use model::stamp::Stamp;
use protection::excerpt::Excerpt;
use scheme::test::Parameter;

// Whether the entries have the same stamp, or none stands in either.
fn are_same(before: Option<Stamp>, after: Option<Stamp>) -> bool
    ensures { result ≡ true → before ≡ after }
{
    match (before, after) {
        (None, None) => true,
        (Some(old), Some(new)) => old.same(&new),
        _ => false,
    }
}

// The number of the stamp that parameter `i` has afterwards, and none where it is not left standing. A stamp has to be looked for
// only where it is another.
fn number_after(
    certificate: &Certificate,
    i: Parameter,
    number: Option<usize>,
    after: Option<Stamp>,
) -> Result<Option<usize>, Breach>
    ensures { MatchResult result (λ n. stamp_at (certificate_of certificate.now) n ≡ after) (NumberLost (certificate_of certificate.now) i after) }
{
    let Some(stamp) = after else {
        return Ok(None);
    };
    if are_same(certificate.stamp_at(number), after) {
        return Ok(number);
    }
    match certificate.number_of(&stamp) {
        Some(found) => Ok(Some(found)),
        None => Err(Breach::Unlisted { parameter: i }),
    }
}

// The numbers of the stamps afterwards.
pub(crate) fn numbers_after(
    certificate: &Certificate,
    numbers: Numbers,
    after: Excerpt,
) -> Result<Numbers, Breach>
    ensures { MatchResult result (λ n. stamps_by (certificate_of certificate.now) n ≡ (protection_of after).entry) (BreachAfter (certificate_of certificate.now) (protection_of after)) }
{
    Ok([
        number_after(certificate, 0, number_at(numbers, 0), after.entry(0))?,
        number_after(certificate, 1, number_at(numbers, 1), after.entry(1))?,
        number_after(certificate, 2, number_at(numbers, 2), after.entry(2))?,
    ])
}

// Whether the cell of two parameters holds only what is allowed.
fn cell_kept(
    certificate: &Certificate,
    numbers: Numbers,
    after: Excerpt,
    i: Parameter,
    j: Parameter,
) -> Result<(), Breach>
    requires { stamps_by (certificate_of certificate.now) numbers ≡ (protection_of after).entry }
    ensures { MatchResult result (λ _. CellKept (certificate_of certificate.now) (protection_of after) i j) (BreachAfter (certificate_of certificate.now) (protection_of after)) }
{
    if after.entry(i).is_none() || after.entry(j).is_none() {
        return Ok(());
    }
    let allowed = certificate.between_numbers(number_at(numbers, i), number_at(numbers, j));
    match outside(after.cell(i, j), allowed) {
        None => Ok(()),
        Some(right) => Err(Breach::Cell {
            row: i,
            column: j,
            right,
        }),
    }
}

// The same of every cell of its row.
fn row_kept(
    certificate: &Certificate,
    numbers: Numbers,
    after: Excerpt,
    i: Parameter,
) -> Result<(), Breach>
    requires { stamps_by (certificate_of certificate.now) numbers ≡ (protection_of after).entry }
    ensures { MatchResult result (λ _. (j : ℕ) → CellKept (certificate_of certificate.now) (protection_of after) i j) (BreachAfter (certificate_of certificate.now) (protection_of after)) }
{
    for j in 0..3 {
        cell_kept(certificate, numbers, after, i, j)?;
    }
    Ok(())
}

// The same of every row.
pub(crate) fn cells_kept(
    certificate: &Certificate,
    numbers: Numbers,
    after: Excerpt,
) -> Result<(), Breach>
    requires { stamps_by (certificate_of certificate.now) numbers ≡ (protection_of after).entry }
    ensures { MatchResult result (λ _. (i j : ℕ) → CellKept (certificate_of certificate.now) (protection_of after) i j) (BreachAfter (certificate_of certificate.now) (protection_of after)) }
{
    for i in 0..3 {
        row_kept(certificate, numbers, after, i)?;
    }
    Ok(())
}
