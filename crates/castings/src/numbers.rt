// A casting by the numbers of its stamps: so no stamp has to be looked for while parameters are bound.
ghost use Rattle.std.specs.Prelude.{◌≡◌, not, ◌||◌, slice_set};
ghost use Rattle.model.specs.Kinds.{subject_kind};
ghost use Rattle.model.specs.Masks.{has};
ghost use Rattle.scheme.specs.Views.{view};
ghost use Rattle.certificates.specs.Certificates.{stamp_at};
ghost use Rattle.certificates.specs.Views.{certificate_of};
ghost use Rattle.protection.specs.Tables.{protection_of};
ghost use Rattle.castings.specs.Castings.{is_cast, suits, cast_state};
ghost use Rattle.castings.specs.Numbers.{number_at, stamps_by};

use certificates::certificate::Certificate;
use model::kind::Kind;
use model::mask::holds;
use model::stamp::Stamp;
use protection::excerpt::{Excerpt, PARAMETERS};
use scheme::command::Command;
use scheme::test::Parameter;

// The number of each parameter's stamp, and none for what is created, or not bound yet.
pub(crate) type Numbers = [Option<usize>; PARAMETERS];

// Past the parameters there is none.
pub(crate) fn number_at(numbers: Numbers, i: Parameter) -> Option<usize>
    ensures { result ≡ number_at numbers i }
{
    numbers.get(usize::from(i)).copied().flatten()
}

// The same numbers with another for parameter `i`.
pub(crate) fn bound(mut numbers: Numbers, i: Parameter, number: Option<usize>) -> Numbers
    ensures { result ≡ slice_set numbers i number }
{
    if usize::from(i) < PARAMETERS {
        numbers[usize::from(i)] = number;
    }
    numbers
}

// What the parameters see.
pub(crate) fn seen(certificate: &Certificate, numbers: Numbers) -> Excerpt
    ensures { protection_of result ≡ cast_state (certificate_of certificate.now) (stamps_by (certificate_of certificate.now) numbers) }
{
    let entry = |i| certificate.stamp_at(number_at(numbers, i));
    let cell = |i, j| certificate.between_numbers(number_at(numbers, i), number_at(numbers, j));
    Excerpt {
        entries: [entry(0), entry(1), entry(2)],
        cells: [
            [cell(0, 0), cell(0, 1), cell(0, 2)],
            [cell(1, 0), cell(1, 1), cell(1, 2)],
            [cell(2, 0), cell(2, 1), cell(2, 2)],
        ],
    }
}

// Whether the parameter is one of the command's, and not created by it.
pub(crate) fn is_cast(command: &Command, i: Parameter) -> bool
    ensures { result ≡ is_cast (view command.now) i }
{
    i < command.params() && !command.creates(i)
}

// Whether the parameter may be given the stamp of this number, or none.
pub(crate) fn suits(
    certificate: &Certificate,
    command: &Command,
    i: Parameter,
    number: Option<usize>,
) -> bool
    ensures { result ≡ suits (certificate_of certificate.now) (view command.now) i (stamp_at (certificate_of certificate.now) number) }
{
    match certificate.stamp_at(number) {
        None => !is_cast(command, i),
        Some(stamp) => is_cast(command, i) && fits_card(command, i, stamp),
    }
}

// Whether the stamp is a card's where the parameter is declared a card.
fn fits_card(command: &Command, i: Parameter, stamp: Stamp) -> bool
    ensures { result ≡ (not (has (view command.now).cards i) || subject_kind stamp.kind) }
{
    !holds(u16::from(command.cards()), i) || stamp.kind == Kind::Subject
}
