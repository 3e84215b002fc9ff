// Where a casting comes in the row of all castings of a command.
ghost use Rattle.std.specs.Prelude.{◌≡◌};
ghost use Rattle.certificates.specs.Views.{certificate_of};
ghost use Rattle.castings.specs.Places.{rank, place_of, first_at, rest_of};

use crate::escape::Escape;
use certificates::certificate::Certificate;
use model::stamp::Stamp;
use protection::excerpt::PARAMETERS;

// A number of a stamp for each parameter.
pub type Place = [usize; PARAMETERS];

// The place of the first casting.
pub const FIRST: Place = [0; PARAMETERS];

// The number of a parameter's stamp; one that is not cast is at 0.
fn rank(certificate: &Certificate, stamp: Option<Stamp>) -> usize
    ensures { result ≡ rank (certificate_of certificate.now) stamp }
{
    stamp
        .and_then(|stamp| certificate.number_of(&stamp))
        .unwrap_or(0)
}

// The least number that the next parameter has in castings at this place or after it.
pub(crate) fn first_at(place: &[usize]) -> usize
    ensures { result ≡ first_at place.now }
{
    place.first().copied().unwrap_or(0)
}

// What is left of the place once the next parameter has this number, or none. A later number than the place's comes after it,
// whatever follows.
pub(crate) fn rest_of(place: &[usize], number: Option<usize>) -> &[usize]
    ensures { result.now ≡ rest_of place.now number }
{
    match place {
        [first, rest @ ..] if number.is_none_or(|number| number == *first) => rest,
        _ => &[],
    }
}

impl Escape {
    // The place of its casting.
    pub fn place(&self, certificate: &Certificate) -> Place
        ensures { result ≡ place_of (certificate_of certificate.now) self.now }
    {
        let [a, b, c] = self.stamps;
        [
            rank(certificate, a),
            rank(certificate, b),
            rank(certificate, c),
        ]
    }
}
