// Where a certificate keeps the mask of two numbers.
ghost use Rattle.std.specs.Prelude.{◌≡◌, cond, ◌+◌, ◌*◌, ◌&&◌, Some, None, nat_lt};

use crate::certificate::STAMPS;

// Where the mask of two numbers lies; from 32 on there is none.
pub(crate) fn place_of(u: usize, v: usize) -> Option<usize>
    ensures { result ≡ cond (nat_lt u 32 && nat_lt v 32) (Some (32 * u + v)) None }
{
    if u < STAMPS && v < STAMPS {
        Some(STAMPS * u + v)
    } else {
        None
    }
}
