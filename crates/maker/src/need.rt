// What a certificate lacks.

use model::mask::Mask;
use model::stamp::Stamp;

#[derive(Clone, Copy, Debug, PartialEq, Eq)]
pub(crate) enum Need {
    // The stamp is to be listed.
    Stamp(Stamp),
    // The one stamp is to be allowed these rights on the other.
    Rights {
        row: Stamp,
        column: Stamp,
        mask: Mask,
    },
}

// More than 32 stamps are needed, or rights of what is no card: no certificate has all that is needed.
#[derive(Clone, Copy, Debug, PartialEq, Eq)]
pub(crate) struct Overfull;
