// The bytes of the two orders that list a certificate.
ghost use Rattle.std.specs.Prelude.{◌≡◌, ◌<◌, ◌≤◌, ◌/◌, ◌%◌};
ghost use Rattle.tapes.specs.Values.{value_on_tape};
ghost use Rattle.certificates.specs.Encoding.{code};
ghost use Rattle.certificates.specs.Items.{allow};
ghost use Rattle.writing.specs.Spelling.{Spelt};
ghost use Rattle.writing.specs.Writing.{stamp_item};

use model::mask::Mask;
use model::stamp::{Stamp, Value};

// The byte of the order that lists a stamp, and of the one that allows a stamp something on another.
const STAMP: u8 = 0x50;

const ALLOW: u8 = 0x51;

// How many bytes each takes.
pub(crate) const STAMP_SIZE: usize = 6;

pub(crate) const ALLOW_SIZE: usize = 5;

// How null is written. No scale has so great a value.
const NULL: u8 = 255;

// The byte of a value, or of null.
fn value_written(value: Option<Value>) -> u8
    requires { value_on_tape value ≤ 255 }
    ensures { result ≡ value_on_tape value }
{
    value.unwrap_or(NULL)
}

// What lists a stamp: its kind and its attributes.
pub(crate) fn stamp_bytes(stamp: &Stamp) -> [u8; STAMP_SIZE]
    requires { Spelt stamp.now }
    ensures { result ≡ code (stamp_item stamp.now) }
{
    [
        STAMP,
        u8::from(stamp.kind),
        value_written(stamp.attribute(0)),
        value_written(stamp.attribute(1)),
        value_written(stamp.attribute(2)),
        value_written(stamp.attribute(3)),
    ]
}

// What allows the stamp with number `u` this mask on the stamp with number `v`.
pub(crate) fn allow_bytes(u: usize, v: usize, mask: Mask) -> [u8; ALLOW_SIZE]
    requires row { u < 32 }
    requires column { v < 32 }
    ensures { result ≡ code (allow u v (mask / 256) (mask % 256)) }
{
    let [high, low] = mask.to_be_bytes();
    [ALLOW, u as u8, v as u8, high, low]
}
