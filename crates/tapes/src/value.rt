// A value where null may stand, as it is written on tapes.
ghost use Rattle.std.specs.Prelude.{◌≡◌};
ghost use Rattle.tapes.specs.Values.{value_read};

use model::stamp::Value;

// How null is written.
const NULL: u8 = 255;

// The value that a byte stands for. `From` for an `Option` of a number is not ours to write.
pub fn value_read(byte: u8) -> Option<Value>
    ensures { result ≡ value_read byte }
{
    (byte != NULL).then_some(byte)
}
