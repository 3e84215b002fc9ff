// A fault as one number.
ghost use Rattle.std.specs.Prelude.{◌≡◌, ◌+◌, ◌*◌, ◌^◌, ◌<◌};
ghost use Rattle.model.specs.Answers.{refusal};
ghost use Rattle.kiosk_c.specs.Codes.{code_of, Readable};

use model::fault::Fault;

// The layer and the number of the rule take eight bits each, and the place sixteen.
#[tactic(auto, using(crate::proofs::ReadingBack::has_layer))]
pub(crate) fn code(fault: Fault) -> u32
    ensures value { result ≡ code_of (refusal fault) }
    ensures readable { Readable (refusal fault) }
{
    let layer = u8::from(fault.layer);
    let number = u8::from(fault.reason);
    in_bytes(layer, number, fault.place)
}

// The three as one number.
fn in_bytes(layer: u8, number: u8, place: u16) -> u32
    ensures value { result ≡ layer * 2 ^ 24 + number * 2 ^ 16 + place }
    ensures fits { (layer < 256) × (number < 256) × (place < 65536) }
{
    u32::from(layer) * 0x0100_0000 + u32::from(number) * 0x0001_0000 + u32::from(place)
}
