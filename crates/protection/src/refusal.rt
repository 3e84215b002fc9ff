// How a request is refused.
ghost use Rattle.std.specs.Prelude.{◌≡◌};

use model::fault::{Fault, Layer, Reason};

// A refusal by the register, by a rule and at a place.
pub fn refusal(reason: Reason, place: u16) -> Fault
    ensures { result ≡ record { layer = Layer.Register; reason = reason; place = place } }
{
    Fault {
        layer: Layer::Register,
        reason,
        place,
    }
}
