// The four tapes that a kiosk is handed.
ghost use Rattle.std.specs.Prelude.{◌≡◌};
ghost use Rattle.tapes.specs.Tapes.{layer_of};

use model::fault::Layer;

#[derive(Clone, Copy, PartialEq, Eq)]
pub enum Tape {
    Scheme,
    Opening,
    Certificate,
    Bans,
}

// The layer in which a tape's faults lie.
impl From<Tape> for Layer {
    ghost from_gives = { λ tape layer. layer ≡ layer_of tape };

    fn from(tape: Tape) -> Layer {
        match tape {
            Tape::Scheme => Layer::Scheme,
            Tape::Opening => Layer::Opening,
            Tape::Certificate => Layer::Certificate,
            Tape::Bans => Layer::Bans,
        }
    }
}
