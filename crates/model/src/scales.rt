// The scales of the four attributes, taken together.
ghost use Rattle.std.specs.Prelude.{◌≡◌, ℕ, Bool};
ghost use Rattle.model.specs.Counts.{counts_by};
ghost use Rattle.model.specs.Scales.{covers_in, four_scales};
ghost use Rattle.model.specs.declared.counts.Counts.{Counts};

use crate::counts::Counts;
use crate::labels::Labels;
use crate::ladder::Ladder;
use crate::scale::Scale;
use crate::stamp::{Attribute, Value};

// Any four scales are such a choice, in the order of the attributes that they are for.
pub trait Scales {
    // How many values each attribute has.
    ghost counts: { Counts };

    // In the scale of attribute k, a covers b.
    ghost covering: { (k a b : ℕ) → Bool };

    fn counts() -> Counts
        ensures { result ≡ counts };

    // Whether the first covers the second as a value of attribute `k`; no attribute over 3 has values.
    fn covers(k: Attribute, a: Value, b: Value) -> bool
        ensures { result ≡ covering k a b };
}

impl<S0: Scale, S1: Scale, S2: Scale, S3: Scale> Scales for (S0, S1, S2, S3) {
    ghost counts = { counts_by S0.Scale.COUNT S1.Scale.COUNT S2.Scale.COUNT S3.Scale.COUNT };

    ghost covering = { four_scales (covers_in S0.Scale.COUNT S0.Scale.covering) (covers_in S1.Scale.COUNT S1.Scale.covering) (covers_in S2.Scale.COUNT S2.Scale.covering) (covers_in S3.Scale.COUNT S3.Scale.covering) };

    fn counts() -> Counts {
        Counts::of::<S0, S1, S2, S3>()
    }

    fn covers(k: Attribute, a: Value, b: Value) -> bool {
        match k {
            0 => S0::covers(a, b),
            1 => S1::covers(a, b),
            2 => S2::covers(a, b),
            3 => S3::covers(a, b),
            _ => false,
        }
    }
}

// The kiosk's choice: the grade and attribute 3 are ladders, 1 and 2 are labels.
pub type KioskScales = (Ladder, Labels, Labels, Ladder);
