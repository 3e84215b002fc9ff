// Eight values in a row, where the higher covers the lower and itself.
ghost use Rattle.std.specs.Prelude.{◌≡◌};
ghost use Rattle.model.specs.Scales.{ladder_covers};
ghost use Rattle.std.proofs.Common.{rules};

use crate::scale::Scale;

pub struct Ladder;

impl Scale for Ladder {
    const COUNT: u8 = 8;

    ghost COUNT = { 8 };

    ghost covering = { ladder_covers };

    ghost some = { Prim.search rules };

    ghost few = { Prim.search rules };

    fn covers(a: u8, b: u8) -> bool {
        a < Self::COUNT && b < Self::COUNT && a >= b
    }
}
