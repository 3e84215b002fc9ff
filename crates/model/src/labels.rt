// Sixteen values read as sets of four bits, where a set covers each set that it contains.
ghost use Rattle.std.specs.Prelude.{◌≡◌};
ghost use Rattle.model.specs.Scales.{labels_cover};
ghost use Rattle.std.proofs.Common.{rules};

use crate::scale::Scale;

pub struct Labels;

impl Scale for Labels {
    const COUNT: u8 = 16;

    ghost COUNT = { 16 };

    ghost covering = { labels_cover };

    ghost some = { Prim.search rules };

    ghost few = { Prim.search rules };

    // Every scale looks at the bounds first, since its relation is one of values only.
    fn covers(a: u8, b: u8) -> bool {
        a < Self::COUNT && b < Self::COUNT && a & b == b
    }
}
