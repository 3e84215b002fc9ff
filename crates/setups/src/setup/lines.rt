// A setup as the lines of a script that choose it.
ghost use Rattle.std.specs.Prelude.{Some};
ghost use Rattle.setups.specs.Setups.{store_line, filter_line, setup_lines};

use crate::setup::{Setup, StoreChoice};
use model::mask::Mask;
use model::stamp::Attribute;
use std::fmt;
use words::mask::MaskDigits;

#[derive(Clone, Copy)]
struct StoreLine(StoreChoice);

impl fmt::Display for StoreLine {
    ghost output = { λ l. Some (store_line l.0) };

    fn fmt<W: fmt::Write>(&self, f: &mut fmt::Formatter<W>) -> fmt::Result {
        match self.0 {
            StoreChoice::Board => writeln!(f, "store board"),
            StoreChoice::List(size) => writeln!(f, "store list {size}"),
        }
    }
}

// A mask of 0 filters nothing, and has no line.
#[derive(Clone, Copy)]
struct FilterLine(Attribute, Mask);

impl fmt::Display for FilterLine {
    ghost output = { λ l. Some (filter_line l.0 l.1) };

    fn fmt<W: fmt::Write>(&self, f: &mut fmt::Formatter<W>) -> fmt::Result {
        let FilterLine(attribute, mask) = *self;
        if mask == 0 {
            Ok(())
        } else {
            writeln!(f, "filter {attribute} {}", MaskDigits(mask))
        }
    }
}

impl fmt::Display for Setup {
    ghost output = { λ setup. Some (setup_lines setup) };

    fn fmt<W: fmt::Write>(&self, f: &mut fmt::Formatter<W>) -> fmt::Result {
        let [m0, m1, m2, m3] = self.filters.each;
        write!(
            f,
            "{}{}{}{}{}",
            StoreLine(self.store),
            FilterLine(0, m0),
            FilterLine(1, m1),
            FilterLine(2, m2),
            FilterLine(3, m3)
        )
    }
}
