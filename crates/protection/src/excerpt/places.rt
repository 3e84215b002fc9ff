// What a step makes of one entry and of one cell, by which parameters they are of.
ghost use Rattle.std.specs.Prelude.{◌≡◌};
ghost use Rattle.protection.specs.Places.{cell_after, entry_after};

use crate::excerpt::stamps::{made, with_attribute};
use model::mask::{Mask, with_right, without_right};
use model::stamp::Stamp;
use scheme::step::Step;
use scheme::test::Parameter;

// The entry of parameter `a` after a step; bit i of `cards` declares parameter i a card.
pub(crate) fn entry_after(
    cards: u8,
    step: Step,
    a: Parameter,
    entry: Option<Stamp>,
) -> Option<Stamp>
    ensures { result ≡ entry_after cards step a entry }
{
    match step {
        Step::Set {
            parameter,
            attribute,
            value,
        } if a == parameter => entry.map(|stamp| with_attribute(stamp, attribute, value)),
        Step::Create { parameter } if a == parameter => Some(made(cards, parameter)),
        Step::Destroy { parameter } if a == parameter => None,
        _ => entry,
    }
}

// The mask after a step in the cell whose row is parameter `a` and whose column is parameter `b`.
pub(crate) fn cell_after(step: Step, a: Parameter, b: Parameter, mask: Mask) -> Mask
    ensures { result ≡ cell_after step a b mask }
{
    match step {
        Step::Enter { right, row, column } if a == row && b == column => with_right(mask, right),
        Step::Delete { right, row, column } if a == row && b == column => {
            without_right(mask, right)
        }
        Step::Create { parameter } | Step::Destroy { parameter }
            if a == parameter || b == parameter => 0,
        _ => mask,
    }
}
