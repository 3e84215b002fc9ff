// The order that stands at an offset of a tape.
ghost use Rattle.std.specs.Prelude.{◌≡◌, drop};
ghost use Rattle.std.specs.Option.{option_map};
ghost use Rattle.model.specs.Answers.{answer};
ghost use Rattle.tapes.specs.Readers.{placed, sized, with_size, handed_on, row_on, first_order};

use crate::order::{Order, decode};
use crate::table::{OrderRow, row_of};
use crate::tape::Tape;
use model::fault::{Fault, Layer, Reason};

// An order as a part of its tape: its offset there, and how many bytes it takes.
#[derive(Clone, Copy)]
pub struct Placed<'a> {
    pub order: Order<'a>,
    pub offset: u16,
    pub size: u16,
}

impl Tape {
    // The row of the byte, where it is an order of this tape.
    fn own_row(self, byte: u8) -> Option<OrderRow>
        ensures { result ≡ row_on byte self }
    {
        row_of(byte).filter(|row| row.tape == self)
    }

    // The order of this tape with which the bytes begin.
    fn first_order<'a>(self, bytes: &'a [u8]) -> Option<(Order<'a>, u16)>
        ensures { option_map sized result ≡ option_map with_size (first_order self bytes.now) }
    {
        let (byte, rest) = bytes.split_first()?;
        let row = self.own_row(*byte)?;
        let operands = rest.get(..usize::from(row.operands))?;
        let order = decode(*byte, operands)?;
        Some((order, 1 + u16::from(row.operands)))
    }

    // The order of this tape that stands at an offset; what is none is refused there. Bytes and offset are any, of any length,
    // which `Orders` would not take.
    pub fn order_at<'a>(self, bytes: &'a [u8], offset: u16) -> Result<Placed<'a>, Fault>
        ensures { answer placed result ≡ handed_on self offset (first_order self (drop offset bytes.now)) }
    {
        let refusal = Fault {
            layer: Layer::from(self),
            reason: Reason::NoOrder,
            place: offset,
        };
        let rest = bytes.get(usize::from(offset)..).ok_or(refusal)?;
        let (order, size) = self.first_order(rest).ok_or(refusal)?;
        Ok(Placed {
            order,
            offset,
            size,
        })
    }
}
