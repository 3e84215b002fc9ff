// The table of orders: each order's byte, how many one-byte operands follow it, and the tape that it belongs to.
ghost use Rattle.std.specs.Prelude.{◌≡◌};
ghost use Rattle.tapes.specs.Table.{row_of, OneRow};

use crate::tape::Tape;

#[derive(Clone, Copy)]
pub struct OrderRow {
    pub byte: u8,
    pub operands: u8,
    pub tape: Tape,
}

macro_rules! rows {
    ($($byte:literal $operands:literal $tape:ident;)*) => {
        [$(OrderRow { byte: $byte, operands: $operands, tape: Tape::$tape }),*]
    };
}

const ORDERS: [OrderRow; 17] = rows![
    0x10 2 Scheme;
    0x1F 0 Scheme;
    0x20 3 Scheme;
    0x21 3 Scheme;
    0x22 3 Scheme;
    0x23 3 Scheme;
    0x30 3 Scheme;
    0x31 3 Scheme;
    0x32 3 Scheme;
    0x33 1 Scheme;
    0x34 1 Scheme;
    0x40 5 Opening;
    0x41 5 Opening;
    0x42 3 Opening;
    0x50 5 Certificate;
    0x51 4 Certificate;
    0x60 5 Bans;
];

// The row of a byte, where it is an order of any tape.
pub fn row_of(byte: u8) -> Option<OrderRow>
    ensures row { result ≡ row_of byte }
    ensures rule { OneRow }
{
    ORDERS.iter().find(|row| row.byte == byte).copied()
}
