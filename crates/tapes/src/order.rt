// An order with its operands, which it borrows from its tape.
ghost use Rattle.std.specs.Prelude.{◌≡◌};
ghost use Rattle.std.specs.Option.{option_map};
ghost use Rattle.tapes.specs.Orders.{case_of, decoded};

// The letters in the comments are the operands in their order.
#[derive(Clone, Copy)]
pub enum Order<'a> {
    // Begin a command of p parameters; bit i of q declares parameter i a card.
    Begin(&'a [u8; 2]),
    // End the command.
    End,
    // Test that right r is in the cell [i, j].
    Holds(&'a [u8; 3]),
    // Test that attribute k of i is v.
    Is(&'a [u8; 3]),
    // Test that attribute k of i is not v.
    IsNot(&'a [u8; 3]),
    // Test that attribute k of i covers attribute k of j.
    Covers(&'a [u8; 3]),
    // Enter right r into the cell [i, j].
    Enter(&'a [u8; 3]),
    // Delete right r from the cell [i, j].
    Delete(&'a [u8; 3]),
    // Set attribute k of i to v.
    Set(&'a [u8; 3]),
    // Create i.
    Create(&'a [u8; 1]),
    // Destroy i.
    Destroy(&'a [u8; 1]),
    // A card named e with its attributes a b c d.
    Card(&'a [u8; 5]),
    // A thing named e with its attributes a b c d.
    Thing(&'a [u8; 5]),
    // Right r in the cell [s, o].
    Right(&'a [u8; 3]),
    // List the stamp of kind t with its attributes a b c d.
    Stamp(&'a [u8; 5]),
    // Allow stamp u the mask 256 h + l on stamp v.
    Allow(&'a [u8; 4]),
    // Ban right r from a card whose k is v to an entry whose n is w.
    Ban(&'a [u8; 5]),
}

// The order that begins with this byte and has these operands; more operands than it has are left alone. It takes two
// arguments and has no error to name, so it is no `TryFrom`. The project asks for this enum and for the table of orders; that
// the two agree is proved where orders are read.
pub fn decode<'a>(byte: u8, operands: &'a [u8]) -> Option<Order<'a>>
    ensures { option_map case_of result ≡ decoded byte operands.now }
{
    match byte {
        0x10 => operands.first_chunk().map(Order::Begin),
        0x1F => Some(Order::End),
        0x20 => operands.first_chunk().map(Order::Holds),
        0x21 => operands.first_chunk().map(Order::Is),
        0x22 => operands.first_chunk().map(Order::IsNot),
        0x23 => operands.first_chunk().map(Order::Covers),
        0x30 => operands.first_chunk().map(Order::Enter),
        0x31 => operands.first_chunk().map(Order::Delete),
        0x32 => operands.first_chunk().map(Order::Set),
        0x33 => operands.first_chunk().map(Order::Create),
        0x34 => operands.first_chunk().map(Order::Destroy),
        0x40 => operands.first_chunk().map(Order::Card),
        0x41 => operands.first_chunk().map(Order::Thing),
        0x42 => operands.first_chunk().map(Order::Right),
        0x50 => operands.first_chunk().map(Order::Stamp),
        0x51 => operands.first_chunk().map(Order::Allow),
        0x60 => operands.first_chunk().map(Order::Ban),
        _ => None,
    }
}
