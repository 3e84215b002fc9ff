// Where the kiosk's board is.
ghost use Rattle.std.specs.Prelude.{◌≡◌};
ghost use Rattle.kiosk.specs.Desks.{board_at};

use setups::making::KioskRegister;
use setups::setup::Setup;
use stores::board::Board;

// The board lies bare until a scheme is accepted. From then on a register has it, and what was chosen for that register stands
// beside it.
#[derive(Drop)]
pub enum Desk<'a> {
    Bare(Board<'a>),
    Made(KioskRegister<'a>, Setup),
}

impl<'a> Desk<'a> {
    // The board; a register that has it is given up.
    pub fn into_board(self) -> Board<'a>
        ensures { result ≡ board_at self.entry }
    {
        match self {
            Desk::Bare(board) => board,
            Desk::Made(register, _) => register.into_store().into_board(),
        }
    }
}
