// Four tapes, handed over in one call.
ghost use Rattle.model.specs.Answers.{answer};
ghost use Rattle.scheme.specs.Views.{commands_of};
ghost use Rattle.kiosk_c.specs.Codes.{OpenedThenChecked, Handed, Coded, OneCode, ReadBack};
ghost use Rattle.kiosk_c.specs.Worked.{WorkedCodes};

use crate::code::code;
use model::fault::Fault;
use model::scales::KioskScales;
use promise::calls::{begin, check, open};
use rulings::matrix::MatrixRuling;
use scheme_tape::lawful::LawfulScheme;
use scheme_tape::reader::read_scheme;
use stores::board::{Board, CELLS};

// Opens a register of the scheme on a board, and checks the certificate and the bans on it.
fn check_on(
    board: Board,
    scheme: LawfulScheme<KioskScales>,
    opening: &[u8],
    certificate: &[u8],
    bans: &[u8],
) -> Result<(), Fault>
    ensures { OpenedThenChecked (commands_of scheme.scheme) opening.now certificate.now bans.now (answer (λ done. done) result) }
{
    let mut register = begin(scheme, board, MatrixRuling);
    open(&mut register, opening)?;
    check(&register, certificate, bans)
}

// Takes the tapes in the order of their layers, each where those before are accepted. The board is the call's own.
fn take_all(scheme: &[u8], opening: &[u8], certificate: &[u8], bans: &[u8]) -> Result<(), Fault>
    ensures { Handed scheme.now opening.now certificate.now bans.now (answer (λ done. done) result) }
{
    let scheme = read_scheme::<KioskScales>(scheme)?;
    let mut masks = [0; CELLS];
    match Board::new(&mut masks) {
        Ok(board) => check_on(board, scheme, opening, certificate, bans),
        // Never: 4,096 masks are a board's memory.
        Err(unfit) => Err(unfit.fault),
    }
}

// 0 where all four tapes are accepted, and else the first fault as a number: its layer times 2^24, its number times 2^16, and its
// place.
#[unsafe(no_mangle)]
pub extern "C" fn kiosk_check(scheme: &[u8], opening: &[u8], certificate: &[u8], bans: &[u8]) -> u32
    ensures code { Coded scheme.now opening.now certificate.now bans.now result }
    ensures one { OneCode }
    ensures back { ReadBack }
    ensures worked { WorkedCodes }
{
    match take_all(scheme, opening, certificate, bans) {
        Ok(()) => 0,
        Err(fault) => code(fault),
    }
}
