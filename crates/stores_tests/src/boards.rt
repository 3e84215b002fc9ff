// Boards by their memory.
use model::fault::{Layer, Reason};
use model::mask::Mask;
use model::name::NAMES;
use std::process::Abort;
use std::test::Fail;
use stores::board::Board;
use stores::store::CellStore;

fn refused(rt: &impl Abort, memory: &mut [Mask]) -> Result<(), Fail> {
    match Board::new(memory) {
        Ok(_) => Err(Fail::new("only 4096 masks are a board")),
        Err(unfit) => {
            assert!(rt; u8::from(unfit.fault.layer) == 7);
            assert!(rt; u8::from(unfit.fault.reason) == 22);
            assert!(rt; unfit.fault.place == 0);
            assert!(rt; unfit.memory.iter().all(|mask| *mask == 7));
            Ok(())
        }
    }
}

#[test]
fn other_lengths(rt: HostRuntime) -> Result<(), Fail> {
    refused(&rt, &mut [7; 0])?;
    refused(&rt, &mut [7; 4095])?;
    refused(&rt, &mut [7; 4097])
}

// The mask of [s, o] lies at 64 · s + o, and the memory is handed back as it stands.
#[test]
fn places(rt: HostRuntime) -> Result<(), Fail> {
    let mut memory = [7; 4096];
    let mut board = Board::new(&mut memory)
        .ok()
        .ok_or("4096 masks are a board")?;
    assert!(rt; board.write(1, 2, 5).is_ok() && board.write(63, 63, 6).is_ok());
    assert!(rt; board.limit() == 4096);
    let masks = board.into_memory();
    assert!(rt; masks.len() == 4096);
    assert!(rt; masks[66] == 5 && masks[4095] == 6 && masks[0] == 0 && masks[129] == 0);
    Ok(())
}

// All cells at a time.
#[test]
fn full(rt: HostRuntime) -> Result<(), Fail> {
    let mut memory = [0; 4096];
    let mut board = Board::new(&mut memory)
        .ok()
        .ok_or("4096 masks are a board")?;
    for row in 0..NAMES {
        for column in 0..NAMES {
            assert!(rt; board.write(row, column, 1).is_ok());
        }
    }
    assert!(rt; board.filled() == 4096 && board.write(0, 0, 2).is_ok());
    assert!(rt; board.filled() == 4096 && board.write(0, 0, 0).is_ok());
    assert!(rt; board.filled() == 4095 && board.write(0, 0, 3).is_ok() && board.filled() == 4096);
    board.clear();
    assert!(rt; board.filled() == 0 && board.read(63, 63) == 0);
    Ok(())
}
