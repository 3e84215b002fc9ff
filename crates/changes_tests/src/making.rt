// A change of two or three names, on a board and on a list that has no room to spare.
use changes::change::Change;
use changes::names::Names;
use model::fault::Reason;
use std::process::Abort;
use std::test::Fail;
use stores::board::Board;
use stores::list::RecordList;
use stores::record::Record;
use stores::store::CellStore;

// Destroys 1, and fills the two cells between 4 and 5.
fn exchange() -> Result<Change, Fail> {
    Ok(Change {
        names: Names::bind(3, &[1, 4, 5]).map_err(|_| "three names")?,
        renewed: [true, false, false],
        cells: [[0, 0, 0], [0, 0, 8], [0, 9, 0]],
    })
}

// One cell more than `exchange` fills.
fn growth() -> Result<Change, Fail> {
    Ok(Change {
        names: Names::bind(2, &[4, 5]).map_err(|_| "two names")?,
        renewed: [false; 3],
        cells: [[1, 8, 0], [9, 0, 0], [0; 3]],
    })
}

// Over an empty store with room for two cells at least: its row and its column make room for what comes.
fn exchanges<S: CellStore>(rt: &impl Abort, store: &mut S) -> Result<(), Fail> {
    assert!(rt; store.write(1, 63, 2).is_ok() && store.write(63, 1, 3).is_ok());
    let change = exchange()?;
    assert!(rt; change.filled_after(store) == 2);
    assert!(rt; change.make(store).is_ok());
    assert!(rt; store.filled() == 2 && store.read(4, 5) == 8 && store.read(5, 4) == 9);
    assert!(rt; store.read(1, 63) == 0 && store.read(63, 1) == 0);
    assert!(rt; growth()?.filled_after(store) == 3);
    Ok(())
}

#[test]
fn board(rt: HostRuntime) -> Result<(), Fail> {
    let mut memory = [7; 4096];
    let mut board = Board::new(&mut memory)
        .ok()
        .ok_or("4096 masks are a board")?;
    exchanges(&rt, &mut board)?;
    assert!(rt; growth()?.make(&mut board).is_ok() && board.read(4, 4) == 1);
    Ok(())
}

#[test]
fn list(rt: HostRuntime) -> Result<(), Fail> {
    let free = Record {
        row: 0,
        column: 0,
        mask: 0,
    };
    let records = vec![in rt.alloc(); free; 2]?;
    let mut list = RecordList::new(records).map_err(|_| "two records are a list")?;
    exchanges(&rt, &mut list)?;
    assert!(rt; growth()?.make(&mut list) == Err(Reason::StoreTooSmall));
    assert!(rt; list.filled() == 2 && list.read(4, 4) == 0 && list.read(4, 5) == 8);
    Ok(())
}
