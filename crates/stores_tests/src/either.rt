// What every store does, whichever it is.
use model::fault::Reason;
use model::name::Name;
use std::process::Abort;
use std::test::Fail;
use stores::board::Board;
use stores::list::RecordList;
use stores::record::Record;
use stores::store::CellStore;

fn ends_are_empty<S: CellStore>(rt: &impl Abort, store: &S) {
    let pairs: [(Name, Name); 4] = [(64, 0), (0, 64), (255, 255), (1, 0)];
    assert!(rt;
        pairs
            .iter()
            .all(|(row, column)| store.read(*row, *column) == 0)
    );
}

// Over an empty store with room for at least two cells.
fn keeps_cells<S: CellStore>(rt: &impl Abort, store: &mut S) {
    let limit = store.limit();
    assert!(rt; store.filled() == 0);
    assert!(rt; store.write(63, 63, 0x8001).is_ok());
    assert!(rt; store.write(0, 63, 2).is_ok());
    assert!(rt; store.filled() == 2 && store.limit() == limit);
    assert!(rt; store.read(63, 63) == 0x8001 && store.read(0, 63) == 2);
    ends_are_empty(rt, store);
    // A write to a full cell takes the place of what was there, and one of 0 empties it.
    assert!(rt; store.write(63, 63, 4).is_ok() && store.read(63, 63) == 4 && store.filled() == 2);
    assert!(rt; store.write(63, 63, 0).is_ok() && store.read(63, 63) == 0 && store.filled() == 1);
    assert!(rt; store.read(0, 63) == 2);
    assert!(rt; store.write(63, 63, 1).is_ok() && store.read(63, 63) == 1);
    // No name, no cell; not even an empty mask is taken.
    assert!(rt; store.write(64, 0, 1) == Err(Reason::NoSuchName));
    assert!(rt; store.write(0, 64, 1) == Err(Reason::NoSuchName));
    assert!(rt; store.write(255, 255, 0) == Err(Reason::NoSuchName));
    assert!(rt; store.filled() == 2);
    store.clear();
    assert!(rt; store.filled() == 0 && store.read(63, 63) == 0 && store.limit() == limit);
}

// The count follows a cell that is filled, written over, emptied and filled again; over an empty store.
fn counts_cells<S: CellStore>(rt: &impl Abort, store: &mut S) {
    assert!(rt; store.write(5, 6, 0).is_ok() && store.filled() == 0);
    assert!(rt; store.write(5, 6, 1).is_ok() && store.filled() == 1);
    assert!(rt; store.write(5, 6, 2).is_ok() && store.filled() == 1);
    assert!(rt; store.write(5, 64, 1).is_err() && store.filled() == 1);
    assert!(rt; store.write(5, 6, 0).is_ok() && store.filled() == 0);
    assert!(rt; store.write(5, 6, 3).is_ok() && store.filled() == 1);
    store.clear();
    assert!(rt; store.filled() == 0 && store.write(5, 6, 4).is_ok() && store.filled() == 1);
}

#[test]
fn board(rt: HostRuntime) -> Result<(), Fail> {
    let mut memory = [7; 4096];
    let mut board = Board::new(&mut memory)
        .ok()
        .ok_or("4096 masks are a board")?;
    keeps_cells(&rt, &mut board);
    counts_cells(&rt, &mut board);
    Ok(())
}

#[test]
fn list(rt: HostRuntime) -> Result<(), Fail> {
    let record = Record {
        row: 63,
        column: 63,
        mask: 7,
    };
    let records = vec![in rt.alloc(); record; 2]?;
    let mut list = RecordList::new(records).map_err(|_| "two records are a list")?;
    keeps_cells(&rt, &mut list);
    counts_cells(&rt, &mut list);
    Ok(())
}
