// What an accepted opening opens.
use crate::samples::{SMALL_KIOSK, accepts, between, open, refuses};
use model::kind::Kind;
use model::stamp::Stamp;
use protection::entries::Entries;
use std::process::Abort;
use std::test::Fail;
use stores::board::Board;
use stores::list::RecordList;
use stores::record::Record;
use stores::store::CellStore;

const FREE: Record = Record {
    row: 0,
    column: 0,
    mask: 0,
};

fn opens_the_kiosk<S: CellStore>(rt: &impl Abort, store: &mut S) {
    let mut entries = Entries::none();
    assert!(rt; open(&SMALL_KIOSK, &mut entries, store) == Ok(()));
    let card = Stamp {
        kind: Kind::Subject,
        attributes: [Some(3), None, None, None],
    };
    assert!(rt; entries.get(0) == Some(card));
    assert!(rt; entries.get(1).and_then(|stamp| stamp.attribute(0)) == Some(1));
    assert!(rt; matches!(entries.get(2), Some(stamp) if stamp.kind == Kind::Object));
    assert!(rt; entries.get(3).is_none());
    assert!(rt; store.filled() == 2 && store.read(0, 2) == 1 && store.read(0, 1) == 2);
    // Another opening takes the place of all that stood.
    assert!(rt; open(&[], &mut entries, store) == Ok(()));
    assert!(rt; entries.get(0).is_none() && store.filled() == 0);
}

#[test]
fn kiosk_on_a_board(rt: HostRuntime) -> Result<(), Fail> {
    let mut memory = [7; 4096];
    let mut board = Board::new(&mut memory)
        .ok()
        .ok_or("4096 masks are a board")?;
    opens_the_kiosk(&rt, &mut board);
    Ok(())
}

#[test]
fn kiosk_in_a_list(rt: HostRuntime) -> Result<(), Fail> {
    let records = vec![in rt.alloc(); FREE; 2]?;
    let mut list = RecordList::new(records).map_err(|_| "two records are a list")?;
    opens_the_kiosk(&rt, &mut list);
    Ok(())
}

// The second right of the worked opening is over the limit of one record.
#[test]
fn kiosk_in_a_list_of_one(rt: HostRuntime) -> Result<(), Fail> {
    let records = vec![in rt.alloc(); FREE; 1]?;
    let mut list = RecordList::new(records).map_err(|_| "one record is a list")?;
    refuses(&rt, &SMALL_KIOSK, &mut list, 8, 22);
    Ok(())
}

// A right may be repeated, and a second right in a cell needs no room.
#[test]
fn one_cell_is_enough(rt: HostRuntime) -> Result<(), Fail> {
    let heap = rt.alloc();
    let records = vec![in heap; FREE; 1]?;
    let mut list = RecordList::new(records).map_err(|_| "one record is a list")?;
    accepts(
        &rt,
        between(heap, &[0x42, 5, 0, 1])?.as_slice(),
        &mut list,
        2,
        1,
    );
    // 7 comes before 8, and 8 where the cell alone is missing.
    refuses(
        &rt,
        between(heap, &[0x42, 5, 0, 3])?.as_slice(),
        &mut list,
        7,
        16,
    );
    refuses(
        &rt,
        between(heap, &[0x42, 5, 0, 0])?.as_slice(),
        &mut list,
        8,
        16,
    );
    Ok(())
}
