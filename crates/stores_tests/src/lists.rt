// Lists by their memory.
use model::fault::Reason;
use std::alloc::Global;
use std::process::Abort;
use std::test::Fail;
use stores::list::RecordList;
use stores::list::memory::list_size;
use stores::record::Record;
use stores::store::CellStore;

const USED: Record = Record {
    row: 1,
    column: 2,
    mask: 3,
};

fn list_of(heap: Global, records: usize) -> Result<RecordList, Fail> {
    let list = RecordList::new(vec![in heap; USED; records]?);
    Ok(list.map_err(|_| "1 to 4096 records are a list")?)
}

// Boards are refused in a like way, but lend their memory, and look at it mask by mask.
fn refused(rt: &impl Abort, heap: Global, records: usize) -> Result<(), Fail> {
    match RecordList::new(vec![in heap; USED; records]?) {
        Ok(_) => Err(Fail::new("only 1 to 4096 records are a list")),
        Err(unfit) => {
            assert!(rt; u8::from(unfit.fault.layer) == 7);
            assert!(rt; u8::from(unfit.fault.reason) == 23);
            assert!(rt; unfit.fault.place == 0);
            assert!(rt; unfit.memory.len() == records);
            assert!(rt; unfit.memory.iter().all(|record| *record == USED));
            Ok(())
        }
    }
}

#[test]
fn lengths(rt: HostRuntime) -> Result<(), Fail> {
    refused(&rt, rt.alloc(), 0)?;
    refused(&rt, rt.alloc(), 4097)?;
    assert!(rt; list_of(rt.alloc(), 1)?.limit() == 1);
    let most = list_of(rt.alloc(), 4096)?;
    assert!(rt; most.limit() == 4096 && most.filled() == 0 && most.read(1, 2) == 0);
    assert!(rt; list_size(0).is_err() && list_size(1).is_ok() && list_size(4097).is_err());
    Ok(())
}

// With one record, one cell may be filled at a time, any one, again and again.
#[test]
fn one_record(rt: HostRuntime) -> Result<(), Fail> {
    let mut list = list_of(rt.alloc(), 1)?;
    assert!(rt; list.write(5, 6, 1).is_ok() && list.write(5, 6, 2).is_ok());
    assert!(rt; list.write(6, 5, 1) == Err(Reason::StoreTooSmall));
    assert!(rt; list.write(6, 5, 0).is_ok() && list.read(6, 5) == 0);
    assert!(rt; list.read(5, 6) == 2 && list.filled() == 1);
    assert!(rt; list.write(5, 6, 0).is_ok() && list.write(6, 5, 1).is_ok());
    assert!(rt; list.read(5, 6) == 0 && list.read(6, 5) == 1);
    Ok(())
}

// The last record moves to the place of one that goes; all records are handed back.
#[test]
fn records(rt: HostRuntime) -> Result<(), Fail> {
    let mut list = list_of(rt.alloc(), 4)?;
    assert!(rt;
        list.write(1, 1, 1).is_ok() && list.write(2, 2, 2).is_ok() && list.write(3, 3, 3).is_ok()
    );
    assert!(rt; list.write(1, 1, 0).is_ok());
    let used = list.records();
    assert!(rt; used.iter().all(|record| record.row == record.column));
    let masks = used.iter().fold(0, |masks, record| masks | record.mask);
    assert!(rt; masks == 3 && used.len() == 2);
    assert!(rt; list.read(2, 2) == 2 && list.read(3, 3) == 3);
    assert!(rt; list.into_records().len() == 4);
    Ok(())
}
