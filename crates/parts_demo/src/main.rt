// Shows the parts that a register is put together from: both cell stores, used by the same code, and the kiosk's pile
// of filters, put one question after the other.
#![tactic(auto)]

mod questions;
mod writes;

use model::mask::Mask;
use questions::show_pile;
use std::alloc::Global;
use std::io;
use stores::board::{Board, CELLS};
use stores::list::RecordList;
use stores::record::Record;
use stores::store::CellStore;
use stores::unfit::Unfit;
use words::InWords;
use writes::show_store;

// The writes to a store that was made, or why it was not.
fn show_made<S: CellStore + Drop, M: Drop>(
    rt: &HostRuntime,
    made: Result<S, Unfit<M>>,
) -> io::Result<()> {
    match made {
        Ok(mut store) => show_store(rt, &mut store),
        Err(unfit) => {
            let fault = InWords(unfit.fault);
            println!(rt; "  {fault}")
        }
    }
}

fn show_board(rt: &HostRuntime, memory: &mut [Mask]) -> io::Result<()> {
    let masks = memory.len();
    println!(rt; "a board over {masks} masks:")?;
    show_made(rt, Board::new(memory))
}

fn show_list(rt: &HostRuntime, records: Vec<Record>) -> io::Result<()> {
    let count = records.len();
    println!(rt; "a list of {count} records:")?;
    show_made(rt, RecordList::new(records))
}

fn run(rt: &HostRuntime) -> io::Result<()> {
    let heap: Global = rt.alloc();
    let mut masks = vec![in heap; 0; CELLS]?;
    show_board(rt, masks.as_mut_slice())?;
    show_board(rt, &mut masks.as_mut_slice()[1..])?;
    let free = Record {
        row: 0,
        column: 0,
        mask: 0,
    };
    show_list(rt, vec![in heap; free; 2]?)?;
    show_list(rt, vec![in heap; free; 0]?)?;
    show_pile(rt)
}

fn main(rt: HostRuntime) -> io::Result<()> {
    run(&rt)
}
