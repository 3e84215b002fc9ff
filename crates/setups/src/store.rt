// Where the cells of the kiosk's register lie: on its board, or in a list.
ghost use Rattle.std.specs.Prelude.{◌≡◌, IfOk, MatchResult};
ghost use Rattle.std.specs.Option.{ForSome, option_map};
ghost use Rattle.stores.specs.Matrices.{blank};
ghost use Rattle.stores.specs.RecordLists.{shown as shown_list, list_limit};
ghost use Rattle.setups.specs.Making.{MadeStore, WantsRecords, records_in};
ghost use Rattle.setups.specs.Stores.{shown, limit_of, board_of};
ghost use Rattle.std.proofs.Common.{rules};

use crate::setup::StoreChoice;
use crate::size::ListSize;
use model::fault::Reason;
use model::mask::Mask;
use model::name::Name;
use std::alloc::{AllocError, Global};
use stores::board::Board;
use stores::list::RecordList;
use stores::record::Record;
use stores::store::CellStore;

// A kiosk has one board. While the cells lie in a list, it is put by.
#[derive(Drop)]
pub enum KioskStore<'a> {
    OnBoard(Board<'a>),
    InList { list: RecordList, board: Board<'a> },
}

impl CellStore for KioskStore<'_> {
    ghost cells = { shown };

    ghost most = { limit_of };

    ghost of_names = { Prim.search rules };

    fn read(&self, row: Name, column: Name) -> Mask {
        match self {
            KioskStore::OnBoard(board) => board.read(row, column),
            KioskStore::InList { list, board: _ } => list.read(row, column),
        }
    }

    fn write(&mut self, row: Name, column: Name, mask: Mask) -> Result<(), Reason> {
        match self {
            KioskStore::OnBoard(board) => board.write(row, column, mask),
            KioskStore::InList { list, board: _ } => list.write(row, column, mask),
        }
    }

    fn filled(&self) -> usize {
        match self {
            KioskStore::OnBoard(board) => board.filled(),
            KioskStore::InList { list, board: _ } => list.filled(),
        }
    }

    fn limit(&self) -> usize {
        match self {
            KioskStore::OnBoard(board) => board.limit(),
            KioskStore::InList { list, board: _ } => list.limit(),
        }
    }

    fn clear(&mut self) {
        match self {
            KioskStore::OnBoard(board) => board.clear(),
            KioskStore::InList { list, board: _ } => list.clear(),
        }
    }
}

// An empty list of so many records.
fn empty_list(heap: Global, size: &ListSize) -> Result<RecordList, AllocError>
    ensures cells { IfOk result (λ list. shown_list list ≡ blank) }
    ensures limit { IfOk result (λ list. list_limit list ≡ size.now) }
{
    let free = Record {
        row: 0,
        column: 0,
        mask: 0,
    };
    match RecordList::new(vec![in heap; free; size.records()]?) {
        Ok(list) => Ok(list),
        // The size is that of a list.
        Err(_) => unreachable!(),
    }
}

// What the store that is chosen takes beside the board: an empty list, or nothing. It is had before a board is given up for it,
// so that nothing is lost where memory is wanting.
#[derive(Drop)]
pub struct StoreRoom {
    choice: StoreChoice,
    list: Option<RecordList>,
    ghost size: { option_map list_limit list ≡ records_in choice },
    ghost empty: { ForSome list (λ l. shown_list l ≡ blank) },
}

impl StoreRoom {
    // Memory can be wanting only for a list's records.
    pub fn new(heap: Global, choice: &StoreChoice) -> Result<StoreRoom, AllocError>
        ensures { MatchResult result (λ room. room.choice ≡ choice.now) (λ _. WantsRecords choice.now) }
    {
        let list = match choice {
            StoreChoice::Board => None,
            StoreChoice::List(size) => Some(empty_list(heap, size)?),
        };
        Ok(StoreRoom {
            choice: *choice,
            list,
        })
    }
}

impl<'a> KioskStore<'a> {
    // The store that is chosen, with this board.
    #[tactic(auto, using(crate::proofs::Made::board_made, crate::proofs::Made::list_made))]
    pub fn new(room: StoreRoom, board: Board<'a>) -> KioskStore<'a>
        ensures { MadeStore room.choice board.entry result }
    {
        let StoreRoom { choice: _, list } = room;
        match list {
            None => KioskStore::OnBoard(board),
            Some(list) => KioskStore::InList { list, board },
        }
    }

    // The board, of a store that is given up.
    pub fn into_board(self) -> Board<'a>
        ensures { result ≡ board_of self.entry }
    {
        match self {
            KioskStore::OnBoard(board) => board,
            KioskStore::InList { list, board } => {
                drop(list);
                board
            }
        }
    }
}
