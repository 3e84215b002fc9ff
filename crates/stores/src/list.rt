// A list: a record for each cell that is not empty, in memory that the caller hands over.
ghost use Rattle.std.specs.Prelude.{◌≤◌, vec_len};
ghost use Rattle.stores.specs.Records.{Full, Apart};

use crate::record::Record;

pub mod cells;
mod edits;
pub mod memory;

// The first `used` records are the non-empty cells, each once; the others are free. A count stands beside the records by a
// rule of the project: a store fills fixed memory of the caller's, and hands it back whole.
#[derive(Drop)]
pub struct RecordList {
    records: Vec<Record>,
    used: usize,
    ghost room: { used ≤ vec_len records },
    ghost some: { 1 ≤ vec_len records },
    ghost few: { vec_len records ≤ 4096 },
    ghost full: { Full records.items used },
    ghost apart: { Apart records.items used },
}
