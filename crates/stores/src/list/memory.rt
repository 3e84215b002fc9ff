// How a list comes by its records, and how it gives them back.
ghost use Rattle.std.specs.Prelude.{◌≡◌, [], take, if◌then◌else◌, Some, None, vec_len};
ghost use Rattle.model.specs.Answers.{answer};
ghost use Rattle.stores.specs.Matrices.{count};
ghost use Rattle.stores.specs.RecordLists.{fits_list, if_list, contents, in_use, shown};
ghost use Rattle.stores.specs.Records.{Lists};
ghost use Rattle.stores.specs.Unfit.{made_answer, handed_back};

use crate::list::RecordList;
use crate::record::Record;
use crate::unfit::Unfit;
use model::fault::{Fault, Layer, Reason};

// How many records a list has at most: more cells there are not.
pub const MOST_RECORDS: usize = 4096;

// Whether a list of so many records can be made.
pub fn list_size(records: usize) -> Result<usize, Fault>
    ensures { answer (λ n. n) result ≡ if_list records records }
{
    if (1..=MOST_RECORDS).contains(&records) {
        Ok(records)
    } else {
        Err(Fault {
            layer: Layer::Parts,
            reason: Reason::ListSize,
            place: 0,
        })
    }
}

impl RecordList {
    // A list of no cells, or the records back as they were where they are not 1 to 4,096.
    pub fn new(records: Vec<Record>) -> Result<RecordList, Unfit<Vec<Record>>>
        ensures answer { made_answer contents result ≡ if_list (vec_len records) (records.items, []) }
        ensures back { handed_back (λ v. v) result ≡ (if fits_list (vec_len records) then None else Some records) }
    {
        match list_size(records.len()) {
            Ok(_) => Ok(RecordList { records, used: 0 }),
            Err(fault) => Err(Unfit {
                fault,
                memory: records,
            }),
        }
    }

    // The records in use: exactly the non-empty cells, each once, in an order that is free.
    pub fn records(&self) -> &[Record]
        ensures value { result.now ≡ in_use self.now }
        ensures exact { Lists result.now (shown self.now) }
    {
        let all = self.records.as_slice();
        &all[..self.used]
    }

    // Gives all records back, those in use first: as many as there are non-empty cells.
    pub fn into_records(self) -> Vec<Record>
        ensures value { result ≡ self.records }
        ensures exact { Lists (take (count (shown self)) result.items) (shown self) }
    {
        let RecordList { records, used: _ } = self;
        records
    }
}
