// How many records a list is to have.
ghost use Rattle.std.specs.Prelude.{◌≡◌, true, Some, decimal};
ghost use Rattle.model.specs.Answers.{answer};
ghost use Rattle.stores.specs.RecordLists.{if_list, fits_list};

use model::fault::Fault;
use std::fmt;
use std::marker::Model;
use stores::list::memory::list_size;

// A number of records that a list can have.
#[derive(Clone, Copy)]
pub struct ListSize {
    records: usize,
}

// A contract sees the number.
impl Model for ListSize {
    ghost use Rattle.std.specs.Prelude.{◌≡◌, ℕ, true};
    ghost use Rattle.stores.specs.RecordLists.{fits_list};

    ghost Value = { ℕ };

    ghost view = { λ s. s.records };

    ghost inverse = { λ n. record { records = n } };

    ghost invariant = { λ s. fits_list s.records ≡ true };
}

impl ListSize {
    // Refused where there is no list of so many records.
    pub fn new(records: usize) -> Result<ListSize, Fault>
        ensures { answer (λ size. size) result ≡ if_list records records }
    {
        let records = list_size(records)?;
        Ok(ListSize { records })
    }

    pub fn records(&self) -> usize
        ensures number { result ≡ self.now }
        ensures fits { fits_list result ≡ true }
    {
        self.records
    }
}

impl fmt::Display for ListSize {
    ghost output = { λ size. Some (decimal size) };

    fn fmt<W: fmt::Write>(&self, f: &mut fmt::Formatter<W>) -> fmt::Result {
        let ListSize { records } = *self;
        write!(f, "{records}")
    }
}
