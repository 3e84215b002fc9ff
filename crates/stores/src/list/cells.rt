// A list as a cell store.
ghost use Rattle.std.specs.Prelude.{◌≡◌, [], is_ok, MatchResult};
ghost use Rattle.model.specs.Answers.{refused_by, lowest, unless};
ghost use Rattle.stores.specs.Matrices.{blank, written, takes, write_rules};
ghost use Rattle.stores.specs.RecordLists.{records_of, in_use, contents, list_limit, shown};
ghost use Rattle.stores.specs.Records.{Lists};
ghost use Rattle.std.proofs.Common.{rules};

use crate::list::RecordList;
use crate::record::Record;
use crate::store::CellStore;
use model::fault::Reason;
use model::mask::Mask;
use model::name::{NAMES, Name};

impl CellStore for RecordList {
    ghost cells = { shown };

    ghost most = { list_limit };

    ghost of_names = { Prim.search rules };

    fn read(&self, row: Name, column: Name) -> Mask {
        match self.find(row, column) {
            Some(i) => self.records[i].mask,
            None => 0,
        }
    }

    fn write(&mut self, row: Name, column: Name, mask: Mask) -> Result<(), Reason>
        ensures answer { refused_by result ≡ lowest (write_rules (list_limit self.old) (shown self.old) row column mask) }
        ensures taken { is_ok result ≡ takes (list_limit self.old) (shown self.old) row column mask }
        ensures after { shown self.new ≡ unless (refused_by result) (shown self.old) (written (shown self.old) row column mask) }
        ensures limit { list_limit self.new ≡ list_limit self.old }
        ensures memory { MatchResult result (λ _. Lists (in_use self.new) (shown self.new)) (λ _. self.new ≡ self.old) }
    {
        if row >= NAMES || column >= NAMES {
            return Err(Reason::NoSuchName);
        }
        match self.find(row, column) {
            Some(i) => {
                self.replace(i, mask);
                Ok(())
            }
            None if mask == 0 => Ok(()),
            None => self.add(Record { row, column, mask }),
        }
    }

    fn filled(&self) -> usize {
        self.used
    }

    fn limit(&self) -> usize {
        self.records.len()
    }

    fn clear(&mut self)
        ensures after { shown self.new ≡ blank }
        ensures limit { list_limit self.new ≡ list_limit self.old }
        ensures memory { contents self.new ≡ (records_of self.old, []) }
    {
        self.free_all();
    }
}
