// The edits of a list. Each leaves the records in use the non-empty cells, each once, and each says that the limit stays,
// as the trait's own do. `replace` is the two above it, so the three ask and say alike.
ghost use Rattle.std.specs.Prelude.{◌≡◌, ◌<◌, [], if◌then◌else◌, Some, None, OnErr, nat_lt};
ghost use Rattle.std.specs.List.{position};
ghost use Rattle.model.specs.Answers.{refused_by, unless};
ghost use Rattle.stores.specs.Matrices.{written};
ghost use Rattle.stores.specs.RecordLists.{records_of, in_use, contents, list_limit, shown};
ghost use Rattle.stores.specs.Records.{at, is_of, Absent};

use crate::list::RecordList;
use crate::record::Record;
use model::fault::Reason;
use model::mask::Mask;
use model::name::Name;

impl RecordList {
    // The place of the record of a cell.
    pub(super) fn find(&self, row: Name, column: Name) -> Option<usize>
        ensures { result ≡ position (is_of row column) (in_use self.now) }
    {
        self.records()
            .iter()
            .position(|record| record.row == row && record.column == column)
    }

    // Another mask, which is not empty, in a record in use.
    fn change(&mut self, i: usize, mask: Mask)
        requires in_use { i < self.old.used }
        requires some { 0 < mask }
        ensures cells { shown self.new ≡ written (shown self.old) (at (records_of self.old) i).row (at (records_of self.old) i).column mask }
        ensures limit { list_limit self.new ≡ list_limit self.old }
    {
        self.records[i].mask = mask;
    }

    // The last record in use takes the place of one that goes.
    fn remove(&mut self, i: usize)
        requires { i < self.old.used }
        ensures cells { shown self.new ≡ written (shown self.old) (at (records_of self.old) i).row (at (records_of self.old) i).column 0 }
        ensures limit { list_limit self.new ≡ list_limit self.old }
    {
        let last = self.used - 1;
        self.records[i] = self.records[last];
        self.used = last;
    }

    // Another mask in a record in use, which goes where the mask is empty.
    pub(super) fn replace(&mut self, i: usize, mask: Mask)
        requires { i < self.old.used }
        ensures cells { shown self.new ≡ written (shown self.old) (at (records_of self.old) i).row (at (records_of self.old) i).column mask }
        ensures limit { list_limit self.new ≡ list_limit self.old }
    {
        if mask == 0 {
            self.remove(i);
        } else {
            self.change(i, mask);
        }
    }

    // One record more, of a cell that was empty; or a refusal and no change where no record is free.
    pub(super) fn add(&mut self, added: Record) -> Result<(), Reason>
        requires names { (added.row < 64) × (added.column < 64) }
        requires some { 0 < added.mask }
        requires absent { Absent (records_of self.old) self.old.used added.row added.column }
        ensures answer { refused_by result ≡ (if nat_lt self.old.used (list_limit self.old) then None else Some 16) }
        ensures cells { shown self.new ≡ unless (refused_by result) (shown self.old) (written (shown self.old) added.row added.column added.mask) }
        ensures limit { list_limit self.new ≡ list_limit self.old }
        ensures kept { OnErr result (self.new ≡ self.old) }
    {
        let at = self.used;
        if at >= self.records.len() {
            return Err(Reason::StoreTooSmall);
        }
        self.records[at] = added;
        self.used = at + 1;
        Ok(())
    }

    // No record is in use any more.
    pub(super) fn free_all(&mut self)
        ensures contents { contents self.new ≡ (records_of self.old, []) }
        ensures limit { list_limit self.new ≡ list_limit self.old }
    {
        self.used = 0;
    }
}
