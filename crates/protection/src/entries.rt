// Which entry stands under which name.
ghost use Rattle.std.specs.Prelude.{◌≡◌, ℕ, cond, not, None, ◌∷◌, []};
ghost use Rattle.model.specs.Answers.{refused_by, lowest, unless};
ghost use Rattle.protection.specs.Entries.{entry_of};
ghost use Rattle.protection.specs.Operations.{with_entry};
ghost use Rattle.protection.specs.States.{is_subject};
ghost use Rattle.stores.specs.Matrices.{is_name};

use model::fault::Reason;
use model::kind::Kind;
use model::name::{NAMES, Name};
use model::stamp::Stamp;

// A record for each name: the stamp of the entry that stands there, if one does.
#[derive(Clone, Copy)]
pub struct Entries {
    records: [Option<Stamp>; NAMES as usize],
}

impl Entries {
    // No name has an entry.
    pub fn none() -> Entries
        ensures { entry_of result ≡ (λ _. None) }
    {
        Entries {
            records: [None; NAMES as usize],
        }
    }

    // The stamp of the entry; a name over 63 has none.
    pub fn get(&self, name: Name) -> Option<Stamp>
        ensures entry { result ≡ entry_of self.now name }
        ensures names { (n : ℕ) → entry_of self.now n ≡ cond (is_name n) (entry_of self.now n) None }
    {
        self.records.get(usize::from(name)).copied().flatten()
    }

    // Replaces the entry of this name, or refuses and changes nothing where it is none.
    pub fn put(&mut self, name: Name, entry: Option<Stamp>) -> Result<(), Reason>
        ensures answer { refused_by result ≡ lowest ((11, not (is_name name)) ∷ []) }
        ensures after { entry_of self.new ≡ unless (refused_by result) (entry_of self.old) (with_entry (entry_of self.old) name entry) }
    {
        if name >= NAMES {
            return Err(Reason::NoSuchName);
        }
        self.records[usize::from(name)] = entry;
        Ok(())
    }
}

// Whether an entry stands there, and is a subject.
pub fn is_subject(entry: Option<Stamp>) -> bool
    ensures { result ≡ is_subject entry }
{
    entry.is_some_and(|stamp| stamp.kind == Kind::Subject)
}
