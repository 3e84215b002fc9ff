// What a bounded list can do.
ghost use Rattle.std.specs.Prelude.{◌≡◌, ◌<◌, Bool, true, false, List, [], ◌∷◌, ◌++◌, length, if◌then◌else◌, is_ok, nat_lt};
ghost use Rattle.model.specs.Bounded.{listed};

use crate::bounded::{Bounded, Full};

impl<T: Copy, const N: usize> Bounded<T, N> {
    // The empty list; `filler` stands in the unused room and is never seen.
    pub fn empty(filler: T) -> Self
        ensures { listed result ≡ [] }
    {
        Bounded {
            items: [filler; N],
            len: 0,
        }
    }

    pub fn len(&self) -> usize
        ensures { result ≡ length (listed self.now) }
    {
        self.as_slice().len()
    }

    // One element more at the end, or a refusal and no change where the list is full.
    pub fn push(&mut self, item: T) -> Result<(), Full>
        ensures room { is_ok result ≡ nat_lt (length (listed self.old)) N }
        ensures items { listed self.new ≡ (if is_ok result then listed self.old ++ item ∷ [] else listed self.old) }
    {
        if self.len >= N {
            return Err(Full);
        }
        self.items[self.len] = item;
        self.len += 1;
        Ok(())
    }

    pub fn as_slice(&self) -> &[T]
        ensures { result.now ≡ listed self.now }
    {
        &self.items[..self.len]
    }
}
