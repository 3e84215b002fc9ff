// A list of at most N elements that lies where it is declared. The register's capacities are fixed by its subject, so
// no list of it ever needs memory that might not be had: no heap is the project's rule, and so it is no `Vec`, and no
// `ArrayVec`, which is not `Copy`, as commands and schemes are.
ghost use Rattle.std.specs.Prelude.{◌≡◌, ◌≤◌, ⊤, length};

use std::alloc::AllocError;

pub mod list;

// A list that is full takes no element more.
#[derive(Clone, Copy, Debug, PartialEq, Eq)]
pub struct Full;

// The first `len` items are the list; the others only fill the room.
//
// `Clone` is written by hand: none is derived for a generic struct with ghost fields. There is no `impl Model` that makes it
// a list in clauses: a type that is `Copy` must be had back from its model, and a list forgets the unused room.
#[derive(Copy)]
pub struct Bounded<T: Copy, const N: usize> {
    items: [T; N],
    len: usize,
    ghost few: { len ≤ N },
    ghost sized: { length items ≡ N },
}

impl<T: Copy, const N: usize> Clone for Bounded<T, N> {
    ghost is_clone = { λ x y. y ≡ x };

    ghost is_infallible = { λ _. ⊤ };

    fn clone(&self) -> Result<Self, AllocError> {
        Ok(*self)
    }
}
