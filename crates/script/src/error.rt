// Why a text is not read.
ghost use Rattle.script.specs.Reads.{IsOutOfMemory};

use std::alloc::{AllocError, AllocFailed};

#[derive(Clone, Copy, Debug, PartialEq, Eq)]
pub enum ReadError {
    OutOfMemory(AllocError),
    // What is written follows none of the rules.
    Unreadable,
}

impl<T: Drop> From<AllocFailed<T>> for ReadError {
    ghost from_gives = { λ _ e. IsOutOfMemory e };

    fn from(cause: AllocFailed<T>) -> ReadError {
        ReadError::OutOfMemory(AllocError::from(cause))
    }
}
