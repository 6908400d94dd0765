//! The answer if memory runs out.

use std::alloc::{AllocError, AllocFailed};

/// Out of memory, or out of numbers to count what memory would have to hold: 2^32 items. It is an answer of its
/// own, and no fault of a text is merged with it.
#[derive(Clone, Copy, Debug, PartialEq, Eq, Hash)]
pub struct NoMemory;

impl From<AllocError> for NoMemory {
    fn from(_error: AllocError) -> Self {
        NoMemory
    }
}

impl<T: Drop> From<AllocFailed<T>> for NoMemory {
    fn from(_error: AllocFailed<T>) -> Self {
        NoMemory
    }
}
