//! Want of memory.
use std::alloc::{AllocError, AllocFailed};

/// Memory ran out. It may come at any call that takes memory, and says nothing of anything else.
#[derive(Debug, Drop)]
pub struct NoMemory;

impl From<AllocError> for NoMemory {
    fn from(_error: AllocError) -> NoMemory {
        NoMemory
    }
}

impl<T: Drop> From<AllocFailed<T>> for NoMemory {
    fn from(_error: AllocFailed<T>) -> NoMemory {
        NoMemory
    }
}
