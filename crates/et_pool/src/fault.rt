//! What is wrong with a pool.

ghost use Rattle.std.specs.Prelude.{◌≡◌};
ghost use Rattle.et_pool.specs.declared.fault.PoolFault.TheVariants.{NoMemory};

use std::alloc::{AllocError, AllocFailed};

/// What is wrong with a pool, with the place of the first broken item.
#[derive(Clone, Copy, Debug, PartialEq, Eq)]
pub enum PoolFault {
    /// No entry has the tag at this place, or the entry there has too few indices left; or the
    /// count there is 0.
    Tag { offset: usize },
    /// The bytes of the Utf8 entry at this place are no modified UTF-8.
    Utf8 { offset: usize },
    /// The entry at this place names an entry that isn't of the needed form.
    Index { offset: usize },
    /// The bytes end before the item at this place does.
    Short { offset: usize },
    /// There was no memory for the pool.
    NoMemory,
}

impl From<AllocError> for PoolFault {
    ghost from_gives = { λ _ e. e ≡ NoMemory };

    fn from(_e: AllocError) -> PoolFault {
        PoolFault::NoMemory
    }
}

impl<T: Drop> From<AllocFailed<T>> for PoolFault {
    ghost from_gives = { λ _ e. e ≡ NoMemory };

    fn from(_e: AllocFailed<T>) -> PoolFault {
        PoolFault::NoMemory
    }
}
