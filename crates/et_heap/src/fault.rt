//! Why an object is not made.
use std::alloc::{AllocError, AllocFailed};

/// Why an object is not made.
#[derive(Debug, PartialEq, Eq, Drop)]
pub enum MakeFault {
    /// There would be more objects or slots than there may be.
    Full,
    /// Memory ran out.
    NoMemory,
}

impl From<AllocError> for MakeFault {
    ghost use Rattle.std.specs.Prelude.{◌≡◌};
    ghost use Rattle.et_heap.specs.declared.fault.MakeFault.TheVariants.{NoMemory};

    ghost from_gives = { λ _ r. r ≡ NoMemory };

    fn from(_error: AllocError) -> MakeFault {
        MakeFault::NoMemory
    }
}

impl<T: Drop> From<AllocFailed<T>> for MakeFault {
    ghost use Rattle.std.specs.Prelude.{◌≡◌};
    ghost use Rattle.et_heap.specs.declared.fault.MakeFault.TheVariants.{NoMemory};

    ghost from_gives = { λ _ r. r ≡ NoMemory };

    fn from(_error: AllocFailed<T>) -> MakeFault {
        MakeFault::NoMemory
    }
}
