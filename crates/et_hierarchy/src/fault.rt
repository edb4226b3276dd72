//! What keeps a set of classes from being linked.

use std::alloc::AllocError;

/// What a class shows that keeps a set from being linked, in the order in which one is answered (JVMS 5.3.5).
#[derive(Clone, Copy, Debug, PartialEq, Eq)]
pub enum FaultKind {
    /// An earlier class has its name.
    Duplicate,
    /// Its superclass or a direct superinterface isn't in the set, or is of the wrong kind.
    NoSuper,
    /// It is its own ancestor.
    Cycle,
    /// Its superclass is final.
    FinalSuper,
}

/// Why a set isn't linked.
#[derive(Clone, Copy, Debug)]
pub enum SetFault {
    /// The least kind that a class shows, and the place of the first class that shows it.
    At { kind: FaultKind, class: u32 },
    /// Memory ran out.
    NoMemory,
}

impl From<AllocError> for SetFault {
    ghost use Rattle.std.specs.Prelude.{◌≡◌};
    ghost use Rattle.et_hierarchy.specs.declared.fault.SetFault.TheVariants.{NoMemory};

    ghost from_gives = { λ e fault. fault ≡ NoMemory };

    fn from(_e: AllocError) -> SetFault {
        SetFault::NoMemory
    }
}
