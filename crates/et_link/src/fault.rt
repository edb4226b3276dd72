//! What keeps files from being linked.

use et_base::{Name, NoMemory};
use et_program::LinkFaultKind;
use std::alloc::AllocError;

/// Why files aren't linked.
#[derive(Debug, Drop)]
pub enum LinkFault {
    /// The least kind that a class shows, and the name of the first class that shows it.
    At {
        /// The kind.
        kind: LinkFaultKind,
        /// The name of the class.
        class: Name,
    },
    /// Memory ran out.
    NoMemory,
}

impl From<NoMemory> for LinkFault {
    ghost use Rattle.std.specs.Prelude.{◌≡◌};
    ghost use Rattle.et_link.specs.declared.fault.LinkFault.TheVariants.{NoMemory as OutOfMemory};

    ghost from_gives = { λ e fault. fault ≡ OutOfMemory };

    fn from(_e: NoMemory) -> LinkFault {
        LinkFault::NoMemory
    }
}

impl From<AllocError> for LinkFault {
    ghost use Rattle.std.specs.Prelude.{◌≡◌};
    ghost use Rattle.et_link.specs.declared.fault.LinkFault.TheVariants.{NoMemory as OutOfMemory};

    ghost from_gives = { λ e fault. fault ≡ OutOfMemory };

    fn from(_e: AllocError) -> LinkFault {
        LinkFault::NoMemory
    }
}
