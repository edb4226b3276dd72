//! What is wrong with a class file.

ghost use Rattle.std.specs.Prelude.{◌≡◌};
ghost use Rattle.et_class.specs.declared.fault.ClassFault.TheVariants.{NoMemory};

use std::alloc::{AllocError, AllocFailed};

/// The file doesn't begin with the magic number.
pub const MAGIC: u8 = 1;

/// The major version isn't one from 45 to 52.
pub const VERSION: u8 = 2;

/// An entry of the constant pool is wrong, or an index names an entry that isn't of the needed
/// form.
pub const POOL: u8 = 3;

/// Access flags exclude one another.
pub const FLAGS: u8 = 4;

/// A descriptor is none, or isn't one that its member may have.
pub const DESCRIPTOR: u8 = 5;

/// A member has no name, or is there twice, or has code where it may have none or the other way
/// round; or an interface has another superclass than `java/lang/Object`.
pub const MEMBER: u8 = 6;

/// An attribute has no name, is there twice, or its items don't fill it.
pub const ATTRIBUTE: u8 = 7;

/// A byte stands behind the last attribute.
pub const TRAILING: u8 = 10;

/// The file ends before an item does.
pub const SHORT: u8 = 11;

/// Why a class file is refused.
#[derive(Clone, Copy, Debug, PartialEq, Eq)]
pub enum ClassFault {
    /// The first fault: its kind, and the place in the file, in bytes, of the item that shows it.
    /// The kinds are the constants of this crate, and [`CODE`](et_code::CODE) and
    /// [`UNSUPPORTED`](et_code::UNSUPPORTED).
    At {
        /// The kind of the rule that is broken.
        kind: u8,
        /// The place of the item that breaks it.
        offset: usize,
    },
    /// There was no memory for the class.
    NoMemory,
}

impl From<AllocError> for ClassFault {
    ghost from_gives = { λ _ e. e ≡ NoMemory };

    fn from(_: AllocError) -> ClassFault {
        ClassFault::NoMemory
    }
}

impl<T: Drop> From<AllocFailed<T>> for ClassFault {
    ghost from_gives = { λ _ e. e ≡ NoMemory };

    fn from(_: AllocFailed<T>) -> ClassFault {
        ClassFault::NoMemory
    }
}
