//! Why a listing has no class file.

use std::alloc::AllocError;

/// The first word of a line is no keyword, no label and no mnemonic.
pub const WORD: u8 = 1;

/// The number or the form of a line's operands is wrong.
pub const OPERANDS: u8 = 2;

/// A number doesn't fit its item.
pub const NUMBER: u8 = 3;

/// A label is defined twice, or used and not defined in its method.
pub const LABEL: u8 = 4;

/// A line stands at a wrong place, or the listing ends too early.
pub const ORDER: u8 = 5;

/// There is too much of something: of indices of the constant pool, bytes of code, interfaces,
/// fields, methods, handlers of a method or bytes of a text; or a branch doesn't fit 16 bits.
pub const LIMIT: u8 = 6;

/// Why a listing has no class file.
#[derive(Clone, Copy, Debug, PartialEq, Eq)]
pub enum AsmFault {
    /// The first faulty line, and the least kind of what is wrong with it. The kinds are the
    /// constants of this crate.
    At {
        /// The number of the line, counted from 1.
        line: u64,
        /// The kind of the rule that it breaks.
        kind: u8,
    },
    /// Memory ran out.
    NoMemory,
}

impl From<AllocError> for AsmFault {
    ghost use Rattle.std.specs.Prelude.{◌≡◌};
    ghost use Rattle.et_asm.specs.declared.fault.AsmFault.TheVariants.{NoMemory};

    ghost from_gives = { λ _ fault. fault ≡ NoMemory };

    fn from(_: AllocError) -> Self {
        AsmFault::NoMemory
    }
}
