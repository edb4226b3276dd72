//! Why a line or a trace is refused.
ghost use Rattle.std.specs.Prelude.{◌≡◌};
ghost use Rattle.et_text.specs.declared.fault.LineError.TheVariants.{Memory};
ghost use Rattle.et_text.specs.declared.fault.TraceFault.TheVariants.{NoMemory as OutOfMemory};

use et_base::NoMemory;
use std::alloc::{AllocError, AllocFailed};

/// The line is spelled as no line is, or one of its fields is out of its range.
pub const FORM: u8 = 1;

/// The line may not stand where it stands.
pub const ORDER: u8 = 2;

/// The line mentions a class, method or object that no line before it defines.
pub const UNKNOWN: u8 = 3;

/// The line names a class or method, or reports an object dead, that a line before it did.
pub const TWICE: u8 = 4;

/// The text ends before the end of its last line.
pub const UNENDED: u8 = 5;

/// Something stands behind the last line.
pub const AFTER: u8 = 6;

/// Why bytes gave no line.
#[derive(Clone, Copy, Debug, PartialEq, Eq)]
pub enum LineError {
    /// Memory ran out.
    Memory,
    /// The bytes are the spelling of no line.
    Form,
}

impl From<NoMemory> for LineError {
    ghost from_gives = { λ _ e. e ≡ Memory };

    fn from(_error: NoMemory) -> LineError {
        LineError::Memory
    }
}

/// Why a text is no trace.
#[derive(Clone, Copy, Debug, PartialEq, Eq)]
pub enum TraceFault {
    /// The first line that breaks a rule, counted from 1, and the rule: 1 the line is spelled as none is, 2 it may not
    /// stand there, 3 it mentions what no line before it defines, 4 it names again or reports dead again, 5 the text
    /// ends before the end of its last line, 6 something stands behind the last line.
    At { kind: u8, line: u64 },
    /// Memory ran out. This says nothing of the text.
    NoMemory,
}

impl From<NoMemory> for TraceFault {
    ghost from_gives = { λ _ e. e ≡ OutOfMemory };

    fn from(_error: NoMemory) -> TraceFault {
        TraceFault::NoMemory
    }
}

impl From<AllocError> for TraceFault {
    ghost from_gives = { λ _ e. e ≡ OutOfMemory };

    fn from(_error: AllocError) -> TraceFault {
        TraceFault::NoMemory
    }
}

impl<T: Drop> From<AllocFailed<T>> for TraceFault {
    ghost from_gives = { λ _ e. e ≡ OutOfMemory };

    fn from(_error: AllocFailed<T>) -> TraceFault {
        TraceFault::NoMemory
    }
}
