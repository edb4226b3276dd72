//! How far a class is with its initialization.
use et_base::ThreadId;

/// How far a class is with its initialization (JVMS 5.5).
#[derive(Clone, Copy, Debug, PartialEq, Eq)]
pub enum ClassState {
    /// It has not begun.
    Untouched,
    /// A thread does it.
    Begun(ThreadId),
    /// It is done.
    Done,
    /// It failed.
    Failed,
}
