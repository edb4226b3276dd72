//! What an event call answers.
use et_base::MethodId;

/// How an event went.
#[derive(Clone, Copy, Debug, PartialEq, Eq)]
pub enum EventEnd {
    /// It was done.
    Done,
    /// The thread waits: only the clock went on.
    Waited,
    /// It has no meaning, and nothing was done. The method and the pc are those of the thread's topmost frame.
    IllTyped { method: MethodId, pc: u32 },
    /// It would make more objects or slots than there may be, and nothing was done.
    ObjectLimit,
    /// The selected method is a built-in that another crate does, and nothing was done.
    Native { method: MethodId },
}
