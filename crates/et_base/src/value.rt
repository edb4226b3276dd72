//! The values of the guest, and how a run ends.
use crate::ids::{MethodId, ObjectId, ThreadId};

/// What a local, an operand, a field or an element holds (JVMS 2.3, 2.4, 2.6.1, 2.6.2).
#[derive(Clone, Copy, Debug, Default, PartialEq, Eq)]
pub enum Value {
    /// A local that holds nothing yet, or the broken half of a long.
    #[default]
    Unset,
    /// An int, and each of the types that are ints on the stack.
    Int(i32),
    /// A long, in two locals or operands the lower one.
    Long(i64),
    /// The upper local or operand of a long.
    LongHigh,
    /// The null reference.
    Null,
    /// A reference to an object.
    Ref(ObjectId),
}

/// How a run ended.
#[derive(Clone, Copy, Debug, PartialEq, Eq)]
pub enum End {
    /// After the last event each thread has ended.
    Finished,
    /// The event limit was reached, and a thread has not ended.
    EventLimit,
    /// The next event has no meaning. It was not done; the thread, and the method and pc of its top frame, are
    /// those before it.
    IllTyped {
        thread: ThreadId,
        method: MethodId,
        pc: u32,
    },
    /// The next event would make more objects or slots than there may be. It was not done.
    ObjectLimit,
}
