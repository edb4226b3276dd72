//! What an event tells; below, the records of an event in order, and what events put out.

pub(crate) mod lines;
pub(crate) mod output;

use et_base::{ClassId, MethodId};

/// A record of an event. Classes and methods stand in it by their numbers in the program; a trace has numbers of
/// its own for them.
#[derive(Clone, Copy, Debug, PartialEq, Eq)]
pub enum Record {
    /// An object of a class is made. The size is in bytes; the length is 0 for what is no array.
    Alloc {
        event: u64,
        thread: u8,
        object: u32,
        class: ClassId,
        size: u64,
        length: u32,
    },
    /// A reference is written to a slot of an object, or of no object (0) for a static. 0 stands for null.
    Update {
        event: u64,
        thread: u8,
        object: u32,
        slot: u32,
        old: u32,
        new: u32,
    },
    /// A method is entered. The receiver is 0 where there is none.
    Enter {
        event: u64,
        thread: u8,
        method: MethodId,
        receiver: u32,
    },
    /// A method returns.
    Exit {
        event: u64,
        thread: u8,
        method: MethodId,
    },
    /// A method is left by an exception.
    Unwind {
        event: u64,
        thread: u8,
        method: MethodId,
        exception: u32,
    },
}
