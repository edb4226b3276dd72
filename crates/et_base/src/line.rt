//! A line of a trace.
use crate::name::Name;

/// A line of a trace, by its letter. Events are at most 2^40, threads at most 63, objects from 1 to 2^24 - 1, and
/// the numbers of classes and methods are those that the trace gave them, from 1 on.
#[derive(Debug, Drop)]
pub enum TraceLine {
    /// H: the version of the trace, and the flush interval in events, or 0 for no flush but the last.
    Header {
        version: u32,
        interval: u64,
    },
    /// C: a class gets its number.
    Class {
        number: u32,
        name: Name,
    },
    /// N: a method gets its number.
    Method {
        number: u32,
        class: u32,
        name: Name,
        descriptor: Name,
    },
    /// A: an object is made. The size is in bytes; the length is 0 for what is no array.
    Alloc {
        event: u64,
        thread: u8,
        object: u32,
        class: u32,
        size: u64,
        length: u32,
    },
    /// U: a reference is written to a slot of an object, or of no object (0) for a static. 0 stands for null.
    Update {
        event: u64,
        thread: u8,
        object: u32,
        slot: u32,
        old: u32,
        new: u32,
    },
    /// M: a method is entered. The receiver is 0 where there is none.
    Enter {
        event: u64,
        thread: u8,
        method: u32,
        receiver: u32,
    },
    /// E: a method returns.
    Exit {
        event: u64,
        thread: u8,
        method: u32,
    },
    /// X: a method is left by an exception.
    Unwind {
        event: u64,
        thread: u8,
        method: u32,
        exception: u32,
    },
    /// F: a flush after the event, with the number of the D lines that follow.
    Flush {
        event: u64,
        deaths: u32,
    },
    /// D: an object, and the last event at which it was reached.
    Death {
        object: u32,
        time: u64,
    },
    /// Z: the last event, and how the run ended: 0 finished, 1 event limit, 2 ill typed, 3 object limit.
    Finish {
        event: u64,
        how: u8,
    },
}
