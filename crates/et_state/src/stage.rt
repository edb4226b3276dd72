//! What a frame is for, and what a thread does next.
use et_base::ClassId;

/// What a frame is for.
#[derive(Clone, Copy, Debug, PartialEq, Eq)]
pub enum Stage {
    /// It runs a method.
    Plain,
    /// It initializes a class (JVMS 5.5), and has not entered the class's `<clinit>` yet.
    Before(ClassId),
    /// It runs the `<clinit>` of a class.
    Clinit(ClassId),
}

/// What the turn of a thread does.
#[derive(Clone, Copy, Debug, PartialEq, Eq)]
pub enum Turn {
    /// An exception is pending and there is a frame: an unwinding step (JVMS 2.10).
    Unwind,
    /// The thread ends: it has no frame, and an exception is pending or it was entered.
    EndThread,
    /// Its first frame is entered.
    Entry,
    /// A step of the initialization of a class (JVMS 5.5).
    Initialize,
    /// The instruction at the pc of the topmost frame (JVMS 2.11).
    Instruction,
}
