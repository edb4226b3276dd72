//! The families of turns.
/// A family of turns: one event call does what a thread does in a turn of it.
#[derive(Clone, Copy, Debug, PartialEq, Eq)]
pub enum Family {
    /// An instruction that reads and changes nothing but the topmost frame, a constant of the pool, or a division (JVMS 2.11.2
    /// to 2.11.4, 2.11.6, 2.11.7). Also the end of the code, and an opcode without a row: there the event has no meaning.
    Ops,
    /// An instruction on fields, arrays and classes (JVMS 2.11.5).
    Refs,
    /// A call or a return (JVMS 2.11.8), the entry of a thread (JVMS 5.2), or a step of an initializer (JVMS 5.5).
    Calls,
    /// `athrow`, or an exception that is unwound (JVMS 2.10).
    Throw,
    /// `monitorenter` or `monitorexit` (JVMS 2.11.10), or the end of a thread.
    Sync,
}
