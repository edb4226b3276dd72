//! What a frame begins with.
use crate::stage::Stage;
use et_base::{MethodId, ObjectId, Value};
use smallvec::SmallVec;

/// What a frame begins with (JVMS 2.6). Its first locals hold the arguments, and the others nothing; a long argument
/// takes two of them.
#[derive(Drop)]
pub struct NewFrame {
    pub method: Option<MethodId>,
    pub stage: Stage,
    /// The object whose monitor the frame holds.
    pub lock: Option<ObjectId>,
    /// The most operands that the frame may have.
    pub max_stack: u16,
    /// The number of its locals.
    pub max_locals: u16,
    pub arguments: SmallVec<Value, 8>,
}

/// What the frame of a method begins with whose arguments stand among the operands of its caller.
#[derive(Clone, Copy)]
pub struct NewHead {
    pub method: MethodId,
    /// The object whose monitor the frame holds.
    pub lock: Option<ObjectId>,
    /// The most operands that the frame may have.
    pub max_stack: u16,
    /// The number of its locals.
    pub max_locals: u16,
}
