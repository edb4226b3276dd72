//! The frames of a thread.

pub(crate) mod frame;
pub(crate) mod frame_stack;
pub(crate) mod running;
