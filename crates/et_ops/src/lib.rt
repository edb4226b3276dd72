//! The plain instructions: those that read and change nothing but the topmost frame, the constants of the pool, and
//! division. Also the parts of instructions that are done while the frames of a thread are lifted out of the machine.
#![tactic(auto)]

mod branches;
mod constants;
mod divisions;
mod ends;
mod event;
mod frames;
mod lifted;
mod literals;
mod locals;
mod numbers;
mod operands;
mod plain;
mod stack;
mod step;
mod stores;
mod strings;
mod switches;

pub use constants::push_constant;
pub use divisions::divide;
pub use ends::PlainEnd;
pub use event::ops_event;
pub use lifted::lose_each;
pub use operands::{give, int_at, long_at, reference_at, take};
pub use step::run_frame;
