//! What every crate of the workspace speaks of: the numbers of things, values, the lines of a trace and how they are spelled,
//! names, and the counter of visits; big-endian numbers at a place of a list of bytes, and rules that are marked at the items
//! that they speak of; vectors that grow within the room that was reserved for them.
#![tactic(auto)]

mod format;
mod ids;
mod integers;
pub mod laws;
mod line;
pub mod marks;
mod memory;
mod name;
pub mod numbers;
mod steps;
mod value;
pub mod within;
mod words;

pub use format::Format;
pub use ids::{ClassId, FieldId, MethodId, ObjectId, ThreadId};
pub use integers::{
    add32, add64, and32, and64, cmp64, div32, div64, mul32, mul64, neg32, neg64, or32, or64, rem32,
    rem64, shl32, shl64, shr32, shr64, sub32, sub64, to_byte, to_char, to_int, to_short, ushr32,
    ushr64, xor32, xor64,
};
pub use line::TraceLine;
pub use memory::NoMemory;
pub use name::Name;
pub use steps::Steps;
pub use value::{End, Value};
pub use words::WordList;
