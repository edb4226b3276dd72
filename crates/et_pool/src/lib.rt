//! The constant pool of a class file (JVMS 4.4), and descriptors (JVMS 4.3).
#![tactic(auto)]

mod decoding;
pub mod descriptor;
mod entry;
mod fault;
mod items;
pub mod laws;
mod look;
mod operand;
mod reading;
pub mod tags;
mod text;

pub use decoding::{Unit, next_unit};
pub use fault::PoolFault;
pub use look::Pool;
pub use operand::{CallShape, Operand, Returned, call_shape, kind_of};
pub use reading::read_pool;
