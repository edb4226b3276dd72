//! Class files (JVMS 4): a reader that is exact in what it accepts and in the first fault it
//! names.
#![tactic(auto)]

mod class;
mod code;
mod fault;
mod fields;
pub mod flags;
mod header;
mod items;
mod keys;
pub mod laws;
mod member;
mod members;
mod methods;
mod names;
mod reading;

pub use class::{ClassFile, read_class};
pub use et_code::Code;
pub use et_pool::{CallShape, Operand, Pool, Returned, call_shape, descriptor, tags};
pub use fault::{
    ATTRIBUTE, ClassFault, DESCRIPTOR, FLAGS, MAGIC, MEMBER, POOL, SHORT, TRAILING, VERSION,
};
pub use member::{Attribute, Member};
