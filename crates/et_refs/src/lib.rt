//! The instructions on fields, arrays and classes (JVMS 2.11.5), on the machine, and the parts of them that other rows share.
#![tactic(auto)]

mod arrays;
mod checks;
mod doing;
mod event;
pub mod laws;
mod operands;
mod refusals;
mod rows;
mod slots;
mod streams;
mod types;

pub use event::refs_event;
pub use slots::reads::index_in;
pub use slots::steps::heap_step;
pub use streams::out_event;
