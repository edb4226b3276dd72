//! What a run of the guest means: the records of events, and the histories, deaths and traces of any rule of events.
#![tactic(auto)]

mod class_state;
mod ends;
mod frames;
pub mod laws;
mod machine;
mod new_frame;
mod options;
mod records;
mod stage;
mod threads;

pub use class_state::ClassState;
pub use ends::EventEnd;
pub use frames::running::Running;
pub use machine::Machine;
pub use machine::first::argument_class;
pub use machine::listing::list_values;
pub use machine::lost::Lost;
pub use new_frame::{NewFrame, NewHead};
pub use options::{Options, Schedule};
pub use records::Record;
pub use records::lines::Lines;
pub use records::output::Output;
pub use stage::{Stage, Turn};
pub use threads::thread::Thread;
