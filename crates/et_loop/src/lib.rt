//! The loop of a run: the schedule, the flushes by stamps, and the numbering of what a trace names, over any guest and any sink.
//! It finds the deaths by one stamp for each object, and searches nothing after an event.
#![tactic(auto)]

mod flushes;
mod guest;
pub mod laws;
mod marks;
mod mentioned;
mod naming;
mod next_flush;
mod options;
mod program;
mod run;
mod schedule;
mod slices;
mod tracer;

pub use et_state::{Options, Output, Schedule};
pub use guest::{Guest, Stretch, TimeSlice};
pub use options::Ran;
pub use program::Program;
pub use run::{Started, run_guest};
