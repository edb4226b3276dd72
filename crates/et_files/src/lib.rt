//! What is read of the files that a command names: classes and their program, a listing, or a trace. Or why one of them is
//! refused, with the status and the line on standard error that say so.
#![tactic(auto)]

mod classes;
mod files;
mod following;
mod listings;
mod programs;
mod refusal;
mod status;
mod traces;

pub use following::{follow_file, load_bytes};
pub use listings::load_listing;
pub use programs::{load_program, program_of_listing};
pub use refusal::{Escaped, Refusal, refuse};
pub use status::Status;
pub use traces::{last_event, load_trace_to};
