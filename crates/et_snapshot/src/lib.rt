//! What stood in the heap at an event.
#![tactic(auto)]

mod heap;
pub mod laws;
mod objects;
mod rows;
mod snapshot;
mod totals;

pub use snapshot::snapshot_lines;
