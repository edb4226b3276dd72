//! A trace in either spelling: read by the rules of the one that its first byte tells, and written in the other one.
#![tactic(auto)]

mod conversion;
pub mod laws;
mod reading;
mod rewriting;

pub use conversion::{convert_trace, version_format};
pub use reading::{follow_trace, read_text, read_trace};
pub use rewriting::{Unkept, convert_bytes};
