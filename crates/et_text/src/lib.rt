//! The rules of a trace in either spelling, and its text. A line of the text is a letter and its fields, each behind a space, with
//! LF at the end.
#![tactic(auto, using(crate::proofs::Extending::extends_on))]

mod breaking;
mod fault;
mod fields;
mod follow;
mod follower;
mod handing;
pub mod laws;
mod lines;
mod names;
mod notes;
pub mod ranges;
mod reader;
mod reading;
mod rules;
mod standing;
mod trace;
mod whole;
mod writing;

pub use breaking::is_flush_point;
pub use fault::{AFTER, FORM, LineError, TraceFault, UNENDED};
pub use fields::{FieldWriter, Width, put_fields};
pub use follower::Follower;
pub use handing::Following;
pub use lines::first_line;
pub use reader::TextReader;
pub use reading::read_line;
pub use rules::Rules;
pub use trace::Trace;
pub use whole::follow_text;
pub use writing::{put_name, write_line};
