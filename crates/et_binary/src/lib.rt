//! The binary spelling of a trace. A record is a letter and its fields, with big-endian numbers and with names behind their
//! lengths.
#![tactic(auto, using(et_text::proofs::Extending::extends_on))]

mod fields;
mod formats;
mod fronts;
pub mod laws;
mod ranges;
mod reader;
mod records;
mod whole;
mod writing;

pub use formats::{header_version, write_line_in};
pub use ranges::OPENING;
pub use reader::BinaryReader;
pub use records::read_record;
pub use whole::follow_pack;
pub use writing::write_record;
