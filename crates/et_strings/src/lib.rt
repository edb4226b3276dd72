//! The methods of strings, of string builders and of print streams, and the texts that stand beside a machine.
#![tactic(auto)]

mod calls;
mod decoding;
mod event;
mod printing;
mod reading;
mod rewriting;
mod rows;
mod shown;
mod text;
mod texts;
mod writing;

pub use event::strings_event;
pub use texts::Texts;
