//! The instructions of the profile, and the rules on the code of a method that the code itself, its
//! exception table, its number of local variables and the tags of its constant pool decide (JVMS
//! 4.7.3, 4.9.1 and 6.5).
#![tactic(auto)]

mod body;
mod check;
mod decoding;
mod form;
mod instr;
pub mod laws;
pub mod opcode;
mod rules;
mod starts;
mod switches;

pub use body::{CODE, CheckFault, Code, RawCode, TableRow, UNSUPPORTED};
pub use check::check_code;
pub use decoding::decode;
pub use instr::{CodeFault, Instr};
pub use starts::start_flags;
pub use switches::switch_target;
