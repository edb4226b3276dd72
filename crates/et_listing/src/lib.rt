//! Listings, line by line: words, operands and mnemonics, and what each line says or what is wrong
//! with it by itself (docs/listings.md).
#![tactic(auto)]

pub mod entry;
mod header;
pub mod instruction;
pub mod line;
mod mnemonic;
pub mod operand;
mod place;
mod reading;
mod shape;
pub mod spelling;
mod split;
pub mod word;

pub use reading::parsed_lines;
pub use split::words_of_lines;
