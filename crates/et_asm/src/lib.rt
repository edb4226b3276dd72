//! An assembler: it makes one class file of one listing (docs/listings.md).
#![tactic(auto)]

mod assembling;
mod check;
mod class;
mod code;
mod counts;
mod emit;
mod fault;
mod instruction;
mod labels;
pub mod laws;
mod order;
mod symbols;
mod uses;

pub use assembling::assemble;
pub use fault::{AsmFault, LABEL, LIMIT, NUMBER, OPERANDS, ORDER, WORD};
