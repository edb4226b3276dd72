//! The verifier: it finds for each method of the files the least typing of its operands and local variables (JVMS 4.10), or that
//! it has none.
#![tactic(auto)]

mod calls;
mod decoded;
mod effects;
mod heap;
pub mod laws;
mod leads;
mod method;
mod operands;
mod plain;
mod rows;
mod simple;
mod stack;
mod steps;
mod targets;
mod verdict;

pub use verdict::{VerifyFault, verify};
