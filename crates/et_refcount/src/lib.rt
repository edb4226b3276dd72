//! A model of the heap with reference counts.
#![tactic(auto)]

mod counts;
mod objects;
mod ref_count;

pub use ref_count::RefCount;
