//! Graphs of objects, the steps by which they change, and the stamp law: one number per object, its stamp, tells when it was
//! last reached. `StampBook` keeps a graph and its stamps; `Stamps` keeps the stamps alone, beside a graph that stands elsewhere.
//! `spread_all` is the search of a flush, over either graph.
#![tactic(auto)]

mod book;
pub mod laws;
mod objects;
mod pairs;
mod places;
mod references;
mod search;
mod sorted;
mod stamps;

pub use book::{GraphStep, StampBook};
pub use objects::Death;
pub use places::place_of;
pub use references::References;
pub use search::{mark, spread_all};
pub use stamps::{Stamps, stamp_each};
