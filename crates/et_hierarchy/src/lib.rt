//! A set of classes as linking reads it: what keeps it from being linked, and the superclasses and superinterfaces of
//! each class (JVMS 5.3.5).
#![tactic(auto)]

mod below;
mod check;
mod distinct;
mod fault;
mod index;
pub mod laws;
mod links;
mod lists;
mod order;
mod outlines;
mod rows;
mod search;
mod sorting;
mod tables;
mod upward;

pub use check::check_set;
pub use fault::{FaultKind, SetFault};
pub use links::Links;
pub use lists::ClassList;
pub use order::{class_orders, interfaces_to_run};
pub use outlines::ClassOutline;
pub use rows::Row;
pub use tables::ancestries;
