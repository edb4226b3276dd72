//! Three models of the heap, which account for what a trace tells: mark-sweep, semispace and generational.
#![tactic(auto)]

mod generational;
mod generations;
mod marks;
mod one_space;
mod places;
mod remembered;
mod slots;
mod space;
mod tables;

pub use generational::Generational;
pub use one_space::{ByCopying, Collected, InPlace, MarkSweep, OneSpace, SemiSpace};
