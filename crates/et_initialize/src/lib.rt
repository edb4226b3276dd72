//! The initialization of classes (JVMS 5.5, 4.7.2, 2.9): what an event needs of a class, quiet classes with their constants,
//! the events in which an initializer begins, and its turns before `<clinit>`.
#![tactic(auto)]

mod begins;
mod constants;
pub mod laws;
mod limits;
mod needs;
mod quiet;
mod steps;

pub use begins::{MOST_FRAMES, begin_class_event, throw_after};
pub use limits::{prepared_fit, quiet_fits};
pub use needs::{Need, need_of};
pub use quiet::{begin_prepared, set_quietly};
pub use steps::initialization_event;
