//! Calls of methods, and returns from them (JVMS 2.6, 2.11.8).
#![tactic(auto)]

mod called;
mod entering;
mod entry;
mod event;
mod frames;
mod new_frames;
mod returned;
mod returns;
mod rows;

pub use event::calls_event;
