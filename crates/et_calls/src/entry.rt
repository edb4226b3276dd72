//! The turn in which a thread without a frame is entered (JVMS 5.2, 2.6): thread 0 enters `main`, whose class is initialized
//! first, and each other thread the method `run` of its Thread object.

mod events;
mod first;
mod mains;
mod plans;
mod runs;
mod throws;

pub use events::entry_event;
