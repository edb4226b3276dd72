//! Monitors of objects, threads that are started, waited for and end, weak references and their queues (JVMS 2.5.1,
//! 2.5.2, 2.11.10, 6.5 monitorenter and monitorexit).
#![tactic(auto)]

mod deferred;
mod ending;
mod event;
mod monitoring;

pub use event::sync_event;
