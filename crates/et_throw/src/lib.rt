//! Exceptions: `athrow`, and the turn in which one is unwound (JVMS 2.10, 6.5 athrow, 4.7.3, and 5.5 for initializers that
//! fail).
#![tactic(auto)]

mod catching;
mod event;
mod failing;
mod frames;
mod handlers;
mod records;
mod throwing;
mod unwinding;

pub use event::throw_event;
