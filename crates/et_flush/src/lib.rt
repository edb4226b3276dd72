//! The flush of a heap: what no search from the roots reaches any more is listed with the last event at which one did, and
//! taken out; weak references to it become null, and go to their queues.
#![tactic(auto)]

mod deaths;
mod held;
mod machine;
mod order;
mod queues;
mod ranks;
mod reach;
mod room;
mod search;
mod sweep;
mod times;
mod work;

pub use machine::flush_machine;
pub use room::FlushRoom;
pub use times::NOW;
