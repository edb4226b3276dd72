//! What a trace says of the heap over time.
#![tactic(auto)]

mod by_time;
mod curve;
mod item;
mod live;
mod lives;
mod model;
mod replaying;
mod report;
mod sizes;

pub use by_time::{Happenings, timeline};
pub use curve::{Curve, curve_lines};
pub use item::{Item, Timeline};
pub use live::live_bytes;
pub use model::{Fed, HeapModel, Kind, Policy, Report, Totals};
pub use replaying::replay;
