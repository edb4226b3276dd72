//! A linked program and its machine with its texts, as the run with stamps knows them.
#![tactic(auto)]

mod families;
mod first;
mod forgetting;
mod guest;
mod lifted;
mod named;
mod program_run;
mod room;
mod steps;
mod stretches;
mod threads;
mod turns;
mod waits;
mod with_texts;

pub use program_run::run;
pub use turns::turn_event;
pub use with_texts::MachineWithTexts;
