//! The program: its commands, and the call that does all of it.
#![tactic(auto)]

mod answers;
mod bench;
mod commands;
mod discard;
pub mod laws;
mod models;
mod process;
mod programs;
mod top;
mod verdict;

pub use bench::bench_run;
pub use process::{WordsFault, run_elephant, run_process, run_without_memory, words};
pub use top::elephant;
