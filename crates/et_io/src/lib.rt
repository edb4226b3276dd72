//! What the program reads from and writes to: files and sinks, as traits that tell what they hold and took and how
//! often they failed; sinks that gather what they take until it is handed on; such files and sinks in memory, with
//! calls that fail as they are told; and thin adapters over the real ones.
#![tactic(auto)]

mod calls;
mod files;
mod gathering;
mod gathering_mem_sink;
mod host;
mod logs;
mod mem_files;
mod mem_sink;
mod pieces;
mod putting;
mod sink;

pub use files::{Files, Found};
pub use gathering::GatheringSink;
pub use gathering_mem_sink::GatheringMemSink;
pub use host::{HostFiles, HostSink};
pub use mem_files::MemFiles;
pub use mem_sink::MemSink;
pub use pieces::put_piece;
pub use putting::{RunFault, put_all};
pub use sink::{Put, Sink};

#[cfg(test)]
mod tests;
