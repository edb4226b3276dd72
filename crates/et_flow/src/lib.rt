//! The types that the entries of a frame have, and the search for the least typing of code (JVMS 4.10). It knows nothing of
//! instructions: a `Flow` tells where they lead.
#![tactic(auto)]

mod locals;
mod search;
mod states;
mod types;

pub use search::{Flow, Lead, Search, find_typing};
pub use types::{EntryType, Types};
