//! What a run is given beside its program.
use et_base::{Format, WordList};

/// Which thread has the turn at an event.
#[derive(Debug, Drop)]
pub enum Schedule {
    /// Of the r threads that have not ended, in order of start, the one at `e / quantum` modulo r has the turn at
    /// event e. The quantum is from 1 to 2^40.
    Quantum(u64),
    /// .. the one at the word at place `e` modulo the number of words. There are 1 to 1,024 words of at most 63.
    Words(WordList),
}

/// What a run is given beside its program.
#[derive(Debug, Drop)]
pub struct Options {
    /// A flush comes after each multiple of this event, or only after the last event where it is 0. At most 2^40.
    pub interval: u64,
    /// The greatest number of events, at most 2^40.
    pub limit: u64,
    /// Which thread has the turn.
    pub schedule: Schedule,
    /// How the trace is spelled.
    pub format: Format,
}
