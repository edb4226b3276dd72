//! What a run answers.
use et_base::End;

/// How a run ended, and its last event.
#[derive(Clone, Copy, Debug, PartialEq, Eq)]
pub struct Ran {
    pub end: End,
    pub event: u64,
}
