//! Monitors.
use et_base::ThreadId;

/// A monitor (JVMS 2.11.10): the thread that owns it, if any, and how often that one has entered it and not left it
/// again.
#[derive(Clone, Copy)]
pub struct Monitor {
    pub owner: Option<ThreadId>,
    pub count: u64,
}
