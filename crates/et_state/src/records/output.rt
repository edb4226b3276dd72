//! What events put out.
ghost use Rattle.std.specs.Prelude.{◌≡◌, []};

use crate::records::lines::Lines;
use std::alloc::Global;

/// The records of events, and the bytes that they print.
#[derive(Drop)]
pub struct Output {
    pub records: Lines,
    pub said: Vec<u8>,
}

impl Output {
    /// Nothing yet.
    pub fn begin(alloc: Global) -> Output
        ensures records { result.records ≡ [] }
        ensures said { result.said.items ≡ [] }
    {
        Output {
            records: Lines::begin(alloc),
            said: Vec::new(alloc),
        }
    }

    /// Empties both, and keeps their room.
    pub fn clear(&mut self)
        ensures records { self.new.records ≡ [] }
        ensures said { self.new.said.items ≡ [] }
    {
        self.records.clear();
        self.said.clear();
    }
}
