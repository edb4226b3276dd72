//! What the lines so far say, kept so that the next line is tried without a search.
ghost use Rattle.std.specs.Prelude.{[]};
ghost use Rattle.et_text.specs.StandsFor.{StandsForLines};

use std::alloc::Global;
use std::collections::BTreeSet;

#[derive(Drop)]
pub struct Standing {
    pub begun: bool,
    pub ended: bool,
    /// The flush interval, in events.
    pub interval: u64,
    /// How many classes have a number.
    pub classes: u32,
    /// How many methods have a number.
    pub methods: u32,
    /// The event at which each object was made, by its number less 1.
    pub births: Vec<u64>,
    /// Whether each object was reported dead, by its number less 1.
    pub reported: Vec<bool>,
    /// The event of the newest line that has one.
    pub latest: u64,
    /// The event of the newest F line.
    pub flushed: Option<u64>,
    /// It was the last one.
    pub is_last: bool,
    /// The newest event up to it after which a flush was due, or 0. The next flush is due an interval later.
    pub last_due: u64,
    /// Nothing but D lines came behind it.
    pub stands: bool,
    /// How many D lines are still to come.
    pub awaited: u32,
    /// The object of the newest line where that is a D line, else 0.
    pub last_dead: u32,
    pub class_names: BTreeSet<Vec<u8>>,
    /// The class, name and descriptor of each method.
    pub method_names: BTreeSet<(u32, Vec<u8>, Vec<u8>)>,
}

impl Standing {
    /// Before the first line.
    pub fn begin(alloc: Global) -> Standing
        ensures { StandsForLines result [] }
    {
        Standing {
            begun: false,
            ended: false,
            interval: 0,
            classes: 0,
            methods: 0,
            births: Vec::new(alloc),
            reported: Vec::new(alloc),
            latest: 0,
            flushed: None,
            is_last: false,
            last_due: 0,
            stands: false,
            awaited: 0,
            last_dead: 0,
            class_names: BTreeSet::new(alloc),
            method_names: BTreeSet::new(alloc),
        }
    }
}
