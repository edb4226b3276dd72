//! The objects that one instruction loses.
ghost use Rattle.std.specs.Prelude.{◌≡◌, ◌+◌, ◌<◌, ◌≤◌, ◌++◌, [], length};
ghost use Rattle.et_heap.specs.Refs.{refs_of_value};
ghost use Rattle.et_state.specs.Running.{most_lost};

use et_base::{ObjectId, Value};
use std::marker::Model;

const MOST_LOST: usize = 8;

/// The objects that an instruction has taken a reference away from, in the order in which it did. There is room for eight.
/// A contract sees it as that list.
#[derive(Drop)]
pub struct Losses {
    objects: [ObjectId; MOST_LOST],
    count: usize,
}

impl Model for Losses {
    ghost use Rattle.std.specs.Prelude.{List, ℕ, ◌≤◌, take};
    ghost use Rattle.et_state.specs.Running.{most_lost};

    ghost Value = { List ℕ };

    ghost view = { λ l. take l.count l.objects };

    ghost invariant = { λ l. l.count ≤ most_lost };
}

impl Losses {
    /// No objects yet.
    #[inline(always)]
    pub fn new() -> Self
        ensures { result ≡ [] }
    {
        Losses {
            objects: [ObjectId::new(0); MOST_LOST],
            count: 0,
        }
    }

    /// Empties the list.
    #[inline(always)]
    pub fn clear(&mut self)
        ensures { self.new ≡ [] }
    {
        self.count = 0;
    }

    /// The objects in order.
    #[inline(always)]
    pub fn objects(&self) -> &[ObjectId]
        ensures value { result.now ≡ self.now }
        ensures few { length result.now ≤ most_lost }
    {
        &self.objects[..self.count]
    }

    /// Adds the object that a value refers to, if it refers to one.
    #[inline(always)]
    pub fn add_value(&mut self, v: Value)
        requires { length self.old < most_lost }
        ensures new { self.new ≡ self.old ++ refs_of_value v }
        ensures few { length self.new ≤ length self.old + 1 }
    {
        if let Value::Ref(o) = v {
            self.objects[self.count] = o;
            self.count += 1;
        }
    }
}
