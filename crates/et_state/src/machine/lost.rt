//! The objects that an event loses.
ghost use Rattle.std.specs.Prelude.{◌≡◌, ◌+◌, ◌<◌, ◌≤◌, length, ◌++◌, ◌∷◌, [], IfOk, option_to_list, reverse};
ghost use Rattle.et_heap.specs.Refs.{refs_of, refs_of_value};
ghost use Rattle.et_state.specs.Threads.{lost_room};

use et_base::{NoMemory, ObjectId, Value};
use std::alloc::Global;
use std::marker::Model;

const LOST_ROOM: usize = 131_088;

/// The objects that an event has taken a reference away from, in the order in which it did. There is room for 16, and
/// for all that stands in any one frame besides. A contract sees it as that list.
#[derive(Drop)]
pub struct Lost {
    objects: Vec<ObjectId>,
}

impl Model for Lost {
    ghost use Rattle.std.specs.Prelude.{List, ℕ, ◌≤◌};
    ghost use Rattle.std.specs.Vec.{vec_capacity};
    ghost use Rattle.et_state.specs.Threads.{lost_room};

    ghost Value = { List ℕ };

    ghost view = { λ l. l.objects.items };

    ghost invariant = { λ l. lost_room ≤ vec_capacity l.objects };
}

impl Lost {
    /// No objects yet. All the room is taken now.
    pub fn begin(alloc: Global) -> Result<Self, NoMemory>
        ensures { IfOk result (λ lost. lost ≡ []) }
    {
        Ok(Lost {
            objects: Vec::with_capacity(alloc, LOST_ROOM)?,
        })
    }

    /// Empties the list.
    pub fn clear(&mut self)
        ensures { self.new ≡ [] }
    {
        self.objects.clear();
    }

    /// The objects in order.
    pub fn objects(&self) -> &[ObjectId]
        ensures { result.now ≡ self.now }
    {
        self.objects.as_slice()
    }

    /// Adds an object.
    #[inline]
    pub fn add(&mut self, o: ObjectId)
        requires { length self.old < lost_room }
        ensures { self.new ≡ self.old ++ o ∷ [] }
    {
        match self.objects.push(o) {
            Ok(()) => {}
            Err(_) => unreachable!(),
        }
    }

    /// Adds the object that a value refers to, if it does.
    #[inline(always)]
    pub fn add_value(&mut self, v: Value)
        requires { length self.old < lost_room }
        ensures new { self.new ≡ self.old ++ refs_of_value v }
        ensures few { length self.new ≤ length self.old + 1 }
    {
        if let Value::Ref(o) = v {
            self.add(o);
        }
    }

    /// Adds an object, if there is one.
    pub fn add_option(&mut self, o: Option<ObjectId>)
        requires { length self.old < lost_room }
        ensures new { self.new ≡ self.old ++ option_to_list o }
        ensures few { length self.new ≤ length self.old + 1 }
    {
        if let Some(o) = o {
            self.add(o);
        }
    }

    /// Adds the objects that these values refer to.
    pub fn add_values(&mut self, values: &[Value])
        requires { length self.old + length values.now ≤ lost_room }
        ensures new { self.new ≡ self.old ++ refs_of values.now }
        ensures few { length self.new ≤ length self.old + length values.now }
    {
        for v in values {
            if let Value::Ref(o) = v {
                self.add(*o);
            }
        }
    }

    /// Adds the objects that these values refer to, from the last value to the first.
    pub fn add_values_back(&mut self, values: &[Value])
        requires { length self.old + length values.now ≤ lost_room }
        ensures new { self.new ≡ self.old ++ refs_of (reverse values.now) }
        ensures few { length self.new ≤ length self.old + length values.now }
    {
        for v in values.iter().rev() {
            if let Value::Ref(o) = v {
                self.add(*o);
            }
        }
    }
}
