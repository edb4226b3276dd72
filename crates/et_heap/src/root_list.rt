//! A list of objects.
ghost use Rattle.std.specs.Prelude.{◌≡◌, [], ◌∷◌, ◌++◌, OnOk, OnErr};

use et_base::{NoMemory, ObjectId};
use std::alloc::Global;
use std::marker::Model;

/// A list of root objects. A contract sees it as that list.
#[derive(Drop)]
pub struct RootList {
    objects: Vec<ObjectId>,
}

impl Model for RootList {
    ghost use Rattle.std.specs.Prelude.{ℕ, List};

    ghost Value = { List ℕ };

    ghost view = { λ r. r.objects.items };
}

impl RootList {
    /// No objects yet.
    pub fn begin(alloc: Global) -> RootList
        ensures { result ≡ [] }
    {
        RootList {
            objects: Vec::new(alloc),
        }
    }

    /// Puts an object at the end. After `NoMemory` the list is as before.
    pub fn push(&mut self, o: ObjectId) -> Result<(), NoMemory>
        ensures ok { OnOk result (self.new ≡ self.old ++ o ∷ []) }
        ensures err { OnErr result (self.new ≡ self.old) }
    {
        self.objects.push(o)?;
        Ok(())
    }

    /// Empties the list, and keeps its room.
    pub fn clear(&mut self)
        ensures { self.new ≡ [] }
    {
        self.objects.clear();
    }

    /// The objects in order.
    pub fn as_slice(&self) -> &[ObjectId]
        ensures { result.now ≡ self.now }
    {
        self.objects.as_slice()
    }
}
