//! The strings of constants.
ghost use Rattle.std.specs.Prelude.{◌≡◌, ◌<◌, ◌^◌, [], ◌∷◌, ◌++◌, length, IfSome, OnOk, OnErr, None};
ghost use Rattle.std.specs.Option.{option_copied};
ghost use Rattle.et_state.specs.Interned.{object_of, interned_text, interned_objects};

use et_base::{NoMemory, ObjectId};
use et_heap::RootList;
use indexmap::{IndexMap, IndexSet};
use std::alloc::Global;
use std::marker::Model;

/// The strings of constants (JVMS 5.1) by their bytes and by their objects. A contract sees it as the list of the bytes
/// and objects, in the order in which they came.
#[derive(Drop)]
pub(crate) struct Interned {
    alloc: Global,
    objects: IndexMap<Vec<u8>, ObjectId>,
    /// The numbers of the objects in the same order.
    order: IndexSet<u32>,
}

impl Model for Interned {
    ghost use Rattle.std.specs.Prelude.{List, ℕ};

    ghost Value = { List (List ℕ × ℕ) };

    ghost use Rattle.et_state.specs.InternedInside.{interned_in, IsInterned};

    ghost view = { interned_in };

    ghost invariant = { IsInterned };
}

impl Interned {
    /// No strings yet.
    pub(crate) fn begin(alloc: Global) -> Self
        ensures { result ≡ [] }
    {
        Interned {
            alloc,
            objects: IndexMap::new(alloc),
            order: IndexSet::new(alloc),
        }
    }

    /// The object of these bytes.
    pub(crate) fn object(&self, text: &[u8]) -> Option<ObjectId>
        ensures { result ≡ object_of self.now text.now }
    {
        self.objects.get(text).copied()
    }

    /// The bytes of this object.
    pub(crate) fn text(&self, o: ObjectId) -> Option<&[u8]>
        ensures value { option_copied result ≡ interned_text self.now o }
        ensures short { IfSome (option_copied result) (λ bytes. length bytes < 2 ^ 16) }
    {
        let i = self.order.get_index_of(&o.number())?;
        let (text, _) = self.objects.get_index(i)?;
        Some(text.as_slice())
    }

    /// Adds bytes and an object, neither of which is there. After `NoMemory` all is as before.
    pub(crate) fn add(&mut self, text: &[u8], o: ObjectId) -> Result<(), NoMemory>
        requires text { object_of self.old text.now ≡ None }
        requires object { interned_text self.old o ≡ None }
        requires short { length text.now < 2 ^ 16 }
        ensures ok { OnOk result (self.new ≡ self.old ++ (text.now, o) ∷ []) }
        ensures err { OnErr result (self.new ≡ self.old) }
    {
        let bytes = Vec::from_slice(self.alloc, text)?;
        self.order.reserve(1)?;
        self.objects.insert(bytes, o)?;
        match self.order.insert(o.number()) {
            Ok(_) => {}
            Err(_) => unreachable!(),
        }
        Ok(())
    }

    /// Puts the objects at the end of the list, in order.
    pub(crate) fn list_roots(&self, room: &mut RootList) -> Result<(), NoMemory>
        ensures { OnOk result (room.new ≡ room.old ++ interned_objects self.now) }
    {
        let order = self.order.as_slice();
        for o in order {
            room.push(ObjectId::new(*o))?;
        }
        Ok(())
    }
}
