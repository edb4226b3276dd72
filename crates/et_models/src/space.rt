//! One space of a capacity, whose collections keep what is live.
ghost use Rattle.std.specs.Prelude.{◌≡◌, ◌+◌, ◌<◌, ◌≤◌, ◌^◌, ℕ, List, [], ◌∷◌, None, is_some, length, OnOk, vec_capacity};
ghost use Rattle.std.specs.List.{sum_by};
ghost use Rattle.et_graph.specs.Graph.{Graph};
ghost use Rattle.et_replay.specs.Feeding.{MayCome};
ghost use Rattle.et_replay.specs.Tally.{space_after};
ghost use Rattle.et_replay.specs.declared.item.Item.{Item};
ghost use Rattle.et_models.specs.Spaces.{view_of, new_view, collected, roomy, object_placed, IsSpaceOf};
ghost use Rattle.et_models.specs.Tables.{size_at};

use crate::tables::{bytes_of, keep_unflagged, push_within, set_flag, set_size};
use et_base::NoMemory;
use et_replay::{Item, Totals};
use std::alloc::Global;

/// A space, the objects in it, and its running totals.
#[derive(Drop)]
pub struct Space {
    /// The capacity in bytes.
    pub capacity: u64,
    /// Of each object the bytes, where it is made.
    pub sizes: Vec<Option<u32>>,
    /// The objects that ended.
    pub dead: Vec<bool>,
    /// The objects in the space.
    pub held: Vec<u32>,
    /// Their bytes.
    pub bytes: u64,
    pub totals: Totals,
}

impl Space {
    /// A space without places.
    pub fn begin(alloc: Global) -> Space
        ensures { view_of result ≡ new_view }
    {
        Space {
            capacity: 0,
            sizes: Vec::new(alloc),
            dead: Vec::new(alloc),
            held: Vec::new(alloc),
            bytes: 0,
            totals: Totals::begin(),
        }
    }

    /// Makes places for so many objects, and sets the capacity.
    pub fn open(&mut self, capacity: u64, objects: u32) -> Result<(), NoMemory>
        requires new { view_of self.old ≡ new_view }
        requires few { objects ≤ 16777215 }
        ensures stands { OnOk result (IsSpaceOf self.new objects []) }
        ensures capacity { OnOk result (self.new.capacity ≡ capacity) }
    {
        let places = objects as usize + 1;
        self.sizes.resize(places, None)?;
        self.dead.resize(places, false)?;
        self.held.reserve(objects as usize)?;
        self.capacity = capacity;
        Ok(())
    }

    /// Drops what is dead from the space.
    fn collect(&mut self)
        requires bytes { sum_by (size_at self.old.sizes.items) self.old.held.items
            ≤ self.old.bytes }
        requires major { self.old.totals.major + 1 < 2 ^ 64 }
        requires kept { self.old.totals.kept + self.old.bytes < 2 ^ 128 }
        requires freed { self.old.totals.freed + self.old.bytes < 2 ^ 64 }
        ensures view { view_of self.new ≡ collected (view_of self.old) }
        ensures room { vec_capacity self.new.held ≡ vec_capacity self.old.held }
    {
        keep_unflagged(&mut self.held, &self.dead);
        let kept = bytes_of(&self.sizes, &self.held);
        self.totals.major += 1;
        self.totals.kept += u128::from(kept);
        self.totals.freed += self.bytes - kept;
        self.bytes = kept;
    }

    /// Collects where so many bytes don't fit.
    fn make_room(&mut self, size: u64)
        requires fits { self.old.bytes + size < 2 ^ 64 }
        requires bytes { sum_by (size_at self.old.sizes.items) self.old.held.items
            ≤ self.old.bytes }
        requires major { self.old.totals.major + 1 < 2 ^ 64 }
        requires kept { self.old.totals.kept + self.old.bytes < 2 ^ 128 }
        requires freed { self.old.totals.freed + self.old.bytes < 2 ^ 64 }
        ensures view { view_of self.new ≡ roomy size (view_of self.old) }
        ensures room { vec_capacity self.new.held ≡ vec_capacity self.old.held }
    {
        if self.bytes + size > self.capacity {
            self.collect();
        }
    }

    /// Places an object, or notes the event where there is no room.
    fn place(&mut self, event: u64, object: u32, size: u32)
        requires bytes { self.old.bytes + size < 2 ^ 64 }
        requires room { length self.old.held.items < vec_capacity self.old.held }
        ensures view { view_of self.new ≡ object_placed event object size (view_of self.old) }
        ensures room { vec_capacity self.old.held ≤ vec_capacity self.new.held }
    {
        set_size(&mut self.sizes, object, size);
        let bytes = self.bytes + u64::from(size);
        if bytes > self.capacity {
            self.totals.exhausted = Some(event);
            return;
        }
        push_within(&mut self.held, object);
        self.bytes = bytes;
        self.totals.peak = self.totals.peak.max(bytes);
    }

    /// Takes an item. Where there is no room for its object, `exhausted` has the event.
    pub fn feed(&mut self, item: &Item)
        requires stands { (objects : ℕ) × (past : List Item) × IsSpaceOf self.old objects past
            × (self.old.totals.exhausted ≡ None) × MayCome objects past item.now }
        ensures stands { (objects : ℕ) (past : List Item) →
            IsSpaceOf self.old objects past → IsSpaceOf self.new objects (item.now ∷ past) }
        ensures capacity { self.new.capacity ≡ self.old.capacity }
    {
        match item {
            Item::Alloc {
                event,
                object,
                size,
            } => {
                self.make_room(*size);
                self.place(*event, *object, *size as u32);
            }
            Item::Write { .. } => {}
            Item::Death { object, .. } => set_flag(&mut self.dead, *object),
        }
    }
}
