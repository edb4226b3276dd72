//! A nursery and an old space.
ghost use Rattle.std.specs.Prelude.{◌≡◌, ◌+◌, ◌<◌, ◌≤◌, ◌^◌, ℕ, List, OnOk};
ghost use Rattle.std.specs.List.{sum_by};
ghost use Rattle.et_replay.specs.Feeding.{MayCome};
ghost use Rattle.et_replay.specs.declared.item.Item.{Item};
ghost use Rattle.et_replay.specs.declared.item.Item.TheVariants.{Alloc, Write, Death};
ghost use Rattle.et_models.specs.Generations.{both_of, new_both, swept, moved, placed_young, placed_old, left_out, reference_noted, Opens, Promotes, Collects, IsStable, StepsBoth};
ghost use Rattle.et_models.specs.Tables.{size_at};

use crate::marks::{push_kept, search_nursery, settle, take_dead};
use crate::places::{Place, place_at, set_place};
use crate::remembered::remember;
use crate::slots::{make_slots, write_slot};
use crate::tables::{bytes_of, is_sized, keep_unflagged, set_flag, set_size};
use et_base::NoMemory;
use et_replay::{Item, Totals};
use indexmap::IndexSet;
use std::alloc::Global;
use std::collections::BTreeMap;

/// A nursery and an old space, the objects in them, and their running totals.
#[derive(Drop)]
pub struct Generations {
    pub alloc: Global,
    /// The capacity of the nursery in bytes.
    pub first: u64,
    /// The capacity of the old space in bytes.
    pub second: u64,
    /// Of each object the bytes, where it is made.
    pub sizes: Vec<Option<u32>>,
    /// The objects that ended.
    pub dead: Vec<bool>,
    /// Of each object where it is.
    pub places: Vec<Place>,
    /// Of each object what stands in its slots.
    pub slots: Vec<BTreeMap<u32, u32>>,
    /// The objects of the old space that were given one of the nursery since the last minor collection.
    pub remembered: IndexSet<u32>,
    /// The objects that were given one before it was made.
    pub early: IndexSet<u32>,
    pub nursery: Vec<u32>,
    pub nursery_bytes: u64,
    pub space: Vec<u32>,
    pub space_bytes: u64,
    pub totals: Totals,
}

impl Generations {
    /// Two spaces without places.
    pub fn begin(alloc: Global) -> Generations
        ensures { both_of result ≡ new_both }
    {
        Generations {
            alloc,
            first: 0,
            second: 0,
            sizes: Vec::new(alloc),
            dead: Vec::new(alloc),
            places: Vec::new(alloc),
            slots: Vec::new(alloc),
            remembered: IndexSet::new(alloc),
            early: IndexSet::new(alloc),
            nursery: Vec::new(alloc),
            nursery_bytes: 0,
            space: Vec::new(alloc),
            space_bytes: 0,
            totals: Totals::begin(),
        }
    }

    /// Makes places for so many objects, and sets the capacities.
    pub fn open(&mut self, first: u64, second: u64, objects: u32) -> Result<(), NoMemory>
        requires new { both_of self.old ≡ new_both }
        requires few { objects ≤ 16777215 }
        ensures { OnOk result (Opens first second objects (both_of self.new)) }
    {
        let places = objects as usize + 1;
        self.sizes.resize(places, None)?;
        self.dead.resize(places, false)?;
        self.places.resize(places, Place::Nowhere)?;
        make_slots(self.alloc, &mut self.slots, places)?;
        self.first = first;
        self.second = second;
        Ok(())
    }

    /// Drops what is dead from the old space.
    fn sweep(&mut self)
        requires bytes { sum_by (size_at self.old.sizes.items) self.old.space.items
            ≤ self.old.space_bytes }
        requires major { self.old.totals.major + 1 < 2 ^ 64 }
        requires freed { self.old.totals.freed + self.old.space_bytes < 2 ^ 64 }
        ensures { both_of self.new ≡ swept (both_of self.old) }
    {
        take_dead(&self.space, &self.dead, &mut self.places);
        keep_unflagged(&mut self.space, &self.dead);
        let kept = bytes_of(&self.sizes, &self.space);
        self.totals.major += 1;
        self.totals.freed += self.space_bytes - kept;
        self.space_bytes = kept;
    }

    /// Promotes what a minor collection finds, and empties the nursery.
    fn promote(&mut self) -> Result<(), NoMemory>
        requires bytes { sum_by (size_at self.old.sizes.items) self.old.nursery.items
            + self.old.space_bytes < 2 ^ 64 }
        requires minor { self.old.totals.minor + 1 < 2 ^ 64 }
        requires kept { self.old.totals.kept
            + sum_by (size_at self.old.sizes.items) self.old.nursery.items < 2 ^ 128 }
        ensures { OnOk result (Promotes (both_of self.old) (both_of self.new)) }
    {
        let mut work = Vec::new(self.alloc);
        search_nursery(
            &self.nursery,
            self.remembered.as_slice(),
            self.early.as_slice(),
            &self.dead,
            &self.slots,
            &mut self.places,
            &mut work,
        )?;
        let mut kept = Vec::new(self.alloc);
        push_kept(&self.nursery, &self.places, &mut kept)?;
        settle(&self.nursery, &mut self.places);
        self.move_kept(&kept)
    }

    /// Moves these objects of the nursery to the old space, and empties the nursery.
    fn move_kept(&mut self, kept: &[u32]) -> Result<(), NoMemory>
        requires bytes { sum_by (size_at self.old.sizes.items) kept.now
            + self.old.space_bytes < 2 ^ 64 }
        requires minor { self.old.totals.minor + 1 < 2 ^ 64 }
        requires kept { self.old.totals.kept + sum_by (size_at self.old.sizes.items) kept.now
            < 2 ^ 128 }
        ensures { OnOk result (both_of self.new ≡ moved kept.now (both_of self.old)) }
    {
        let bytes = bytes_of(&self.sizes, kept);
        self.space.extend_from_slice(kept)?;
        self.remembered.clear();
        self.nursery.clear();
        self.nursery_bytes = 0;
        self.space_bytes += bytes;
        self.totals.minor += 1;
        self.totals.kept += u128::from(bytes);
        Ok(())
    }

    /// Places an object in the nursery.
    fn place_young(&mut self, object: u32, size: u32) -> Result<(), NoMemory>
        requires bytes { self.old.nursery_bytes + size + self.old.space_bytes < 2 ^ 64 }
        ensures { OnOk result (both_of self.new ≡ placed_young object size (both_of self.old)) }
    {
        self.nursery.push(object)?;
        set_size(&mut self.sizes, object, size);
        set_place(&mut self.places, object, Place::Nursery);
        self.nursery_bytes += u64::from(size);
        self.totals.peak = self.totals.peak.max(self.nursery_bytes + self.space_bytes);
        Ok(())
    }

    /// Places an object in the old space.
    fn place_old(&mut self, object: u32, size: u32) -> Result<(), NoMemory>
        requires bytes { self.old.nursery_bytes + (self.old.space_bytes + size) < 2 ^ 64 }
        ensures { OnOk result (both_of self.new ≡ placed_old object size (both_of self.old)) }
    {
        self.space.push(object)?;
        set_size(&mut self.sizes, object, size);
        set_place(&mut self.places, object, Place::Old);
        self.space_bytes += u64::from(size);
        self.totals.peak = self.totals.peak.max(self.nursery_bytes + self.space_bytes);
        Ok(())
    }

    /// Notes that there was no room.
    fn leave_out(&mut self, event: u64, object: u32, size: u32)
        ensures { both_of self.new ≡ left_out event object size (both_of self.old) }
    {
        set_size(&mut self.sizes, object, size);
        self.totals.exhausted = Some(event);
    }

    /// A minor collection, and a major one where the old space is too full then.
    fn collect(&mut self) -> Result<(), NoMemory>
        requires ready { (objects : ℕ)
            × (past : List Item) × IsStable (both_of self.old) objects past }
        ensures { OnOk result (Collects (both_of self.old) (both_of self.new)) }
    {
        self.promote()?;
        if self.space_bytes <= self.second {
            return Ok(());
        }
        self.sweep();
        Ok(())
    }

    /// An object that fits into an empty nursery comes.
    fn come_young(&mut self, event: u64, object: u32, size: u32) -> Result<(), NoMemory>
        requires ready { (objects : ℕ)
            × (past : List Item) × IsStable (both_of self.old) objects past }
        requires small { size ≤ 2 ^ 30 }
        requires fits { size ≤ self.old.first }
        ensures { OnOk result
            (StepsBoth (Alloc event object size) (both_of self.old) (both_of self.new)) }
    {
        if self.nursery_bytes + u64::from(size) <= self.first {
            self.place_young(object, size)?;
            return Ok(());
        }
        self.collect()?;
        if self.space_bytes > self.second {
            self.leave_out(event, object, size);
            return Ok(());
        }
        self.place_young(object, size)?;
        Ok(())
    }

    /// An object that is larger than the nursery comes.
    fn come_old(&mut self, event: u64, object: u32, size: u32) -> Result<(), NoMemory>
        requires ready { (objects : ℕ)
            × (past : List Item) × IsStable (both_of self.old) objects past }
        requires small { size ≤ 2 ^ 30 }
        requires large { self.old.first < size }
        ensures { OnOk result
            (StepsBoth (Alloc event object size) (both_of self.old) (both_of self.new)) }
    {
        let bytes = u64::from(size);
        if self.space_bytes + bytes <= self.second {
            self.place_old(object, size)?;
            return Ok(());
        }
        self.sweep();
        if self.space_bytes + bytes > self.second {
            self.leave_out(event, object, size);
            return Ok(());
        }
        self.place_old(object, size)?;
        Ok(())
    }

    /// Remembers the object, if it is given one that a minor collection has to find through it.
    fn note(&mut self, object: u32, new: u32) -> Result<(), NoMemory>
        ensures { OnOk result (both_of self.new ≡ reference_noted object new (both_of self.old)) }
    {
        if new == 0 {
            return Ok(());
        }
        if !is_sized(&self.sizes, new) {
            return remember(&mut self.early, object);
        }
        match (place_at(&self.places, object), place_at(&self.places, new)) {
            (Place::Old, Place::Nursery) => remember(&mut self.remembered, object),
            _ => Ok(()),
        }
    }

    /// An object is written to a slot. What is written to an object that isn't made yet is ignored.
    fn write(&mut self, object: u32, slot: u32, new: u32) -> Result<(), NoMemory>
        requires ready { (objects : ℕ)
            × (past : List Item) × IsStable (both_of self.old) objects past }
        ensures { OnOk result ((event : ℕ) →
            StepsBoth (Write event object slot new) (both_of self.old) (both_of self.new)) }
    {
        if !is_sized(&self.sizes, object) {
            return Ok(());
        }
        self.note(object, new)?;
        write_slot(&mut self.slots, object, slot, new)?;
        Ok(())
    }

    /// An object ends.
    fn end(&mut self, object: u32)
        ensures { (time : ℕ) → StepsBoth (Death object time) (both_of self.old) (both_of self.new) }
    {
        set_flag(&mut self.dead, object);
    }

    /// Takes an item. Where there is no room for its object, `exhausted` has the event.
    pub fn take(&mut self, item: &Item) -> Result<(), NoMemory>
        requires ready { (objects : ℕ) × (past : List Item)
            × IsStable (both_of self.old) objects past × MayCome objects past item.now }
        ensures { OnOk result (StepsBoth item.now (both_of self.old) (both_of self.new)) }
    {
        match item {
            Item::Alloc {
                event,
                object,
                size,
            } => {
                if *size > self.first {
                    self.come_old(*event, *object, *size as u32)
                } else {
                    self.come_young(*event, *object, *size as u32)
                }
            }
            Item::Write {
                object,
                slot,
                new,
                ..
            } => self.write(*object, *slot, *new),
            Item::Death { object, .. } => {
                self.end(*object);
                Ok(())
            }
        }
    }
}
