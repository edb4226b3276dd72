//! What isn't freed, by counts of references.
ghost use Rattle.std.specs.Prelude.{◌≡◌, ◌+◌, ◌<◌, ◌≤◌, ◌^◌, ℕ, List, length, IfOk, OnOk};
ghost use Rattle.et_replay.specs.Feeding.{MayCome};
ghost use Rattle.et_replay.specs.Tally.{Counted};
ghost use Rattle.et_replay.specs.declared.item.Item.{Item};
ghost use Rattle.et_replay.specs.declared.item.Item.TheVariants.{Alloc};
ghost use Rattle.et_refcount.specs.Counts.{view_of, new_view, opened, placed, ended, IsReady, IsCountedHeap, Settles, TakesItem, WritesTo};

use crate::objects::{
    Objects, Place, flag_at, free_from, held_at, make_places, set_flag, write_slot,
};
use et_base::NoMemory;
use et_replay::{Item, Totals};
use std::alloc::Global;

/// The objects of a heap with reference counts, and its running totals.
#[derive(Drop)]
pub struct Counts {
    pub alloc: Global,
    /// The capacity in bytes.
    pub capacity: u64,
    pub objects: Objects,
    /// The bytes of the objects that are made and not freed.
    pub bytes: u64,
    /// The totals; kept are the bytes of those of them that ended.
    pub totals: Totals,
}

impl Counts {
    /// A heap without places.
    pub fn begin(alloc: Global) -> Counts
        ensures { view_of result ≡ new_view }
    {
        Counts {
            alloc,
            capacity: 0,
            objects: Objects {
                places: Vec::new(alloc),
                dead: Vec::new(alloc),
                counts: Vec::new(alloc),
                slots: Vec::new(alloc),
            },
            bytes: 0,
            totals: Totals::begin(),
        }
    }

    /// Makes places for so many objects, and sets the capacity.
    pub fn open(&mut self, capacity: u64, objects: u32) -> Result<(), NoMemory>
        requires new { view_of self.old ≡ new_view }
        requires few { objects ≤ 16777215 }
        ensures { OnOk result (view_of self.new ≡ opened capacity objects) }
    {
        make_places(self.alloc, &mut self.objects, objects as usize + 1)?;
        self.capacity = capacity;
        Ok(())
    }

    /// Frees the object, if it ended and no slot refers to it, and what is left then in turn.
    fn settle(&mut self, object: u32) -> Result<(), NoMemory>
        requires ready { (n : ℕ) × (past : List Item) × (c : Counted)
            × IsReady (view_of self.old) object n past c }
        ensures { OnOk result (Settles (view_of self.old) (view_of self.new) object) }
    {
        let freed = free_from(self.alloc, &mut self.objects, object)?;
        self.bytes -= freed;
        self.totals.kept -= u128::from(freed);
        self.totals.freed += freed;
        Ok(())
    }

    /// Places an object.
    fn place(&mut self, object: u32, size: u32)
        requires fits { self.old.bytes + size < 2 ^ 64 }
        requires leaked { self.old.totals.kept ≤ self.old.bytes }
        requires within { object < length self.old.objects.places.items }
        ensures { view_of self.new ≡ placed object size (view_of self.old) }
    {
        self.objects.places[object as usize] = Place::Held(size);
        self.bytes += u64::from(size);
        self.totals.peak = self.totals.peak.max(self.bytes);
        if flag_at(&self.objects.dead, object) {
            self.totals.kept += u128::from(size);
        }
    }

    /// An object comes. Where there is no room for it, `exhausted` has the event.
    fn come(&mut self, event: u64, object: u32, size: u32) -> Result<(), NoMemory>
        requires ready { (n : ℕ) × (past : List Item) × (c : Counted)
            × IsCountedHeap (view_of self.old) n past c × MayCome n past (Alloc event object size) }
        ensures { OnOk result
            (TakesItem (Alloc event object size) (view_of self.old) (view_of self.new)) }
    {
        if self.bytes + u64::from(size) > self.capacity {
            self.objects.places[object as usize] = Place::Gone;
            self.totals.exhausted = Some(event);
            return Ok(());
        }
        self.place(object, size);
        self.settle(object)
    }

    /// A reference is written to a slot. What is written to an object that isn't made yet or is freed is ignored, and a
    /// slot that is given such an object is null. The answer is what stood in the slot before, where that may be left.
    fn write(&mut self, object: u32, slot: u32, new: u32) -> Result<u32, NoMemory>
        requires ready { (n : ℕ) × (past : List Item) × (c : Counted)
            × IsCountedHeap (view_of self.old) n past c }
        ensures { IfOk result
            (λ old. WritesTo object slot new old (view_of self.old) (view_of self.new)) }
    {
        if held_at(&self.objects.places, object).is_none() {
            return Ok(0);
        }
        let target = if held_at(&self.objects.places, new).is_some() {
            new
        } else {
            0
        };
        write_slot(&mut self.objects, object, slot, target)
    }

    /// Notes that an object ended.
    fn end(&mut self, object: u32)
        requires ready { (n : ℕ) × (past : List Item) × (c : Counted)
            × IsCountedHeap (view_of self.old) n past c }
        ensures { view_of self.new ≡ ended object (view_of self.old) }
    {
        if flag_at(&self.objects.dead, object) {
            return;
        }
        let size = held_at(&self.objects.places, object).unwrap_or(0);
        self.totals.kept += u128::from(size);
        set_flag(&mut self.objects.dead, object);
    }

    /// Takes an item. Where there is no room for its object, `exhausted` has the event.
    pub fn take(&mut self, item: &Item) -> Result<(), NoMemory>
        requires ready { (n : ℕ) × (past : List Item) × (c : Counted)
            × IsCountedHeap (view_of self.old) n past c × MayCome n past item.now }
        ensures { OnOk result (TakesItem item.now (view_of self.old) (view_of self.new)) }
    {
        match item {
            Item::Alloc {
                event,
                object,
                size,
            } => self.come(*event, *object, *size as u32),
            Item::Write {
                object,
                slot,
                new,
                ..
            } => {
                let old = self.write(*object, *slot, *new)?;
                self.settle(old)
            }
            Item::Death { object, .. } => {
                self.end(*object);
                self.settle(*object)
            }
        }
    }
}
