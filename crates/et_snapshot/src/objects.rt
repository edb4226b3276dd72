//! The objects that are kept of the lines of a trace.
ghost use Rattle.std.specs.Prelude.{◌≡◌, ◌≢◌, ℕ, ◌<◌, ◌∷◌, ◌++◌, [], length, map, filter, All, IfSome, IfNone, OnOk};
ghost use Rattle.std.specs.List.{HoldsAt};
ghost use Rattle.et_snapshot.specs.Heap.{body_of, kept_in, kept_where, objects_of, numbers_of, written_to, is_other, RiseTo};

use et_base::NoMemory;
use std::collections::BTreeMap;

/// An object, and what stands in its slots; 0 stands for null.
#[derive(Drop)]
pub struct Seen {
    pub class: u32,
    pub size: u64,
    pub slots: BTreeMap<u32, u32>,
}

/// The number of an object, and what is kept of it while it is live.
#[derive(Drop)]
pub struct Entry {
    pub object: u32,
    pub seen: Option<Seen>,
}

impl Entry {
    /// A reference is written to a slot, where the object is live.
    fn write(&mut self, slot: u32, new: u32) -> Result<(), NoMemory>
        ensures kept { OnOk result
            (kept_in self.new ≡ kept_where (written_to self.old.object slot new) self.old) }
        ensures number { self.new.object ≡ self.old.object }
    {
        if let Some(seen) = &mut self.seen {
            seen.slots.insert(slot, new)?;
        }
        Ok(())
    }
}

/// The place of the entry of an object, among entries whose numbers rise.
fn place_of(entries: &[Entry], object: u32) -> Option<usize>
    requires { (top : ℕ) × RiseTo top 0 (numbers_of entries.now) }
    ensures within { IfSome result (λ place. place < length entries.now) }
    ensures found { IfSome result (λ place.
        HoldsAt (λ entry. entry.object ≡ object) entries.now place) }
    ensures absent { IfNone result (All (λ entry. entry.object ≢ object) entries.now) }
{
    entries
        .binary_search_by_key(&object, |entry| entry.object)
        .ok()
}

/// A reference is written to a slot of an object, where that is live.
pub fn write(entries: &mut [Entry], object: u32, slot: u32, new: u32) -> Result<(), NoMemory>
    requires { (top : ℕ) × RiseTo top 0 (numbers_of entries.old) }
    ensures kept { OnOk result
        (objects_of entries.new ≡ map (written_to object slot new) (objects_of entries.old)) }
    ensures numbers { OnOk result (numbers_of entries.new ≡ numbers_of entries.old) }
{
    if let Some(place) = place_of(entries, object) {
        entries[place].write(slot, new)?;
    }
    Ok(())
}

/// An object is dead: nothing but its number is kept.
pub fn forget(entries: &mut [Entry], object: u32)
    requires { (top : ℕ) × RiseTo top 0 (numbers_of entries.old) }
    ensures kept { objects_of entries.new ≡ filter (is_other object) (objects_of entries.old) }
    ensures numbers { numbers_of entries.new ≡ numbers_of entries.old }
{
    if let Some(place) = place_of(entries, object) {
        entries[place].seen = None;
    }
}

/// Where no room is left, the entries of the dead are given up, and there is room for twice what is left.
fn make_room(entries: &mut Vec<Entry>) -> Result<(), NoMemory>
    ensures kept { OnOk result
        (objects_of entries.new.items ≡ objects_of entries.old.items) }
    ensures rise { (top : ℕ) → RiseTo top 0 (numbers_of entries.old.items) →
        OnOk result (RiseTo top 0 (numbers_of entries.new.items)) }
{
    if entries.len() < entries.capacity() {
        return Ok(());
    }
    entries.retain(|entry| entry.seen.is_some());
    entries.reserve(entries.len() + 1)?;
    Ok(())
}

/// An object is made, with a number above those of the others.
pub fn make(entries: &mut Vec<Entry>, object: u32, seen: Seen) -> Result<(), NoMemory>
    ensures kept { OnOk result (objects_of entries.new.items
        ≡ objects_of entries.old.items ++ (object, body_of seen) ∷ []) }
    ensures rise { (top : ℕ) → RiseTo top 0 (numbers_of entries.old.items) → top < object →
        OnOk result (RiseTo object 0 (numbers_of entries.new.items)) }
{
    make_room(entries)?;
    entries.push(Entry {
        object,
        seen: Some(seen),
    })?;
    Ok(())
}
