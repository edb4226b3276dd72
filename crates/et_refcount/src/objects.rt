//! The objects by number, and what is freed of them.
ghost use Rattle.std.specs.Prelude.{◌≡◌, ◌<◌, ◌≤◌, ◌^◌, ◌⊎◌, [], ℕ, true, length, replicate, slice_set, IfOk, OnOk};
ghost use Rattle.et_refcount.specs.Objects.{tables_of, slots_of, hits, weight, flag_at, held_at, count_at, is_left, added, dropped, work_with, Released, FreesOne, FreesNone, AreCounted, IsFreeing, IsOnlyLeft, WritesReference, no_tables, empty_tables};

use et_base::NoMemory;
use std::alloc::Global;
use std::collections::BTreeMap;
use std::mem;

/// Where an object is.
#[derive(Clone, Copy, Debug, PartialEq, Eq)]
pub enum Place {
    /// It isn't made yet.
    Unmade,
    /// It is in the heap, with so many bytes.
    Held(u32),
    /// It was freed, or found no room.
    Gone,
}

/// The objects, by number. The first entry of each stands for null.
#[derive(Drop)]
pub struct Objects {
    pub places: Vec<Place>,
    /// The objects that ended.
    pub dead: Vec<bool>,
    /// How many slots of objects that aren't freed refer to each.
    pub counts: Vec<u64>,
    /// Of each object what its slots refer to.
    pub slots: Vec<BTreeMap<u32, u32>>,
}

/// The bytes of the object, where it is made and not freed.
pub fn held_at(places: &[Place], object: u32) -> Option<u32>
    ensures { result ≡ held_at places.now object }
{
    match places.get(object as usize).copied() {
        Some(Place::Held(size)) => Some(size),
        _ => None,
    }
}

/// Whether the object ended.
pub fn flag_at(flags: &[bool], object: u32) -> bool
    ensures { result ≡ flag_at flags.now object }
{
    flags.get(object as usize).copied().unwrap_or(false)
}

/// Whether the object ended, and no slot refers to it.
fn is_left(dead: &[bool], counts: &[u64], object: u32) -> bool
    ensures { result ≡ is_left dead.now counts.now object }
{
    flag_at(dead, object) && counts.get(object as usize).copied().unwrap_or(0) == 0
}

/// A slot no longer refers to the target. If no other does and it ended, it is to be freed.
fn drop_reference(
    target: u32,
    dead: &[bool],
    counts: &mut [u64],
    work: &mut Vec<u32>,
) -> Result<(), NoMemory>
    requires { 1 ≤ count_at counts.old target }
    ensures counts { OnOk result (counts.new ≡ dropped counts.old target) }
    ensures work { OnOk result (work.new.items
        ≡ work_with work.old.items (is_left dead.now counts.new target) target) }
{
    counts[target as usize] -= 1;
    if is_left(dead, counts, target) {
        work.push(target)?;
    }
    Ok(())
}

/// The slots of an object no longer refer to anything.
fn release(
    own: &BTreeMap<u32, u32>,
    dead: &[bool],
    counts: &mut [u64],
    work: &mut Vec<u32>,
) -> Result<(), NoMemory>
    requires { (o : ℕ) → hits own.now.entries o ≤ count_at counts.old o }
    ensures { OnOk result
        (Released own.now.entries dead.now counts.old work.old.items counts.new work.new.items) }
{
    for (_slot, target) in own {
        drop_reference(*target, dead, counts, work)?;
    }
    Ok(())
}

/// Frees an object, if it isn't freed yet. The answer is its bytes.
fn free(
    alloc: Global,
    objects: &mut Objects,
    object: u32,
    work: &mut Vec<u32>,
) -> Result<u32, NoMemory>
    requires { AreCounted (tables_of objects.old) }
    ensures { IfOk result (λ size.
        FreesOne object size (tables_of objects.old) (tables_of objects.new) work.old.items
        work.new.items ⊎ FreesNone object size (tables_of objects.old) (tables_of objects.new)
        work.old.items work.new.items) }
{
    let Some(size) = held_at(&objects.places, object) else {
        return Ok(0);
    };
    objects.places[object as usize] = Place::Gone;
    let own = mem::replace(&mut objects.slots[object as usize], BTreeMap::new(alloc));
    release(&own, &objects.dead, &mut objects.counts, work)?;
    Ok(size)
}

/// Frees the objects that wait for it, and what is left then in turn. The answer is the bytes that were freed.
fn free_all(alloc: Global, objects: &mut Objects, work: &mut Vec<u32>) -> Result<u64, NoMemory>
    requires starts { IsFreeing
        (tables_of objects.old) (tables_of objects.old) work.old.items 0 }
    requires fits { weight (tables_of objects.old).places < 2 ^ 64 }
    ensures { IfOk result
        (λ freed. IsFreeing (tables_of objects.old) (tables_of objects.new) [] freed) }
{
    let mut freed = 0;
    while let Some(object) = work.pop() {
        freed += u64::from(free(alloc, objects, object, work)?);
    }
    Ok(freed)
}

/// Frees the object, if it ended and no slot refers to it, and what is left then in turn. The answer is the bytes that
/// were freed.
pub fn free_from(alloc: Global, objects: &mut Objects, object: u32) -> Result<u64, NoMemory>
    requires counted { AreCounted (tables_of objects.old) }
    requires left { IsOnlyLeft (tables_of objects.old) object }
    requires fits { weight (tables_of objects.old).places < 2 ^ 64 }
    ensures { IfOk result
        (λ freed. IsFreeing (tables_of objects.old) (tables_of objects.new) [] freed) }
{
    let mut work = Vec::new(alloc);
    if is_left(&objects.dead, &objects.counts, object) {
        work.push(object)?;
    }
    free_all(alloc, objects, &mut work)
}

/// One slot more refers to the target.
fn take_reference(counts: &mut [u64], target: u32) -> Result<(), NoMemory>
    requires { target < length counts.old }
    ensures { OnOk result (counts.new ≡ added counts.old target) }
{
    match counts[target as usize].checked_add(1) {
        Some(count) => {
            counts[target as usize] = count;
            Ok(())
        }
        None => Err(NoMemory),
    }
}

/// Writes a reference to a slot. The answer is what the slot referred to before, or 0 for nothing.
pub fn write_slot(objects: &mut Objects, object: u32, slot: u32, new: u32) -> Result<u32, NoMemory>
    requires counted { AreCounted (tables_of objects.old) }
    requires object { object < length objects.old.places.items }
    requires new { new < length objects.old.places.items }
    ensures { IfOk result (λ old.
        WritesReference object slot new old (tables_of objects.old) (tables_of objects.new)) }
{
    take_reference(&mut objects.counts, new)?;
    let Some(old) = objects.slots[object as usize].insert(slot, new)? else {
        return Ok(0);
    };
    objects.counts[old as usize] -= 1;
    Ok(old)
}

/// Makes places for so many objects, and null.
pub fn make_places(alloc: Global, objects: &mut Objects, count: usize) -> Result<(), NoMemory>
    requires { tables_of objects.old ≡ no_tables }
    ensures { OnOk result (tables_of objects.new ≡ empty_tables count) }
{
    objects.places.resize(count, Place::Unmade)?;
    objects.dead.resize(count, false)?;
    objects.counts.resize(count, 0)?;
    make_slots(alloc, &mut objects.slots, count)
}

fn make_slots(
    alloc: Global,
    slots: &mut Vec<BTreeMap<u32, u32>>,
    count: usize,
) -> Result<(), NoMemory>
    requires { slots.old.items ≡ [] }
    ensures { OnOk result (slots_of slots.new.items ≡ replicate count []) }
{
    for _index in 0..count {
        slots.push(BTreeMap::new(alloc))?;
    }
    Ok(())
}

/// Flags the object, where it has a place.
pub fn set_flag(flags: &mut [bool], object: u32)
    ensures { flags.new ≡ slice_set flags.old object true }
{
    if (object as usize) < flags.len() {
        flags[object as usize] = true;
    }
}
