//! What a minor collection keeps.
ghost use Rattle.std.specs.Prelude.{◌≡◌, ◌++◌, [], ℕ, List, filter, Contains, OnOk};
ghost use Rattle.et_models.specs.Marking.{Refers, MarksFrom, AllMarked, Draws, IsMarking, IsSeed, BeginsMarking, IsFound};
ghost use Rattle.et_models.specs.Places.{place_at, is_kept, is_old, without_dead, AreCollected};
ghost use Rattle.et_models.specs.declared.places.Place.{Place};
ghost use Rattle.et_graph.specs.Graph.{Graph};

use crate::places::{Place, place_at, set_place};
use crate::tables::flag_at;
use et_base::NoMemory;
use std::collections::BTreeMap;

/// Marks an object of the nursery, and lets it be visited.
fn mark(object: u32, places: &mut [Place], work: &mut Vec<u32>) -> Result<(), NoMemory>
    ensures { OnOk result (MarksFrom (λ o. o ≡ object) places.old
        work.old.items places.new work.new.items × AllMarked (λ o. o ≡ object) places.new) }
{
    let Place::Nursery = place_at(places, object) else {
        return Ok(());
    };
    set_place(places, object, Place::Kept);
    work.push(object)?;
    Ok(())
}

/// Marks the live objects of the nursery.
fn seed(
    nursery: &[u32],
    dead: &[bool],
    places: &mut [Place],
    work: &mut Vec<u32>,
) -> Result<(), NoMemory>
    ensures { OnOk result (MarksFrom (IsSeed nursery.now dead.now) places.old work.old.items
        places.new work.new.items × AllMarked (IsSeed nursery.now dead.now) places.new) }
{
    for object in nursery {
        if !flag_at(dead, *object) {
            mark(*object, places, work)?;
        }
    }
    Ok(())
}

/// Marks what the slots of an object refer to.
fn visit(
    slots: &BTreeMap<u32, u32>,
    places: &mut [Place],
    work: &mut Vec<u32>,
) -> Result<(), NoMemory>
    ensures { OnOk result (MarksFrom (Refers slots.now) places.old
        work.old.items places.new work.new.items × AllMarked (Refers slots.now) places.new) }
{
    for (_slot, target) in slots {
        mark(*target, places, work)?;
    }
    Ok(())
}

/// Visits what waits, and what is marked meanwhile.
fn follow(
    slots: &[BTreeMap<u32, u32>],
    places: &mut [Place],
    work: &mut Vec<u32>,
) -> Result<(), NoMemory>
    ensures { OnOk result ((g : Graph) (space : List ℕ) (start : List Place) →
        Draws g slots.now space start → IsMarking g slots.now space start places.old work.old.items
        →
        IsMarking g slots.now space start places.new []) }
{
    while let Some(object) = work.pop() {
        if (object as usize) < slots.len() {
            visit(&slots[object as usize], places, work)?;
        }
    }
    Ok(())
}

/// Lists those of the objects that are in the old space.
fn push_old(objects: &[u32], places: &[Place], list: &mut Vec<u32>) -> Result<(), NoMemory>
    ensures { OnOk result (list.new.items
        ≡ list.old.items ++ filter (λ o. is_old (place_at places.now o)) objects.now) }
{
    for object in objects {
        if let Place::Old = place_at(places, *object) {
            list.push(*object)?;
        }
    }
    Ok(())
}

/// Marks the objects of the nursery to which slots lead from its live objects and from the old space. Each object of the
/// old space with a slot that refers to the nursery is among the remembered or the early ones.
pub fn search_nursery(
    nursery: &[u32],
    remembered: &[u32],
    early: &[u32],
    dead: &[bool],
    slots: &[BTreeMap<u32, u32>],
    places: &mut [Place],
    work: &mut Vec<u32>,
) -> Result<(), NoMemory>
    ensures { OnOk result ((g : Graph) (space : List ℕ) → BeginsMarking g nursery.now space
        (remembered.now
        ++ early.now) dead.now slots.now places.old → IsFound g places.old places.new) }
{
    work.clear();
    push_old(remembered, places, work)?;
    push_old(early, places, work)?;
    seed(nursery, dead, places, work)?;
    follow(slots, places, work)?;
    Ok(())
}

/// Lists the marked objects.
pub fn push_kept(objects: &[u32], places: &[Place], kept: &mut Vec<u32>) -> Result<(), NoMemory>
    ensures { OnOk result (kept.new.items
        ≡ kept.old.items ++ filter (λ o. is_kept (place_at places.now o)) objects.now) }
{
    for object in objects {
        if let Place::Kept = place_at(places, *object) {
            kept.push(*object)?;
        }
    }
    Ok(())
}

/// Takes the objects out of the nursery: what was marked goes to the old space.
pub fn settle(objects: &[u32], places: &mut [Place])
    ensures { AreCollected objects.now places.old places.new }
{
    for object in objects {
        let place = place_at(places, *object).settled();
        set_place(places, *object, place);
    }
}

/// Takes the dead ones of the objects out of the old space.
pub fn take_dead(objects: &[u32], dead: &[bool], places: &mut [Place])
    ensures { places.new ≡ without_dead dead.now objects.now places.old }
{
    for object in objects {
        if flag_at(dead, *object) {
            set_place(places, *object, Place::Nowhere);
        }
    }
}
