//! The room of a flush, and the flush.
ghost use Rattle.std.specs.Prelude.{◌≡◌, ℕ, ◌+◌, ◌*◌, ◌<◌, ◌≤◌, ◌↔◌, true, Bool, length, map, slice_index, Contains, OnOk, OnErr, Some};
ghost use Rattle.et_graph.specs.Graph.{AreDead, IsReached};
ghost use Rattle.et_heap.specs.Objects.{IsHeld, object_at, made_count, held_count};
ghost use Rattle.et_graph.specs.Listed.{AreListed};
ghost use Rattle.et_state.specs.Enqueuing.{flushed_heap};
ghost use Rattle.et_heap.specs.Cleared.{cleared_references};
ghost use Rattle.et_flush.specs.Flushes.{heap_graph};
ghost use Rattle.et_flush.specs.Searches.{ArePairsHeld};

use crate::queues::enqueue_all;
use crate::sweep::sweep;
use crate::times::NOW;
use crate::work::{Work, find_deaths, no_work, reserve};
use et_base::{NoMemory, Steps};
use et_graph::{Death, Stamps};
use et_heap::{Heap, RootList};
use std::alloc::Global;
use std::marker::Model;
use std::sync::ledger::Ledger;

/// The room in which a flush works, with the deaths that the newest one listed: 34 bytes for each object that is held, four for
/// each number of a block in which one is held, and eight for each block ever made. A contract sees it as the number up to which
/// it has places for blocks, the number of objects that are held for which it has places, and those deaths.
#[derive(Drop)]
pub struct FlushRoom {
    numbers: u32,
    places: u32,
    work: Work,
}

impl Model for FlushRoom {
    ghost use Rattle.et_flush.specs.Rooms.{Room, room_of, HasRoom};

    ghost Value = { Room };

    ghost view = { room_of };

    ghost invariant = { HasRoom };
}

/// What is there, where that is as many as are wanted; else what is wanted, and half as many more.
fn widened(there: u32, wanted: u32) -> u32
    ensures wanted { wanted ≤ result }
    ensures kept { there ≤ result }
{
    if wanted <= there {
        there
    } else {
        wanted.saturating_add(wanted / 2)
    }
}

impl FlushRoom {
    ghost use Rattle.std.specs.Prelude.{[]};
    ghost use Rattle.et_graph.specs.Listing.{death_pairs};

    /// No places yet, and no deaths.
    pub fn begin(alloc: Global) -> FlushRoom
        ensures numbers { result.numbers ≡ 0 }
        ensures places { result.places ≡ 0 }
        ensures deaths { result.deaths ≡ [] }
    {
        FlushRoom {
            numbers: 0,
            places: 0,
            work: no_work(alloc),
        }
    }

    /// Makes places up to this object, all of which may be held, and half as many more, where it has none yet. What is there
    /// stays. After `NoMemory` it is as before.
    pub fn grow(&mut self, objects: u32) -> Result<(), NoMemory>
        ensures places { OnOk result (objects ≤ self.new.places) }
        ensures kept { self.old.places ≤ self.new.places }
        ensures numbers { self.old.numbers ≤ self.new.numbers }
        ensures deaths { self.new.deaths ≡ self.old.deaths }
        ensures err { OnErr result (self.new ≡ self.old) }
    {
        self.make_places(objects, objects)
    }

    /// Makes places for so many objects that are held, of as many as were ever made, and half as many more of each, where it
    /// has none for these yet. What is there stays. After `NoMemory` it is as before.
    pub fn make_places(&mut self, made: u32, held: u32) -> Result<(), NoMemory>
        ensures numbers { OnOk result (made ≤ self.new.numbers) }
        ensures places { OnOk result (held ≤ self.new.places) }
        ensures kept_numbers { self.old.numbers ≤ self.new.numbers }
        ensures kept_places { self.old.places ≤ self.new.places }
        ensures deaths { self.new.deaths ≡ self.old.deaths }
        ensures err { OnErr result (self.new ≡ self.old) }
    {
        if made > self.numbers || held > self.places {
            let numbers = widened(self.numbers, made.max(held));
            let places = widened(self.places, held).min(numbers);
            reserve(&mut self.work, numbers, places)?;
            self.numbers = numbers;
            self.places = places;
        }
        Ok(())
    }

    /// The deaths that the newest flush listed, in rising order of the objects.
    pub fn deaths(&self) -> &[Death]
        ensures { death_pairs result.now ≡ self.now.deaths }
    {
        &self.work.deaths
    }

    /// Flushes a heap (JVMS 2.5.3 leaves it free when an object is reclaimed): lists each object that no search from the
    /// roots reaches, in rising order, with the greatest stamp among the objects that are held and lead to it; takes these
    /// objects out; makes null what the others refer to weakly, where that is one of them; and puts the references whose
    /// referents it made null, in rising order, at the end of the waiting lists of their queues, where they have one and
    /// wait nowhere. It answers how many died, and the room has the list. It takes no memory. Each object that is held is
    /// visited twice at most, and twice more where its weak reference is cleared.
    pub fn flush<L: Ledger>(
        &mut self,
        heap: &mut Heap,
        roots: &RootList,
        stamps: &Stamps,
        visits: &mut Steps<L>,
    ) -> usize
        requires none { ¬ IsHeld heap.old 0 }
        requires roots { (o : ℕ) → Contains roots.now o → IsHeld heap.old o }
        requires slots { ArePairsHeld heap.old }
        requires referents { (u o : ℕ) →
            (object_at heap.old u).referent ≡ Some o → IsHeld heap.old o }
        requires stamps { (o : ℕ) → IsHeld heap.old o → o < length stamps.now }
        requires numbers { made_count heap.old ≤ self.old.numbers }
        requires places { held_count heap.old ≤ self.old.places }
        ensures deaths { AreListed
            (heap_graph heap.old roots.now) (slice_index stamps.now) self.new.deaths }
        ensures dead { AreDead
            (heap_graph heap.old roots.now) (map (λ d. d.0) self.new.deaths) }
        ensures count { result ≡ length self.new.deaths }
        ensures heap { (here : ℕ → Bool) → ((o : ℕ) → IsHeld heap.old o → (here o ≡ true)
            ↔ IsReached (heap_graph heap.old roots.now) o) → heap.new ≡ flushed_heap here heap.old }
        ensures visits { (here : ℕ → Bool) → ((o : ℕ) →
            IsHeld heap.old o → (here o ≡ true) ↔ IsReached (heap_graph heap.old roots.now) o) →
            visits.new ≤ visits.old + 2 * held_count heap.old
            + 2 * length (cleared_references here 0 heap.old) }
        ensures numbers { self.new.numbers ≡ self.old.numbers }
        ensures places { self.new.places ≡ self.old.places }
    {
        find_deaths(
            heap,
            roots.as_slice(),
            stamps.as_slice(),
            &mut self.work,
            visits,
        );
        sweep(
            heap,
            &self.work.held,
            &self.work.ranks,
            &self.work.times,
            &self.work.deaths,
            &mut self.work.waiting,
            visits,
        );
        let count = self.work.deaths.len();
        enqueue_all(heap, &self.work.waiting, visits);
        count
    }
}
