//! The heap.
ghost use Rattle.std.specs.Prelude.{◌≡◌, ◌+◌, ◌<◌, ◌≤◌, ◌↔◌, ◌∷◌, ◌++◌, ℕ, [], length, IsTrue, IfOk, IfSome, OnOk, OnErr, Err, None, Some, true, false, Contains};
ghost use Rattle.et_heap.specs.Objects.{IsHeld, IsNextHeld, object_at, slot_of, with_slot, with_referent, with_queue, with_monitor, with_object_at, without_object_at, referent_value, referent_of, new_object, slot_count, held_count, referent_count, has_room, most_objects, most_slots};
ghost use Rattle.et_heap.specs.Queues.{IsWhole, HasQueue, enqueued, polled, first_value};
ghost use Rattle.et_heap.specs.Refs.{leads_to};

use crate::fault::MakeFault;
use crate::links::{link, unlink};
use crate::monitor::Monitor;
use crate::place::value_of_reference;
use crate::refs::Refs;
use crate::store::Store;
use et_base::{ClassId, ObjectId, Steps, Value};
use std::alloc::Global;
use std::marker::Model;
use std::sync::ledger::Ledger;

/// The objects of the guest, each at its number, from 1 on in the order in which they were made. A number is never used
/// again. A contract sees a heap as the list of its objects, with an empty place for the number 0 and for each object
/// that was taken out.
#[derive(Drop)]
pub struct Heap {
    store: Store,
}

impl Model for Heap {
    ghost use Rattle.et_heap.specs.Objects.{Objects};

    ghost Value = { Objects };

    ghost use Rattle.et_heap.specs.Stored.{states_of};
    ghost use Rattle.et_heap.specs.Links.{AreLinked};

    ghost view = { λ h. states_of h.store };

    ghost invariant = { λ h. AreLinked h.store };
}

impl Heap {
    /// A heap with no objects.
    pub fn begin(alloc: Global) -> Heap
        ensures { result ≡ None ∷ [] }
    {
        Heap {
            store: Store::begin(alloc),
        }
    }

    /// Makes an object with this many fields, which hold nothing yet. Its number is one more than `count`. `Full` comes
    /// exactly where there would be more than `MOST_OBJECTS` objects ever made, or more than `MOST_SLOTS` slots of
    /// objects that are held. After a fault the heap is as before.
    pub fn make_object(&mut self, class: ClassId, slots: u32) -> Result<ObjectId, MakeFault>
        ensures number { IfOk result (λ o. o ≡ length self.old) }
        ensures new { OnOk result (self.new ≡ self.old ++ Some (new_object class 0 slots) ∷ []) }
        ensures room { OnOk result (IsTrue (has_room self.old 1 slots)) }
        ensures full { (result ≡ Err MakeFault.Full) ↔ (has_room self.old 1 slots ≡ false) }
        ensures err { OnErr result (self.new ≡ self.old) }
    {
        self.store.make(class, 0, slots)
    }

    /// Makes an array of this many elements, which hold nothing yet. Its number and its faults are those of
    /// `make_object`, with a slot for each element.
    pub fn make_array(&mut self, class: ClassId, elements: u32) -> Result<ObjectId, MakeFault>
        ensures number { IfOk result (λ o. o ≡ length self.old) }
        ensures new { OnOk result
            (self.new ≡ self.old ++ Some (new_object class elements elements) ∷ []) }
        ensures room { OnOk result (IsTrue (has_room self.old 1 elements)) }
        ensures full { (result ≡ Err MakeFault.Full) ↔ (has_room self.old 1 elements ≡ false) }
        ensures err { OnErr result (self.new ≡ self.old) }
    {
        self.store.make(class, elements, elements)
    }

    /// The class of an object.
    #[inline]
    pub fn class_of<L: Ledger>(&self, o: ObjectId, visits: &mut Steps<L>) -> ClassId
        requires { IsHeld self.now o }
        ensures value { result ≡ (object_at self.now o).class }
        ensures visits { visits.new ≡ visits.old + 1 }
    {
        visits.tick();
        self.store.object(o).class()
    }

    /// The length of an array, and 0 for what is no array.
    #[inline]
    pub fn length_of<L: Ledger>(&self, o: ObjectId, visits: &mut Steps<L>) -> u32
        requires { IsHeld self.now o }
        ensures value { result ≡ (object_at self.now o).length }
        ensures visits { visits.new ≡ visits.old + 1 }
    {
        visits.tick();
        self.store.object(o).length()
    }

    /// What a slot of an object holds. `Unset` stands for the 0 or null of a slot that was not written yet.
    #[inline]
    pub fn slot<L: Ledger>(&self, o: ObjectId, i: u32, visits: &mut Steps<L>) -> Value
        requires held { IsHeld self.now o }
        requires slot { i < length (object_at self.now o).slots }
        ensures value { result ≡ slot_of (object_at self.now o) i }
        ensures visits { visits.new ≡ visits.old + 1 }
    {
        visits.tick();
        self.store.object(o).slot(i)
    }

    /// Writes a slot of an object, and answers what stood there.
    #[inline]
    pub fn set_slot<L: Ledger>(
        &mut self,
        o: ObjectId,
        i: u32,
        v: Value,
        visits: &mut Steps<L>,
    ) -> Value
        requires held { IsHeld self.old o }
        requires slot { i < length (object_at self.old o).slots }
        ensures old { result ≡ slot_of (object_at self.old o) i }
        ensures new { self.new ≡ with_object_at self.old o (with_slot i v (object_at self.old o)) }
        ensures visits { visits.new ≡ visits.old + 1 }
    {
        visits.tick();
        self.store.set_slot(o, i, v)
    }

    /// What an object refers to weakly: `Ref` or `Null`. It is `Null` at first.
    pub fn referent<L: Ledger>(&self, o: ObjectId, visits: &mut Steps<L>) -> Value
        requires { IsHeld self.now o }
        ensures value { result ≡ referent_value (object_at self.now o).referent }
        ensures visits { visits.new ≡ visits.old + 1 }
    {
        visits.tick();
        self.store.object(o).referent()
    }

    /// Writes what an object refers to weakly, and answers what it referred to before. A value that is no reference
    /// counts as `Null`.
    pub fn set_referent<L: Ledger>(&mut self, o: ObjectId, v: Value, visits: &mut Steps<L>) -> Value
        requires { IsHeld self.old o }
        ensures old { result ≡ referent_value (object_at self.old o).referent }
        ensures new { self.new ≡ with_object_at self.old o
            (with_referent (referent_of v) (object_at self.old o)) }
        ensures visits { visits.new ≡ visits.old + 1 }
    {
        visits.tick();
        self.store.set_referent(o, v)
    }

    /// The monitor of an object.
    pub fn monitor<L: Ledger>(&self, o: ObjectId, visits: &mut Steps<L>) -> Monitor
        requires { IsHeld self.now o }
        ensures value { result ≡ (object_at self.now o).monitor }
        ensures visits { visits.new ≡ visits.old + 1 }
    {
        visits.tick();
        self.store.object(o).monitor()
    }

    /// Writes the monitor of an object, and answers the one before.
    pub fn set_monitor<L: Ledger>(
        &mut self,
        o: ObjectId,
        m: Monitor,
        visits: &mut Steps<L>,
    ) -> Monitor
        requires { IsHeld self.old o }
        ensures old { result ≡ (object_at self.old o).monitor }
        ensures new { self.new ≡ with_object_at self.old o (with_monitor m (object_at self.old o)) }
        ensures visits { visits.new ≡ visits.old + 1 }
    {
        visits.tick();
        self.store.set_monitor(o, m)
    }

    /// The queue of an object as a reference: `Ref` or `Null`. It is `Null` at first.
    pub fn queue<L: Ledger>(&self, o: ObjectId, visits: &mut Steps<L>) -> Value
        requires { IsHeld self.now o }
        ensures value { result ≡ referent_value (object_at self.now o).queue }
        ensures visits { visits.new ≡ visits.old + 1 }
    {
        visits.tick();
        value_of_reference(self.store.object(o).queue())
    }

    /// Writes the queue of an object as a reference, and answers the one before. A value that is no reference counts as
    /// `Null`. Where the object waits, it waits on.
    pub fn set_queue<L: Ledger>(&mut self, o: ObjectId, v: Value, visits: &mut Steps<L>) -> Value
        requires { IsHeld self.old o }
        ensures old { result ≡ referent_value (object_at self.old o).queue }
        ensures new { self.new ≡ with_object_at self.old o
            (with_queue (referent_of v) (object_at self.old o)) }
        ensures visits { visits.new ≡ visits.old + 1 }
    {
        visits.tick();
        self.store.set_queue(o, v)
    }

    /// Puts a reference at the end of the waiting list of its queue, where it has a queue and waits nowhere. Else
    /// nothing is changed.
    pub fn enqueue<L: Ledger>(&mut self, reference: ObjectId, visits: &mut Steps<L>)
        requires held { IsHeld self.old reference }
        requires queue { HasQueue self.old reference }
        ensures new { self.new ≡ enqueued reference self.old }
        ensures visits { visits.new ≡ visits.old + 1 }
    {
        visits.tick();
        let object = self.store.object(reference);
        if object.waits() {
            return;
        }
        if let Some(queue) = object.queue() {
            link(&mut self.store, queue, reference);
        }
    }

    /// Unlinks the reference that has waited longest in a queue, and answers it; `Null` where the list is empty. Each
    /// reference in the list must be held: where one was taken out, nothing is left to do with the queue but to take it out.
    pub fn poll<L: Ledger>(&mut self, queue: ObjectId, visits: &mut Steps<L>) -> Value
        requires held { IsHeld self.old queue }
        requires whole { IsWhole self.old queue }
        ensures value { result ≡ first_value (object_at self.old queue).waiting }
        ensures new { self.new ≡ polled queue self.old }
        ensures visits { visits.new ≡ visits.old + 1 }
    {
        visits.tick();
        value_of_reference(unlink(&mut self.store, queue))
    }

    /// A reference that waits in a queue is marked as waiting while it is held, so that no list takes it again. A law: it tells
    /// the prover, and does nothing.
    pub fn who_waits_is_marked(&self)
        ensures { (q r : ℕ) → Contains (object_at self.now q).waiting r → IsHeld self.now r →
            (object_at self.now r).waits ≡ true }
    {
        let _store = &self.store;
    }

    /// The references in the slots of an object, in order, then its queue, then those that wait in it, in order. Each of
    /// these must be held.
    pub fn refs_of<L: Ledger>(&self, o: ObjectId, visits: &mut Steps<L>) -> Refs<'_>
        requires held { IsHeld self.now o }
        requires whole { IsWhole self.now o }
        ensures value { result ≡ leads_to (object_at self.now o) }
        ensures visits { visits.new ≡ visits.old + 1 }
    {
        visits.tick();
        Refs::of(&self.store, o)
    }

    /// Whether the object was made and not taken out.
    pub fn is_held(&self, o: ObjectId) -> bool
        ensures { IsTrue result ↔ IsHeld self.now o }
    {
        self.store.is_held(o)
    }

    /// The first object that is held from this number on, if there is one. It skips what was given back a page at a
    /// time, and visits no object.
    pub fn next_held(&self, from: ObjectId) -> Option<ObjectId>
        ensures some { IfSome result (λ o. IsNextHeld self.now from o) }
        ensures none { result ≡ None → (u : ℕ) → from ≤ u → ¬ IsHeld self.now u }
    {
        self.store.next_held(from)
    }

    /// Takes an object out. Its number is not used again. Where it waits, it stays on the waiting list of its queue,
    /// which can only be taken out from then on.
    pub fn take_out(&mut self, o: ObjectId)
        requires { IsHeld self.old o }
        ensures { self.new ≡ without_object_at self.old o }
    {
        self.store.take_out(o)
    }

    /// How many objects were ever made.
    pub fn count(&self) -> u32
        ensures value { result + 1 ≡ length self.now }
        ensures few { result ≤ most_objects }
    {
        self.store.count()
    }

    /// How many objects are held.
    pub fn held(&self) -> u32
        ensures { result ≡ held_count self.now }
    {
        self.store.held()
    }

    /// How many slots the objects that are held have.
    pub fn slots(&self) -> u32
        ensures value { result ≡ slot_count self.now }
        ensures few { result ≤ most_slots }
    {
        self.store.slots()
    }

    /// How many objects that are held refer weakly to one.
    #[inline]
    pub fn referents(&self) -> u32
        ensures { result ≡ referent_count self.now }
    {
        self.store.referents()
    }

    /// How many pages were not given back.
    #[cfg(test)]
    pub fn pages_there(&self) -> usize {
        self.store.pages_there()
    }
}
