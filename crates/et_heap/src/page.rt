//! A page of the heap.
ghost use Rattle.std.specs.Prelude.{◌≡◌, ◌+◌, ◌<◌, ◌≤◌, ◌↔◌, ◌∷◌, ◌++◌, ℕ, [], length, IsTrue, IfOk, OnOk, OnErr, IfSome, Some, None};
ghost use Rattle.et_heap.specs.Objects.{slot_of, with_slot, with_referent, with_queue, with_monitor, referent_value, referent_of};
ghost use Rattle.et_heap.specs.Stored.{is_stored, IsStored, IsNextStored, stored_at, without_stored_at, on_state, with_next, with_last, without_first};
ghost use Rattle.et_heap.specs.Links.{stored_with};
ghost use Rattle.et_heap.specs.declared.page.TheConstants.{PAGE_SIZE};

use crate::monitor::Monitor;
use crate::place::Place;
use et_base::{ObjectId, Value};
use std::alloc::{AllocError, Global};
use std::marker::Model;

/// So many numbers in a row stand in one page.
pub const PAGE_SIZE: usize = 1_024;

/// The places of `PAGE_SIZE` objects, or of fewer in the last page of a heap. Once it has all places and all objects were
/// taken out, it keeps no list of them any more: the page is given back. A contract sees a page as the list of its
/// places, which are empty where the object was taken out.
#[derive(Drop)]
pub struct Page {
    /// The places, or none of them after the page was given back.
    kept: Vec<Place>,
    /// How many objects are held.
    held: u32,
}

impl Model for Page {
    ghost use Rattle.et_heap.specs.Stored.{StoredPlaces};

    ghost Value = { StoredPlaces };

    ghost use Rattle.et_heap.specs.Pages.{places_of, IsPage};

    ghost view = { λ p. places_of p.kept.items };

    ghost invariant = { λ p. IsPage p.held p.kept.items };
}

impl Page {
    /// A page with one object.
    pub fn begin(alloc: Global, object: Place) -> Result<Page, AllocError>
        requires { is_stored object }
        ensures { IfOk result (λ page. page ≡ object ∷ []) }
    {
        let mut kept = Vec::new(alloc);
        kept.push(object)?;
        Ok(Page { kept, held: 1 })
    }

    /// Puts an object at the end. After an error the page is as before.
    pub fn push(&mut self, object: Place) -> Result<(), AllocError>
        requires held { is_stored object }
        requires room { length self.old < PAGE_SIZE }
        ensures ok { OnOk result (self.new ≡ self.old ++ object ∷ []) }
        ensures err { OnErr result (self.new ≡ self.old) }
    {
        self.kept.push(object)?;
        self.held += 1;
        Ok(())
    }

    /// Whether an object stands at this place.
    pub fn is_held(&self, place: usize) -> bool
        ensures { IsTrue result ↔ IsStored self.now place }
    {
        place < self.kept.len() && self.kept[place].is_held()
    }

    /// The first place from this one on at which an object stands.
    pub fn next_held(&self, from: usize) -> Option<usize>
        ensures some { IfSome result (λ place. IsNextStored self.now from place) }
        ensures none { result ≡ None → (u : ℕ) → from ≤ u → ¬ IsStored self.now u }
    {
        if self.held == 0 {
            return None;
        }
        for place in from..self.kept.len() {
            if self.kept[place].is_held() {
                return Some(place);
            }
        }
        None
    }

    /// The object at this place.
    #[inline(always)]
    pub fn object(&self, place: usize) -> &Place
        requires { IsStored self.now place }
        ensures { result.now ≡ Some (stored_at self.now place) }
    {
        &self.kept[place]
    }

    /// Writes a slot of an object, and answers what stood there.
    #[tactic(auto, using(crate::proofs::Pages::kept_within, crate::proofs::Pages::kept_stands))]
    #[inline]
    pub fn set_slot(&mut self, place: usize, i: u32, v: Value) -> Value
        requires held { IsStored self.old place }
        requires slot { i < length (stored_at self.old place).state.slots }
        ensures old { result ≡ slot_of (stored_at self.old place).state i }
        ensures new { self.new ≡ stored_with (on_state (with_slot i v)) place self.old }
    {
        let object = &mut self.kept[place];
        object.set_slot(i, v)
    }

    /// Writes the referent of an object, and answers the one before.
    #[tactic(auto, using(crate::proofs::Pages::kept_within, crate::proofs::Pages::kept_stands))]
    pub fn set_referent(&mut self, place: usize, v: Value) -> Value
        requires { IsStored self.old place }
        ensures old { result ≡ referent_value (stored_at self.old place).state.referent }
        ensures new { self.new
            ≡ stored_with (on_state (with_referent (referent_of v))) place self.old }
    {
        let object = &mut self.kept[place];
        object.set_referent(v)
    }

    /// Writes the queue of an object, and answers the one before.
    #[tactic(auto, using(crate::proofs::Pages::kept_within, crate::proofs::Pages::kept_stands))]
    pub fn set_queue(&mut self, place: usize, v: Value) -> Value
        requires { IsStored self.old place }
        ensures old { result ≡ referent_value (stored_at self.old place).state.queue }
        ensures new { self.new
            ≡ stored_with (on_state (with_queue (referent_of v))) place self.old }
    {
        let object = &mut self.kept[place];
        object.set_queue(v)
    }

    /// Writes the monitor of an object, and answers the one before.
    #[tactic(auto, using(crate::proofs::Pages::kept_within, crate::proofs::Pages::kept_stands))]
    pub fn set_monitor(&mut self, place: usize, m: Monitor) -> Monitor
        requires { IsStored self.old place }
        ensures old { result ≡ (stored_at self.old place).state.monitor }
        ensures new { self.new ≡ stored_with (on_state (with_monitor m)) place self.old }
    {
        let object = &mut self.kept[place];
        object.set_monitor(m)
    }

    /// Writes the reference behind an object; it waits exactly where there is one.
    #[tactic(auto, using(crate::proofs::Pages::kept_within, crate::proofs::Pages::kept_stands))]
    pub fn set_next(&mut self, place: usize, next: Option<ObjectId>)
        requires { IsStored self.old place }
        ensures { self.new ≡ stored_with (with_next next) place self.old }
    {
        let object = &mut self.kept[place];
        object.set_next(next);
    }

    /// Makes a reference the last of those that wait in an object.
    #[tactic(auto, using(crate::proofs::Pages::kept_within, crate::proofs::Pages::kept_stands))]
    pub fn push_last(&mut self, place: usize, reference: ObjectId)
        requires { IsStored self.old place }
        ensures { self.new ≡ stored_with (with_last reference) place self.old }
    {
        let object = &mut self.kept[place];
        object.push_last(reference);
    }

    /// Forgets the first of those that wait in an object. The last one is given: it is none where none is left.
    #[tactic(auto, using(crate::proofs::Pages::kept_within, crate::proofs::Pages::kept_stands))]
    pub fn drop_first(&mut self, place: usize, last: Option<ObjectId>)
        requires { IsStored self.old place }
        ensures { self.new ≡ stored_with (without_first last) place self.old }
    {
        let object = &mut self.kept[place];
        object.drop_first(last);
    }

    /// Takes an object out, and gives the page back if it has all places and this was its last object.
    pub fn take_out(&mut self, place: usize)
        requires { IsStored self.old place }
        ensures { self.new ≡ without_stored_at self.old place }
    {
        let object = &mut self.kept[place];
        object.take_out();
        self.held -= 1;
        if self.held == 0 && self.kept.len() == PAGE_SIZE {
            self.kept = Vec::new(*self.kept.allocator());
        }
    }

    /// Whether the page was not given back.
    #[cfg(test)]
    pub fn is_there(&self) -> bool {
        !self.kept.is_empty()
    }
}
