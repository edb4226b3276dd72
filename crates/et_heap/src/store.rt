//! Objects in pages.
ghost use Rattle.std.specs.Prelude.{◌≡◌, ◌+◌, ◌-◌, ◌/◌, ◌%◌, ◌<◌, ◌≤◌, ◌↔◌, ◌∷◌, ◌++◌, ℕ, [], length, IsTrue, IfOk, IfSome, OnOk, OnErr, Err, None, Some, false};
ghost use Rattle.std.specs.Option.{option_to_list};
ghost use Rattle.et_heap.specs.Objects.{slot_of, with_slot, with_referent, with_queue, with_monitor, referent_value, referent_of, new_object, most_objects, most_slots};
ghost use Rattle.et_heap.specs.Stored.{is_stored, IsStored, IsNextStored, stored_at, without_stored_at, on_state, unlinked, with_next, with_last, without_first, stored_slots, stored_count, stored_referents, has_stored_room};
ghost use Rattle.et_heap.specs.Links.{stored_with};
ghost use Rattle.et_heap.specs.Pages.{page_at, place_in_page, all_places, IsPaged};

use crate::fault::MakeFault;
use crate::monitor::Monitor;
use crate::page::{PAGE_SIZE, Page};
use crate::place::Place;
use et_base::{ClassId, ObjectId, Value};
use std::alloc::{AllocError, Global};
use std::marker::Model;

/// The most objects that are ever made.
pub const MOST_OBJECTS: u32 = 16_777_215;

/// The most slots, of all objects that are held together.
pub const MOST_SLOTS: u32 = 67_108_864;

/// Objects in pages, each at its number, from 1 on in the order in which they were made. A contract sees a store as the
/// list of what it keeps of each, with an empty place for the number 0 and for each object that was taken out.
#[derive(Drop)]
pub struct Store {
    alloc: Global,
    /// Object 1 stands first in the first page.
    pages: Vec<Page>,
    /// How many objects were ever made.
    made: u32,
    /// How many objects are held, and how many slots they have.
    held: u32,
    slots: u32,
    /// How many of them refer weakly to an object.
    referents: u32,
}

impl Model for Store {
    ghost use Rattle.std.specs.Prelude.{◌∷◌, None};
    ghost use Rattle.et_heap.specs.Stored.{StoredPlaces};

    ghost Value = { StoredPlaces };

    ghost use Rattle.et_heap.specs.Pages.{all_places};
    ghost use Rattle.et_heap.specs.Inside.{IsStoreInside};

    ghost view = { λ s. None ∷ all_places s.pages.items };

    ghost invariant = { IsStoreInside };
}

/// In which page an object stands.
#[inline(always)]
fn page_of(o: ObjectId) -> usize
    requires { 0 < o }
    ensures { result ≡ page_at o }
{
    (o.number() as usize - 1) / PAGE_SIZE
}

/// At which place of its page an object stands.
#[inline(always)]
fn place_of(o: ObjectId) -> usize
    requires { 0 < o }
    ensures { result ≡ place_in_page o }
{
    (o.number() as usize - 1) % PAGE_SIZE
}

/// How many objects a referent is: one, or none.
fn count_of(referent: &Value) -> u32
    ensures { result ≡ length (option_to_list (referent_of referent.now)) }
{
    match referent {
        Value::Ref(_) => 1,
        _ => 0,
    }
}

/// Puts an object at the end, into a new page where the last one has all places. After an error the places are as
/// before.
fn push(alloc: Global, pages: &mut Vec<Page>, made: usize, object: Place) -> Result<(), AllocError>
    requires held { is_stored object }
    requires paged { IsPaged made pages.old.items }
    ensures paged { OnOk result (IsPaged (made + 1) pages.new.items) }
    ensures pushed { OnOk result
        (all_places pages.new.items ≡ all_places pages.old.items ++ object ∷ []) }
    ensures err { OnErr result (pages.new.items ≡ pages.old.items) }
{
    if made % PAGE_SIZE == 0 {
        pages.push(Page::begin(alloc, object)?)?;
    } else {
        let page = &mut pages[made / PAGE_SIZE];
        page.push(object)?;
    }
    Ok(())
}

impl Store {
    /// A store with no objects.
    pub fn begin(alloc: Global) -> Store
        ensures { result ≡ None ∷ [] }
    {
        Store {
            alloc,
            pages: Vec::new(alloc),
            made: 0,
            held: 0,
            slots: 0,
            referents: 0,
        }
    }

    /// Makes an object with this many slots, which hold nothing yet. `Full` comes exactly where there would be more than
    /// `MOST_OBJECTS` objects ever made or more than `MOST_SLOTS` slots of objects that are held.
    #[tactic(auto, using(crate::proofs::References::none_unset))]
    pub fn make(&mut self, class: ClassId, elements: u32, slots: u32) -> Result<ObjectId, MakeFault>
        ensures number { IfOk result (λ o. o ≡ length self.old) }
        ensures new { OnOk result
            (self.new ≡ self.old ++ Some (unlinked (new_object class elements slots)) ∷ []) }
        ensures room { OnOk result (IsTrue (has_stored_room self.old 1 slots)) }
        ensures full { (result ≡ Err MakeFault.Full) ↔ (has_stored_room self.old 1 slots ≡ false) }
        ensures err { OnErr result (self.new ≡ self.old) }
    {
        if self.made >= MOST_OBJECTS || slots > MOST_SLOTS - self.slots {
            return Err(MakeFault::Full);
        }
        let empty = vec![in self.alloc; Value::Unset; slots as usize]?;
        let object = Place::new(class, elements, empty);
        push(self.alloc, &mut self.pages, self.made as usize, object)?;
        self.made += 1;
        self.held += 1;
        self.slots += slots;
        Ok(ObjectId::new(self.made))
    }

    /// The object of a number.
    #[inline(always)]
    pub fn object(&self, o: ObjectId) -> &Place
        requires { IsStored self.now o }
        ensures { result.now ≡ Some (stored_at self.now o) }
    {
        self.pages[page_of(o)].object(place_of(o))
    }

    /// Writes a slot of an object, and answers what stood there.
    #[tactic(auto, using(crate::proofs::Pages::number_positive, crate::proofs::Writes::page_there))]
    #[inline]
    pub fn set_slot(&mut self, o: ObjectId, i: u32, v: Value) -> Value
        requires held { IsStored self.old o }
        requires slot { i < length (stored_at self.old o).state.slots }
        ensures old { result ≡ slot_of (stored_at self.old o).state i }
        ensures new { self.new ≡ stored_with (on_state (with_slot i v)) o self.old }
    {
        let page = &mut self.pages[page_of(o)];
        page.set_slot(place_of(o), i, v)
    }

    /// Writes the referent of an object, and answers the one before.
    #[tactic(auto, using(crate::proofs::Pages::number_positive, crate::proofs::Writes::page_there, crate::proofs::Writes::place_held))]
    pub fn set_referent(&mut self, o: ObjectId, v: Value) -> Value
        requires { IsStored self.old o }
        ensures old { result ≡ referent_value (stored_at self.old o).state.referent }
        ensures new { self.new ≡ stored_with (on_state (with_referent (referent_of v))) o self.old }
    {
        let page = &mut self.pages[page_of(o)];
        let old = page.set_referent(place_of(o), v);
        self.referents = self.referents - count_of(&old) + count_of(&v);
        old
    }

    /// Writes the queue of an object, and answers the one before.
    #[tactic(auto, using(crate::proofs::Pages::number_positive, crate::proofs::Writes::page_there, crate::proofs::Writes::place_held))]
    pub fn set_queue(&mut self, o: ObjectId, v: Value) -> Value
        requires { IsStored self.old o }
        ensures old { result ≡ referent_value (stored_at self.old o).state.queue }
        ensures new { self.new ≡ stored_with (on_state (with_queue (referent_of v))) o self.old }
    {
        let page = &mut self.pages[page_of(o)];
        page.set_queue(place_of(o), v)
    }

    /// Writes the monitor of an object, and answers the one before.
    #[tactic(auto, using(crate::proofs::Pages::number_positive, crate::proofs::Writes::page_there, crate::proofs::Writes::place_held))]
    pub fn set_monitor(&mut self, o: ObjectId, m: Monitor) -> Monitor
        requires { IsStored self.old o }
        ensures old { result ≡ (stored_at self.old o).state.monitor }
        ensures new { self.new ≡ stored_with (on_state (with_monitor m)) o self.old }
    {
        let page = &mut self.pages[page_of(o)];
        page.set_monitor(place_of(o), m)
    }

    /// Writes the reference behind an object; it waits exactly where there is one.
    #[tactic(auto, using(crate::proofs::Pages::number_positive, crate::proofs::Writes::page_there, crate::proofs::Writes::place_held))]
    pub fn set_next(&mut self, o: ObjectId, next: Option<ObjectId>)
        requires { IsStored self.old o }
        ensures { self.new ≡ stored_with (with_next next) o self.old }
    {
        let page = &mut self.pages[page_of(o)];
        page.set_next(place_of(o), next)
    }

    /// Makes a reference the last of those that wait in an object.
    #[tactic(auto, using(crate::proofs::Pages::number_positive, crate::proofs::Writes::page_there, crate::proofs::Writes::place_held))]
    pub fn push_last(&mut self, o: ObjectId, reference: ObjectId)
        requires { IsStored self.old o }
        ensures { self.new ≡ stored_with (with_last reference) o self.old }
    {
        let page = &mut self.pages[page_of(o)];
        page.push_last(place_of(o), reference)
    }

    /// Forgets the first of those that wait in an object. The last one is given: it is none where none is left.
    #[tactic(auto, using(crate::proofs::Pages::number_positive, crate::proofs::Writes::page_there, crate::proofs::Writes::place_held))]
    pub fn drop_first(&mut self, o: ObjectId, last: Option<ObjectId>)
        requires { IsStored self.old o }
        ensures { self.new ≡ stored_with (without_first last) o self.old }
    {
        let page = &mut self.pages[page_of(o)];
        page.drop_first(place_of(o), last)
    }

    /// Whether the object was made and not taken out.
    pub fn is_held(&self, o: ObjectId) -> bool
        ensures { IsTrue result ↔ IsStored self.now o }
    {
        let number = o.number();
        number > 0 && number <= self.made && self.pages[page_of(o)].is_held(place_of(o))
    }

    /// The first object that is held from this number on, if there is one. It skips what was given back a page at a
    /// time, and visits no object.
    pub fn next_held(&self, from: ObjectId) -> Option<ObjectId>
        ensures some { IfSome result (λ o. IsNextStored self.now from o) }
        ensures none { result ≡ None → (u : ℕ) → from ≤ u → ¬ IsStored self.now u }
    {
        let start = from.number().saturating_sub(1) as usize;
        let mut place = start % PAGE_SIZE;
        for k in start / PAGE_SIZE..self.pages.len() {
            if let Some(found) = self.pages[k].next_held(place) {
                return Some(ObjectId::new((k * PAGE_SIZE + found) as u32 + 1));
            }
            place = 0;
        }
        None
    }

    /// Takes an object out. Its number is not used again.
    #[tactic(auto, using(crate::proofs::Writes::page_there, crate::proofs::Writes::place_held))]
    pub fn take_out(&mut self, o: ObjectId)
        requires { IsStored self.old o }
        ensures { self.new ≡ without_stored_at self.old o }
    {
        let object = self.object(o);
        let slots = object.slots().len() as u32;
        let referents = count_of(&object.referent());
        let page = &mut self.pages[page_of(o)];
        page.take_out(place_of(o));
        self.held -= 1;
        self.slots -= slots;
        self.referents -= referents;
    }

    /// How many objects were ever made.
    pub fn count(&self) -> u32
        ensures value { result + 1 ≡ length self.now }
        ensures few { result ≤ most_objects }
    {
        self.made
    }

    /// How many objects are held.
    pub fn held(&self) -> u32
        ensures { result ≡ stored_count self.now }
    {
        self.held
    }

    /// How many slots the objects that are held have.
    pub fn slots(&self) -> u32
        ensures value { result ≡ stored_slots self.now }
        ensures few { result ≤ most_slots }
    {
        self.slots
    }

    /// How many objects that are held refer weakly to one.
    pub fn referents(&self) -> u32
        ensures { result ≡ stored_referents self.now }
    {
        self.referents
    }

    /// How many pages were not given back.
    #[cfg(test)]
    pub fn pages_there(&self) -> usize {
        self.pages.iter().filter(|page| page.is_there()).count()
    }
}
