//! A stamp for each object.
ghost use Rattle.std.specs.Prelude.{◌≡◌, ◌<◌, ◌≤◌, ◌^◌, ℕ, [], length, All, Contains, OnOk, slice_index, slice_set};

use et_base::{NoMemory, ObjectId, within};
use std::alloc::Global;
use std::marker::Model;

/// A stamp for each object: the number of an event, 2^40 at most. A contract sees it as a list, in which the stamp of each
/// object stands at its number.
#[derive(Drop)]
pub struct Stamps {
    stamps: Vec<u64>,
}

impl Model for Stamps {
    ghost use Rattle.std.specs.Prelude.{ℕ, List};

    ghost Value = { List ℕ };

    ghost use Rattle.std.specs.Prelude.{◌≤◌, ◌^◌, All};

    ghost view = { λ s. s.stamps.items };

    ghost invariant = { λ s. All (λ t. t ≤ 2 ^ 40) s.stamps.items };
}

impl Stamps {
    /// No places yet.
    pub fn begin(alloc: Global) -> Self
        ensures { result ≡ [] }
    {
        Stamps {
            stamps: Vec::new(alloc),
        }
    }

    /// Makes places up to this object, and half as many more, where it has none yet. The stamps that are there stay, also
    /// after `NoMemory`, and a new place has 0.
    pub fn grow(&mut self, objects: u32) -> Result<(), NoMemory>
        ensures long { OnOk result (objects < length self.new) }
        ensures longer { length self.old ≤ length self.new }
        ensures kept { (o : ℕ) → slice_index self.new o ≡ slice_index self.old o }
    {
        let places = objects as usize + 1;
        if self.stamps.len() < places {
            let places = places + places / 2;
            within::reserve(&mut self.stamps, places)?;
            within::resize(&mut self.stamps, places, 0);
        }
        Ok(())
    }

    /// Writes the stamp of an object that has a place.
    pub fn set(&mut self, object: ObjectId, event: u64)
        requires place { object < length self.old }
        requires event { event ≤ 2 ^ 40 }
        ensures { self.new ≡ slice_set self.old object event }
    {
        self.stamps[object.number() as usize] = event;
    }

    /// The stamp of an object that has a place.
    pub fn of(&self, object: ObjectId) -> u64
        requires { object < length self.now }
        ensures { result ≡ slice_index self.now object }
    {
        self.stamps[object.number() as usize]
    }

    /// The stamps by the numbers of the objects.
    pub fn as_slice(&self) -> &[u64]
        ensures value { result.now ≡ self.now }
        ensures events { All (λ t. t ≤ 2 ^ 40) result.now }
    {
        self.stamps.as_slice()
    }
}

/// Writes this stamp for each of the objects, all of which have places.
#[inline(always)]
pub fn stamp_each(stamps: &mut Stamps, objects: &[ObjectId], event: u64)
    requires places { (o : ℕ) → Contains objects.now o → o < length stamps.old }
    requires event { event ≤ 2 ^ 40 }
    ensures long { length stamps.new ≡ length stamps.old }
    ensures each { (o : ℕ) → Contains objects.now o → slice_index stamps.new o ≡ event }
    ensures others { (o : ℕ) →
        ¬ Contains objects.now o → slice_index stamps.new o ≡ slice_index stamps.old o }
{
    'each: for object in objects {
        stamps.set(*object, event);
    }
}
