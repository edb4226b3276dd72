//! What a book keeps of each object, and the room in which a flush works. The entry of object `o` is at `o - 1`.

ghost use Rattle.std.specs.Prelude.{◌≡◌, ℕ, ◌+◌, ◌-◌, ◌^◌, ◌<◌, ◌≤◌, ◌||◌, [], nat_lt, false, length, slice_index, slice_index_or, EachIndex, All, OnOk, vec_len, vec_capacity, Contains};
ghost use Rattle.std.specs.List.Sorted.{IsNonDecreasingBy};
ghost use Rattle.et_graph.specs.Times.{set_each, AreWithin, ArePairsWithin, ArePositive, Carries, AreSettled};
ghost use Rattle.et_graph.specs.Order.{HasSearchRoom};
ghost use Rattle.et_graph.specs.Listing.{listed, death_pairs};

use crate::places::place_of;
use crate::search;
use et_base::{ObjectId, within};
use std::alloc::{AllocError, Global};

/// A death: an object, and the number of the last step after which it was reached. A search takes the objects from which it
/// begins as such, each with the time that it has so far.
#[derive(Clone, Copy, Debug, PartialEq, Eq)]
pub struct Death {
    pub object: ObjectId,
    pub time: u64,
}

/// Writes the time at each of the objects that has an entry.
fn write_each(entries: &mut [u64], objects: &[ObjectId], time: u64)
    requires { ArePositive objects.now }
    ensures { entries.new ≡ set_each objects.now time entries.old }
{
    for object in objects {
        let place = place_of(*object);
        if place < entries.len() {
            entries[place] = time;
        }
    }
}

/// Gives the time `top` to the roots, and raises each time to the greatest that leads to its object.
fn carry(
    pairs: &[(ObjectId, ObjectId)],
    roots: &[ObjectId],
    top: u64,
    times: &mut [u64],
    room: &mut search::Room,
)
    requires sorted { IsNonDecreasingBy (λ (p : ℕ × ℕ). p.0) pairs.now }
    requires pairs { ArePairsWithin (length times.old) pairs.now }
    requires roots { AreWithin (length times.old) roots.now }
    requires below { All (λ t. t ≤ top) times.old }
    requires small { length times.old < 2 ^ 32 }
    requires room { HasSearchRoom (length times.old) room.old }
    ensures room { HasSearchRoom (length times.old) room.new }
    ensures carries { Carries pairs.now (set_each roots.now top times.old) times.new }
    ensures settled { AreSettled pairs.now times.new }
{
    write_each(times, roots, top);
    search::settle(pairs, times, room);
}

/// Lists the objects whose times are below `top` and that aren't gone.
fn list_deaths(times: &[u64], gone: &[bool], top: u64, deaths: &mut Vec<Death>)
    requires gone { length gone.now ≡ length times.now }
    requires small { length times.now < 2 ^ 32 }
    requires room { length times.now ≤ vec_capacity deaths.old }
    ensures listed { death_pairs deaths.new.items ≡ listed 1 top times.now gone.now }
    ensures room { length times.now ≤ vec_capacity deaths.new }
{
    deaths.clear();
    for (i, time) in times.iter().enumerate() {
        if *time < top && !gone[i] {
            let death = Death {
                object: ObjectId::new(i as u32 + 1),
                time: *time,
            };
            within::push(deaths, death);
        }
    }
}

/// Sets the flag of each object whose time is below `top`.
fn mark_gone(times: &[u64], top: u64, gone: &mut [bool])
    requires { length gone.old ≡ length times.now }
    ensures { EachIndex gone.new (λ k. slice_index_or gone.new k false ≡
        (slice_index_or gone.old k false || nat_lt (slice_index times.now k) top)) }
{
    for (i, time) in times.iter().enumerate() {
        if *time < top {
            gone[i] = true;
        }
    }
}

/// The stamps and the flags of the objects. The rest is room for a flush.
#[derive(Drop)]
pub struct Objects {
    pub stamps: Vec<u64>,
    pub gone: Vec<bool>,
    pub times: Vec<u64>,
    pub deaths: Vec<Death>,
    pub room: search::Room,
}

impl Objects {
    ghost use Rattle.et_graph.specs.Objects.{HasPlaces, ArePlacesKept, TakesStep, FindsDeaths};

    /// No objects.
    pub fn new(alloc: Global) -> Self
        ensures stamps { result.stamps.items ≡ [] }
        ensures gone { result.gone.items ≡ [] }
        ensures deaths { result.deaths.items ≡ [] }
    {
        Objects {
            stamps: Vec::new(alloc),
            gone: Vec::new(alloc),
            times: Vec::new(alloc),
            deaths: Vec::new(alloc),
            room: search::Room {
                seen: Vec::new(alloc),
                work: Vec::new(alloc),
                order: Vec::new(alloc),
            },
        }
    }

    /// Reserves room for `count` objects.
    pub fn reserve(&mut self, count: usize) -> Result<(), AllocError>
        ensures ok { OnOk result (HasPlaces count self.new) }
        ensures kept { ArePlacesKept self.old self.new }
    {
        within::reserve(&mut self.stamps, count)?;
        within::reserve(&mut self.gone, count)?;
        within::reserve(&mut self.times, count)?;
        within::reserve(&mut self.deaths, count)?;
        search::reserve(&mut self.room, count)?;
        Ok(())
    }

    /// Stamps the objects that a step lost, and those that it made, which make them `count`. A lost one that is new has
    /// no entry yet, and is stamped as new.
    pub fn take_step(&mut self, lost: &[ObjectId], step: u64, count: usize)
        requires positive { ArePositive lost.now }
        requires more { vec_len self.old.stamps ≤ count }
        requires flags { vec_len self.old.gone ≡ vec_len self.old.stamps }
        requires places { HasPlaces count self.old }
        ensures { TakesStep self.old self.new lost.now step (count - vec_len self.old.stamps) }
    {
        write_each(&mut self.stamps, lost, step.saturating_sub(1));
        within::resize(&mut self.stamps, count, step);
        within::resize(&mut self.gone, count, false);
    }

    /// Finds the deaths where `top` is the number of the next step, and flags them.
    pub fn find_deaths(&mut self, pairs: &[(ObjectId, ObjectId)], roots: &[ObjectId], top: u64)
        requires sorted { IsNonDecreasingBy (λ (p : ℕ × ℕ). p.0) pairs.now }
        requires pairs { ArePairsWithin (vec_len self.old.stamps) pairs.now }
        requires roots { AreWithin (vec_len self.old.stamps) roots.now }
        requires below { All (λ t. t ≤ top) self.old.stamps.items }
        requires flags { vec_len self.old.gone ≡ vec_len self.old.stamps }
        requires small { vec_len self.old.stamps < 2 ^ 32 }
        requires places { HasPlaces (vec_len self.old.stamps) self.old }
        ensures { FindsDeaths pairs.now roots.now top self.old self.new }
    {
        self.times.clear();
        within::extend(&mut self.times, &self.stamps);
        carry(pairs, roots, top, &mut self.times, &mut self.room);
        list_deaths(&self.times, &self.gone, top, &mut self.deaths);
        mark_gone(&self.times, top, &mut self.gone);
    }
}
