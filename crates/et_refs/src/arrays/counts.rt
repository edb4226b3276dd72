//! How much is made, counted before it is made.
ghost use Rattle.std.specs.Prelude.{◌≡◌, ℕ, ◌<◌, length};
ghost use Rattle.et_heap.specs.Objects.{has_room};
ghost use Rattle.et_event.specs.Heap.{arrays_made, naturals};
ghost use Rattle.et_event.specs.Moments.{Moment, Doing, fits_heap};
ghost use Rattle.et_refs.specs.Counts.{array_count, array_slots, capped_count};

use crate::types::kinds::natural;
use et_heap::{MOST_OBJECTS, MOST_SLOTS};
use et_state::Machine;

/// A count goes no further than this, which is more than fits.
const MOST: u64 = 268435456;

/// A count, no further than that.
fn capped(n: u64) -> u64
    ensures { result ≡ capped_count n }
{
    if n <= MOST { n } else { MOST }
}

/// How many arrays these dimensions make, capped.
fn count_objects(lengths: &[i32]) -> u64
    ensures { result ≡ capped_count (array_count (naturals lengths.now)) }
{
    let mut objects = 0;
    for k in 0..lengths.len() {
        let n = natural(lengths[lengths.len() - 1 - k]);
        objects = capped(1 + n as u64 * objects);
    }
    objects
}

/// How many slots they have, capped.
fn count_slots(lengths: &[i32]) -> u64
    ensures { result ≡ capped_count (array_slots (naturals lengths.now)) }
{
    let mut slots = 0;
    for k in 0..lengths.len() {
        let n = natural(lengths[lengths.len() - 1 - k]);
        slots = capped(n as u64 + n as u64 * slots);
    }
    slots
}

/// Whether so many objects, with so many slots, may be made.
fn arrays_have_room(machine: &Machine, lengths: &[i32]) -> bool
    ensures room { result ≡ has_room machine.now.heap
        (array_count (naturals lengths.now)) (array_slots (naturals lengths.now)) }
    ensures some { 0 < length machine.now.heap }
{
    let objects = (MOST_OBJECTS - machine.heap.count()) as u64;
    let slots = (MOST_SLOTS - machine.heap.slots()) as u64;
    count_objects(lengths) <= objects && count_slots(lengths) <= slots
}

/// Whether arrays of these dimensions fit, in the event that comes next.
pub fn arrays_fit(machine: &Machine, lengths: &[i32]) -> bool
    ensures { (e : Moment) (class : ℕ) (d : Doing) → d.state.heap ≡ machine.now.heap →
        result ≡ fits_heap (arrays_made e class (naturals lengths.now) d).state.heap }
{
    arrays_have_room(machine, lengths)
}
