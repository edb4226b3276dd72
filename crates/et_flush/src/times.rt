//! The times of objects as a search begins, by their ranks.
ghost use Rattle.std.specs.Prelude.{ℕ, ◌<◌, ◌≤◌, length, vec_capacity, Contains};
ghost use Rattle.et_flush.specs.Searches.{AreTimes};

use et_base::{ObjectId, within};

/// Greater than the number of any event: the time of what is reached now.
pub const NOW: u64 = 1_099_511_627_777;

/// Lists the stamps of the objects as their times.
pub(crate) fn write_times(held: &[ObjectId], stamps: &[u64], times: &mut Vec<u64>)
    requires stamped { (o : ℕ) → Contains held.now o → o < length stamps.now }
    requires room { length held.now ≤ vec_capacity times.old }
    ensures times { AreTimes held.now stamps.now times.new.items }
    ensures room { vec_capacity times.old ≤ vec_capacity times.new }
{
    times.clear();
    for object in held {
        within::push(times, stamps[object.number() as usize]);
    }
}
