//! What a flush lists.
ghost use Rattle.std.specs.Prelude.{◌≡◌, ◌≤◌, length, vec_capacity};
ghost use Rattle.std.specs.List.Sorted.{IsStrictlyIncreasing};
ghost use Rattle.et_graph.specs.Listing.{death_pairs};
ghost use Rattle.et_heap.specs.Objects.{Objects};
ghost use Rattle.et_flush.specs.declared.ranks.Ranks.{Ranks};
ghost use Rattle.et_flush.specs.Ranks.{AreRanked, time_of};
ghost use Rattle.et_flush.specs.Searches.{AreAllHeld, AreDyingIn};

use crate::times::NOW;
use et_base::{ObjectId, within};
use et_graph::Death;

/// Lists the objects whose times are below `NOW`, in rising order, each with its time.
pub(crate) fn list_deaths(held: &[ObjectId], times: &[u64], deaths: &mut Vec<Death>)
    requires long { length times.now ≡ length held.now }
    requires rising { IsStrictlyIncreasing held.now }
    requires room { length held.now ≤ vec_capacity deaths.old }
    ensures deaths { (heap : Objects) (ranks : Ranks) →
        AreAllHeld heap held.now → AreRanked held.now ranks →
        AreDyingIn heap (time_of ranks times.now) (death_pairs deaths.new.items) }
    ensures room { vec_capacity deaths.old ≤ vec_capacity deaths.new }
{
    deaths.clear();
    for (i, object) in held.iter().enumerate() {
        let time = times[i];
        if time < NOW {
            within::push(
                deaths,
                Death {
                    object: *object,
                    time,
                },
            );
        }
    }
}
