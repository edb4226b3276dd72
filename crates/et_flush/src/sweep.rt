//! What a flush takes out, and what it clears.
ghost use Rattle.std.specs.Prelude.{◌≡◌, ℕ, ◌+◌, ◌≤◌, length, slice_set, vec_capacity, true, Some};
ghost use Rattle.et_graph.specs.Listing.{death_pairs};
ghost use Rattle.et_heap.specs.Objects.{IsHeld, at, object_at};
ghost use Rattle.et_heap.specs.Remaining.{left_place, remaining};
ghost use Rattle.et_heap.specs.Cleared.{loses_referent, cleared_references};
ghost use Rattle.et_flush.specs.Ranks.{AreRanked, time_of};
ghost use Rattle.et_flush.specs.Searches.{AreAllHeld, AreDyingIn};
ghost use Rattle.et_flush.specs.Sweeps.{is_now, ReferentsWithin, visits_of, visits_from};

use crate::ranks::{Ranks, time_at};
use crate::times::NOW;
use et_base::{ObjectId, Steps, Value, within};
use et_graph::Death;
use et_heap::Heap;
use std::sync::ledger::Ledger;

/// Clears what an object refers to weakly, where its time is below `NOW`, and answers whether it did. It visits the object
/// where any of the heap refers weakly to one, and once more where it clears.
fn clear_referent<L: Ledger>(
    heap: &mut Heap,
    ranks: &Ranks,
    times: &[u64],
    object: ObjectId,
    visits: &mut Steps<L>,
) -> bool
    requires held { IsHeld heap.old object }
    requires within { ReferentsWithin ranks.now (length times.now) (object_at heap.old object) }
    ensures heap { heap.new ≡ slice_set heap.old object
        (left_place (is_now (time_of ranks.now times.now)) true
        (Some (object_at heap.old object))) }
    ensures cleared { result
        ≡ loses_referent (is_now (time_of ranks.now times.now)) true
        (Some (object_at heap.old object)) }
    ensures visits { visits.new
        ≤ visits.old + visits_of (is_now (time_of ranks.now times.now)) true
        (Some (object_at heap.old object)) }
{
    if heap.referents() == 0 {
        return false;
    }
    if let Value::Ref(referent) = heap.referent(object, visits) {
        if time_at(ranks, times, referent) < NOW {
            heap.set_referent(object, Value::Null, visits);
            return true;
        }
    }
    false
}

/// Takes an object out whose time is below `NOW`, and clears what another one refers to weakly, where that is below `NOW`. It
/// answers whether it cleared.
fn sweep_one<L: Ledger>(
    heap: &mut Heap,
    ranks: &Ranks,
    times: &[u64],
    object: ObjectId,
    time: u64,
    visits: &mut Steps<L>,
) -> bool
    requires held { IsHeld heap.old object }
    requires time { time ≡ time_of ranks.now times.now object }
    requires within { ReferentsWithin ranks.now (length times.now) (object_at heap.old object) }
    ensures heap { heap.new ≡ slice_set heap.old object
        (left_place (is_now (time_of ranks.now times.now))
        (is_now (time_of ranks.now times.now) object) (at heap.old object)) }
    ensures cleared { result
        ≡ loses_referent (is_now (time_of ranks.now times.now))
        (is_now (time_of ranks.now times.now) object) (at heap.old object) }
    ensures visits { visits.new
        ≤ visits.old + visits_of (is_now (time_of ranks.now times.now))
        (is_now (time_of ranks.now times.now) object) (at heap.old object) }
{
    if time < NOW {
        heap.take_out(object);
        return false;
    }
    clear_referent(heap, ranks, times, object, visits)
}

/// Takes each object out whose time is below `NOW`, clears what the others refer to weakly, where that is below `NOW`, and
/// lists those whose referents it cleared, in rising order.
/// Where none died, none is taken out, and none is cleared.
pub(crate) fn sweep<L: Ledger>(
    heap: &mut Heap,
    held: &[ObjectId],
    ranks: &Ranks,
    times: &[u64],
    deaths: &[Death],
    cleared: &mut Vec<ObjectId>,
    visits: &mut Steps<L>,
)
    requires held { AreAllHeld heap.old held.now }
    requires ranked { AreRanked held.now ranks.now }
    requires long { length times.now ≡ length held.now }
    requires deaths { AreDyingIn
        heap.old (time_of ranks.now times.now) (death_pairs deaths.now) }
    requires referents { (u o : ℕ) → (object_at heap.old u).referent ≡ Some o → IsHeld heap.old o }
    requires room { length held.now ≤ vec_capacity cleared.old }
    ensures heap { heap.new ≡ remaining (is_now (time_of ranks.now times.now)) 0 heap.old }
    ensures cleared { cleared.new.items
        ≡ cleared_references (is_now (time_of ranks.now times.now)) 0 heap.old }
    ensures room { vec_capacity cleared.old ≤ vec_capacity cleared.new }
    ensures visits { visits.new
        ≤ visits.old + visits_from (is_now (time_of ranks.now times.now)) 0 heap.old }
{
    cleared.clear();
    if deaths.is_empty() {
        return;
    }
    for (i, object) in held.iter().enumerate() {
        if sweep_one(heap, ranks, times, *object, times[i], visits) {
            within::push(cleared, *object);
        }
    }
}
