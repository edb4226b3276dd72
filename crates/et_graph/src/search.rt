//! The search of a flush: it finds for each object the greatest time that leads to it.

ghost use Rattle.std.specs.Prelude.{◌≡◌, ℕ, ◌+◌, ◌-◌, ◌^◌, ◌<◌, ◌≤◌, ◌++◌, [], ◌∷◌, true, length, slice_index, slice_set, All, OnOk, vec_capacity};
ghost use Rattle.std.specs.List.Sorted.{IsNonDecreasingBy};
ghost use Rattle.et_graph.specs.Times.{ArePairsWithin, ArePairsAmong, AreSeenAmong, Carries, AreSettled, IsSet, IsReady, Spreads, unset_count};
ghost use Rattle.et_graph.specs.Order.{sources, IsOneOf, IsOrder, HasSearchRoom};

use crate::objects::Death;
use crate::places::place_of;
use crate::references::References;
use crate::sorted::SortedPairs;
use et_base::{ObjectId, within};
use std::alloc::AllocError;

/// What a search works in.
#[derive(Drop)]
pub struct Room {
    pub seen: Vec<bool>,
    pub work: Vec<ObjectId>,
    pub order: Vec<Death>,
}

/// Reserves room for a search among `count` objects.
pub fn reserve(room: &mut Room, count: usize) -> Result<(), AllocError>
    ensures ok { OnOk result (HasSearchRoom count room.new) }
    ensures grows { (n : ℕ) → HasSearchRoom n room.old → HasSearchRoom n room.new }
{
    within::reserve(&mut room.seen, count)?;
    within::reserve(&mut room.work, count)?;
    within::reserve(&mut room.order, count)?;
    Ok(())
}

/// Notes that the object was seen at the time, and that its pairs are still to be followed.
pub fn mark(
    object: ObjectId,
    time: u64,
    times: &mut [u64],
    seen: &mut [bool],
    work: &mut Vec<ObjectId>,
)
    requires ready { IsReady times.old seen.old work.old }
    requires first { 0 < object }
    requires last { object ≤ length times.old }
    requires unseen { ¬ IsSet seen.old object }
    ensures ready { IsReady times.new seen.new work.new }
    ensures times { times.new ≡ slice_set times.old (object - 1) time }
    ensures seen { seen.new ≡ slice_set seen.old (object - 1) true }
    ensures work { work.new.items ≡ work.old.items ++ object ∷ [] }
    ensures grows { vec_capacity work.old ≤ vec_capacity work.new }
{
    let place = place_of(object);
    times[place] = time;
    seen[place] = true;
    within::push(work, object);
}

/// Carries the time of an object as far as it goes, where the object wasn't seen yet. Each object that it sees is visited
/// once.
fn spread<C, R: References<C>>(
    references: &R,
    source: ObjectId,
    times: &mut [u64],
    seen: &mut [bool],
    work: &mut Vec<ObjectId>,
    count: &mut C,
)
    requires within { (o : ℕ) → R.has_object references.now o → IsOneOf (length times.old) o }
    requires pairs { ArePairsAmong (R.has_object references.now) (R.pairs_in references.now) }
    requires source { R.has_object references.now source }
    requires ready { IsReady times.old seen.old work.old }
    requires empty { work.old.items ≡ [] }
    ensures ready { IsReady times.new seen.new work.new }
    ensures empty { work.new.items ≡ [] }
    ensures spreads { Spreads
        (R.pairs_in references.now) source times.old seen.old times.new seen.new }
    ensures seen { AreSeenAmong (R.has_object references.now) seen.old seen.new }
    ensures counted { R.count_of count.new + unset_count seen.new
        ≤ R.count_of count.old + unset_count seen.old }
    ensures grows { vec_capacity work.old ≤ vec_capacity work.new }
{
    let place = place_of(source);
    if seen[place] {
        return;
    }
    let time = times[place];
    mark(source, time, times, seen, work);
    while let Some(object) = work.pop() {
        references.visit(object, time, times, seen, work, count);
    }
}

/// Carries the times of all objects as far as references lead, where those with the greatest time come first. The entry of
/// object `o` is at `o - 1` of `times` and of `seen`, and none of the objects was seen before. Each is visited once at most.
/// It takes no memory.
pub fn spread_all<C, R: References<C>>(
    references: &R,
    order: &[Death],
    times: &mut [u64],
    seen: &mut [bool],
    work: &mut Vec<ObjectId>,
    count: &mut C,
)
    requires within { (o : ℕ) → R.has_object references.now o → IsOneOf (length times.old) o }
    requires pairs { ArePairsAmong (R.has_object references.now) (R.pairs_in references.now) }
    requires order { IsOrder (R.has_object references.now) times.old order.now }
    requires ready { IsReady times.old seen.old work.old }
    requires empty { work.old.items ≡ [] }
    requires unseen { (o : ℕ) → R.has_object references.now o → ¬ IsSet seen.old o }
    ensures ready { IsReady times.new seen.new work.new }
    ensures carries { Carries (R.pairs_in references.now) times.old times.new }
    ensures settled { AreSettled (R.pairs_in references.now) times.new }
    ensures seen { AreSeenAmong (R.has_object references.now) seen.old seen.new }
    ensures counted { R.count_of count.new + unset_count seen.new
        ≤ R.count_of count.old + unset_count seen.old }
    ensures grows { vec_capacity work.old ≤ vec_capacity work.new }
{
    for source in order {
        spread(references, source.object, times, seen, work, count);
    }
}

/// Lists the objects with their times.
fn list_sources(times: &[u64], order: &mut Vec<Death>)
    requires small { length times.now < 2 ^ 32 }
    requires room { length times.now ≤ vec_capacity order.old }
    ensures sources { order.new.items ≡ sources 1 times.now }
    ensures room { length times.now ≤ vec_capacity order.new }
{
    order.clear();
    let mut object: u32 = 0;
    for time in times {
        object += 1;
        let source = Death {
            object: ObjectId::new(object),
            time: *time,
        };
        within::push(order, source);
    }
}

/// Lists the objects, those with the greatest time first.
fn order_sources(times: &[u64], order: &mut Vec<Death>)
    requires below { All (λ t. t < 2 ^ 64) times.now }
    requires small { length times.now < 2 ^ 32 }
    requires room { length times.now ≤ vec_capacity order.old }
    ensures order { IsOrder (IsOneOf (length times.now)) times.now order.new.items }
    ensures room { length times.now ≤ vec_capacity order.new }
{
    list_sources(times, order);
    order.sort_unstable_by_key(|source| u64::MAX - source.time);
}

/// Raises the time of each object to the greatest that leads to it. It takes no memory, and in all as long as sorting
/// the objects does, besides looking up the pairs of each.
pub fn settle(pairs: &[(ObjectId, ObjectId)], times: &mut [u64], room: &mut Room)
    requires sorted { IsNonDecreasingBy (λ (p : ℕ × ℕ). p.0) pairs.now }
    requires within { ArePairsWithin (length times.old) pairs.now }
    requires below { All (λ t. t < 2 ^ 64) times.old }
    requires small { length times.old < 2 ^ 32 }
    requires room { HasSearchRoom (length times.old) room.old }
    ensures room { HasSearchRoom (length times.old) room.new }
    ensures carries { Carries pairs.now times.old times.new }
    ensures settled { AreSettled pairs.now times.new }
{
    order_sources(times, &mut room.order);
    room.work.clear();
    room.seen.clear();
    within::resize(&mut room.seen, times.len(), false);
    let references = SortedPairs {
        pairs,
        count: times.len(),
    };
    spread_all(
        &references,
        &room.order,
        times,
        &mut room.seen,
        &mut room.work,
        &mut (),
    );
}
