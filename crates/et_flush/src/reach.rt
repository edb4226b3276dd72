//! What the roots lead to.
ghost use Rattle.std.specs.Prelude.{◌≡◌, ℕ, ◌+◌, ◌≤◌, [], length, map, vec_capacity, All, Contains};
ghost use Rattle.et_graph.specs.Order.{IsOneOf};
ghost use Rattle.et_graph.specs.Times.{set_each, ArePairsAmong, Carries, IsReady, IsSet, unset_count};
ghost use Rattle.et_heap.specs.Objects.{IsHeld};
ghost use Rattle.et_heap.specs.Refs.{pairs_of};
ghost use Rattle.et_flush.specs.Ranks.{HaveRanks, rank_of, ranked_pairs};
ghost use Rattle.et_flush.specs.Searches.{IsSearched, AreFlagsOf};
ghost use Rattle.et_flush.specs.Reaches.{AreMarked, FollowsPairs, AreReached};

use crate::ranks::{Ranks, rank_at};
use crate::search::HeldReferences;
use crate::times::NOW;
use et_base::{ObjectId, Steps};
use et_graph::{References, mark, place_of};
use std::sync::ledger::Ledger;

/// Gives the roots the time `NOW`, and notes that what they lead to is still to be followed.
fn mark_roots(
    ranks: &Ranks,
    roots: &[ObjectId],
    times: &mut [u64],
    seen: &mut [bool],
    waiting: &mut Vec<ObjectId>,
)
    requires ranked { HaveRanks ranks.now (length times.old) roots.now }
    requires ready { IsReady times.old seen.old waiting.old }
    requires empty { waiting.old.items ≡ [] }
    requires unseen { (rank : ℕ) → ¬ IsSet seen.old rank }
    ensures ready { IsReady times.new seen.new waiting.new }
    ensures times { times.new ≡ set_each (map (rank_of ranks.now) roots.now) NOW times.old }
    ensures marked { AreMarked (map (rank_of ranks.now) roots.now) seen.new waiting.new.items }
    ensures counted { length waiting.new.items + unset_count seen.new ≡ unset_count seen.old }
    ensures grows { vec_capacity waiting.old ≤ vec_capacity waiting.new }
{
    for root in roots {
        let rank = rank_at(ranks, *root);
        if !seen[place_of(rank)] {
            mark(rank, NOW, times, seen, waiting);
        }
    }
}

/// Follows what waits, and what that leads to, as far as it wasn't seen yet: all of it gets the time. Each is visited once.
fn follow<C, R: References<C>>(
    references: &R,
    time: u64,
    times: &mut [u64],
    seen: &mut [bool],
    waiting: &mut Vec<ObjectId>,
    count: &mut C,
)
    requires within { (o : ℕ) → R.has_object references.now o → IsOneOf (length times.old) o }
    requires pairs { ArePairsAmong (R.has_object references.now) (R.pairs_in references.now) }
    requires waits { (o : ℕ) → Contains waiting.old.items o → R.has_object references.now o }
    requires ready { IsReady times.old seen.old waiting.old }
    ensures ready { IsReady times.new seen.new waiting.new }
    ensures empty { waiting.new.items ≡ [] }
    ensures follows { FollowsPairs (R.pairs_in references.now)
        time times.old seen.old waiting.old.items times.new seen.new }
    ensures counted { R.count_of count.new + unset_count seen.new
        ≤ R.count_of count.old + unset_count seen.old + length waiting.old.items }
    ensures grows { vec_capacity waiting.old ≤ vec_capacity waiting.new }
{
    while let Some(object) = waiting.pop() {
        references.visit(object, time, times, seen, waiting, count);
    }
}

/// Finds what the roots lead to: it is seen, and its time is `NOW`. Each is visited once.
pub(crate) fn reach<L: Ledger>(
    references: &HeldReferences<'_>,
    roots: &[ObjectId],
    times: &mut [u64],
    seen: &mut [bool],
    waiting: &mut Vec<ObjectId>,
    visits: &mut Steps<L>,
)
    requires searched { IsSearched
        references.now.heap.now references.now.held.now references.now.ranks.now }
    requires flags { AreFlagsOf references.now.held.now references.now.left_out.now }
    requires all { (rank : ℕ) → ¬ IsSet references.now.left_out.now rank }
    requires roots { (o : ℕ) → Contains roots.now o → IsHeld references.now.heap.now o }
    requires long { length times.old ≡ length references.now.held.now }
    requires below { All (λ t. t ≤ NOW) times.old }
    requires ready { IsReady times.old seen.old waiting.old }
    requires empty { waiting.old.items ≡ [] }
    requires unseen { (rank : ℕ) → ¬ IsSet seen.old rank }
    ensures carries { Carries
        (ranked_pairs references.now.ranks.now (pairs_of references.now.heap.now))
        (set_each (map (rank_of references.now.ranks.now) roots.now) NOW times.old) times.new }
    ensures reached { AreReached
        (ranked_pairs references.now.ranks.now (pairs_of references.now.heap.now))
        times.new seen.new }
    ensures empty { waiting.new.items ≡ [] }
    ensures counted { visits.new + unset_count seen.new ≤ visits.old + unset_count seen.old }
    ensures grows { vec_capacity waiting.old ≤ vec_capacity waiting.new }
{
    mark_roots(references.ranks, roots, times, seen, waiting);
    follow(references, NOW, times, seen, waiting, visits);
}
