//! What a flush searches: the objects of a heap, with what they lead to.
ghost use Rattle.et_flush.specs.Ranks.{ranked_pairs};
ghost use Rattle.et_flush.specs.Searches.{IsSearchedRank, pairs_left};
ghost use Rattle.et_heap.specs.Refs.{pairs_of};

use crate::ranks::{Ranks, rank_at};
use et_base::{ObjectId, Steps};
use et_graph::{References, mark, place_of};
use et_heap::Heap;
use std::sync::ledger::Ledger;

/// The objects that are held, with what they lead to: the references in their slots, their queues, and the references that
/// wait in them. What an object refers to weakly isn't one of these. A search knows each object by its rank, and goes to none
/// that is left out.
#[derive(Clone, Copy)]
pub(crate) struct HeldReferences<'a> {
    pub heap: &'a Heap,
    pub held: &'a [ObjectId],
    pub ranks: &'a Ranks,
    /// By rank, whether the object is left out.
    pub left_out: &'a [bool],
}

/// Each visit is counted.
impl<'a, L: Ledger> References<Steps<L>> for HeldReferences<'a> {
    ghost pairs_in = { λ s. pairs_left s.left_out.now (ranked_pairs s.ranks.now (pairs_of s.heap.now)) };

    ghost has_object = { λ s. IsSearchedRank s.heap.now s.held.now s.ranks.now s.left_out.now };

    ghost count_of = { λ n. n };

    fn visit(
        &self,
        object: ObjectId,
        time: u64,
        times: &mut [u64],
        seen: &mut [bool],
        work: &mut Vec<ObjectId>,
        count: &mut Steps<L>,
    ) {
        let held = self.held[place_of(object)];
        let mut targets = self.heap.refs_of(held, count);
        'targets: while let Some(target) = targets.next() {
            let rank = rank_at(self.ranks, target);
            let place = place_of(rank);
            if !self.left_out[place] && !seen[place] {
                mark(rank, time, times, seen, work);
            }
        }
    }
}
