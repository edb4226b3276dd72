//! What a search goes over.

ghost use Rattle.std.specs.Prelude.{◌≡◌, ℕ, ◌+◌, ◌≤◌, List, length, vec_capacity};
ghost use Rattle.et_graph.specs.Times.{ArePairsWithin, IsReady, Visits};

use et_base::ObjectId;

/// Objects that refer to one another, as a search goes over them. The visits are counted in a `C`.
pub trait References<C> {
    /// Its pairs. A pair (u, x) says that object u refers to object x.
    ghost pairs_in: { Self → List (ℕ × ℕ) };

    /// It has this object.
    ghost has_object: { Self → ℕ → Type 0 };

    /// How many visits were counted.
    ghost count_of: { C → ℕ };

    /// Visits an object: follows its pairs to those that weren't seen yet, and marks each of them with the time. It counts
    /// one visit at most, and takes no memory.
    fn visit(
        &self,
        object: ObjectId,
        time: u64,
        times: &mut [u64],
        seen: &mut [bool],
        work: &mut Vec<ObjectId>,
        count: &mut C,
    )
        requires object { has_object self.now object }
        requires within { ArePairsWithin (length times.old) (pairs_in self.now) }
        requires ready { IsReady times.old seen.old work.old }
        ensures ready { IsReady times.new seen.new work.new }
        ensures visits { Visits (pairs_in self.now)
            object time times.old seen.old work.old.items times.new seen.new work.new.items }
        ensures counted { count_of count.new ≤ count_of count.old + 1 }
        ensures grows { vec_capacity work.old ≤ vec_capacity work.new };
}
