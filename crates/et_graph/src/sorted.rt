//! Pairs in a slice, as a search goes over them.

ghost use Rattle.std.specs.Prelude.{ℕ};
ghost use Rattle.std.specs.List.Sorted.{IsNonDecreasingBy};
ghost use Rattle.et_graph.specs.Order.{IsOneOf};

use crate::pairs::pairs_of;
use crate::places::place_of;
use crate::references::References;
use crate::search::mark;
use et_base::ObjectId;

/// The objects from 1 to `count`, with their pairs, which are sorted by their first object.
#[derive(Clone, Copy)]
pub struct SortedPairs<'a> {
    pub pairs: &'a [(ObjectId, ObjectId)],
    pub count: usize,
    ghost sorted: { IsNonDecreasingBy (λ (p : ℕ × ℕ). p.0) pairs.now },
}

/// Its visits aren't counted.
impl<'a> References<()> for SortedPairs<'a> {
    ghost pairs_in = { λ s. s.pairs.now };

    ghost has_object = { λ s. IsOneOf s.count };

    ghost count_of = { λ _. 0 };

    fn visit(
        &self,
        object: ObjectId,
        time: u64,
        times: &mut [u64],
        seen: &mut [bool],
        work: &mut Vec<ObjectId>,
        _count: &mut (),
    ) {
        for pair in pairs_of(self.pairs, object) {
            if !seen[place_of(pair.1)] {
                mark(pair.1, time, times, seen, work);
            }
        }
    }
}
