//! What a flush puts in reference queues.
ghost use Rattle.std.specs.Prelude.{◌≡◌, ℕ, ◌+◌, length, Contains};
ghost use Rattle.et_heap.specs.Objects.{IsHeld};
ghost use Rattle.et_flush.specs.Flushes.{all_enqueued};
ghost use Rattle.et_flush.specs.Searches.{ArePairsHeld};

use et_base::{ObjectId, Steps};
use et_heap::Heap;
use std::sync::ledger::Ledger;

/// Puts each of these references in turn at the end of the waiting list of its queue, where it has one and waits nowhere. It
/// visits each once.
pub(crate) fn enqueue_all<L: Ledger>(
    heap: &mut Heap,
    references: &[ObjectId],
    visits: &mut Steps<L>,
)
    requires held { (r : ℕ) → Contains references.now r → IsHeld heap.old r }
    requires pairs { ArePairsHeld heap.old }
    ensures heap { heap.new ≡ all_enqueued references.now heap.old }
    ensures visits { visits.new ≡ visits.old + length references.now }
{
    for reference in references {
        heap.enqueue(*reference, visits);
    }
}
