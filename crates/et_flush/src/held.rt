//! The objects that a flush goes over.
ghost use Rattle.std.specs.Prelude.{◌≤◌, ◌<◌, ◌^◌, length, vec_capacity};
ghost use Rattle.et_heap.specs.Objects.{IsHeld, held_count};
ghost use Rattle.et_flush.specs.Searches.{AreAllHeld};

use et_base::{ObjectId, within};
use et_heap::Heap;

/// Lists the objects that are held, in rising order.
pub(crate) fn list_held(heap: &Heap, held: &mut Vec<ObjectId>)
    requires none { ¬ IsHeld heap.now 0 }
    requires room { held_count heap.now ≤ vec_capacity held.old }
    ensures held { AreAllHeld heap.now held.new.items }
    ensures few { length held.new.items < 2 ^ 32 }
    ensures room { vec_capacity held.old ≤ vec_capacity held.new }
{
    held.clear();
    let last = heap.count();
    let mut from = 1;
    while from <= last {
        match heap.next_held(ObjectId::new(from)) {
            Some(object) => {
                within::push(held, object);
                from = object.number() + 1;
            }
            None => return,
        }
    }
}
