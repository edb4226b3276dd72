//! The links of waiting lists.
ghost use Rattle.std.specs.Prelude.{◌≡◌, ℕ, Some};
ghost use Rattle.et_heap.specs.Stored.{IsStored};
ghost use Rattle.et_heap.specs.Links.{last_of, linked, first_unlinked, first_behind, next_of};

use crate::store::Store;
use et_base::ObjectId;

/// Links a reference in behind the last one that waits in a queue.
pub fn link(store: &mut Store, queue: ObjectId, reference: ObjectId)
    requires queue { IsStored store.old queue }
    requires reference { IsStored store.old reference }
    requires last { (l : ℕ) → last_of store.old queue ≡ Some l → IsStored store.old l }
    ensures { store.new ≡ linked queue reference store.old }
{
    match store.object(queue).last() {
        None => {
            store.set_next(reference, Some(reference));
            store.push_last(queue, reference);
        }
        Some(last) => {
            let first = store.object(last).next();
            store.set_next(reference, first);
            store.set_next(last, Some(reference));
            store.push_last(queue, reference);
        }
    }
}

/// Links the first reference that waits in a queue out, and answers it.
pub fn unlink(store: &mut Store, queue: ObjectId) -> Option<ObjectId>
    requires queue { IsStored store.old queue }
    requires last { (l : ℕ) → last_of store.old queue ≡ Some l → IsStored store.old l }
    requires first { (l f : ℕ) → last_of store.old queue ≡ Some l → next_of store.old l ≡ Some f
        → IsStored store.old f }
    ensures first { result ≡ first_behind store.old (last_of store.old queue) }
    ensures new { store.new ≡ first_unlinked queue store.old }
{
    let last = store.object(queue).last()?;
    let first = store.object(last).next()?;
    if first == last {
        store.drop_first(queue, None);
        store.set_next(first, None);
    } else {
        let second = store.object(first).next();
        store.set_next(last, second);
        store.drop_first(queue, Some(last));
        store.set_next(first, None);
    }
    Some(first)
}
