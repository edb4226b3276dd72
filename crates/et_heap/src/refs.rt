//! The objects to which an object leads.
ghost use Rattle.std.specs.Prelude.{◌≡◌, ◌≢◌, None};
ghost use Rattle.et_heap.specs.Stored.{IsStored, stored_at};
ghost use Rattle.et_heap.specs.Links.{AreLinked, AllStand};
ghost use Rattle.et_heap.specs.Refs.{leads_to};

use crate::store::Store;
use crate::waiting::FirstGone;
use et_base::{ObjectId, Value};
use et_ghost_list::GhostList;
use std::marker::Model;

/// An iterator over the references that wait in an object, in their order. A contract sees it as the list of those that
/// are left.
#[derive(Drop)]
pub struct WaitingRefs<'a> {
    store: &'a Store,
    waiting: GhostList<ObjectId>,
    /// The reference before the first that is left, or none where none is left.
    before: Option<ObjectId>,
    /// The last reference that waits.
    last: Option<ObjectId>,
}

impl<'a> Model for WaitingRefs<'a> {
    ghost use Rattle.std.specs.Prelude.{List, ℕ};
    ghost use Rattle.et_heap.specs.RefsInside.{IsWaitingInside};

    ghost Value = { List ℕ };

    ghost view = { λ r. r.waiting.items };

    ghost invariant = { IsWaitingInside };
}

/// A reference, or none where it is the last.
fn unless_last(reference: &Option<ObjectId>, last: &Option<ObjectId>) -> Option<ObjectId>
    ensures ends { reference.now ≡ last.now → result ≡ None }
    ensures goes_on { reference.now ≢ last.now → result ≡ reference.now }
{
    if *reference == *last {
        None
    } else {
        *reference
    }
}

impl<'a> WaitingRefs<'a> {
    /// The references that wait in an object.
    fn of(store: &'a Store, o: ObjectId) -> Self
        requires linked { AreLinked store.now }
        requires stored { IsStored store.now o }
        requires whole { AllStand store.now o }
        ensures { result ≡ (stored_at store.now o).state.waiting }
    {
        let object = store.object(o);
        WaitingRefs {
            store,
            waiting: object.waiting(),
            before: object.last(),
            last: object.last(),
        }
    }
}

impl<'a> Iterator for WaitingRefs<'a> {
    type Item = ObjectId;

    ghost use Rattle.std.specs.Iterator.{YieldsFirst, item_count};

    ghost next_gives = { YieldsFirst (λ left. left) };

    ghost remaining = { item_count (λ left. left) };

    fn next(&mut self) -> Option<ObjectId> {
        let previous = self.before;
        match previous {
            None => None,
            Some(before) => {
                let first = self.store.object(before).next();
                self.waiting = self.waiting.then(&FirstGone {});
                self.before = unless_last(&first, &self.last);
                first
            }
        }
    }
}

/// An iterator over the objects to which an object leads: those in its slots, in their order, then its queue, then the
/// references that wait in it, in their order. A contract sees it as the list of those that are left.
#[derive(Drop)]
pub struct Refs<'a> {
    slots: &'a [Value],
    queue: Option<ObjectId>,
    waiting: WaitingRefs<'a>,
}

impl<'a> Model for Refs<'a> {
    ghost use Rattle.std.specs.Prelude.{List, ℕ, ◌++◌};
    ghost use Rattle.std.specs.Option.{option_to_list};
    ghost use Rattle.et_heap.specs.Refs.{refs_of};

    ghost Value = { List ℕ };

    ghost view = { λ r. refs_of r.slots.now ++ (option_to_list r.queue ++ r.waiting) };
}

impl<'a> Refs<'a> {
    /// The objects to which an object leads.
    pub fn of(store: &'a Store, o: ObjectId) -> Self
        requires linked { AreLinked store.now }
        requires stored { IsStored store.now o }
        requires whole { AllStand store.now o }
        ensures { result ≡ leads_to (stored_at store.now o).state }
    {
        let object = store.object(o);
        Refs {
            slots: object.references(),
            queue: object.queue(),
            waiting: WaitingRefs::of(store, o),
        }
    }
}

impl<'a> Iterator for Refs<'a> {
    type Item = ObjectId;

    ghost use Rattle.std.specs.Iterator.{YieldsFirst, item_count};

    ghost next_gives = { YieldsFirst (λ left. left) };

    ghost remaining = { item_count (λ left. left) };

    fn next(&mut self) -> Option<ObjectId> {
        while let Some((first, others)) = self.slots.split_first() {
            self.slots = others;
            if let Value::Ref(o) = first {
                return Some(*o);
            }
        }
        if let Some(queue) = self.queue.take() {
            return Some(queue);
        }
        self.waiting.next()
    }
}
