//! One place of a page.
ghost use Rattle.std.specs.Prelude.{◌≡◌, ◌<◌, ◌↔◌, length, IsTrue, Some, None, [], false};
ghost use Rattle.et_heap.specs.Objects.{free_monitor, slot_of, with_slot, with_referent, with_queue, with_monitor, referent_value, referent_of};
ghost use Rattle.et_heap.specs.Refs.{refs_of};
ghost use Rattle.et_heap.specs.Stored.{as_stored, is_stored, unlinked, on_state, with_next, with_last, without_first};

use crate::monitor::Monitor;
use crate::waiting::{FirstGone, Newcomer, Unchanged};
use et_base::{ClassId, ObjectId, ThreadId, Value};
use et_ghost_list::GhostList;
use std::marker::Model;

/// The place of an object. It is empty once the object was taken out, and has no slots then. An `Option` takes up to
/// 7 bytes for its tag, so what may be absent is a field and a flag of 1 byte, which says whether the field counts.
#[derive(Drop)]
pub struct Place {
    slots: Vec<Value>,
    /// How often the owner of the monitor has entered it and not left it again.
    entered: u64,
    class: ClassId,
    length: u32,
    referent: ObjectId,
    queue: ObjectId,
    /// The last of the references that wait in the object.
    last: ObjectId,
    /// Where the object waits itself, the reference behind it; behind the last one comes the first.
    next: ObjectId,
    owner: ThreadId,
    has_referent: bool,
    has_queue: bool,
    has_last: bool,
    waits: bool,
    has_owner: bool,
    /// Whether a reference was ever written in a slot.
    has_references: bool,
    /// Whether the object was not taken out.
    held: bool,
    /// The references that wait in the object.
    waiting: GhostList<ObjectId>,
}

impl Model for Place {
    ghost use Rattle.std.specs.Prelude.{Option};
    ghost use Rattle.std.specs.Bool.{then_some};
    ghost use Rattle.et_heap.specs.Stored.{Stored};
    ghost use Rattle.et_heap.specs.References.{HasFlag};

    ghost Value = { Option Stored };

    ghost invariant = { HasFlag };

    ghost view = { λ x. then_some x.held (record {
      state = record {
        class = x.class;
        length = x.length;
        slots = x.slots.items;
        referent = then_some x.has_referent x.referent;
        queue = then_some x.has_queue x.queue;
        waiting = x.waiting.items;
        waits = x.waits;
        monitor = record { owner = then_some x.has_owner x.owner; count = x.entered };
      };
      last = then_some x.has_last x.last;
      next = then_some x.waits x.next;
    }) };
}

/// The value that a reference is; null where there is none (JVMS 2.4).
pub fn value_of_reference(o: Option<ObjectId>) -> Value
    ensures { result ≡ referent_value o }
{
    match o {
        Some(o) => Value::Ref(o),
        None => Value::Null,
    }
}

/// The reference that a value is; none where it is no reference.
fn reference_of(v: Value) -> Option<ObjectId>
    ensures { result ≡ referent_of v }
{
    match v {
        Value::Ref(o) => Some(o),
        _ => None,
    }
}

impl Place {
    /// The place of an object with these slots, in which no reference stands yet.
    pub fn new(class: ClassId, length: u32, slots: Vec<Value>) -> Self
        requires { refs_of slots.items ≡ [] }
        ensures { result ≡ Some (unlinked (record {
          class = class;
          length = length;
          slots = slots.items;
          referent = None;
          queue = None;
          waiting = [];
          waits = false;
          monitor = free_monitor;
        })) }
    {
        let nobody = ObjectId::new(0);
        Place {
            slots,
            entered: 0,
            class,
            length,
            referent: nobody,
            queue: nobody,
            last: nobody,
            next: nobody,
            owner: ThreadId::new(0),
            has_referent: false,
            has_queue: false,
            has_last: false,
            waits: false,
            has_owner: false,
            has_references: false,
            held: true,
            waiting: GhostList::begin(),
        }
    }

    /// Whether an object stands here.
    pub fn is_held(&self) -> bool
        ensures { IsTrue result ↔ is_stored self.now }
    {
        self.held
    }

    /// Takes the object out, with its slots.
    pub fn take_out(&mut self)
        ensures { self.new ≡ None }
    {
        self.slots = Vec::new(*self.slots.allocator());
        self.held = false;
    }

    #[inline(always)]
    pub fn class(&self) -> ClassId
        requires { is_stored self.now }
        ensures { result ≡ (as_stored self.now).state.class }
    {
        self.class
    }

    #[inline(always)]
    pub fn length(&self) -> u32
        requires { is_stored self.now }
        ensures { result ≡ (as_stored self.now).state.length }
    {
        self.length
    }

    /// All slots.
    pub fn slots(&self) -> &[Value]
        requires { is_stored self.now }
        ensures { result.now ≡ (as_stored self.now).state.slots }
    {
        self.slots.as_slice()
    }

    /// The slots in which references may stand: all of them, or none where none was ever written.
    pub fn references(&self) -> &[Value]
        requires { is_stored self.now }
        ensures { refs_of result.now ≡ refs_of (as_stored self.now).state.slots }
    {
        if self.has_references {
            self.slots.as_slice()
        } else {
            &[]
        }
    }

    #[inline(always)]
    pub fn slot(&self, i: u32) -> Value
        requires held { is_stored self.now }
        requires slot { i < length (as_stored self.now).state.slots }
        ensures { result ≡ slot_of (as_stored self.now).state i }
    {
        self.slots[i as usize]
    }

    /// Writes a slot, and answers what stood there.
    #[inline(always)]
    pub fn set_slot(&mut self, i: u32, v: Value) -> Value
        requires held { is_stored self.old }
        requires slot { i < length (as_stored self.old).state.slots }
        ensures old { result ≡ slot_of (as_stored self.old).state i }
        ensures new { self.new ≡ Some (on_state (with_slot i v) (as_stored self.old)) }
    {
        let old = self.slots[i as usize];
        self.slots[i as usize] = v;
        if let Value::Ref(_) = &v {
            self.has_references = true;
        }
        old
    }

    pub fn referent(&self) -> Value
        requires { is_stored self.now }
        ensures { result ≡ referent_value (as_stored self.now).state.referent }
    {
        value_of_reference(self.has_referent.then_some(self.referent))
    }

    /// Writes the referent, and answers the one before.
    pub fn set_referent(&mut self, v: Value) -> Value
        requires { is_stored self.old }
        ensures old { result ≡ referent_value (as_stored self.old).state.referent }
        ensures new { self.new
            ≡ Some (on_state (with_referent (referent_of v)) (as_stored self.old)) }
    {
        let old = self.referent();
        let referent = reference_of(v);
        self.has_referent = referent.is_some();
        self.referent = referent.unwrap_or(ObjectId::new(0));
        old
    }

    /// The queue, if there is one.
    pub fn queue(&self) -> Option<ObjectId>
        requires { is_stored self.now }
        ensures { result ≡ (as_stored self.now).state.queue }
    {
        self.has_queue.then_some(self.queue)
    }

    /// Writes the queue, and answers the one before.
    pub fn set_queue(&mut self, v: Value) -> Value
        requires { is_stored self.old }
        ensures old { result ≡ referent_value (as_stored self.old).state.queue }
        ensures new { self.new ≡ Some (on_state (with_queue (referent_of v)) (as_stored self.old)) }
    {
        let old = value_of_reference(self.queue());
        let queue = reference_of(v);
        self.has_queue = queue.is_some();
        self.queue = queue.unwrap_or(ObjectId::new(0));
        old
    }

    /// Whether it waits.
    pub fn waits(&self) -> bool
        requires { is_stored self.now }
        ensures { result ≡ (as_stored self.now).state.waits }
    {
        self.waits
    }

    /// The references that wait in it.
    pub fn waiting(&self) -> GhostList<ObjectId>
        requires { is_stored self.now }
        ensures { result.items ≡ (as_stored self.now).state.waiting }
    {
        self.waiting.then(&Unchanged {})
    }

    /// The last of the references that wait in it.
    pub fn last(&self) -> Option<ObjectId>
        requires { is_stored self.now }
        ensures { result ≡ (as_stored self.now).last }
    {
        self.has_last.then_some(self.last)
    }

    /// The reference behind it, where it waits.
    pub fn next(&self) -> Option<ObjectId>
        requires { is_stored self.now }
        ensures { result ≡ (as_stored self.now).next }
    {
        self.waits.then_some(self.next)
    }

    /// Writes the reference behind it; it waits exactly where there is one.
    pub fn set_next(&mut self, next: Option<ObjectId>)
        requires { is_stored self.old }
        ensures { self.new ≡ Some (with_next next (as_stored self.old)) }
    {
        self.waits = next.is_some();
        self.next = next.unwrap_or(ObjectId::new(0));
    }

    /// Makes a reference the last of those that wait in it.
    pub fn push_last(&mut self, reference: ObjectId)
        requires { is_stored self.old }
        ensures { self.new ≡ Some (with_last reference (as_stored self.old)) }
    {
        self.waiting = self.waiting.then(&Newcomer { reference });
        self.last = reference;
        self.has_last = true;
    }

    /// Forgets the first of those that wait in it. The last one is given: it is none where none is left.
    pub fn drop_first(&mut self, last: Option<ObjectId>)
        requires { is_stored self.old }
        ensures { self.new ≡ Some (without_first last (as_stored self.old)) }
    {
        self.waiting = self.waiting.then(&FirstGone {});
        self.has_last = last.is_some();
        self.last = last.unwrap_or(ObjectId::new(0));
    }

    pub fn monitor(&self) -> Monitor
        requires { is_stored self.now }
        ensures { result ≡ (as_stored self.now).state.monitor }
    {
        Monitor {
            owner: self.has_owner.then_some(self.owner),
            count: self.entered,
        }
    }

    /// Writes the monitor, and answers the one before.
    pub fn set_monitor(&mut self, m: Monitor) -> Monitor
        requires { is_stored self.old }
        ensures old { result ≡ (as_stored self.old).state.monitor }
        ensures new { self.new ≡ Some (on_state (with_monitor m) (as_stored self.old)) }
    {
        let old = self.monitor();
        self.has_owner = m.owner.is_some();
        self.owner = m.owner.unwrap_or(ThreadId::new(0));
        self.entered = m.count;
        old
    }
}
