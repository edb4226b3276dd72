//! The slots of objects that instructions read and write: which slot it is stands here, fields and elements below, with the
//! reads and writes over frames that are lifted out of the machine.

pub(crate) mod elements;
pub(crate) mod fields;
pub(crate) mod reads;
pub(crate) mod static_fields;
pub(crate) mod steps;
pub(crate) mod writes;

ghost use Rattle.std.specs.Prelude.{◌≡◌, ◌+◌, ◌<◌, ◌≤◌, length};
ghost use Rattle.et_heap.specs.Objects.{IsHeld, object_at, slot_of};
ghost use Rattle.et_heap.specs.Refs.{refs_of_value};
ghost use Rattle.et_event.specs.Checks.{entries_of};
ghost use Rattle.et_event.specs.Kinds.{or_zero as zero_or};
ghost use Rattle.et_program.specs.Entries.{Linked};
ghost use Rattle.et_refs.specs.Reads.{AreHeld, IsSoundHeap};
ghost use Rattle.et_refs.specs.Slots.{IsSlotAt, entries};

use crate::types::kinds::or_zero;
use et_base::{ObjectId, Steps, Value};
use et_event::Operand;
use et_heap::Heap;
use std::sync::ledger::Ledger;

/// A slot of an object.
#[derive(Clone, Copy)]
pub struct SlotAt {
    pub object: ObjectId,
    pub slot: u32,
}

/// What a slot holds.
#[inline(always)]
pub(crate) fn slot_value<L: Ledger>(heap: &Heap, at: &SlotAt, visits: &mut Steps<L>) -> Value
    requires held { IsHeld heap.now at.now.object }
    requires slot { at.now.slot < length (object_at heap.now at.now.object).slots }
    ensures value { result ≡ slot_of (object_at heap.now at.now.object) at.now.slot }
    ensures visits { visits.new ≡ visits.old + 1 }
{
    heap.slot(at.object, at.slot, visits)
}

/// What a slot gives of its kind: 0 or null where nothing was written to it.
#[inline(always)]
pub(crate) fn read_slot<L: Ledger>(
    heap: &Heap,
    kind: Option<Operand>,
    at: &SlotAt,
    visits: &mut Steps<L>,
) -> Value
    requires at { IsSlotAt heap.now kind at.now }
    ensures value { result
        ≡ zero_or kind (slot_of (object_at heap.now at.now.object) at.now.slot) }
    ensures few { length (entries_of result) ≤ entries kind }
    ensures held { (p : Linked) → IsSoundHeap p heap.now →
        AreHeld heap.now (refs_of_value result) }
    ensures visits { visits.new ≡ visits.old + 1 }
{
    let value = slot_value(heap, at, visits);
    or_zero(kind, value)
}
