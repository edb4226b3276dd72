//! The instructions that write a slot of an object.
ghost use Rattle.std.specs.Prelude.{◌≡◌, ◌+◌, ◌<◌, ◌≤◌, length};
ghost use Rattle.et_heap.specs.Objects.{IsHeld, object_at};
ghost use Rattle.et_refs.specs.Changes.{is_number as number_in};
ghost use Rattle.et_refs.specs.Writes.{is_write_row, taken_for, written};
ghost use Rattle.et_state.specs.Running.{most_lost};

use crate::doing::changes::Store;
use et_base::{Steps, Value};
use et_event::HeapRow;
use et_heap::Heap;
use et_ops::take;
use et_state::Running;
use std::sync::ledger::Ledger;

/// Whether an instruction of this row writes a slot of an object.
#[inline(always)]
pub(crate) fn is_write(row: HeapRow) -> bool
    ensures { result ≡ is_write_row row }
{
    matches!(row, HeapRow::PutField | HeapRow::StoreElement(_))
}

/// Whether no record tells that this is written: an int or a long.
#[inline(always)]
pub(crate) fn is_number(value: Value) -> bool
    ensures { result ≡ number_in value }
{
    matches!(value, Value::Int(_) | Value::Long(_))
}

/// The instruction by which operands are taken and a slot is written, and the pc goes on.
#[inline(always)]
pub(crate) fn store<L: Ledger>(
    heap: &mut Heap,
    running: &mut Running,
    x: Store,
    next: u32,
    visits: &mut Steps<L>,
)
    requires held { IsHeld heap.old x.object }
    requires slot { x.slot < length (object_at heap.old x.object).slots }
    requires taken { x.taken ≤ length running.old.frame.operands }
    requires few { x.taken ≤ most_lost }
    ensures heap { heap.new ≡ written x heap.old }
    ensures frame { running.new ≡ taken_for x next running.old }
    ensures visits { visits.new ≡ visits.old + 1 }
{
    let _old = heap.set_slot(x.object, x.slot, x.value, visits);
    running.begin_instruction();
    take(running, x.taken);
    running.set_pc(next);
}
