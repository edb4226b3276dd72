//! What the instructions on fields, arrays and classes come to, by their rows.
ghost use Rattle.std.specs.Prelude.{◌≡◌, ◌+◌, ◌<◌, ◌≤◌, false, IfOk};
ghost use Rattle.et_event.specs.Heap.{heap_event};
ghost use Rattle.et_event.specs.Moments.{moment};
ghost use Rattle.et_event.specs.Programs.{AreElementsWithin, HasSlots};
ghost use Rattle.et_event.specs.Sound.{IsSoundFor};
ghost use Rattle.et_refs.specs.Asked.{MayRefer};
ghost use Rattle.et_refs.specs.LiftedChanges.{is_lifted_row};
ghost use Rattle.et_refs.specs.Refusals.{ComesTo};
ghost use Rattle.et_refs.specs.Rows.{MayDo, is_get_static, plan_outcome};
ghost use Rattle.et_state.specs.State.{kept_of};
ghost use Rattle.et_state.specs.Words.{top};

use crate::arrays::{new_array, new_reference_array};
use crate::doing::accesses::Wanted;
use crate::doing::changes::Change;
use crate::refusals::Refusal;
use crate::slots::static_fields::write_field as write_static_field;
use crate::types::casts::{TypeTest, type_test};
use crate::types::instances::new_object;
use et_base::{Steps, ThreadId};
use et_event::{HeapRow, Place};
use et_program::Program;
use et_state::Machine;
use std::sync::ledger::Ledger;

/// What an instruction comes to, before anything is changed.
#[derive(Clone, Copy)]
pub enum Plan {
    /// No check is left, and this is changed.
    Change(Change),
    /// A class is initialized first, where it has to be; then this is done with it.
    Access(Wanted),
    /// Arrays of some dimensions are made, where their checks allow it (`multianewarray`).
    Arrays,
}

/// Whether the row is that of `getstatic`.
pub(crate) fn is_static_read(row: HeapRow) -> bool
    ensures { result ≡ is_get_static row }
{
    matches!(row, HeapRow::GetStatic)
}

/// What the instruction of a row at the place where the thread stands comes to, or what refuses (JVMS 6.5). A `getstatic`, and what
/// is done over lifted frames, come to no plan. It visits one object
/// at most.
pub fn plan_of<L: Ledger>(
    program: &Program,
    machine: &Machine,
    thread: ThreadId,
    place: &Place<'_>,
    row: HeapRow,
    visits: &mut Steps<L>,
) -> Result<Plan, Refusal>
    requires refers { MayRefer program.now machine.now thread place.now }
    requires sound { IsSoundFor program.now (kept_of machine.now) }
    requires elements { AreElementsWithin program.now }
    requires slots { HasSlots program.now }
    requires other { is_get_static row ≡ false }
    requires not_lifted { is_lifted_row row ≡ false }
    ensures is { ComesTo (λ e at. heap_event e at row)
        (moment program.now machine.now thread) place.now.site result plan_outcome }
    ensures may { IfOk result
        (λ x. MayDo program.now machine.now.heap (top machine.now.guest thread) row x) }
    ensures visits { visits.new ≤ visits.old + 1 }
{
    match row {
        HeapRow::GetStatic
        | HeapRow::GetField
        | HeapRow::PutField
        | HeapRow::LoadElement(_)
        | HeapRow::StoreElement(_)
        | HeapRow::ArrayLength => unreachable!(),
        HeapRow::PutStatic => {
            let x = write_static_field(program, machine, thread, place)?;
            Ok(Plan::Access(x))
        }
        HeapRow::New => {
            let x = new_object(program, machine, thread, place)?;
            Ok(Plan::Access(x))
        }
        HeapRow::CheckCast => {
            let x = type_test(program, machine, thread, place, TypeTest::CheckCast, visits)?;
            Ok(Plan::Change(Change::Put(x)))
        }
        HeapRow::InstanceOf => {
            let test = TypeTest::InstanceOf;
            let x = type_test(program, machine, thread, place, test, visits)?;
            Ok(Plan::Change(Change::Put(x)))
        }
        HeapRow::NewArray => {
            let x = new_array(program, machine, thread, place)?;
            Ok(Plan::Change(Change::Make(x)))
        }
        HeapRow::NewReferenceArray => {
            let x = new_reference_array(program, machine, thread, place)?;
            Ok(Plan::Change(Change::Make(x)))
        }
        HeapRow::NewMultiArray => Ok(Plan::Arrays),
    }
}
