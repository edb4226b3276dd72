//! The instructions that read or write the heap while the frames of their thread are lifted out of the machine.
ghost use Rattle.std.specs.Prelude.{◌≡◌, ℕ, ◌+◌, ◌<◌, ◌≤◌, ◌^◌, true, false, length, Ok, Some, IfOk};
ghost use Rattle.et_event.specs.Heap.{heap_event};
ghost use Rattle.et_event.specs.Moments.{Moment};
ghost use Rattle.et_event.specs.Programs.{AreElementsWithin};
ghost use Rattle.et_event.specs.declared.rows.Row.TheVariants as row_kinds;
ghost use Rattle.et_event.specs.Sites.{Site, decoded_at, running_method};
ghost use Rattle.et_event.specs.Table.{row_of};
ghost use Rattle.et_heap.specs.Objects.{Objects};
ghost use Rattle.et_state.specs.Threads.{FrameState};
ghost use Rattle.et_refs.specs.Changes.{MayExchange, MayStore, exchange_outcome, is_number as is_number_in, store_outcome};
ghost use Rattle.et_refs.specs.LiftedChanges.{MayBeLifted, is_lifted_row, lifted_outcome, stores_number};
ghost use Rattle.et_refs.specs.Reads.{ComesToInPool, IsReadable};
ghost use Rattle.et_refs.specs.Refusals.{outcome_of};
ghost use Rattle.et_refs.specs.Steps.{StepsOver};

use crate::doing::changes::{Exchange, Store};
use crate::refusals::Refusal;
use crate::slots::elements::{read_element, read_length, write_element};
use crate::slots::fields::{read_field, write_field};
use crate::slots::reads::{exchange, index_in};
use crate::slots::writes::{is_number, is_write, store};
use et_base::{ClassId, Steps};
use et_code::Instr;
use et_event::HeapRow;
use et_heap::Heap;
use et_ops::reference_at;
use et_program::Program;
use et_state::Running;
use std::sync::ledger::Ledger;

/// What an instruction does over lifted frames.
#[derive(Clone, Copy)]
pub(crate) enum LiftedChange {
    Put(Exchange),
    Store(Store),
}

/// Whether an instruction of this row reads the heap and changes nothing but its frame, or writes a slot of an object.
#[inline(always)]
pub(crate) fn is_lifted(row: HeapRow) -> bool
    ensures { result ≡ is_lifted_row row }
{
    matches!(
        row,
        HeapRow::GetField
            | HeapRow::LoadElement(_)
            | HeapRow::ArrayLength
            | HeapRow::PutField
            | HeapRow::StoreElement(_)
    )
}

/// A value that is put in the place of operands, as what is done over lifted frames.
#[inline(always)]
fn put(answer: Result<Exchange, Refusal>) -> Result<LiftedChange, Refusal>
    ensures is { (e : Moment) (at : Site) →
        outcome_of e answer (exchange_outcome e at) ≡ outcome_of e result (lifted_outcome e at) }
    ensures may { (heap : Objects) (f : FrameState) →
        IfOk answer (λ x. MayExchange heap f x) → IfOk result (λ x. MayBeLifted heap f x) }
    ensures number { IfOk result (λ x. stores_number x ≡ false) }
{
    match answer {
        Ok(x) => Ok(LiftedChange::Put(x)),
        Err(refusal) => Err(refusal),
    }
}

/// .. a slot that is written.
#[inline(always)]
fn stored(answer: Result<Store, Refusal>) -> Result<LiftedChange, Refusal>
    ensures is { (e : Moment) (at : Site) →
        outcome_of e answer (store_outcome e at) ≡ outcome_of e result (lifted_outcome e at) }
    ensures may { (heap : Objects) (f : FrameState) →
        IfOk answer (λ x. MayStore heap f x) → IfOk result (λ x. MayBeLifted heap f x) }
    ensures number { (n most : ℕ) → IfOk answer (λ x. is_number_in x.value ≡ true → n ≤ most) →
        IfOk result (λ x. stores_number x ≡ true → n ≤ most) }
{
    match answer {
        Ok(x) => Ok(LiftedChange::Store(x)),
        Err(refusal) => Err(refusal),
    }
}

/// What such an instruction does, or what refuses (JVMS 6.5). It stands in code of a class, and has this index into the pool, if
/// it has one. It visits objects four times at most, and twice where it writes a number.
#[inline(always)]
pub(crate) fn lifted_change<L: Ledger>(
    program: &Program,
    heap: &Heap,
    running: &Running,
    class: ClassId,
    index: u16,
    row: HeapRow,
    visits: &mut Steps<L>,
) -> Result<LiftedChange, Refusal>
    requires sound { IsReadable program.now heap.now running.now.frame }
    requires class { class < length program.now.classes }
    requires elements { AreElementsWithin program.now }
    requires lifted { is_lifted_row row ≡ true }
    ensures is { ComesToInPool program.now heap.now running.now.frame class index
        (λ e at. heap_event e at row) result lifted_outcome }
    ensures may { IfOk result (λ x. MayBeLifted heap.now running.now.frame x) }
    ensures visits { visits.new ≤ visits.old + 4 }
    ensures number { IfOk result (λ x. stores_number x ≡ true → visits.new ≤ visits.old + 2) }
{
    match row {
        HeapRow::GetField => { put(read_field(program, heap, running, class, index, visits)) }
        HeapRow::LoadElement(elements) => {
            put(read_element(program, heap, running, elements, visits))
        }
        HeapRow::ArrayLength => put(read_length(program, heap, running, visits)),
        HeapRow::PutField => { stored(write_field(program, heap, running, class, index, visits)) }
        HeapRow::StoreElement(elements) => {
            stored(write_element(program, heap, running, elements, visits))
        }
        HeapRow::GetStatic
        | HeapRow::PutStatic
        | HeapRow::New
        | HeapRow::NewArray
        | HeapRow::NewReferenceArray
        | HeapRow::NewMultiArray
        | HeapRow::CheckCast
        | HeapRow::InstanceOf => unreachable!(),
    }
}

/// Does the instruction at the pc of the frame that runs, which was decoded and has this row, where it reads the heap and changes
/// nothing but the frame, or writes a number to a slot of an object. `true` where it was done; where it does anything else, or
/// something refuses, all is as before. It visits objects four times at most.
#[inline(always)]
pub fn heap_step<L: Ledger>(
    program: &Program,
    class: ClassId,
    heap: &mut Heap,
    running: &mut Running,
    decoded: &(Instr, usize),
    row: HeapRow,
    visits: &mut Steps<L>,
) -> bool
    requires class { class < length program.now.classes }
    requires method { class ≡ (running_method program.now running.old.frame).class }
    requires there { decoded_at program.now running.old.frame ≡ Ok decoded.now }
    requires at_row { row_of decoded.now.0.opcode ≡ Some (row_kinds.Heap row) }
    requires next { decoded.now.1 < 2 ^ 32 }
    requires sound { IsReadable program.now heap.old running.old.frame }
    requires elements { AreElementsWithin program.now }
    ensures steps { StepsOver program.now heap.old heap.new result running.old running.new }
    ensures visits { visits.new ≤ visits.old + 4 }
{
    if !is_lifted(row) {
        return false;
    }
    // A record tells of a reference.
    if is_write(row) && reference_at(running, 0).is_some() {
        return false;
    }
    let Some(index) = index_in(&decoded.0) else {
        return false;
    };
    match lifted_change(program, heap, running, class, index, row, visits) {
        Ok(LiftedChange::Put(x)) => {
            exchange(running, x, decoded.1 as u32);
            true
        }
        Ok(LiftedChange::Store(x)) => {
            if !is_number(x.value) {
                return false;
            }
            store(heap, running, x, decoded.1 as u32, visits);
            true
        }
        Err(_) => false,
    }
}
