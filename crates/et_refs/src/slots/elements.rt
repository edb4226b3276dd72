//! Elements of arrays (JVMS 6.5, arraylength, iaload, iastore and their kin).
ghost use Rattle.std.specs.Prelude.{◌≡◌, ℕ, ◌+◌, ◌<◌, ◌≤◌, ◌^◌, true, length, Some, IfOk};
ghost use Rattle.et_base.specs.declared.value.Value.TheVariants.{Ref};
ghost use Rattle.et_state.specs.State.{GuestState, Kept};
ghost use Rattle.et_heap.specs.Refs.{refs_of_value};
ghost use Rattle.et_program.specs.Entries.{Linked, class_at};
ghost use Rattle.et_event.specs.Checks.{entries_of};
ghost use Rattle.et_state.specs.Outcome.{Outcome};
ghost use Rattle.et_heap.specs.Objects.{IsHeld, object_at, slot_of};
ghost use Rattle.et_event.specs.Heap.{with_element, load_element, store_element, array_length, element_of_array as elements_of, passes_element as passing_element};
ghost use Rattle.et_event.specs.Kinds.{kind_of_elements as elements_kind, or_zero as zero_or, is_array_element as is_such};
ghost use Rattle.et_event.specs.Sites.{natural_of};
ghost use Rattle.et_refs.specs.Changes.{MayExchange, MayStore, exchange_outcome, is_number, store_outcome};
ghost use Rattle.et_refs.specs.Reads.{AreHeld, ComesToOver, IsReadable, IsSoundHeap, moment_over};
ghost use Rattle.et_refs.specs.Refusals.{outcome_of};
ghost use Rattle.et_refs.specs.Slots.{IsSlotAt};
ghost use Rattle.et_event.specs.Programs.{IsElementWithin, AreElementsWithin};

use crate::checks::{ill_typed_unless, not_null, throws_unless};
use crate::doing::changes::{Exchange, Store};
use crate::operands::running::{
    running_element, running_int, running_operands_fit, running_reference,
};
use crate::refusals::Refusal;
use crate::slots::{SlotAt, read_slot};
use crate::types::casts::passes;
use crate::types::kinds::{
    are_elements, in_bounds, is_array, kept_element, kind_of_elements, natural,
};
use et_base::{ObjectId, Steps, Value};
use et_event::{Elements, GuestError};
use et_heap::Heap;
use et_program::{Element, Program};
use et_state::Running;
use std::sync::ledger::Ledger;

/// What an object has as its elements.
#[inline(always)]
fn element_of<L: Ledger>(
    program: &Program,
    heap: &Heap,
    object: ObjectId,
    visits: &mut Steps<L>,
) -> Element
    requires sound { IsSoundHeap program.now heap.now }
    requires held { IsHeld heap.now object }
    ensures value { result
        ≡ (class_at program.now (object_at heap.now object).class).info.element }
    ensures visits { visits.new ≡ visits.old + 1 }
{
    let class = heap.class_of(object, visits);
    program.class(class).element
}

/// The length of an array, which has a slot for each element.
#[inline(always)]
fn length_of<L: Ledger>(
    program: &Program,
    heap: &Heap,
    object: ObjectId,
    visits: &mut Steps<L>,
) -> u32
    requires sound { IsSoundHeap program.now heap.now }
    requires held { IsHeld heap.now object }
    requires array { is_such
        (class_at program.now (object_at heap.now object).class).info.element ≡ true }
    ensures value { result ≡ (object_at heap.now object).length }
    ensures slots { result ≡ length (object_at heap.now object).slots }
    ensures few { result < 2 ^ 31 }
    ensures visits { visits.new ≡ visits.old + 1 }
{
    let _slots = heap.slots();
    heap.length_of(object, visits)
}

/// The element of an index of the array that a reference names, where the array has such elements.
#[inline(always)]
fn element_slot<L: Ledger>(
    program: &Program,
    heap: &Heap,
    elements: Elements,
    reference: Option<ObjectId>,
    index: i32,
    visits: &mut Steps<L>,
) -> Result<SlotAt, Refusal>
    requires sound { IsSoundHeap program.now heap.now }
    requires held { (o : ℕ) → reference ≡ Some o → IsHeld heap.now o }
    ensures is { (g : GuestState) (t : ℕ) (go : ℕ → ℕ → Outcome Kept) →
        with_element (moment_over program.now heap.now g t)
        elements reference index (λ o. go o (natural_of index))
        ≡ outcome_of (moment_over program.now heap.now g t) result (λ x. go x.object x.slot) }
    ensures object { IfOk result (λ x. reference ≡ Some x.object) }
    ensures at { IfOk result (λ x. IsSlotAt heap.now (Some (elements_kind elements)) x) }
    ensures visits { visits.new ≤ visits.old + 2 }
{
    let object = not_null(reference)?;
    let element = element_of(program, heap, object, visits);
    ill_typed_unless(are_elements(elements, element))?;
    let length = length_of(program, heap, object, visits);
    throws_unless(
        GuestError::ArrayIndexOutOfBoundsException,
        in_bounds(index, length),
    )?;
    Ok(SlotAt {
        object,
        slot: natural(index),
    })
}

/// What an element gives.
#[inline(always)]
fn element_value<L: Ledger>(
    heap: &Heap,
    elements: Elements,
    at: &SlotAt,
    visits: &mut Steps<L>,
) -> Value
    requires at { IsSlotAt heap.now (Some (elements_kind elements)) at.now }
    ensures value { result ≡ zero_or (Some (elements_kind elements))
        (slot_of (object_at heap.now at.now.object) at.now.slot) }
    ensures few { length (entries_of result) ≤ 2 }
    ensures held { (p : Linked) → IsSoundHeap p heap.now →
        AreHeld heap.now (refs_of_value result) }
    ensures visits { visits.new ≡ visits.old + 1 }
{
    let kind = Some(kind_of_elements(elements));
    read_slot(heap, kind, at, visits)
}

/// What `iaload` or one of its kin puts in the place of the array and the index.
#[inline(always)]
pub(crate) fn read_element<L: Ledger>(
    program: &Program,
    heap: &Heap,
    running: &Running,
    elements: Elements,
    visits: &mut Steps<L>,
) -> Result<Exchange, Refusal>
    requires sound { IsReadable program.now heap.now running.now.frame }
    ensures is { ComesToOver program.now heap.now running.now.frame
        (λ e at. load_element e at elements) result exchange_outcome }
    ensures may { IfOk result (λ x. MayExchange heap.now running.now.frame x) }
    ensures visits { visits.new ≤ visits.old + 3 }
{
    running_operands_fit(running);
    let index = running_int(running, 0)?;
    let reference = running_reference(running, 1)?;
    let at = element_slot(program, heap, elements, reference, index, visits)?;
    let value = element_value(heap, elements, &at, visits);
    Ok(Exchange { taken: 2, value })
}

/// What `arraylength` puts in the place of the array.
#[inline(always)]
pub(crate) fn read_length<L: Ledger>(
    program: &Program,
    heap: &Heap,
    running: &Running,
    visits: &mut Steps<L>,
) -> Result<Exchange, Refusal>
    requires sound { IsReadable program.now heap.now running.now.frame }
    ensures is { ComesToOver program.now heap.now running.now.frame
        array_length result exchange_outcome }
    ensures may { IfOk result (λ x. MayExchange heap.now running.now.frame x) }
    ensures visits { visits.new ≤ visits.old + 2 }
{
    running_operands_fit(running);
    let reference = running_reference(running, 0)?;
    let object = not_null(reference)?;
    let element = element_of(program, heap, object, visits);
    ill_typed_unless(is_array(element))?;
    let length = length_of(program, heap, object, visits);
    let value = Value::Int(length as i32);
    Ok(Exchange { taken: 1, value })
}

/// Whether an object may be an element: whether it passes for one of the class of elements.
#[inline(always)]
fn passes_for<L: Ledger>(
    program: &Program,
    heap: &Heap,
    object: ObjectId,
    element: Element,
    visits: &mut Steps<L>,
) -> bool
    requires sound { IsSoundHeap program.now heap.now }
    requires object { IsHeld heap.now object }
    requires element { IsElementWithin (length program.now.classes) element }
    ensures value { (g : GuestState) (t : ℕ) → result
        ≡ passing_element (moment_over program.now heap.now g t) (Ref object) element }
    ensures visits { visits.new ≤ visits.old + 1 }
{
    match element {
        Element::Class(class) => passes(program, heap, object, class, visits),
        Element::NoArray | Element::Base(_) => true,
    }
}

/// Whether an array may have this value as an element: null, an object that passes for one of the class of its elements, and
/// what is no reference.
#[inline(always)]
fn passes_element<L: Ledger>(
    program: &Program,
    heap: &Heap,
    value: Value,
    array: ObjectId,
    visits: &mut Steps<L>,
) -> bool
    requires sound { IsSoundHeap program.now heap.now }
    requires elements { AreElementsWithin program.now }
    requires array { IsHeld heap.now array }
    requires value { AreHeld heap.now (refs_of_value value) }
    ensures value { (g : GuestState) (t : ℕ) → result
        ≡ passing_element (moment_over program.now heap.now g t) value
        (elements_of (moment_over program.now heap.now g t) array) }
    ensures visits { visits.new ≤ visits.old + 2 }
    ensures number { is_number value ≡ true → visits.new ≡ visits.old }
{
    match value {
        Value::Ref(object) => {
            let element = element_of(program, heap, array, visits);
            passes_for(program, heap, object, element, visits)
        }
        Value::Unset | Value::Int(_) | Value::Long(_) | Value::LongHigh | Value::Null => true,
    }
}

/// What `iastore` or one of its kin writes.
#[inline(always)]
pub(crate) fn write_element<L: Ledger>(
    program: &Program,
    heap: &Heap,
    running: &Running,
    elements: Elements,
    visits: &mut Steps<L>,
) -> Result<Store, Refusal>
    requires sound { IsReadable program.now heap.now running.now.frame }
    requires elements { AreElementsWithin program.now }
    ensures is { ComesToOver program.now heap.now running.now.frame
        (λ e at. store_element e at elements) result store_outcome }
    ensures may { IfOk result (λ x. MayStore heap.now running.now.frame x) }
    ensures visits { visits.new ≤ visits.old + 4 }
    ensures number { IfOk result
        (λ x. is_number x.value ≡ true → visits.new ≤ visits.old + 2) }
{
    let taken = running_element(running, elements)?;
    let index = running_int(running, taken.width)?;
    let reference = running_reference(running, taken.width + 1)?;
    let at = element_slot(program, heap, elements, reference, index, visits)?;
    let may_be = passes_element(program, heap, taken.value, at.object, visits);
    throws_unless(GuestError::ArrayStoreException, may_be)?;
    Ok(Store {
        taken: taken.width + 2,
        object: at.object,
        slot: at.slot,
        value: kept_element(elements, taken.value),
    })
}
