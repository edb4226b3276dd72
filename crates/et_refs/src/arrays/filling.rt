//! Arrays are made, and what is in them.
ghost use Rattle.std.specs.Prelude.{◌≡◌, ◌+◌, ◌<◌, ◌≤◌, ◌++◌, ◌∷◌, [], true, pos, length, drop, slice_index_or, IfOk, OnOk};
ghost use Rattle.et_base.specs.declared.value.Value.TheVariants.{Ref};
ghost use Rattle.et_heap.specs.Objects.{IsHeld, has_room, object_at, most_objects};
ghost use Rattle.et_program.specs.Entries.{Linked, class_at};
ghost use Rattle.et_event.specs.Heap.{arrays_made, element_class, naturals};
ghost use Rattle.et_event.specs.Moments.{moment, array_made, slot_written, fits_heap};
ghost use Rattle.et_state.specs.State.{Kept};
ghost use Rattle.et_event.specs.Sites.{natural_of};
ghost use Rattle.et_event.specs.Telling.{so_far, StandsAt};
ghost use Rattle.et_refs.specs.Filling.{element_count, first_filling, next_filling, with_filled, inner_dimensions, AreFillings};

use crate::types::kinds::natural;
use et_base::{ClassId, NoMemory, ObjectId, Steps, ThreadId, Value};
use et_event::{add_array, tell_update};
use et_program::{Element, Program};
use et_state::{Lines, Machine};
use std::alloc::Global;
use std::sync::ledger::Ledger;

/// Arrays of some dimensions that an instruction makes, each but the first in another.
#[derive(Clone, Copy)]
pub struct NewArrays<'a> {
    /// The class of the first one.
    pub class: ClassId,
    /// The lengths of the dimensions, the first dimension first.
    pub lengths: &'a [i32],
    /// The pc behind the instruction.
    pub next: u32,
}

/// An array whose elements are being made: those below `next` are there, of so many.
#[derive(Clone, Copy)]
pub struct Filling {
    pub array: ObjectId,
    /// The class of its elements.
    pub inner: ClassId,
    pub next: u32,
    pub count: u32,
}

/// The class of the elements of an array class, where they are no base type.
fn inner_of(program: &Program, class: ClassId) -> ClassId
    ensures { result ≡ element_class (class_at program.now class).info.element }
{
    if class.number() >= program.class_count() {
        return ClassId::new(0);
    }
    match program.class(class).element {
        Element::Class(inner) => inner,
        Element::NoArray | Element::Base(_) => ClassId::new(0),
    }
}

/// How many elements of an array are made at this level of the dimensions: none in the last one.
#[tactic(auto, using(crate::proofs::Stacking::counted_deep, crate::proofs::Stacking::counted_last))]
fn count_at(lengths: &[i32], level: usize, elements: u32) -> u32
    requires { level < length lengths.now }
    ensures { result ≡ element_count elements (drop (level + 1) (naturals lengths.now)) }
{
    if level + 1 < lengths.len() {
        elements
    } else {
        0
    }
}

/// Makes an array of a class, at this level of the dimensions, in the event under way. It fits.
#[tactic(auto, using(et_event::proofs::Making::left_grown, et_event::proofs::Making::left_one))]
pub fn open_array(
    program: &Program,
    machine: &mut Machine,
    thread: ThreadId,
    lengths: &[i32],
    level: usize,
    class: ClassId,
    out: &mut Lines,
) -> Result<Filling, NoMemory>
    requires level { level < length lengths.now }
    requires room { has_room machine.old.heap 1
        (natural_of (slice_index_or lengths.now level (pos 0))) ≡ true }
    ensures filling { IfOk result (λ f. (b : Kept) →
        f ≡ first_filling (record { program = program.now; before = b; thread = thread })
        (length machine.old.heap) class (natural_of (slice_index_or lengths.now level (pos 0)))
        (drop (level + 1) (naturals lengths.now))) }
    ensures made { OnOk result (StandsAt (array_made (moment program.now machine.old thread) class
        (natural_of (slice_index_or lengths.now level (pos 0)))
        (so_far machine.old out.old)) machine.old machine.new out.new) }
    ensures grown { length machine.old.heap ≤ length machine.new.heap }
    ensures one { length machine.new.heap ≤ length machine.old.heap + 1 }
{
    let elements = natural(lengths[level]);
    let array = add_array(program, machine, thread, class, elements, out)?;
    Ok(Filling {
        array,
        inner: inner_of(program, class),
        next: 0,
        count: count_at(lengths, level, elements),
    })
}

/// The next element of the last array begins: it is an array too, and the last one then.
fn descend(
    program: &Program,
    machine: &mut Machine,
    thread: ThreadId,
    lengths: &[i32],
    stack: &mut Vec<Filling>,
    top: Filling,
    out: &mut Lines,
) -> Result<Filling, NoMemory>
    requires more { top.next < top.count }
    requires fillings { AreFillings machine.old.heap
        (length lengths.now) 0 (stack.old.items ++ top ∷ []) }
    requires fits { (b : Kept) → fits_heap (with_filled
        (record { program = program.now; before = b; thread = thread })
        (stack.old.items ++ top ∷ []) (inner_dimensions (naturals lengths.now))
        (so_far machine.old out.old)).state.heap ≡ true }
    ensures same { IfOk result (λ last. (b : Kept) → with_filled
        (record { program = program.now; before = b; thread = thread })
        (stack.new.items ++ last ∷ []) (inner_dimensions (naturals lengths.now))
        (so_far machine.new out.new) ≡ with_filled
        (record { program = program.now; before = b; thread = thread })
        (stack.old.items ++ top ∷ []) (inner_dimensions (naturals lengths.now))
        (so_far machine.old out.old)) }
    ensures fillings { IfOk result (λ last.
        AreFillings machine.new.heap (length lengths.now) 0 (stack.new.items ++ last ∷ [])) }
    ensures lost { OnOk result (machine.new.lost ≡ machine.old.lost) }
    ensures stack { OnOk result (length stack.new.items ≡ length stack.old.items + 1) }
    ensures made { OnOk result (length machine.new.heap ≡ length machine.old.heap + 1) }
    ensures few { OnOk result (length machine.new.heap ≤ most_objects + 1) }
    ensures grown { length machine.old.heap ≤ length machine.new.heap }
    ensures most { (b : Kept) → length machine.new.heap ≤ length (with_filled
        (record { program = program.now; before = b; thread = thread })
        (stack.old.items ++ top ∷ []) (inner_dimensions (naturals lengths.now))
        (so_far machine.old out.old)).state.heap }
{
    let level = stack.len() + 1;
    let last = open_array(program, machine, thread, lengths, level, top.inner, out)?;
    stack.push(top)?;
    Ok(last)
}

/// An array that is whole becomes the next element of the one around it, in the event under way.
fn ascend<L: Ledger>(
    machine: &mut Machine,
    thread: ThreadId,
    around: Filling,
    array: ObjectId,
    out: &mut Lines,
    visits: &mut Steps<L>,
) -> Result<Filling, NoMemory>
    requires held { IsHeld machine.old.heap around.array }
    requires slot { around.next < length (object_at machine.old.heap around.array).slots }
    requires next { around.next < around.count }
    ensures last { IfOk result (λ last. last ≡ next_filling around) }
    ensures written { OnOk result ((p : Linked) (b : Kept) → StandsAt
        (slot_written (record { program = p; before = b; thread = thread }) around.array around.next
        (Ref array) (so_far machine.old out.old)) machine.old machine.new out.new) }
    ensures same { length machine.new.heap ≡ length machine.old.heap }
    ensures visits { visits.new ≡ visits.old + 1 }
{
    let (object, slot) = (around.array, around.next);
    let old = machine
        .heap
        .set_slot(object, slot, Value::Ref(array), visits);
    let event = machine.clock();
    tell_update(
        out,
        event,
        thread,
        Some(object),
        slot,
        old,
        Value::Ref(array),
    )?;
    Ok(Filling {
        next: around.next + 1,
        ..around
    })
}

/// Makes arrays in the event under way, and answers the first one. All fit. After `NoMemory` the event is half done: some of
/// them are made. Whatever it answers, it visits an object for each array that it made, at most.
pub fn make_arrays<L: Ledger>(
    alloc: Global,
    program: &Program,
    machine: &mut Machine,
    thread: ThreadId,
    arrays: &NewArrays<'_>,
    out: &mut Lines,
    visits: &mut Steps<L>,
) -> Result<ObjectId, NoMemory>
    requires some { 0 < length arrays.now.lengths.now }
    requires heap { 0 < length machine.old.heap }
    requires fits { (b : Kept) → fits_heap (arrays_made
        (record { program = program.now; before = b; thread = thread }) arrays.now.class
        (naturals arrays.now.lengths.now) (so_far machine.old out.old)).state.heap ≡ true }
    ensures first { IfOk result (λ o. o ≡ length machine.old.heap) }
    ensures made { OnOk result ((b : Kept) → so_far machine.new out.new ≡ arrays_made
        (record { program = program.now; before = b; thread = thread }) arrays.now.class
        (naturals arrays.now.lengths.now) (so_far machine.old out.old)) }
    ensures lost { OnOk result (machine.new.lost ≡ machine.old.lost) }
    ensures visits { visits.new + length machine.old.heap ≤ visits.old + length machine.new.heap }
    ensures most { (b : Kept) → length machine.new.heap ≤ length (arrays_made
        (record { program = program.now; before = b; thread = thread }) arrays.now.class
        (naturals arrays.now.lengths.now) (so_far machine.old out.old)).state.heap }
{
    let lengths = arrays.lengths;
    let first = open_array(program, machine, thread, lengths, 0, arrays.class, out)?;
    let mut stack = Vec::new(alloc);
    let mut last = first;
    'elements: loop {
        if last.next < last.count {
            last = descend(program, machine, thread, lengths, &mut stack, last, out)?;
        } else if let Some(around) = stack.pop() {
            last = ascend(machine, thread, around, last.array, out, visits)?;
        } else {
            return Ok(first.array);
        }
    }
}
