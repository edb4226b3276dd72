//! The event of `multianewarray` (JVMS 6.5).
ghost use Rattle.std.specs.Prelude.{◌≡◌, ℕ, ◌+◌, ◌-◌, ◌<◌, ◌≤◌, length, drop, Ok, IfOk};
ghost use Rattle.et_state.specs.declared.stage.Turn.TheVariants as turns;
ghost use Rattle.et_state.specs.Threads.{turn_of};
ghost use Rattle.et_state.specs.State.{Kept, kept_of};
ghost use Rattle.et_state.specs.Words.{thread_at, top};
ghost use Rattle.et_state.specs.Outcome.{Outcome, state_after};
ghost use Rattle.et_program.specs.Resolution.{resolve_class};
ghost use Rattle.et_event.specs.declared.rows.Row.TheVariants as row_kinds;
ghost use Rattle.et_event.specs.declared.rows.HeapRow.TheVariants as heap_rows;
ghost use Rattle.et_event.specs.Answered.{EventAnswers};
ghost use Rattle.et_event.specs.Heap.{new_multi_array};
ghost use Rattle.et_event.specs.Moments.{moment};
ghost use Rattle.et_event.specs.Sites.{natural_of};
ghost use Rattle.et_refs.specs.Refusals.{outcome_of};
ghost use Rattle.et_refs.specs.Asked.{BeginsAt, MayStep};
ghost use Rattle.et_refs.specs.Events.{new_arrays_outcome, with_checked_class};
ghost use Rattle.et_refs.specs.NamedClasses.{IsNamedAt};

use crate::arrays::counts::arrays_fit;
use crate::arrays::filling::{NewArrays, make_arrays};
use crate::arrays::lengths::{are_lengths, take_lengths};
use crate::checks::{resolve_named, throws_unless};
use crate::doing::changes::replace_top;
use crate::refusals::{Refusal, refuse};
use crate::types::casts::{NamedClass, class_named};
use crate::types::kinds::natural;
use et_base::{ClassId, NoMemory, Steps, ThreadId, Value};
use et_event::{GuestError, Place};
use et_program::Program;
use et_state::{EventEnd, Lines, Machine};
use std::alloc::Global;
use std::sync::ledger::Ledger;

/// How many dimensions `multianewarray` makes.
fn dimensions(place: &Place<'_>) -> u32
    ensures { result ≡ natural_of place.now.site.instr.second }
{
    natural(place.site.instr().second)
}

/// The class that an instruction names, over arrays of which arrays of these lengths may be made; a
/// NegativeArraySizeException where one of them is less than 0.
fn class_wanted(
    program: &Program,
    named: &NamedClass<'_>,
    lengths: &[i32],
) -> Result<ClassId, Refusal>
    requires { IsNamedAt program.now named.now }
    ensures is { (s : Kept) (t : ℕ) (go : ℕ → Outcome Kept) → with_checked_class
        (record { program = program.now; before = s; thread = t }) named.now.name.now lengths.now go
        ≡ outcome_of (record { program = program.now; before = s; thread = t }) result go }
    ensures resolves { IfOk result (λ c. resolve_class program.now named.now.name.now ≡ Ok c) }
{
    let class = resolve_named(program, named)?;
    throws_unless(GuestError::NegativeArraySizeException, are_lengths(lengths))?;
    Ok(class)
}

/// The event in which arrays are made, in the place of their lengths. After `NoMemory` the event may be half done.
fn add_arrays<L: Ledger>(
    alloc: Global,
    program: &Program,
    machine: &mut Machine,
    thread: ThreadId,
    arrays: &NewArrays<'_>,
    out: &mut Lines,
    visits: &mut Steps<L>,
) -> Result<EventEnd, NoMemory>
    requires step { MayStep machine.old thread }
    requires some { 0 < length arrays.now.lengths.now }
    requires deep { length arrays.now.lengths.now
        ≤ length (top machine.old.guest thread).operands }
    ensures ok { IfOk result (λ end. EventAnswers (new_arrays_outcome
        (moment program.now machine.old thread) arrays.now.next arrays.now.lengths.now (drop
        (length arrays.now.lengths.now) (top machine.old.guest thread).operands) arrays.now.class)
        end machine.old machine.new out.old out.new) }
    ensures visits { visits.new ≤ visits.old + (length (state_after (kept_of machine.old)
        (new_arrays_outcome (moment program.now machine.old thread) arrays.now.next
        arrays.now.lengths.now (drop (length arrays.now.lengths.now) (top machine.old.guest
        thread).operands) arrays.now.class)).heap - length machine.old.heap) }
{
    if !arrays_fit(machine, arrays.lengths) {
        return Ok(EventEnd::ObjectLimit);
    }
    let _depth = machine.depth(thread);
    let count = arrays.lengths.len() as u32;
    machine.begin_event();
    let array = make_arrays(alloc, program, machine, thread, arrays, out, visits)?;
    replace_top(machine, thread, count, Value::Ref(array), arrays.next);
    Ok(EventEnd::Done)
}

/// The event of `multianewarray` at the place where the thread stands (JVMS 6.5). Whatever it answers, it visits an object for
/// each array that the event makes, at most. After `NoMemory` the event may be half done.
pub fn multi_array_event<L: Ledger>(
    alloc: Global,
    program: &Program,
    machine: &mut Machine,
    thread: ThreadId,
    place: &Place<'_>,
    out: &mut Lines,
    visits: &mut Steps<L>,
) -> Result<EventEnd, NoMemory>
    requires at { BeginsAt program.now machine.old thread place.now }
    requires turn { turn_of (thread_at machine.old.guest thread) ≡ turns.Instruction }
    requires row { place.now.row ≡ row_kinds.Heap heap_rows.NewMultiArray }
    ensures ok { IfOk result (λ end. EventAnswers (new_multi_array (moment program.now
        machine.old thread) place.now.site) end machine.old machine.new out.old out.new) }
    ensures visits { visits.new ≤ visits.old + (length (state_after (kept_of machine.old)
        (new_multi_array (moment program.now machine.old thread) place.now.site)).heap
        - length machine.old.heap) }
{
    let named = match class_named(place) {
        Ok(named) => named,
        Err(refusal) => return refuse(program, machine, thread, refusal, out),
    };
    let lengths = match take_lengths(alloc, machine, thread, dimensions(place))? {
        Ok(lengths) => lengths,
        Err(refusal) => return refuse(program, machine, thread, refusal, out),
    };
    match class_wanted(program, &named, &lengths) {
        Ok(class) => {
            let arrays = NewArrays {
                class,
                lengths: &lengths,
                next: place.site.next(),
            };
            add_arrays(alloc, program, machine, thread, &arrays, out, visits)
        }
        Err(refusal) => refuse(program, machine, thread, refusal, out),
    }
}
