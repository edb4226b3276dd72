//! The event call of the instructions on fields, arrays and classes.
ghost use Rattle.std.specs.Prelude.{◌≡◌, ◌↔◌, ℕ, ◌+◌, ◌-◌, ◌<◌, ◌≤◌, ◌^◌, Some, true, unwrap_or, IfOk, IsSome, length};
ghost use Rattle.et_event.specs.declared.families.Family.TheVariants as families;
ghost use Rattle.et_event.specs.declared.rows.HeapRow.TheVariants as heap_rows;
ghost use Rattle.et_event.specs.declared.rows.Row.TheVariants as row_kinds;
ghost use Rattle.et_event.specs.Answered.{DefersOrAnswers, EventAnswers};
ghost use Rattle.et_event.specs.Beginning.{BeginsEvent};
ghost use Rattle.et_event.specs.Event.{does, event};
ghost use Rattle.et_event.specs.Families.{family_of, family_of_row};
ghost use Rattle.et_event.specs.Heap.{get_static, heap_event};
ghost use Rattle.et_event.specs.Moments.{moment};
ghost use Rattle.et_event.specs.Out.{out_method, out_turn};
ghost use Rattle.et_state.specs.declared.ends.EventEnd.TheVariants as ends;
ghost use Rattle.et_state.specs.declared.stage.Turn.TheVariants as turns;
ghost use Rattle.et_state.specs.Outcome.{state_after};
ghost use Rattle.et_state.specs.State.{kept_of};
ghost use Rattle.et_state.specs.Threads.{most_frames, turn_of};
ghost use Rattle.et_state.specs.Words.{HasFrame, thread_at, top};
ghost use Rattle.et_refs.specs.Asked.{BeginsAt};
ghost use Rattle.et_refs.specs.LiftedChanges.{is_lifted_row, landed_done};

use crate::arrays::dimensions::multi_array_event;
use crate::doing::beginning::access_event;
use crate::doing::changes::{carry_out, write_slot};
use crate::refusals::refuse;
use crate::rows::{Plan, is_static_read, plan_of};
use crate::slots::reads::exchange;
use crate::slots::static_fields::{is_out_class, read_field};
use crate::slots::steps::{LiftedChange, is_lifted, lifted_change};
use crate::slots::writes::{is_number, store};
use et_base::{MethodId, NoMemory, Steps, ThreadId};
use et_event::{HeapRow, Place, Row, ill_typed, index_of, place_of};
use et_ops::lose_each;
use et_program::Program;
use et_state::{EventEnd, Lines, Machine, Running};
use std::alloc::Global;
use std::sync::ledger::Ledger;

/// The row of an instruction on fields, arrays and classes.
fn heap_row(place: &Place<'_>) -> HeapRow
    requires { family_of_row (Some place.now.row) ≡ families.Refs }
    ensures { place.now.row ≡ row_kinds.Heap result }
{
    match place.row {
        Row::Heap(row) => row,
        Row::Frame(_)
        | Row::PoolConstant
        | Row::Divide(_, _)
        | Row::Call(_)
        | Row::Throw
        | Row::Monitor(_) => unreachable!(),
    }
}

/// What is answered where the event is left to another call: the method of the topmost frame.
fn left(machine: &Machine, thread: ThreadId) -> EventEnd
    requires { HasFrame machine.now.guest thread }
    ensures { result ≡ ends.Native (unwrap_or (top machine.now.guest thread).method 0) }
{
    EventEnd::Native {
        method: machine.frame_method(thread).unwrap_or(MethodId::new(0)),
    }
}

/// The event of a `getstatic` at the place where the thread stands, which is left to another call where System.out is read.
/// After `NoMemory` the event may be half done.
#[inline(always)]
fn static_read_event(
    alloc: Global,
    program: &Program,
    machine: &mut Machine,
    thread: ThreadId,
    place: &Place<'_>,
    out: &mut Lines,
) -> Result<EventEnd, NoMemory>
    requires at { BeginsAt program.now machine.old thread place.now }
    requires turn { turn_of (thread_at machine.old.guest thread) ≡ turns.Instruction }
    requires row { place.now.row ≡ row_kinds.Heap heap_rows.GetStatic }
    ensures { IfOk result (λ end.
        DefersOrAnswers (out_method program.now (kept_of machine.old) thread)
        (get_static (moment program.now machine.old thread) place.now.site)
        end machine.old machine.new out.old out.new) }
{
    let read = match read_field(program, machine, thread, place) {
        Ok(read) => read,
        Err(refusal) => return refuse(program, machine, thread, refusal, out),
    };
    if is_out_class(program, machine, read.class) {
        return Ok(left(machine, thread));
    }
    access_event(alloc, program, machine, thread, place, &read.wanted(), out)
}

/// An event was done over the frames of a thread that are lifted out of the machine: they are put back, and what they lost is lost.
#[inline(always)]
fn land_done(machine: &mut Machine, thread: ThreadId, running: Running) -> EventEnd
    requires thread { thread < length machine.old.guest.threads }
    requires few { length running.below < most_frames }
    requires clock { machine.old.guest.clock < 2 ^ 40 }
    ensures done { result ≡ ends.Done }
    ensures machine { machine.new ≡ landed_done thread running machine.old }
{
    machine.begin_event();
    lose_each(machine, running.lost());
    machine.land(thread, running);
    EventEnd::Done
}

/// The event of an instruction that is done over the frames of the thread while they are lifted out of the machine, at the place
/// where the thread stands. What it does is found over these frames, and done there too where it writes no reference. It visits
/// objects six times at most. After `NoMemory` the machine may have one object more, to which nothing refers, and there may be
/// its record; all else is as before.
fn lifted_event<L: Ledger>(
    program: &Program,
    machine: &mut Machine,
    thread: ThreadId,
    place: &Place<'_>,
    row: HeapRow,
    out: &mut Lines,
    visits: &mut Steps<L>,
) -> Result<EventEnd, NoMemory>
    requires at { BeginsAt program.now machine.old thread place.now }
    requires row { place.now.row ≡ row_kinds.Heap row }
    requires lifted { is_lifted_row row ≡ true }
    ensures event { IfOk result (λ end. EventAnswers
        (heap_event (moment program.now machine.old thread) place.now.site row)
        end machine.old machine.new out.old out.new) }
    ensures visits { visits.new ≤ visits.old + 6 }
{
    let mut running = machine.lift(thread);
    let index = index_of(&place.site);
    let class = place.site.class();
    match lifted_change(program, &machine.heap, &running, class, index, row, visits) {
        Ok(LiftedChange::Put(x)) => {
            exchange(&mut running, x, place.site.next());
            Ok(land_done(machine, thread, running))
        }
        Ok(LiftedChange::Store(x)) => {
            if !is_number(x.value) {
                machine.land(thread, running);
                return write_slot(program, machine, thread, place, x, out, visits);
            }
            store(
                &mut machine.heap,
                &mut running,
                x,
                place.site.next(),
                visits,
            );
            Ok(land_done(machine, thread, running))
        }
        Err(refusal) => {
            machine.land(thread, running);
            refuse(program, machine, thread, refusal, out)
        }
    }
}

/// The event of the instruction on fields, arrays and classes at a place; `Native` where a `getstatic` reads System.out, with
/// nothing changed. It visits six objects at most, and one for each that the event makes. After `NoMemory` the event may be
/// half done.
fn heap_row_event<L: Ledger>(
    alloc: Global,
    program: &Program,
    machine: &mut Machine,
    thread: ThreadId,
    place: &Place<'_>,
    out: &mut Lines,
    visits: &mut Steps<L>,
) -> Result<EventEnd, NoMemory>
    requires at { BeginsAt program.now machine.old thread place.now }
    requires turn { turn_of (thread_at machine.old.guest thread) ≡ turns.Instruction }
    requires family { family_of_row (Some place.now.row) ≡ families.Refs }
    ensures event { IfOk result (λ end.
        DefersOrAnswers (out_method program.now (kept_of machine.old) thread)
        (does (moment program.now machine.old thread) place.now.site place.now.row)
        end machine.old machine.new out.old out.new) }
    ensures native { IfOk result (λ end. (method : ℕ) → (end ≡ EventEnd.Native method)
        ↔ (out_method program.now (kept_of machine.old) thread ≡ Some method)) }
    ensures deferred { IsSome (out_turn program.now (kept_of machine.old) thread) →
        visits.new ≡ visits.old }
    ensures visits { visits.new ≤ visits.old + 6 + (length (state_after (kept_of machine.old)
        (does (moment program.now machine.old thread) place.now.site place.now.row)).heap
        - length machine.old.heap) }
{
    let row = heap_row(place);
    if is_static_read(row) {
        return static_read_event(alloc, program, machine, thread, place, out);
    }
    if is_lifted(row) {
        return lifted_event(program, machine, thread, place, row, out, visits);
    }
    match plan_of(program, machine, thread, place, row, visits) {
        Ok(Plan::Change(change)) => carry_out(program, machine, thread, place, change, out),
        Ok(Plan::Access(wanted)) => {
            access_event(alloc, program, machine, thread, place, &wanted, out)
        }
        Ok(Plan::Arrays) => multi_array_event(alloc, program, machine, thread, place, out, visits),
        Err(refusal) => refuse(program, machine, thread, refusal, out),
    }
}

/// The event of a thread whose turn is an instruction on fields, arrays and classes (JVMS 2.11.5, 6.5). It answers `Native`,
/// with the method of the topmost frame, exactly where a `getstatic` reads System.out; then machine and records are as before,
/// no object was visited, and [`out_event`](crate::out_event) does the event. Else it answers what the table of events says:
/// `Done` or `Waited`, and then the machine keeps the next state, to which a legal step led, and the records of the event
/// stand behind those that were there; or `IllTyped` or `ObjectLimit`, and then machine and records are as before. Whatever
/// it answers, it visits six objects at most, and one for each object that the event makes. After `NoMemory` the event may
/// be half done, and machine and records may only be dropped.
#[tactic(auto, using(et_event::proofs::FamilyTurns::refs_instructs))]
pub fn refs_event<L: Ledger>(
    alloc: Global,
    program: &Program,
    machine: &mut Machine,
    thread: ThreadId,
    out: &mut Lines,
    visits: &mut Steps<L>,
) -> Result<EventEnd, NoMemory>
    requires begins { BeginsEvent program.now machine.old thread }
    requires family { family_of program.now (kept_of machine.old) thread ≡ families.Refs }
    ensures event { IfOk result (λ end.
        DefersOrAnswers (out_method program.now (kept_of machine.old) thread) (event program.now
        (kept_of machine.old) thread) end machine.old machine.new out.old out.new) }
    ensures native { IfOk result (λ end. (method : ℕ) → (end ≡ EventEnd.Native method)
        ↔ (out_method program.now (kept_of machine.old) thread ≡ Some method)) }
    ensures deferred { IsSome (out_turn program.now (kept_of machine.old) thread) →
        visits.new ≡ visits.old }
    ensures visits { visits.new ≤ visits.old + 6 + (length (state_after (kept_of machine.old)
        (event program.now (kept_of machine.old) thread)).heap - length machine.old.heap) }
{
    match place_of(program, machine, thread) {
        Some(place) => heap_row_event(alloc, program, machine, thread, &place, out, visits),
        None => Ok(ill_typed(machine, thread)),
    }
}
