//! The reading of System.out (JVMS 6.5 getstatic).
ghost use Rattle.std.specs.Prelude.{◌≡◌, ◌+◌, ◌<◌, ◌≤◌, ◌^◌, None, Some, IfOk, IsSome, length};
ghost use Rattle.et_heap.specs.Objects.{referent_of};
ghost use Rattle.et_state.specs.State.{kept_of};
ghost use Rattle.et_state.specs.Words.{HasFrame, static_at, top};
ghost use Rattle.et_event.specs.declared.rows.HeapRow.TheVariants as heap_rows;
ghost use Rattle.et_event.specs.declared.rows.Row.TheVariants as row_kinds;
ghost use Rattle.et_event.specs.Answered.{EventAnswers};
ghost use Rattle.et_event.specs.Beginning.{BeginsEvent};
ghost use Rattle.et_event.specs.Moments.{begins, moment};
ghost use Rattle.et_event.specs.Out.{OutRead, out_made, out_row, out_turn};
ghost use Rattle.et_event.specs.Sites.{Site};
ghost use Rattle.et_event.specs.Sound.{IsSoundFor};
ghost use Rattle.et_refs.specs.Asked.{BeginsAt};

use crate::doing::beginning::{has_room, ready_event};
use crate::doing::changes::replace_top;
use crate::slots::static_fields::read_field;
use et_base::{NoMemory, ObjectId, ThreadId, Value};
use et_event::{Place, add_instance, class_called, place_of, slots_of};
use et_program::{BuiltInClass, Program};
use et_state::{EventEnd, Lines, Machine};

/// The object to which a value refers.
fn referent(value: Value) -> Option<ObjectId>
    ensures { result ≡ referent_of value }
{
    match value {
        Value::Ref(object) => Some(object),
        Value::Unset | Value::Int(_) | Value::Long(_) | Value::LongHigh | Value::Null => None,
    }
}

/// The event in which the print stream is made: it stays in the static slot, of which no record tells, and is put on top. After
/// `NoMemory` the event may be half done.
fn made_event(
    program: &Program,
    machine: &mut Machine,
    thread: ThreadId,
    next: u32,
    slot: u32,
    out: &mut Lines,
) -> Result<EventEnd, NoMemory>
    requires frame { HasFrame machine.old.guest thread }
    requires sound { IsSoundFor program.now (kept_of machine.old) }
    requires clock { machine.old.guest.clock < 2 ^ 40 }
    requires slot { slot < length machine.old.guest.statics }
    requires unset { referent_of (static_at machine.old.guest slot) ≡ None }
    requires room { 1 + length (top machine.old.guest thread).operands
        ≤ (top machine.old.guest thread).room }
    ensures { IfOk result (λ end. (at : Site) → at.next ≡ next → EventAnswers (out_made
        (moment program.now machine.old thread) at slot (begins (moment program.now machine.old
        thread))) end machine.old machine.new out.old out.new) }
{
    let class = class_called(program, BuiltInClass::PrintStream);
    if !has_room(machine, 1, slots_of(program, class)) {
        return Ok(EventEnd::ObjectLimit);
    }
    machine.begin_event();
    let stream = add_instance(program, machine, thread, class, out)?;
    machine.set_static(slot, Value::Ref(stream));
    replace_top(machine, thread, 0, Value::Ref(stream), next);
    Ok(EventEnd::Done)
}

/// The event at the place where the thread stands, which reads System.out. After `NoMemory` the event may be half done.
fn read_event(
    program: &Program,
    machine: &mut Machine,
    thread: ThreadId,
    place: &Place<'_>,
    out: &mut Lines,
) -> Result<EventEnd, NoMemory>
    requires at { BeginsAt program.now machine.old thread place.now }
    requires row { place.now.row ≡ row_kinds.Heap heap_rows.GetStatic }
    requires turn { IsSome (out_turn program.now (kept_of machine.old) thread) }
    ensures { IfOk result (λ end. (x : OutRead) →
        out_turn program.now (kept_of machine.old) thread ≡ Some x →
        EventAnswers (out_row (moment program.now machine.old thread) x)
        end machine.old machine.new out.old out.new) }
{
    let read = match read_field(program, machine, thread, place) {
        Ok(read) => read,
        Err(_) => unreachable!(),
    };
    match referent(machine.static_slot(read.read.slot)) {
        Some(_) => ready_event(program, machine, thread, place, &read.wanted(), out),
        None => made_event(
            program,
            machine,
            thread,
            place.site.next(),
            read.read.slot,
            out,
        ),
    }
}

/// The event of a thread whose turn is a `getstatic` that reads System.out. The first one makes the print stream, which stays in
/// the static slot; no record tells of the slot. It answers `Done`, and then the machine keeps the next state, to which a legal
/// step led, and the record of the stream stands behind those that were there; or `ObjectLimit` where no object more fits, and
/// then machine and records are as before. It visits no object. After `NoMemory` the event may be half done, and machine and
/// records may only be dropped.
#[tactic(auto, using(et_event::proofs::OutTurns::out_instructs))]
pub fn out_event(
    program: &Program,
    machine: &mut Machine,
    thread: ThreadId,
    out: &mut Lines,
) -> Result<EventEnd, NoMemory>
    requires begins { BeginsEvent program.now machine.old thread }
    requires turn { IsSome (out_turn program.now (kept_of machine.old) thread) }
    ensures { IfOk result (λ end. (x : OutRead) →
        out_turn program.now (kept_of machine.old) thread ≡ Some x →
        EventAnswers (out_row (moment program.now machine.old thread) x)
        end machine.old machine.new out.old out.new) }
{
    match place_of(program, machine, thread) {
        Some(place) => read_event(program, machine, thread, &place, out),
        None => unreachable!(),
    }
}
