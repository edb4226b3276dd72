//! What a built-in method changes once its arguments are taken.
ghost use Rattle.std.specs.Prelude.{◌≡◌, ◌+◌, ◌<◌, ◌≤◌, ◌^◌, ◌∷◌, ◌++◌, [], List, IfOk, OnOk, None, length, drop, take as first};
ghost use Rattle.et_heap.specs.Objects.{IsHeld, object_at, slot_of, with_slot, referent_of, referent_value, with_referent, with_queue};
ghost use Rattle.et_heap.specs.Queues.{IsWhole, first_value, polled};
ghost use Rattle.et_heap.specs.Refs.{refs_of, refs_of_value};
ghost use Rattle.et_state.specs.Threads.{lost_room, most_threads, thread_with};
ghost use Rattle.et_state.specs.Words.{top, begun, losing, steps_object, steps_top, with_object};
ghost use Rattle.et_state.specs.Moves.{AreInHeap};
ghost use Rattle.et_program.specs.Entries.{Linked};
ghost use Rattle.et_state.specs.declared.records.Record.{Record};
ghost use Rattle.et_event.specs.Answered.{EventAnswers};
ghost use Rattle.et_event.specs.BuiltIns.{with_first_taken, with_reference_made, with_referent_of, with_thread_for};
ghost use Rattle.et_event.specs.Moments.{moment, begins, goes, slot_written};
ghost use Rattle.et_event.specs.Sites.{Site};
ghost use Rattle.et_event.specs.Telling.{TellsUpdate};
ghost use Rattle.et_event.specs.Tops.{IsIn};
ghost use Rattle.et_builtins.specs.Calling.{HasRoomFor, MayDo, StandsThere, answered};

use et_base::{NoMemory, ObjectId, Steps, ThreadId, Value};
use et_event::{take, tell_update};
use et_state::{EventEnd, Lines, Machine};
use std::sync::ledger::Ledger;

/// A method that a thread calls: so many entries are its arguments, and the caller goes on at the pc `next`.
#[derive(Clone, Copy)]
pub struct Called {
    pub thread: ThreadId,
    pub count: u16,
    pub next: u32,
}

/// The event begins, the arguments are taken, and the pc goes on.
fn pass(machine: &mut Machine, call: &Called)
    requires calls { MayDo machine.old call.now }
    ensures new { machine.new ≡ steps_top (begun machine.old) call.now.thread
        (record (top machine.old.guest call.now.thread) {
          pc = call.now.next;
          operands = drop call.now.count (top machine.old.guest call.now.thread).operands;
        })
        (refs_of (first call.now.count (top machine.old.guest call.now.thread).operands)) }
    ensures few { length machine.new.lost < 2 ^ 16 }
{
    machine.begin_event();
    take(machine, call.thread, call.count as u32);
    machine.set_pc(call.thread, call.next);
}

/// The event in which a method gives nothing.
pub fn give_nothing(machine: &mut Machine, call: &Called) -> EventEnd
    requires calls { MayDo machine.old call.now }
    ensures { (p : Linked) (at : Site) (out : List Record) → at.next ≡ call.now.next →
        EventAnswers (goes (answered p machine.old call.now at [])) result machine.old machine.new
        out out }
{
    pass(machine, call);
    EventEnd::Done
}

/// The event in which a method gives a value of one entry.
pub fn give(machine: &mut Machine, call: &Called, value: Value) -> EventEnd
    requires calls { MayDo machine.old call.now }
    requires room { HasRoomFor 1 machine.old call.now }
    requires held { AreInHeap machine.old (refs_of_value value) }
    ensures { (p : Linked) (at : Site) (out : List Record) → at.next ≡ call.now.next →
        EventAnswers (goes (answered p machine.old call.now at (value ∷ []))) result
        machine.old machine.new out out }
{
    pass(machine, call);
    machine.push(call.thread, value);
    EventEnd::Done
}

/// Writes a slot of an object in the event under way, and tells of it.
fn write<L: Ledger>(
    machine: &mut Machine,
    thread: ThreadId,
    object: ObjectId,
    slot: u32,
    value: Value,
    out: &mut Lines,
    visits: &mut Steps<L>,
) -> Result<(), NoMemory>
    requires held { IsHeld machine.old.heap object }
    requires slot { slot < length (object_at machine.old.heap object).slots }
    requires lost { length machine.old.lost < lost_room }
    ensures new { OnOk result (machine.new
        ≡ steps_object machine.old object (with_slot slot value (object_at machine.old.heap object))
        (refs_of_value (slot_of (object_at machine.old.heap object) slot))) }
    ensures told { OnOk result (TellsUpdate machine.old.guest.clock thread object slot
        (slot_of (object_at machine.old.heap object) slot) value out.old out.new) }
    ensures few { OnOk result (length machine.new.lost ≤ length machine.old.lost + 1) }
    ensures visits { visits.new ≡ visits.old + 1 }
{
    let event = machine.clock();
    let told = value;
    let old = machine.set_slot(object, slot, value, visits);
    tell_update(out, event, thread, Some(object), slot, old, told)
}

/// The event in which a method writes the first slot of an object. After `NoMemory` the machine may only be dropped.
pub(crate) fn write_one<L: Ledger>(
    machine: &mut Machine,
    call: &Called,
    object: ObjectId,
    value: Value,
    out: &mut Lines,
    visits: &mut Steps<L>,
) -> Result<EventEnd, NoMemory>
    requires calls { MayDo machine.old call.now }
    requires object { StandsThere machine.old call.now object }
    requires slots { 0 < length (object_at machine.old.heap object).slots }
    requires value { IsIn (top machine.old.guest call.now.thread) value }
    ensures ok { IfOk result (λ end. (p : Linked) (at : Site) → at.next ≡ call.now.next →
        EventAnswers (goes (slot_written (moment p machine.old call.now.thread) object 0 value
        (answered p machine.old call.now at []))) end machine.old machine.new out.old out.new) }
    ensures visits { visits.new ≤ visits.old + 2 }
{
    pass(machine, call);
    write(machine, call.thread, object, 0, value, out, visits)?;
    Ok(EventEnd::Done)
}

/// The event in which a method writes the first two slots of an object. After `NoMemory` the machine may only be dropped.
pub(crate) fn write_two<L: Ledger>(
    machine: &mut Machine,
    call: &Called,
    object: ObjectId,
    first_value: Value,
    second_value: Value,
    out: &mut Lines,
    visits: &mut Steps<L>,
) -> Result<EventEnd, NoMemory>
    requires calls { MayDo machine.old call.now }
    requires object { StandsThere machine.old call.now object }
    requires slots { 2 ≤ length (object_at machine.old.heap object).slots }
    requires first_value { IsIn (top machine.old.guest call.now.thread) first_value }
    requires second_value { IsIn (top machine.old.guest call.now.thread) second_value }
    ensures ok { IfOk result (λ end. (p : Linked) (at : Site) → at.next ≡ call.now.next →
        EventAnswers (goes (slot_written (moment p machine.old call.now.thread) object
        1 second_value (slot_written (moment p machine.old call.now.thread) object 0 first_value
        (answered p machine.old call.now at [])))) end machine.old machine.new out.old out.new) }
    ensures visits { visits.new ≤ visits.old + 2 }
{
    pass(machine, call);
    write(machine, call.thread, object, 0, first_value, out, visits)?;
    write(machine, call.thread, object, 1, second_value, out, visits)?;
    Ok(EventEnd::Done)
}

/// Sets what an object refers to weakly; a value that is no reference counts as null.
fn set_referent<L: Ledger>(
    machine: &mut Machine,
    object: ObjectId,
    value: Value,
    visits: &mut Steps<L>,
)
    requires { IsHeld machine.old.heap object }
    ensures new { machine.new ≡ with_object machine.old object
        (with_referent (referent_of value) (object_at machine.old.heap object)) }
    ensures visits { visits.new ≡ visits.old + 1 }
{
    machine.heap.set_referent(object, value, visits);
}

/// The event in which a method makes an object refer to nothing weakly (`java.lang.ref`).
pub(crate) fn clear_referent<L: Ledger>(
    machine: &mut Machine,
    call: &Called,
    object: ObjectId,
    visits: &mut Steps<L>,
) -> EventEnd
    requires calls { MayDo machine.old call.now }
    requires held { IsHeld machine.old.heap object }
    ensures ok { (p : Linked) (at : Site) (out : List Record) →
        at.next ≡ call.now.next → EventAnswers (goes (with_referent_of object None
        (answered p machine.old call.now at []))) result machine.old machine.new out out }
    ensures visits { visits.new ≡ visits.old + 1 }
{
    pass(machine, call);
    set_referent(machine, object, Value::Null, visits);
    EventEnd::Done
}

/// Lists what a value refers to as lost.
#[tactic(auto, using(crate::proofs::Queueing::losing_none))]
fn lose_value(machine: &mut Machine, value: Value)
    requires { length machine.old.lost < lost_room }
    ensures { machine.new ≡ losing machine.old (refs_of_value value) }
{
    match value {
        Value::Ref(o) => machine.lose(o),
        Value::Unset | Value::Int(_) | Value::Long(_) | Value::LongHigh | Value::Null => {}
    }
}

/// Sets the queue of a reference, and loses the one before; a value that is no reference counts as null.
fn set_queue<L: Ledger>(
    machine: &mut Machine,
    object: ObjectId,
    value: Value,
    visits: &mut Steps<L>,
)
    requires held { IsHeld machine.old.heap object }
    requires lost { length machine.old.lost < lost_room }
    ensures new { machine.new ≡ steps_object machine.old object
        (with_queue (referent_of value) (object_at machine.old.heap object))
        (refs_of_value (referent_value (object_at machine.old.heap object).queue)) }
    ensures visits { visits.new ≡ visits.old + 1 }
{
    let before = machine.heap.set_queue(object, value, visits);
    lose_value(machine, before);
}

/// The event of a constructor of a weak reference (`java.lang.ref`): it sets what the object refers to weakly, and its queue.
/// A value that is no reference counts as null, and a null queue as none. The queue before is lost.
pub(crate) fn make_reference<L: Ledger>(
    machine: &mut Machine,
    call: &Called,
    object: ObjectId,
    referent: Value,
    queue: Value,
    visits: &mut Steps<L>,
) -> EventEnd
    requires calls { MayDo machine.old call.now }
    requires object { StandsThere machine.old call.now object }
    requires referent { IsIn (top machine.old.guest call.now.thread) referent }
    requires queue { IsIn (top machine.old.guest call.now.thread) queue }
    ensures ok { (p : Linked) (at : Site) (out : List Record) → at.next ≡ call.now.next →
        EventAnswers (goes (with_reference_made object (referent_of referent) (referent_of queue)
        (answered p machine.old call.now at []))) result machine.old machine.new out out }
    ensures visits { visits.new ≡ visits.old + 2 }
{
    pass(machine, call);
    set_referent(machine, object, referent, visits);
    set_queue(machine, object, queue, visits);
    EventEnd::Done
}

/// Takes the first reference that waits in a queue out of it, loses it, and answers it, or null where none waits.
fn take_first<L: Ledger>(machine: &mut Machine, queue: ObjectId, visits: &mut Steps<L>) -> Value
    requires held { IsHeld machine.old.heap queue }
    requires whole { IsWhole machine.old.heap queue }
    requires lost { length machine.old.lost < lost_room }
    ensures value { result ≡ first_value (object_at machine.old.heap queue).waiting }
    ensures new { machine.new ≡ record machine.old {
      heap = polled queue machine.old.heap;
      lost = machine.old.lost
          ++ refs_of_value (first_value (object_at machine.old.heap queue).waiting);
    } }
    ensures visits { visits.new ≡ visits.old + 1 }
{
    let first = machine.heap.poll(queue, visits);
    let lost = first;
    lose_value(machine, lost);
    first
}

/// The event of `poll` of a reference queue (`java.lang.ref`): it gives the first reference that waits there, which waits no
/// more, or null.
pub(crate) fn give_first<L: Ledger>(
    machine: &mut Machine,
    call: &Called,
    queue: ObjectId,
    visits: &mut Steps<L>,
) -> EventEnd
    requires calls { MayDo machine.old call.now }
    requires room { HasRoomFor 1 machine.old call.now }
    requires object { StandsThere machine.old call.now queue }
    ensures ok { (p : Linked) (at : Site) (out : List Record) → at.next ≡ call.now.next →
        EventAnswers (goes (with_first_taken queue (answered p machine.old call.now at
        (first_value (object_at machine.old.heap queue).waiting ∷ [])))) result
        machine.old machine.new out out }
    ensures visits { visits.new ≡ visits.old + 1 }
{
    pass(machine, call);
    let first = take_first(machine, queue, visits);
    machine.push(call.thread, first);
    EventEnd::Done
}

/// The event in which a thread is started with its Thread object. After `NoMemory` the machine may only be dropped.
pub(crate) fn start(
    machine: &mut Machine,
    call: &Called,
    object: ObjectId,
) -> Result<EventEnd, NoMemory>
    requires calls { MayDo machine.old call.now }
    requires held { IsHeld machine.old.heap object }
    requires few { length machine.old.guest.threads < most_threads }
    requires fresh { thread_with machine.old.guest.threads object ≡ None }
    ensures { IfOk result (λ end. (p : Linked) (at : Site) (out : List Record) →
        at.next ≡ call.now.next → EventAnswers (goes (with_thread_for object
        (answered p machine.old call.now at []))) end machine.old machine.new out out) }
{
    pass(machine, call);
    let _thread = machine.start_thread(object)?;
    Ok(EventEnd::Done)
}
