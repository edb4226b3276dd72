//! What each built-in method does (`java.lang.Throwable`, `Thread`, and the weak references and reference queues of
//! `java.lang.ref`).
ghost use Rattle.std.specs.Prelude.{◌≡◌, ℕ, ◌+◌, ◌<◌, ◌≤◌, ◌∷◌, [], true, Some, List, IfOk, length};
ghost use Rattle.et_heap.specs.Objects.{IsHeld, object_at, referent_value};
ghost use Rattle.et_state.specs.Threads.{thread_with};
ghost use Rattle.et_state.specs.State.{kept_of};
ghost use Rattle.et_program.specs.Entries.{Linked};
ghost use Rattle.et_state.specs.declared.records.Record.{Record};
ghost use Rattle.et_event.specs.Answered.{EventAnswers};
ghost use Rattle.et_event.specs.BuiltIns.{built_in_row as row_of, entries_answered, has_thread_ended as has_ended_in, is_fit_for as fits_row, reference_in, starts_thread, uses_thread as is_on_thread, uses_throwable as is_on_throwable, with_thread_for};
ghost use Rattle.et_event.specs.Calls.{arguments_of};
ghost use Rattle.et_event.specs.Checks.{waits_unless};
ghost use Rattle.et_event.specs.Kinds.{or_zero};
ghost use Rattle.et_event.specs.Moments.{moment, begins, goes};
ghost use Rattle.et_event.specs.PoolOperands.Operand.TheVariants as operand;
ghost use Rattle.et_event.specs.Sites.{Site};
ghost use Rattle.et_event.specs.Sound.{IsSoundFor};
ghost use Rattle.et_event.specs.Programs.{HasMachineSlots};
ghost use Rattle.et_builtins.specs.Calling.{HasRoomFor, MayDo, StandsThere, answered};
ghost use Rattle.et_builtins.specs.Kinds.{slots_used};

use crate::arguments::argument_at;
use crate::changes::{
    Called, clear_referent, give, give_first, give_nothing, make_reference, start, write_one,
    write_two,
};
use crate::classes::is_of;
use et_base::{NoMemory, ObjectId, Steps, Value};
use et_event::{GuestError, ill_typed, throw_error};
use et_program::{BuiltIn, BuiltInClass, Program};
use et_state::{EventEnd, Lines, Machine};
use std::sync::ledger::Ledger;

/// At most so many threads are ever started.
const MOST_THREADS: u32 = 64;

/// Whether a built-in method uses the slots of a Throwable.
fn uses_throwable(built_in: BuiltIn) -> bool
    ensures { result ≡ is_on_throwable built_in }
{
    matches!(
        built_in,
        BuiltIn::SetMessage | BuiltIn::SetMessageAndCause | BuiltIn::GetMessage | BuiltIn::GetCause
    )
}

/// Whether a built-in method uses the slots of a Thread, or its thread.
fn uses_thread(built_in: BuiltIn) -> bool
    ensures { result ≡ is_on_thread built_in }
{
    matches!(built_in, BuiltIn::SetTarget | BuiltIn::Start)
}

/// Whether a built-in method may be done on an object: what uses the slots of a Throwable or of a Thread, or starts a thread,
/// is done on such an object alone.
fn is_fit<L: Ledger>(
    program: &Program,
    machine: &Machine,
    object: ObjectId,
    built_in: BuiltIn,
    visits: &mut Steps<L>,
) -> bool
    requires sound { IsSoundFor program.now (kept_of machine.now) }
    requires slots { HasMachineSlots program.now }
    requires held { IsHeld machine.now.heap object }
    ensures value { (t : ℕ) → result ≡ fits_row (moment program.now machine.now t)
        (begins (moment program.now machine.now t)) object built_in }
    ensures slots { result ≡ true →
        slots_used built_in ≤ length (object_at machine.now.heap object).slots }
    ensures visits { visits.new ≤ visits.old + 1 }
{
    if uses_throwable(built_in) {
        return is_of(program, machine, object, BuiltInClass::Throwable, visits);
    }
    if uses_thread(built_in) {
        return is_of(program, machine, object, BuiltInClass::Thread, visits);
    }
    true
}

/// What a value gives of its kind where that is a reference: null where nothing was written.
fn or_null(value: Value) -> Value
    ensures { result ≡ or_zero (Some operand.Reference) value }
{
    match value {
        Value::Unset => Value::Null,
        Value::Int(_) | Value::Long(_) | Value::LongHigh | Value::Null | Value::Ref(_) => value,
    }
}

/// The event in which a method gives the reference in a slot of an object.
fn give_slot<L: Ledger>(
    machine: &mut Machine,
    call: &Called,
    object: ObjectId,
    slot: u32,
    visits: &mut Steps<L>,
) -> EventEnd
    requires calls { MayDo machine.old call.now }
    requires room { HasRoomFor 1 machine.old call.now }
    requires held { IsHeld machine.old.heap object }
    requires slots { slot < length (object_at machine.old.heap object).slots }
    ensures ok { (p : Linked) (at : Site) (out : List Record) → at.next ≡ call.now.next →
        EventAnswers (goes (answered p machine.old call.now at
        (reference_in (begins (moment p machine.old call.now.thread)) object slot ∷ []))) result
        machine.old machine.new out out }
    ensures visits { visits.new ≡ visits.old + 1 }
{
    let value = or_null(machine.heap.slot(object, slot, visits));
    give(machine, call, value)
}

/// The event in which a method gives what an object refers to weakly.
#[tactic(auto, using(crate::proofs::Slots::referent_held))]
fn give_referent<L: Ledger>(
    machine: &mut Machine,
    call: &Called,
    object: ObjectId,
    visits: &mut Steps<L>,
) -> EventEnd
    requires calls { MayDo machine.old call.now }
    requires room { HasRoomFor 1 machine.old call.now }
    requires held { IsHeld machine.old.heap object }
    ensures ok { (p : Linked) (at : Site) (out : List Record) → at.next ≡ call.now.next →
        EventAnswers (goes (answered p machine.old call.now at
        (referent_value (object_at machine.old.heap object).referent ∷ []))) result
        machine.old machine.new out out }
    ensures visits { visits.new ≡ visits.old + 1 }
{
    let value = machine.heap.referent(object, visits);
    give(machine, call, value)
}

/// The event in which a thread is started, once for each object, and at most 64 in all.
fn start_event(
    program: &Program,
    machine: &mut Machine,
    call: &Called,
    object: ObjectId,
    out: &mut Lines,
) -> Result<EventEnd, NoMemory>
    requires calls { MayDo machine.old call.now }
    requires held { IsHeld machine.old.heap object }
    ensures { IfOk result (λ end. (at : Site) → at.next ≡ call.now.next →
        EventAnswers (starts_thread (moment program.now machine.old call.now.thread)
        (begins (moment program.now machine.old call.now.thread)) object
        (goes (with_thread_for object (answered program.now machine.old call.now at [])))
        (thread_with machine.old.guest.threads object)) end machine.old machine.new
        out.old out.new) }
{
    if machine.thread_of(object).is_some() {
        let error = GuestError::IllegalThreadStateException;
        return throw_error(program, machine, call.thread, error, out);
    }
    if machine.started() >= MOST_THREADS {
        let error = GuestError::OutOfMemoryError;
        return throw_error(program, machine, call.thread, error, out);
    }
    start(machine, call, object)
}

/// Whether the thread of a Thread object has ended; also where there is none.
#[tactic(auto, using(crate::proofs::Slots::thread_within))]
fn has_ended(machine: &Machine, object: ObjectId) -> bool
    ensures { (p : Linked) (t : ℕ) → result ≡ has_ended_in
        (begins (moment p machine.now t)) (thread_with machine.now.guest.threads object) }
{
    match machine.thread_of(object) {
        Some(thread) => machine.is_ended(thread),
        None => true,
    }
}

/// The event in which a thread waits for the end of another, and goes on once that has ended.
fn join_event(machine: &mut Machine, call: &Called, object: ObjectId) -> EventEnd
    requires calls { MayDo machine.old call.now }
    ensures { (p : Linked) (at : Site) (out : List Record) → at.next ≡ call.now.next →
        EventAnswers (waits_unless (moment p machine.old call.now.thread) (has_ended_in (begins
        (moment p machine.old call.now.thread)) (thread_with machine.old.guest.threads object))
        (goes (answered p machine.old call.now at []))) result machine.old machine.new out out }
{
    if has_ended(machine, object) {
        return give_nothing(machine, call);
    }
    machine.begin_event();
    EventEnd::Waited
}

/// The event of a built-in method on an object.
pub(crate) fn row_event<L: Ledger>(
    program: &Program,
    machine: &mut Machine,
    call: &Called,
    object: ObjectId,
    built_in: BuiltIn,
    out: &mut Lines,
    visits: &mut Steps<L>,
) -> Result<EventEnd, NoMemory>
    requires sound { IsSoundFor program.now (kept_of machine.old) }
    requires slots { HasMachineSlots program.now }
    requires calls { MayDo machine.old call.now }
    requires room { HasRoomFor (entries_answered built_in) machine.old call.now }
    requires object { StandsThere machine.old call.now object }
    ensures ok { IfOk result (λ end. (at : Site) → at.next ≡ call.now.next →
        EventAnswers (row_of (moment program.now machine.old call.now.thread) at
        (begins (moment program.now machine.old call.now.thread))
        (arguments_of (moment program.now machine.old call.now.thread) call.now.count)
        object built_in) end machine.old machine.new out.old out.new) }
    ensures visits { visits.new ≤ visits.old + 3 }
{
    if !is_fit(program, machine, object, built_in, visits) {
        return Ok(ill_typed(machine, call.thread));
    }
    let value = argument_at(machine, call.thread, call.count, 1);
    match built_in {
        BuiltIn::Nothing => Ok(give_nothing(machine, call)),
        BuiltIn::SetMessage | BuiltIn::SetTarget => {
            write_one(machine, call, object, value, out, visits)
        }
        BuiltIn::SetMessageAndCause => {
            let cause = argument_at(machine, call.thread, call.count, 2);
            write_two(machine, call, object, value, cause, out, visits)
        }
        BuiltIn::GetMessage => Ok(give_slot(machine, call, object, 0, visits)),
        BuiltIn::GetCause => Ok(give_slot(machine, call, object, 1, visits)),
        BuiltIn::Start => start_event(program, machine, call, object, out),
        BuiltIn::Join => Ok(join_event(machine, call, object)),
        BuiltIn::SetReferent => Ok(make_reference(
            machine,
            call,
            object,
            value,
            Value::Null,
            visits,
        )),
        BuiltIn::SetReferentAndQueue => {
            let queue = argument_at(machine, call.thread, call.count, 2);
            Ok(make_reference(machine, call, object, value, queue, visits))
        }
        BuiltIn::GetReferent => Ok(give_referent(machine, call, object, visits)),
        BuiltIn::ClearReferent => Ok(clear_referent(machine, call, object, visits)),
        BuiltIn::Poll => Ok(give_first(machine, call, object, visits)),
    }
}
