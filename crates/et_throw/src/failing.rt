//! Initializers that fail (JVMS 5.5).
ghost use Rattle.std.specs.Prelude.{◌≡◌, ◌+◌, ◌<◌, ◌≤◌, ◌^◌, true, Some, IfOk, OnErr, length};
ghost use Rattle.et_base.specs.declared.value.Value.TheVariants.{Ref};
ghost use Rattle.et_heap.specs.Objects.{IsHeld, object_at, slot_of, with_slot};
ghost use Rattle.et_heap.specs.Refs.{refs_of_value};
ghost use Rattle.et_state.specs.Words.{HasFrame, thread_at, top, steps_object};
ghost use Rattle.et_state.specs.declared.class_state.ClassState.TheVariants as states;
ghost use Rattle.et_program.specs.Entries.{Linked};
ghost use Rattle.et_event.specs.Answered.{EventAnswers};
ghost use Rattle.et_event.specs.Errors.{error_class};
ghost use Rattle.et_event.specs.Initialization.{with_state};
ghost use Rattle.et_event.specs.Moments.{moment, fits_heap, ends_event};
ghost use Rattle.et_event.specs.Throw.{failed, replaced};
ghost use Rattle.et_throw.specs.Leaving.{MayLeave};
ghost use Rattle.et_throw.specs.Unwinding.{UnwindsThrown, IsThrowMade, initializer_left, initializer_dropped};

use crate::records::{tell_error, tell_unwind};
use et_base::{ClassId, NoMemory, ObjectId, Steps, ThreadId, Value};
use et_event::{GuestError, class_called, slots_of};
use et_heap::MakeFault;
use et_program::{BuiltInClass, Program};
use et_state::{ClassState, EventEnd, Lines, Machine};
use std::sync::ledger::Ledger;

/// An exception that is unwound.
#[derive(Clone, Copy)]
pub(crate) struct Thrown {
    pub exception: ObjectId,
    /// The class of the exception.
    pub class: ClassId,
}

/// The initializer of a class.
#[derive(Clone, Copy)]
pub(crate) struct Initializer {
    pub class: ClassId,
    /// Whether `<clinit>` was entered; an event that leaves the frame tells of it then.
    pub entered: bool,
}

/// An event begins in which the frame of an initializer is dropped, and its class fails.
fn drop_initializer(machine: &mut Machine, thread: ThreadId, class: ClassId)
    requires frame { HasFrame machine.old.guest thread }
    requires clock { machine.old.guest.clock < 2 ^ 40 }
    requires small { length (top machine.old.guest thread).locals
        + length (top machine.old.guest thread).operands < 2 ^ 17 }
    requires class { class < length machine.old.guest.classes }
    ensures new { machine.new ≡ initializer_dropped thread class machine.old }
    ensures few { length machine.new.lost ≤ 2 ^ 17 }
{
    machine.begin_event();
    machine.drop_frame(thread);
    machine.set_class_state(class, ClassState::Failed);
}

/// The event in which an initializer fails by an Error, which stays pending.
fn fail_by_error(
    machine: &mut Machine,
    thread: ThreadId,
    initializer: Initializer,
    exception: ObjectId,
    out: &mut Lines,
) -> Result<EventEnd, NoMemory>
    requires leaves { MayLeave machine.old thread }
    requires fits { fits_heap machine.old.heap ≡ true }
    requires class { initializer.class < length machine.old.guest.classes }
    ensures ok { IfOk result (λ end. (p : Linked) →
        EventAnswers (ends_event (with_state initializer.class states.Failed
        (initializer_left (moment p machine.old thread) initializer.entered exception)))
        end machine.old machine.new out.old out.new) }
    ensures err { OnErr result (machine.new.guest ≡ machine.old.guest) }
{
    tell_unwind(machine, thread, exception, initializer.entered, out)?;
    drop_initializer(machine, thread, initializer.class);
    Ok(EventEnd::Done)
}

/// Makes an object; `None`, and nothing is done, exactly where it doesn't fit. After `NoMemory` the machine is as before.
fn make(machine: &mut Machine, class: ClassId, slots: u32) -> Result<Option<ObjectId>, NoMemory>
    ensures ok { IfOk result (λ made. IsThrowMade class slots made machine.old machine.new) }
    ensures err { OnErr result (machine.new ≡ machine.old) }
{
    match machine.heap.make_object(class, slots) {
        Ok(object) => Ok(Some(object)),
        Err(MakeFault::Full) => Ok(None),
        Err(MakeFault::NoMemory) => Err(NoMemory),
    }
}

/// Writes the cause of an exception, where it has a slot for it.
fn write_cause<L: Ledger>(
    machine: &mut Machine,
    error: ObjectId,
    slots: u32,
    cause: ObjectId,
    visits: &mut Steps<L>,
)
    requires held { IsHeld machine.old.heap error }
    requires slots { length (object_at machine.old.heap error).slots ≡ slots }
    requires lost { length machine.old.lost ≤ 2 ^ 17 }
    ensures new { machine.new ≡ steps_object machine.old error
        (with_slot 1 (Ref cause) (object_at machine.old.heap error))
        (refs_of_value (slot_of (object_at machine.old.heap error) 1)) }
    ensures few { length machine.new.lost ≤ 2 ^ 17 + 1 }
    ensures visits { visits.new ≤ visits.old + 1 }
{
    if slots > 1 {
        machine.set_slot(error, 1, Value::Ref(cause), visits);
    }
}

/// The event in which an initializer fails by what is no Error: a new ExceptionInInitializerError is pending then, with it as
/// cause.
fn fail_by_exception<L: Ledger>(
    program: &Program,
    machine: &mut Machine,
    thread: ThreadId,
    initializer: Initializer,
    exception: ObjectId,
    out: &mut Lines,
    visits: &mut Steps<L>,
) -> Result<EventEnd, NoMemory>
    requires leaves { MayLeave machine.old thread }
    requires class { initializer.class < length machine.old.guest.classes }
    requires pending { (thread_at machine.old.guest thread).pending ≡ Some exception }
    ensures ok { IfOk result (λ end. EventAnswers (ends_event
        (replaced (moment program.now machine.old thread) exception
        (with_state initializer.class states.Failed (initializer_left
        (moment program.now machine.old thread) initializer.entered exception))))
        end machine.old machine.new out.old out.new) }
    ensures err { OnErr result (machine.new.guest ≡ machine.old.guest) }
    ensures visits { visits.new ≤ visits.old + 1 }
{
    let error_class = class_called(program, GuestError::ExceptionInInitializerError.class());
    let slots = slots_of(program, error_class);
    let Some(error) = make(machine, error_class, slots)? else {
        return Ok(EventEnd::ObjectLimit);
    };
    tell_unwind(machine, thread, exception, initializer.entered, out)?;
    tell_error(machine, thread, error, error_class, slots, exception, out)?;
    drop_initializer(machine, thread, initializer.class);
    write_cause(machine, error, slots, exception, visits);
    machine.throw(thread, error);
    Ok(EventEnd::Done)
}

/// The event in which the initializer of a class fails: its frame is dropped, the class has failed, and an exception that is no
/// Error is replaced. It tells of the frame where `<clinit>` was entered.
pub(crate) fn fail_event<L: Ledger>(
    program: &Program,
    machine: &mut Machine,
    thread: ThreadId,
    initializer: Initializer,
    thrown: Thrown,
    out: &mut Lines,
    visits: &mut Steps<L>,
) -> Result<EventEnd, NoMemory>
    requires thrown { UnwindsThrown program.now machine.old thread thrown }
    requires small { length (top machine.old.guest thread).locals
        + length (top machine.old.guest thread).operands < 2 ^ 17 }
    requires class { initializer.class < length program.now.classes }
    ensures ok { IfOk result (λ end. EventAnswers (ends_event (failed
        (moment program.now machine.old thread) initializer.class thrown.exception (initializer_left
        (moment program.now machine.old thread) initializer.entered thrown.exception)))
        end machine.old machine.new out.old out.new) }
    ensures err { OnErr result (machine.new.guest ≡ machine.old.guest) }
    ensures visits { visits.new ≤ visits.old + 1 }
{
    let exception = thrown.exception;
    if program.is_subclass(thrown.class, class_called(program, BuiltInClass::Error)) {
        fail_by_error(machine, thread, initializer, exception, out)
    } else {
        fail_by_exception(
            program,
            machine,
            thread,
            initializer,
            exception,
            out,
            visits,
        )
    }
}
