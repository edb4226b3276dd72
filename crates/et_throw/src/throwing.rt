//! `athrow`.
ghost use Rattle.std.specs.Prelude.{◌≡◌, ◌+◌, ◌<◌, ◌≤◌, ◌^◌, Some, codes, IfOk, OnErr};
ghost use Rattle.et_heap.specs.Objects.{IsHeld, object_at};
ghost use Rattle.et_program.specs.Members.{is_subclass};
ghost use Rattle.et_event.specs.Errors.{class_called as called};
ghost use Rattle.et_state.specs.Threads.{with_pending};
ghost use Rattle.et_state.specs.State.{kept_of};
ghost use Rattle.et_state.specs.Words.{HasFrame, thread_at, with_thread, ticked};
ghost use Rattle.et_state.specs.Sound.{IsSound};
ghost use Rattle.et_state.specs.Moves.{Led};
ghost use Rattle.et_event.specs.Answered.{EventAnswers};
ghost use Rattle.et_event.specs.Sound.{IsSoundFor};
ghost use Rattle.et_event.specs.Throw.{throw};
ghost use Rattle.et_event.specs.Moments.{moment};

use et_base::{NoMemory, ObjectId, Steps, ThreadId};
use et_event::{GuestError, class_called, ill_typed, reference_at, throw_error};
use et_program::{BuiltInClass, Program};
use et_state::{EventEnd, Lines, Machine};
use std::sync::ledger::Ledger;

/// The event in which an object that stands on top of the operands becomes pending.
fn throw_object(machine: &mut Machine, thread: ThreadId, exception: ObjectId)
    requires frame { HasFrame machine.old.guest thread }
    requires sound { IsSound (kept_of machine.old) }
    requires clock { machine.old.guest.clock < 2 ^ 40 }
    requires held { IsHeld machine.old.heap exception }
    ensures { Led (kept_of machine.old)
        (record {
          heap = machine.old.heap;
          guest = with_thread (ticked machine.old.guest) thread
              (with_pending (Some exception) (thread_at machine.old.guest thread));
        }) machine.new }
{
    machine.begin_event();
    machine.throw(thread, exception);
}

/// Whether an object is a Throwable.
fn is_exception<L: Ledger>(
    program: &Program,
    machine: &Machine,
    exception: ObjectId,
    visits: &mut Steps<L>,
) -> bool
    requires sound { IsSoundFor program.now (kept_of machine.now) }
    requires held { IsHeld machine.now.heap exception }
    ensures value { result ≡ is_subclass program.now (object_at machine.now.heap exception).class
        (called program.now (codes "java/lang/Throwable")) }
    ensures visits { visits.new ≡ visits.old + 1 }
{
    let class = machine.heap.class_of(exception, visits);
    program.is_subclass(class, class_called(program, BuiltInClass::Throwable))
}

/// The event of `athrow` (JVMS 6.5): the Throwable on top of the operands becomes pending, and the frame stays as it is. Null
/// throws NullPointerException; what is no Throwable has no meaning. It answers what the table of events says: `Done`, and
/// then the machine keeps the next state, to which a legal step led, and the records of the event stand behind those that
/// were there; or `IllTyped` or `ObjectLimit`, and then machine and records are as before. After `NoMemory` the machine may
/// have one object more, to which nothing refers, and there may be its record; all else is as before.
#[tactic(auto, using(et_event::proofs::Referred::reference_held, crate::proofs::Thrown::thrown_by_null, crate::proofs::Thrown::thrown_answers, crate::proofs::Thrown::no_throwable, crate::proofs::Thrown::nothing_thrown))]
pub(crate) fn athrow_event<L: Ledger>(
    program: &Program,
    machine: &mut Machine,
    thread: ThreadId,
    out: &mut Lines,
    visits: &mut Steps<L>,
) -> Result<EventEnd, NoMemory>
    requires sound { IsSoundFor program.now (kept_of machine.old) }
    requires clock { machine.old.guest.clock < 2 ^ 40 }
    requires frame { HasFrame machine.old.guest thread }
    ensures ok { IfOk result (λ end. EventAnswers (throw
        (moment program.now machine.old thread)) end machine.old machine.new out.old out.new) }
    ensures err { OnErr result (machine.new.guest ≡ machine.old.guest) }
    ensures visits { visits.new ≤ visits.old + 6 }
{
    let Some(reference) = reference_at(machine, thread, 0) else {
        return Ok(ill_typed(machine, thread));
    };
    let Some(exception) = reference else {
        return throw_error(
            program,
            machine,
            thread,
            GuestError::NullPointerException,
            out,
        );
    };
    if !is_exception(program, machine, exception, visits) {
        return Ok(ill_typed(machine, thread));
    }
    throw_object(machine, thread, exception);
    Ok(EventEnd::Done)
}
