//! The turn in which an exception is unwound.
ghost use Rattle.std.specs.Prelude.{◌≡◌, ◌+◌, ◌<◌, ◌≤◌, ◌^◌, IfOk, IfSome, OnErr, length};
ghost use Rattle.et_heap.specs.Objects.{IsHeld, object_at};
ghost use Rattle.et_state.specs.declared.stage.Turn.TheVariants as turns;
ghost use Rattle.et_state.specs.Threads.{turn_of};
ghost use Rattle.et_state.specs.State.{kept_of};
ghost use Rattle.et_state.specs.Words.{HasFrame, thread_at, top};
ghost use Rattle.et_event.specs.Answered.{EventAnswers};
ghost use Rattle.et_event.specs.Event.{event};
ghost use Rattle.et_event.specs.Sites.{running_method as method_in};
ghost use Rattle.et_event.specs.Sound.{IsSoundFor};
ghost use Rattle.et_event.specs.Throw.{by_handler, handler_of, unwound};
ghost use Rattle.et_event.specs.Monitors.{lock_in as lock_in_frame};
ghost use Rattle.et_event.specs.Locks.{locks_of, HasSome};
ghost use Rattle.et_event.specs.Places.{Runs};
ghost use Rattle.et_event.specs.Interfaces.{KnowsInterfaces};
ghost use Rattle.et_event.specs.Moments.{moment};
ghost use Rattle.et_throw.specs.Leaving.{MayLeave};
ghost use Rattle.et_throw.specs.Unwinding.{UnwindsThrown, leaving_if_owned, method_left};

use crate::catching::catch_event;
use crate::failing::{Initializer, Thrown, fail_event};
use crate::handlers::handler;
use crate::records::unwind_record;
use et_base::{ClassId, NoMemory, ObjectId, Steps, ThreadId};
use et_event::{Lock, ill_typed, leave_monitor, lock_in, method_of, owns};
use et_program::Program;
use et_state::{EventEnd, Lines, Machine, Stage};
use std::sync::ledger::Ledger;

/// Leaves the monitor of a lock once, where a thread owns it.
fn leave_if_owned<L: Ledger>(
    machine: &mut Machine,
    thread: ThreadId,
    lock: &Option<Lock>,
    visits: &mut Steps<L>,
)
    requires { HasSome machine.old (locks_of lock.now) }
    ensures new { machine.new ≡ leaving_if_owned thread (locks_of lock.now) machine.old }
    ensures visits { visits.new ≤ visits.old + 3 }
{
    if let Some(lock) = lock {
        if owns(machine, thread, lock, visits) {
            leave_monitor(machine, lock, visits);
        }
    }
}

/// The event in which the frame of a method is dropped, and its monitor left.
fn unwind_frame<L: Ledger>(
    program: &Program,
    machine: &mut Machine,
    thread: ThreadId,
    exception: ObjectId,
    lock: &Option<Lock>,
    out: &mut Lines,
    visits: &mut Steps<L>,
) -> Result<EventEnd, NoMemory>
    requires leaves { MayLeave machine.old thread }
    requires there { HasSome machine.old (locks_of lock.now) }
    requires lock { locks_of lock.now ≡ lock_in_frame (top machine.old.guest thread).stage
        (method_in program.now (top machine.old.guest thread)) (top machine.old.guest thread).lock }
    ensures ok { IfOk result (λ end. EventAnswers (unwound (moment program.now machine.old thread)
        exception) end machine.old machine.new out.old out.new) }
    ensures err { OnErr result (machine.new.guest ≡ machine.old.guest) }
    ensures visits { visits.new ≤ visits.old + 3 }
{
    out.push(unwind_record(machine, thread, exception))?;
    machine.begin_event();
    leave_if_owned(machine, thread, lock, visits);
    machine.drop_frame(thread);
    Ok(EventEnd::Done)
}

/// The lock that the frame of a method holds.
#[tactic(auto, using(et_event::proofs::There::frame_lock_there))]
fn lock_of_frame(program: &Program, machine: &Machine, thread: ThreadId) -> Option<Lock>
    requires sound { IsSoundFor program.now (kept_of machine.now) }
    requires frame { HasFrame machine.now.guest thread }
    requires runs { Runs program.now (top machine.now.guest thread) }
    ensures is { locks_of result ≡ lock_in_frame (top machine.now.guest thread).stage
        (method_in program.now (top machine.now.guest thread)) (top machine.now.guest thread).lock }
    ensures there { HasSome machine.now (locks_of result) }
{
    let method = method_of(program, machine, thread);
    lock_in(machine.stage(thread), method, machine.lock(thread))
}

/// The turn in the frame of a method: a handler is entered, or the frame is dropped. Where it is the `<clinit>` of a class, the
/// class fails then.
#[tactic(auto, using(crate::proofs::Turns::by_some, crate::proofs::Turns::by_none))]
fn unwind_method<L: Ledger>(
    program: &Program,
    machine: &mut Machine,
    thread: ThreadId,
    clinit: Option<ClassId>,
    thrown: Thrown,
    out: &mut Lines,
    visits: &mut Steps<L>,
) -> Result<EventEnd, NoMemory>
    requires thrown { UnwindsThrown program.now machine.old thread thrown }
    requires runs { Runs program.now (top machine.old.guest thread) }
    requires clinit { IfSome clinit (λ class. class < length program.now.classes) }
    requires interfaces { KnowsInterfaces program.now }
    ensures ok { IfOk result
        (λ end. EventAnswers (by_handler (moment program.now machine.old thread) thrown.exception
        (method_left (moment program.now machine.old thread) thrown.exception clinit)
        (handler_of program.now (top machine.old.guest thread)
        (object_at machine.old.heap thrown.exception).class))
        end machine.old machine.new out.old out.new) }
    ensures err { OnErr result (machine.new.guest ≡ machine.old.guest) }
    ensures visits { visits.new ≤ visits.old + 3 }
{
    let exception = thrown.exception;
    if let Some(pc) = handler(program, machine, thread, thrown.class) {
        return Ok(catch_event(machine, thread, exception, pc));
    }
    match clinit {
        None => {
            let lock = lock_of_frame(program, machine, thread);
            unwind_frame(program, machine, thread, exception, &lock, out, visits)
        }
        Some(class) => {
            let initializer = Initializer {
                class,
                entered: true,
            };
            fail_event(program, machine, thread, initializer, thrown, out, visits)
        }
    }
}

/// The class of what is thrown.
fn class_of<L: Ledger>(machine: &Machine, exception: ObjectId, visits: &mut Steps<L>) -> ClassId
    requires { IsHeld machine.now.heap exception }
    ensures class { result ≡ (object_at machine.now.heap exception).class }
    ensures visits { visits.new ≡ visits.old + 1 }
{
    machine.heap.class_of(exception, visits)
}

/// The event of a thread whose turn is to unwind the exception that is pending (JVMS 2.10, and 5.5 for initializers): a
/// handler of the topmost frame is entered, or the frame is dropped, its monitor left once where the thread owns it, and the
/// class of an initializer has failed. It answers what the table of events says: `Done`, and then the machine keeps the next
/// state, to which a legal step led, and the records of the event stand behind those that were there; or, and then machine
/// and records are as before, `IllTyped` where the exception doesn't fit in the frame of the handler, or `ObjectLimit` where
/// a new ExceptionInInitializerError doesn't fit. After `NoMemory` the machine may have one object more, to which nothing
/// refers, and there may be some of the records; all else is as before.
#[tactic(auto, using(crate::proofs::Turning::unwinds_frame, crate::proofs::Turns::turn_ill_typed))]
pub(crate) fn unwinding_event<L: Ledger>(
    program: &Program,
    machine: &mut Machine,
    thread: ThreadId,
    out: &mut Lines,
    visits: &mut Steps<L>,
) -> Result<EventEnd, NoMemory>
    requires sound { IsSoundFor program.now (kept_of machine.old) }
    requires clock { machine.old.guest.clock < 2 ^ 40 }
    requires turn { turn_of (thread_at machine.old.guest thread) ≡ turns.Unwind }
    requires interfaces { KnowsInterfaces program.now }
    ensures event { IfOk result (λ end. EventAnswers (event program.now
        (kept_of machine.old) thread) end machine.old machine.new out.old out.new) }
    ensures err { OnErr result (machine.new.guest ≡ machine.old.guest) }
    ensures visits { visits.new ≤ visits.old + 6 }
{
    let Some(exception) = machine.pending(thread) else {
        return Ok(ill_typed(machine, thread));
    };
    let class = class_of(machine, exception, visits);
    let thrown = Thrown { exception, class };
    match machine.stage(thread) {
        Stage::Plain => unwind_method(program, machine, thread, None, thrown, out, visits),
        Stage::Before(class) => {
            let initializer = Initializer {
                class,
                entered: false,
            };
            fail_event(program, machine, thread, initializer, thrown, out, visits)
        }
        Stage::Clinit(class) => {
            unwind_method(program, machine, thread, Some(class), thrown, out, visits)
        }
    }
}
