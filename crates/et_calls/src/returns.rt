//! Returns from methods (JVMS 2.11.8, 6.5 ireturn, lreturn, areturn, return).
ghost use Rattle.std.specs.Prelude.{◌≡◌, ◌+◌, ◌<◌, ◌≤◌, ◌^◌, ◌++◌, [], IfOk, OnErr, OnOk, length};
ghost use Rattle.et_state.specs.declared.stage.Stage.TheVariants.{Plain};
ghost use Rattle.et_state.specs.ThreadRoots.{frame_roots};
ghost use Rattle.et_state.specs.Threads.{lost_room, rest_of};
ghost use Rattle.et_state.specs.State.{Kept, kept_of};
ghost use Rattle.et_state.specs.Sound.{IsSound};
ghost use Rattle.et_state.specs.Words.{HasFrame, thread_at, top, steps_thread, steps_top};
ghost use Rattle.et_event.specs.Frames.{next_place_of as behind_of, frames_after_return, resumed};
ghost use Rattle.et_event.specs.Answered.{EventAnswers};
ghost use Rattle.et_event.specs.Calls.{class_done_by, frame_returned, return as return_in_table};
ghost use Rattle.et_event.specs.Moments.{Doing, Moment, begins, goes, moment};
ghost use Rattle.et_event.specs.Monitors.{left_some, lock_in as lock_in_frame};
ghost use Rattle.et_event.specs.Sound.{IsSoundFor};
ghost use Rattle.et_event.specs.Places.{Runs};
ghost use Rattle.et_event.specs.Locks.{HasSome, locks_of};
ghost use Rattle.et_event.specs.Sites.{running_method as method_in};
ghost use Rattle.et_state.specs.declared.ends.EventEnd.TheVariants as ends;
ghost use Rattle.et_calls.specs.Returned.{FitsBelow, IsValueIn, returned_entries, returning_frame};
ghost use Rattle.et_calls.specs.Stages.{IsClassIn};
ghost use Rattle.et_calls.specs.Ways.{Came};

use crate::frames::resume;
use crate::returned::returned_values;
use et_base::{MethodId, NoMemory, Steps, ThreadId, Value};
use et_event::{
    GuestError, Lock, Operand, ill_typed, leave_some, lock_in, method_of, owns_some, throw_error,
};
use et_program::{MethodInfo, Program};
use et_state::{ClassState, EventEnd, Lines, Machine, Record, Stage};
use std::sync::ledger::Ledger;

/// The frame gets what a call returns, if anything, and goes on behind it.
fn resume_with(program: &Program, machine: &mut Machine, thread: ThreadId, value: Option<Value>)
    requires frame { HasFrame machine.old.guest thread }
    requires room { length (returned_entries value) + length (top machine.old.guest thread).operands
        ≤ (top machine.old.guest thread).room }
    ensures { machine.new ≡ steps_top machine.old thread (record
        (top machine.old.guest thread) {
          pc = behind_of program.now (top machine.old.guest thread);
          operands = returned_entries value ++ (top machine.old.guest thread).operands;
        }) [] }
{
    match value {
        None => resume(program, machine, thread, &[]),
        Some(Value::Long(n)) => resume(
            program,
            machine,
            thread,
            &[Value::LongHigh, Value::Long(n)],
        ),
        Some(value) => resume(program, machine, thread, &[value]),
    }
}

/// The topmost frame, if there is one, gets what a call returns, and goes on behind it.
#[tactic(auto, using(crate::proofs::Returning::stays, crate::proofs::Returning::resumes, crate::proofs::Returning::fits_top))]
fn resume_topmost(program: &Program, machine: &mut Machine, thread: ThreadId, value: Option<Value>)
    requires started { thread < length machine.old.guest.threads }
    requires room { FitsBelow Plain
        (returned_entries value) (thread_at machine.old.guest thread).frames }
    ensures { machine.new ≡ steps_thread machine.old thread
        (record (thread_at machine.old.guest thread) {
          frames = resumed program.now
              (returned_entries value) (thread_at machine.old.guest thread).frames;
        }) [] }
{
    if machine.frames(thread) == 0 {
        return;
    }
    resume_with(program, machine, thread, value);
}

/// The frame below one of this stage that has returned goes on, if there is one and a method was called there.
#[tactic(auto, using(crate::proofs::Returning::itself))]
fn go_on(
    program: &Program,
    machine: &mut Machine,
    thread: ThreadId,
    stage: Stage,
    value: Option<Value>,
)
    requires started { thread < length machine.old.guest.threads }
    requires room { FitsBelow stage
        (returned_entries value) (thread_at machine.old.guest thread).frames }
    ensures { machine.new ≡ steps_thread machine.old thread (record
        (thread_at machine.old.guest thread) {
          frames = frames_after_return program.now stage
              (returned_entries value) (thread_at machine.old.guest thread).frames;
        }) [] }
{
    match stage {
        Stage::Plain => resume_topmost(program, machine, thread, value),
        Stage::Before(_) | Stage::Clinit(_) => (),
    }
}

/// The frame is dropped, and the one below it goes on.
#[tactic(auto, using(crate::proofs::Returning::dropped, crate::proofs::Returning::fits_dropped, crate::proofs::Returning::started_after))]
fn drop_returned(program: &Program, machine: &mut Machine, thread: ThreadId, value: Option<Value>)
    requires frame { HasFrame machine.old.guest thread }
    requires lost { length machine.old.lost + (length (top machine.old.guest thread).locals
        + length (top machine.old.guest thread).operands) < lost_room }
    requires room { FitsBelow (top machine.old.guest thread).stage
        (returned_entries value) (rest_of (thread_at machine.old.guest thread).frames) }
    ensures { machine.new ≡ steps_thread machine.old thread (record (thread_at machine.old.guest
        thread) {
          frames = frames_after_return program.now (top machine.old.guest thread).stage
              (returned_entries value) (rest_of (thread_at machine.old.guest thread).frames);
        })
        (frame_roots (top machine.old.guest thread)) }
{
    let stage = machine.stage(thread);
    machine.drop_frame(thread);
    go_on(program, machine, thread, stage, value);
}

/// The class of an initializer that returns is done.
fn finish_class(machine: &mut Machine, stage: Stage)
    requires { IsClassIn stage (length machine.old.guest.classes) }
    ensures came { (s : Kept) (d : Doing) →
        Came s d machine.old → Came s (class_done_by stage d) machine.new }
    ensures threads { machine.new.guest.threads ≡ machine.old.guest.threads }
    ensures lost { machine.new.lost ≡ machine.old.lost }
{
    match stage {
        Stage::Clinit(class) => machine.set_class_state(class, ClassState::Done),
        Stage::Plain | Stage::Before(_) => (),
    }
}

/// The event of a return begins: the frame's monitor is left, and the class of an initializer is done.
#[tactic(auto, using(crate::proofs::Leaving::lock_later))]
fn begin_return<L: Ledger>(
    machine: &mut Machine,
    stage: Stage,
    lock: &Option<Lock>,
    visits: &mut Steps<L>,
)
    requires sound { IsSound (kept_of machine.old) }
    requires clock { machine.old.guest.clock < 2 ^ 40 }
    requires lock { HasSome machine.old (locks_of lock.now) }
    requires class { IsClassIn stage (length machine.old.guest.classes) }
    ensures came { (e : Moment) → e.before ≡ kept_of machine.old → Came (kept_of machine.old)
        (class_done_by stage (left_some (locks_of lock.now) (begins e))) machine.new }
    ensures threads { machine.new.guest.threads ≡ machine.old.guest.threads }
    ensures lost { machine.new.lost ≡ [] }
    ensures visits { visits.new ≤ visits.old + 2 }
{
    machine.begin_event();
    leave_some(machine, lock, visits);
    finish_class(machine, stage);
}

/// The event in which a frame returns that owns the monitor of this lock, if it holds one (JVMS 2.6.4, 2.11.10). After
/// `NoMemory` the machine is as before.
fn leave_frame<L: Ledger>(
    program: &Program,
    machine: &mut Machine,
    thread: ThreadId,
    value: Option<Value>,
    lock: &Option<Lock>,
    out: &mut Lines,
    visits: &mut Steps<L>,
) -> Result<(), NoMemory>
    requires frame { HasFrame machine.old.guest thread }
    requires sound { IsSound (kept_of machine.old) }
    requires clock { machine.old.guest.clock < 2 ^ 40 }
    requires locals { length (top machine.old.guest thread).locals < 2 ^ 16 }
    requires room { FitsBelow (top machine.old.guest thread).stage
        (returned_entries value) (rest_of (thread_at machine.old.guest thread).frames) }
    requires there { IsValueIn (top machine.old.guest thread) value }
    requires class { IsClassIn
        (top machine.old.guest thread).stage (length machine.old.guest.classes) }
    requires lock { HasSome machine.old (locks_of lock.now) }
    requires held { locks_of lock.now ≡ lock_in_frame (top machine.old.guest thread).stage
        (method_in program.now (top machine.old.guest thread)) (top machine.old.guest thread).lock }
    ensures ok { OnOk result (EventAnswers (goes (frame_returned (moment program.now machine.old
        thread) (returned_entries value) (begins (moment program.now machine.old thread))))
        ends.Done machine.old machine.new out.old out.new) }
    ensures err { OnErr result (machine.new ≡ machine.old) }
    ensures visits { visits.new ≤ visits.old + 2 }
{
    let _depth = machine.depth(thread);
    let stage = machine.stage(thread);
    out.push(Record::Exit {
        event: machine.clock() + 1,
        thread: thread.number(),
        method: machine.frame_method(thread).unwrap_or(MethodId::new(0)),
    })?;
    begin_return(machine, stage, lock, visits);
    drop_returned(program, machine, thread, value);
    Ok(())
}

/// The event in which a value, or nothing, is returned that the method returns and that stands on top.
#[tactic(auto, using(crate::proofs::Leaving::class_is_in, et_event::proofs::There::frame_lock_there, crate::proofs::Leaving::unowned_answers))]
fn return_value<L: Ledger>(
    program: &Program,
    machine: &mut Machine,
    thread: ThreadId,
    method: &MethodInfo,
    value: Option<Value>,
    out: &mut Lines,
    visits: &mut Steps<L>,
) -> Result<EventEnd, NoMemory>
    requires frame { HasFrame machine.old.guest thread }
    requires sound { IsSoundFor program.now (kept_of machine.old) }
    requires clock { machine.old.guest.clock < 2 ^ 40 }
    requires locals { length (top machine.old.guest thread).locals < 2 ^ 16 }
    requires method { method.now ≡ method_in program.now (top machine.old.guest thread) }
    requires class { method.now.class < length program.now.classes }
    requires room { FitsBelow (top machine.old.guest thread).stage
        (returned_entries value) (rest_of (thread_at machine.old.guest thread).frames) }
    requires there { IsValueIn (top machine.old.guest thread) value }
    ensures ok { IfOk result (λ end. EventAnswers (returning_frame
        (moment program.now machine.old thread)
        value) end machine.old machine.new out.old out.new) }
    ensures err { OnErr result (machine.new.guest ≡ machine.old.guest) }
    ensures visits { visits.new ≤ visits.old + 3 }
{
    let lock = lock_in(machine.stage(thread), method, machine.lock(thread));
    if !owns_some(machine, thread, &lock, visits) {
        return throw_error(
            program,
            machine,
            thread,
            GuestError::IllegalMonitorStateException,
            out,
        );
    }
    leave_frame(program, machine, thread, value, &lock, out, visits)?;
    Ok(EventEnd::Done)
}

/// The event of a return of a value of a kind, or of nothing. After `NoMemory` the machine may have one object more, to which
/// nothing refers, and there may be its record or that of the return; all else is as before.
#[tactic(auto, using(crate::proofs::Leaving::fits_returned))]
pub(crate) fn return_event<L: Ledger>(
    program: &Program,
    machine: &mut Machine,
    thread: ThreadId,
    kind: Option<Operand>,
    out: &mut Lines,
    visits: &mut Steps<L>,
) -> Result<EventEnd, NoMemory>
    requires frame { HasFrame machine.old.guest thread }
    requires runs { Runs program.now (top machine.old.guest thread) }
    requires sound { IsSoundFor program.now (kept_of machine.old) }
    requires clock { machine.old.guest.clock < 2 ^ 40 }
    requires locals { length (top machine.old.guest thread).locals < 2 ^ 16 }
    ensures ok { IfOk result (λ end. EventAnswers (return_in_table
        (moment program.now machine.old thread) kind) end machine.old machine.new out.old out.new) }
    ensures err { OnErr result (machine.new.guest ≡ machine.old.guest) }
    ensures visits { visits.new ≤ visits.old + 3 }
{
    let method = method_of(program, machine, thread);
    let Some(value) = returned_values(program, machine, thread, kind) else {
        return Ok(ill_typed(machine, thread));
    };
    return_value(program, machine, thread, method, value, out, visits)
}
