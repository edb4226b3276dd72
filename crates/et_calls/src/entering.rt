//! Methods with code are entered (JVMS 2.6, 2.11.8, 2.11.10), after quiet classes became done in the same event (JVMS 5.5).
ghost use Rattle.std.specs.Prelude.{◌≡◌, ◌+◌, ◌<◌, ◌≤◌, true, IfOk, OnOk, length};
ghost use Rattle.et_state.specs.NewFrames.{frame_with};
ghost use Rattle.et_state.specs.Threads.{most_frames};
ghost use Rattle.et_state.specs.Words.{thread_at, top};
ghost use Rattle.et_event.specs.Answered.{EventAnswers};
ghost use Rattle.et_event.specs.Moments.{fits_heap, moment};
ghost use Rattle.et_event.specs.Locks.{entering_some, locks_of};
ghost use Rattle.et_calls.specs.Asked.{MayEnter, MayPush};
ghost use Rattle.et_calls.specs.Entering.{arguments_passed, entering_event, prepared_for, pushed_by, pushed_event};

use crate::new_frames::{
    Entered, Passed, new_head, number_of, passed_count, put_frame, receiver_of,
};
use et_base::{NoMemory, Steps, ThreadId};
use et_event::{GuestError, Lock, enter_some, lock_for, may_enter_some, wait_event};
use et_initialize::{MOST_FRAMES, begin_prepared, prepared_fit, throw_after};
use et_program::Program;
use et_state::{EventEnd, Lines, Machine, NewHead, Record};
use std::alloc::Global;
use std::sync::ledger::Ledger;

/// In the event under way, the arguments are taken, the frame is put on top, and its monitor is entered.
fn push_frame<L: Ledger>(
    alloc: Global,
    machine: &mut Machine,
    thread: ThreadId,
    head: &NewHead,
    passed: &Passed,
    lock: &Option<Lock>,
    visits: &mut Steps<L>,
) -> Result<(), NoMemory>
    requires pushes { MayPush machine.old thread head.now passed.now (locks_of lock.now) }
    ensures ok { OnOk result (machine.new ≡ entering_some thread
        (locks_of lock.now) (pushed_by machine.old thread passed.now
        (frame_with head.now (arguments_passed (top machine.old.guest thread) passed.now)))) }
    ensures visits { visits.new ≤ visits.old + 2 }
{
    put_frame(alloc, machine, thread, head, passed)?;
    enter_some(machine, thread, lock, visits);
    Ok(())
}

/// The event in which a method is entered. All fits, the thread may enter its monitor, and has room for a frame.
fn push_event<L: Ledger>(
    alloc: Global,
    program: &Program,
    machine: &mut Machine,
    thread: ThreadId,
    entered: &Entered<'_>,
    out: &mut Lines,
    visits: &mut Steps<L>,
) -> Result<EventEnd, NoMemory>
    requires enters { MayEnter program.now machine.old thread entered.now }
    requires few { length (thread_at machine.old.guest thread).frames < most_frames }
    requires fits { fits_heap (prepared_for
        (moment program.now machine.old thread) entered.now).state.heap ≡ true }
    ensures ok { IfOk result (λ end. EventAnswers (pushed_event (moment
        program.now machine.old thread) entered.now) end machine.old machine.new out.old out.new) }
    ensures visits { visits.new ≤ visits.old + 2 }
{
    let passed = &entered.passed;
    let receiver = receiver_of(machine, thread, entered);
    let count = passed_count(passed);
    let head = new_head(entered, &receiver, count);
    begin_prepared(program, machine, thread, entered.classes, out)?;
    out.push(Record::Enter {
        event: machine.clock(),
        thread: thread.number(),
        method: entered.method,
        receiver: number_of(&receiver),
    })?;
    let lock = lock_for(entered.info, receiver);
    push_frame(alloc, machine, thread, &head, passed, &lock, visits)?;
    Ok(EventEnd::Done)
}

/// Whether what the quiet ones among the classes make, as they become done, has room.
#[inline(always)]
fn classes_fit(
    alloc: Global,
    program: &Program,
    machine: &Machine,
    thread: ThreadId,
    entered: &Entered<'_>,
) -> Result<bool, NoMemory>
    requires enters { MayEnter program.now machine.now thread entered.now }
    ensures { IfOk result (λ fits. fits ≡ fits_heap
        (prepared_for (moment program.now machine.now thread) entered.now).state.heap) }
{
    if entered.classes.is_empty() {
        return Ok(true);
    }
    prepared_fit(alloc, program, machine, entered.classes, 0, 0)
}

/// The event in which a thread enters a method with code, or waits for its monitor (JVMS 2.6, 2.11.8, 2.11.10); where the
/// thread has 1,024 frames, StackOverflowError is thrown. After `NoMemory` the event may be half done.
pub(crate) fn enter_code<L: Ledger>(
    alloc: Global,
    program: &Program,
    machine: &mut Machine,
    thread: ThreadId,
    entered: &Entered<'_>,
    out: &mut Lines,
    visits: &mut Steps<L>,
) -> Result<EventEnd, NoMemory>
    requires enters { MayEnter program.now machine.old thread entered.now }
    ensures ok { IfOk result (λ end. EventAnswers (entering_event (moment
        program.now machine.old thread) entered.now) end machine.old machine.new out.old out.new) }
    ensures visits { visits.new ≤ visits.old + 3 }
{
    let lock = lock_for(entered.info, receiver_of(machine, thread, entered));
    if !may_enter_some(machine, thread, &lock, visits) {
        return Ok(wait_event(machine));
    }
    if machine.frames(thread) >= MOST_FRAMES {
        let error = GuestError::StackOverflowError;
        return throw_after(alloc, program, machine, thread, entered.classes, error, out);
    }
    if !classes_fit(alloc, program, machine, thread, entered)? {
        return Ok(EventEnd::ObjectLimit);
    }
    push_event(alloc, program, machine, thread, entered, out, visits)
}
