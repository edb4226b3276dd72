//! Events in which an initializer begins, or an error is thrown, after quiet classes became done.
ghost use Rattle.std.specs.Prelude.{◌≡◌, ◌<◌, ◌≤◌, ◌^◌, true, IfOk, length};
ghost use Rattle.std.specs.List.{list_all};
ghost use Rattle.et_state.specs.NewFrames.{frame_of};
ghost use Rattle.et_state.specs.declared.class_state.ClassState.TheVariants as states;
ghost use Rattle.et_state.specs.State.{kept_of};
ghost use Rattle.et_state.specs.Words.{class_state_at};
ghost use Rattle.et_event.specs.Answered.{EventAnswers};
ghost use Rattle.et_event.specs.Moments.{moment, begins, throws};
ghost use Rattle.et_event.specs.Sound.{IsSoundFor};
ghost use Rattle.et_event.specs.Initialization.{begins_class, initializer_frame, is_ready, state_of};
ghost use Rattle.et_event.specs.InitializationOrder.{IsInOrder};
ghost use Rattle.et_initialize.specs.Asked.{MayGoOn, MayPrepare, after};

use crate::limits::{prepared_class_fits, prepared_fit};
use crate::quiet::{begin_prepared, set_constants};
use et_base::{ClassId, NoMemory, ThreadId};
use et_event::{GuestError, add_instance, class_called, slots_of};
use et_program::Program;
use et_state::{ClassState, EventEnd, Lines, Machine, NewFrame, Stage};
use smallvec::SmallVec;
use std::alloc::Global;

/// A thread has at most so many frames.
pub const MOST_FRAMES: u32 = 1024;

/// The initializer of a class before its `<clinit>` is entered.
fn initializer(alloc: Global, class: ClassId) -> NewFrame
    ensures frame { frame_of result ≡ initializer_frame class }
    ensures arguments { length result.arguments.items ≤ result.max_locals }
{
    NewFrame {
        method: None,
        stage: Stage::Before(class),
        lock: None,
        max_stack: 0,
        max_locals: 0,
        arguments: SmallVec::new(alloc),
    }
}

/// The event in which an error is thrown, after the quiet ones among these classes became done (JVMS 5.5, 2.10). After
/// `NoMemory` the event may be half done, and machine and records may only be dropped.
pub fn throw_after(
    alloc: Global,
    program: &Program,
    machine: &mut Machine,
    thread: ThreadId,
    classes: &[ClassId],
    error: GuestError,
    out: &mut Lines,
) -> Result<EventEnd, NoMemory>
    requires goes { MayGoOn program.now machine.old thread classes.now }
    ensures { IfOk result (λ end. EventAnswers (throws (moment program.now machine.old thread) error
        (after program.now machine.old thread classes.now))
        end machine.old machine.new out.old out.new) }
{
    let class = class_called(program, error.class());
    let slots = slots_of(program, class);
    if !prepared_fit(alloc, program, machine, classes, 1, slots)? {
        return Ok(EventEnd::ObjectLimit);
    }
    begin_prepared(program, machine, thread, classes, out)?;
    let object = add_instance(program, machine, thread, class, out)?;
    machine.throw(thread, object);
    Ok(EventEnd::Done)
}

/// The event in which an untouched class begins for which an initializer is to be run (JVMS 5.5), after the quiet ones among
/// these classes became done: its constants are set, and its initializer is pushed, or StackOverflowError is thrown.
pub(crate) fn begin_after(
    alloc: Global,
    program: &Program,
    machine: &mut Machine,
    thread: ThreadId,
    classes: &[ClassId],
    class: ClassId,
    out: &mut Lines,
) -> Result<EventEnd, NoMemory>
    requires prepares { MayPrepare program.now machine.old classes.now }
    requires thread { thread < length machine.old.guest.threads }
    requires ready { list_all (is_ready (moment program.now machine.old thread)
        (begins (moment program.now machine.old thread))) classes.now ≡ true }
    requires class { class < length program.now.classes }
    requires untouched { state_of (after program.now machine.old thread classes.now) class
        ≡ states.Untouched }
    ensures { IfOk result (λ end. EventAnswers (begins_class (moment program.now machine.old thread)
        class (after program.now machine.old thread classes.now))
        end machine.old machine.new out.old out.new) }
{
    if machine.frames(thread) >= MOST_FRAMES {
        let error = GuestError::StackOverflowError;
        return throw_after(alloc, program, machine, thread, classes, error, out);
    }
    if !prepared_class_fits(alloc, program, machine, classes, class)? {
        return Ok(EventEnd::ObjectLimit);
    }
    begin_prepared(program, machine, thread, classes, out)?;
    machine.set_class_state(class, ClassState::Begun(thread));
    set_constants(program, machine, thread, class, out)?;
    machine.enter_frame(thread, initializer(alloc, class))?;
    Ok(EventEnd::Done)
}

/// The event of a thread that needs an untouched class for which an initializer is to be run (JVMS 5.5): the class begins,
/// with its constants, and its initializer is pushed, or StackOverflowError is thrown. After `NoMemory` the event may be
/// half done, and machine and records may only be dropped.
pub fn begin_class_event(
    alloc: Global,
    program: &Program,
    machine: &mut Machine,
    thread: ThreadId,
    class: ClassId,
    out: &mut Lines,
) -> Result<EventEnd, NoMemory>
    requires program { IsInOrder program.now }
    requires class { class < length program.now.classes }
    requires sound { IsSoundFor program.now (kept_of machine.old) }
    requires clock { machine.old.guest.clock < 2 ^ 40 }
    requires thread { thread < length machine.old.guest.threads }
    requires untouched { class_state_at machine.old.guest class ≡ states.Untouched }
    ensures { IfOk result
        (λ end. EventAnswers (begins_class (moment program.now machine.old thread) class (begins
        (moment program.now machine.old thread))) end machine.old machine.new out.old out.new) }
{
    begin_after(alloc, program, machine, thread, &[], class, out)
}
