//! The turns of an initializer that has not entered `<clinit>` yet.
ghost use Rattle.std.specs.Prelude.{◌≡◌, ◌<◌, ◌≤◌, ◌^◌, true, false, All, IfOk, length, take, slice_index_or};
ghost use Rattle.std.specs.List.{list_all};
ghost use Rattle.et_state.specs.State.{kept_of};
ghost use Rattle.et_state.specs.declared.stage.Stage.TheVariants as stages;
ghost use Rattle.et_state.specs.Words.{HasFrame, top};
ghost use Rattle.et_event.specs.Answered.{EventAnswers};
ghost use Rattle.et_program.specs.Entries.{class_at};
ghost use Rattle.et_event.specs.Moments.{moment, begins, ends_event as ending};
ghost use Rattle.et_event.specs.Sites.{present_body};
ghost use Rattle.et_event.specs.Sound.{IsSoundFor};
ghost use Rattle.et_event.specs.Initialization.{is_ready as ready, enters_clinit, initialized, initialization_step};
ghost use Rattle.et_event.specs.InitializationOrder.{IsInOrder};
ghost use Rattle.et_initialize.specs.Asked.{MayGoOn, after};

use crate::begins::{begin_after, throw_after};
use crate::limits::prepared_fit;
use crate::needs::{Need, need_of};
use crate::quiet::begin_prepared;
use et_base::{ClassId, NoMemory, ThreadId};
use et_event::{GuestError, wait_event};
use et_program::{MethodInfo, Program};
use et_state::{ClassState, EventEnd, Lines, Machine, Record};
use std::alloc::Global;

/// Whether an initializer need not wait for a class: it is done, begun by this thread, or quiet.
fn is_ready(program: &Program, machine: &Machine, thread: ThreadId, class: ClassId) -> bool
    requires class { class < length program.now.classes }
    requires classes { length machine.now.guest.classes ≡ length program.now.classes }
    ensures { result ≡ ready (moment program.now machine.now thread)
        (begins (moment program.now machine.now thread)) class }
{
    match need_of(program, machine, thread, class) {
        Need::Ready | Need::Quiet => true,
        Need::Waits | Need::Failed | Need::Begins => false,
    }
}

/// How many of these classes, from the first on, an initializer need not wait for.
fn ready_count(program: &Program, machine: &Machine, thread: ThreadId, classes: &[ClassId]) -> usize
    requires all { All (λ c. c < length program.now.classes) classes.now }
    requires classes { length machine.now.guest.classes ≡ length program.now.classes }
    ensures few { result ≤ length classes.now }
    ensures ready { list_all (ready (moment program.now machine.now thread)
        (begins (moment program.now machine.now thread))) (take result classes.now) ≡ true }
    ensures blocker { result < length classes.now → ready (moment program.now machine.now thread)
        (begins (moment program.now machine.now thread)) (slice_index_or classes.now result 0)
        ≡ false }
{
    for k in 0..classes.len() {
        if !is_ready(program, machine, thread, classes[k]) {
            return k;
        }
    }
    classes.len()
}

/// How many operands and locals the code of a method has.
fn frame_size(method: &MethodInfo) -> (u16, u16)
    ensures stack { result.0 ≡ (present_body method.now.code).max_stack }
    ensures locals { result.1 ≡ (present_body method.now.code).max_locals }
{
    match &method.code {
        Some(code) => {
            let body = code.raw();
            (body.max_stack, body.max_locals)
        }
        None => (0, 0),
    }
}

/// The event of an initializer that waits for a class, after the quiet ones among those before it became done.
fn blocked_event(
    alloc: Global,
    program: &Program,
    machine: &mut Machine,
    thread: ThreadId,
    classes: &[ClassId],
    blocker: ClassId,
    out: &mut Lines,
) -> Result<EventEnd, NoMemory>
    requires goes { MayGoOn program.now machine.old thread classes.now }
    requires class { blocker < length program.now.classes }
    requires blocked { ready (moment program.now machine.old thread)
        (begins (moment program.now machine.old thread)) blocker ≡ false }
    ensures { IfOk result (λ end. EventAnswers (initialized (moment program.now machine.old thread)
        (after program.now machine.old thread classes.now) blocker ending)
        end machine.old machine.new out.old out.new) }
{
    match need_of(program, machine, thread, blocker) {
        Need::Begins => begin_after(alloc, program, machine, thread, classes, blocker, out),
        Need::Failed => {
            let error = GuestError::NoClassDefFoundError;
            throw_after(alloc, program, machine, thread, classes, error, out)
        }
        Need::Waits => Ok(wait_event(machine)),
        Need::Ready | Need::Quiet => unreachable!(),
    }
}

/// The event of an initializer that waits for nothing: `<clinit>` is entered, or the class is done.
fn enter_event(
    alloc: Global,
    program: &Program,
    machine: &mut Machine,
    thread: ThreadId,
    class: ClassId,
    classes: &[ClassId],
    out: &mut Lines,
) -> Result<EventEnd, NoMemory>
    requires goes { MayGoOn program.now machine.old thread classes.now }
    requires class { class < length program.now.classes }
    requires stage { (top machine.old.guest thread).stage ≡ stages.Before class }
    ensures { IfOk result (λ end. EventAnswers (enters_clinit
        (moment program.now machine.old thread) class (class_at program.now class).info.clinit
        (after program.now machine.old thread classes.now))
        end machine.old machine.new out.old out.new) }
{
    if !prepared_fit(alloc, program, machine, classes, 0, 0)? {
        return Ok(EventEnd::ObjectLimit);
    }
    begin_prepared(program, machine, thread, classes, out)?;
    let Some(clinit) = program.class(class).clinit else {
        machine.set_class_state(class, ClassState::Done);
        machine.drop_frame(thread);
        return Ok(EventEnd::Done);
    };
    let (max_stack, max_locals) = frame_size(program.method(clinit));
    machine.enter_clinit(thread, clinit, max_stack, max_locals)?;
    out.push(Record::Enter {
        event: machine.clock(),
        thread: thread.number(),
        method: clinit,
        receiver: 0,
    })?;
    Ok(EventEnd::Done)
}

/// The event of an initializer that has not entered `<clinit>` yet (JVMS 5.5): the quiet ones among its prerequisites become
/// done up to the first for which it has to wait, and that is needed; where there is none, `<clinit>` is entered, or the class
/// is done. After `NoMemory` the event may be half done, and machine and records may only be dropped.
pub fn initialization_event(
    alloc: Global,
    program: &Program,
    machine: &mut Machine,
    thread: ThreadId,
    class: ClassId,
    out: &mut Lines,
) -> Result<EventEnd, NoMemory>
    requires program { IsInOrder program.now }
    requires sound { IsSoundFor program.now (kept_of machine.old) }
    requires clock { machine.old.guest.clock < 2 ^ 40 }
    requires frame { HasFrame machine.old.guest thread }
    requires stage { (top machine.old.guest thread).stage ≡ stages.Before class }
    ensures { IfOk result (λ end. EventAnswers (initialization_step (moment
        program.now machine.old thread) class) end machine.old machine.new out.old out.new) }
{
    let classes = program.class(class).prerequisites.as_slice();
    let count = ready_count(program, machine, thread, classes);
    if count == classes.len() {
        return enter_event(alloc, program, machine, thread, class, classes, out);
    }
    let blocker = classes[count];
    let before = &classes[..count];
    blocked_event(alloc, program, machine, thread, before, blocker, out)
}
