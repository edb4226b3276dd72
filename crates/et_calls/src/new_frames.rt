//! What is entered, and its frame: the arguments, the receiver and the lock (JVMS 2.6, 2.6.1).
ghost use Rattle.std.specs.Prelude.{◌≡◌, ℕ, ◌<◌, ◌≤◌, nat_le, if◌then◌else◌, List, [], None, IfOk, IfSome, OnOk, length, unwrap_or};
ghost use Rattle.et_base.specs.declared.value.Value.{Value};
ghost use Rattle.et_class.specs.Names.{has as has_flag};
ghost use Rattle.et_class.specs.declared.flags.TheConstants.{SYNCHRONIZED as SYNCHRONIZED_FLAG};
ghost use Rattle.et_heap.specs.Objects.{IsHeld};
ghost use Rattle.et_state.specs.NewFrames.{frame_with};
ghost use Rattle.et_state.specs.Threads.{most_frames};
ghost use Rattle.et_state.specs.Sound.{IsSound};
ghost use Rattle.et_state.specs.State.{GuestState, kept_of};
ghost use Rattle.et_state.specs.Words.{thread_at, top};
ghost use Rattle.et_program.specs.Entries.{Linked, method_at};
ghost use Rattle.et_event.specs.Calls.{entry_arguments as arguments_first};
ghost use Rattle.et_event.specs.Frames.{first_reference, method_frame, receiver_of as receiver_in};
ghost use Rattle.et_calls.specs.Asked.{MayPut};
ghost use Rattle.et_calls.specs.Entering.{ArePassedTo, arguments_passed, pushed_by};
ghost use Rattle.et_calls.specs.declared.new_frames.Passed.TheVariants as places;

use et_base::{ClassId, MethodId, NoMemory, ObjectId, ThreadId, Value};
use et_builtins::receiver;
use et_class::flags::{STATIC, SYNCHRONIZED, has};
use et_code::Code;
use et_program::MethodInfo;
use et_state::{Machine, NewFrame, NewHead, Stage};
use smallvec::SmallVec;
use std::alloc::Global;

/// Where the arguments of a method stand that is entered.
#[derive(Clone, Copy)]
pub(crate) enum Passed {
    /// So many entries on top of the operands of the caller.
    Operands(u16),
    /// An object of a thread that is to be entered, or none.
    Object(Option<ObjectId>),
}

/// A method with code that is entered.
#[derive(Clone, Copy)]
pub(crate) struct Entered<'a> {
    /// The method.
    pub method: MethodId,
    /// What the program knows of it.
    pub info: &'a MethodInfo,
    /// Its code.
    pub code: &'a Code,
    /// Its arguments.
    pub passed: Passed,
    /// The quiet ones among these classes become done first, in the same event.
    pub classes: &'a [ClassId],
}

/// The first argument, if that is an object.
fn first_object(machine: &Machine, thread: ThreadId, passed: &Passed) -> Option<ObjectId>
    requires passed { ArePassedTo machine.now.guest thread passed.now }
    requires sound { IsSound (kept_of machine.now) }
    ensures value { result
        ≡ first_reference (arguments_passed (top machine.now.guest thread) passed.now) }
    ensures held { IfSome result (λ o. IsHeld machine.now.heap o) }
{
    match passed {
        Passed::Operands(count) => receiver(machine, thread, *count),
        Passed::Object(argument) => *argument,
    }
}

/// The object on which a method is called; none where it is static.
pub(crate) fn receiver_of(
    machine: &Machine,
    thread: ThreadId,
    entered: &Entered<'_>,
) -> Option<ObjectId>
    requires passed { ArePassedTo machine.now.guest thread entered.now.passed }
    requires sound { IsSound (kept_of machine.now) }
    ensures value { (p : Linked) → entered.now.info.now ≡ method_at p entered.now.method →
        result ≡ receiver_in p entered.now.method
        (arguments_passed (top machine.now.guest thread) entered.now.passed) }
    ensures held { IfSome result (λ o. IsHeld machine.now.heap o) }
{
    if has(entered.info.flags, STATIC) {
        return None;
    }
    first_object(machine, thread, &entered.passed)
}

/// The arguments of the first method of a thread: an object, or none.
fn entry_arguments(
    alloc: Global,
    argument: &Option<ObjectId>,
) -> Result<SmallVec<Value, 8>, NoMemory>
    ensures { IfOk result (λ v. v.items ≡ arguments_first argument.now) }
{
    let mut arguments = SmallVec::new(alloc);
    if let Some(o) = argument {
        arguments.push(Value::Ref(*o))?;
    }
    Ok(arguments)
}

/// How many entries the arguments of a method take.
pub(crate) fn passed_count(passed: &Passed) -> u16
    ensures { (g : GuestState) (t : ℕ) → ArePassedTo g t passed.now →
        result ≡ length (arguments_passed (top g t) passed.now) }
{
    match passed {
        Passed::Operands(count) => *count,
        Passed::Object(None) => 0,
        Passed::Object(Some(_)) => 1,
    }
}

/// What the lock slot of a frame holds: the receiver of a synchronized method.
fn lock_slot(method: &MethodInfo, receiver: &Option<ObjectId>) -> Option<ObjectId>
    ensures { result
        ≡ (if has_flag method.now.flags SYNCHRONIZED_FLAG then receiver.now else None) }
{
    if has(method.flags, SYNCHRONIZED) {
        *receiver
    } else {
        None
    }
}

/// How many locals a frame has: those of its code, and no fewer than its arguments.
fn locals_for(max_locals: u16, count: u16) -> u16
    ensures value { result ≡ (if nat_le count max_locals then max_locals else count) }
    ensures enough { count ≤ result }
{
    if count <= max_locals {
        max_locals
    } else {
        count
    }
}

/// The number of a receiver in a record; 0 where there is none.
pub(crate) fn number_of(receiver: &Option<ObjectId>) -> u32
    ensures { result ≡ unwrap_or receiver.now 0 }
{
    match receiver {
        Some(o) => o.number(),
        None => 0,
    }
}

/// What the frame of a method begins with that is entered with so many entries of arguments (JVMS 2.6).
pub(crate) fn new_head(entered: &Entered<'_>, receiver: &Option<ObjectId>, count: u16) -> NewHead
    ensures frame { (p : Linked) (vs : List Value) →
        entered.now.info.now ≡ method_at p entered.now.method →
        receiver.now ≡ receiver_in p entered.now.method vs → length vs ≡ count →
        frame_with result vs ≡ method_frame p entered.now.method entered.now.code.now vs }
    ensures arguments { count ≤ result.max_locals }
{
    let body = entered.code.raw();
    NewHead {
        method: entered.method,
        lock: lock_slot(entered.info, receiver),
        max_stack: body.max_stack,
        max_locals: locals_for(body.max_locals, count),
    }
}

/// In the event under way, a thread without a frame counts as entered, and its first frame is put on top. After `NoMemory` it
/// may count as entered without one.
fn put_first_frame(
    alloc: Global,
    machine: &mut Machine,
    thread: ThreadId,
    head: &NewHead,
    argument: &Option<ObjectId>,
) -> Result<(), NoMemory>
    requires passed { ArePassedTo machine.old.guest thread (places.Object argument.now) }
    requires lost { machine.old.lost ≡ [] }
    requires few { length (thread_at machine.old.guest thread).frames < most_frames }
    requires arguments { length (arguments_first argument.now) ≤ head.now.max_locals }
    ensures { OnOk result (machine.new ≡ pushed_by machine.old
        thread (places.Object argument.now) (frame_with head.now (arguments_first argument.now))) }
{
    machine.set_entered(thread);
    let frame = NewFrame {
        method: Some(head.method),
        stage: Stage::Plain,
        lock: head.lock,
        max_stack: head.max_stack,
        max_locals: head.max_locals,
        arguments: entry_arguments(alloc, argument)?,
    };
    machine.enter_frame(thread, frame)
}

/// In the event under way, the frame of a method is put on top: its arguments are taken from where they stand, and a thread
/// without a frame counts as entered then.
pub(crate) fn put_frame(
    alloc: Global,
    machine: &mut Machine,
    thread: ThreadId,
    head: &NewHead,
    passed: &Passed,
) -> Result<(), NoMemory>
    requires puts { MayPut machine.old thread head.now passed.now }
    ensures { OnOk result (machine.new ≡ pushed_by machine.old thread passed.now
        (frame_with head.now (arguments_passed (top machine.old.guest thread) passed.now))) }
{
    match passed {
        Passed::Operands(count) => machine.enter_over(thread, head, *count as u32),
        Passed::Object(argument) => put_first_frame(alloc, machine, thread, head, argument),
    }
}
