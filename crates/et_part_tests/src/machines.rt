//! A machine with one thread, whose frame is entered and left again.
ghost use Rattle.std.specs.Prelude.{◌<◌, ◌^◌, length};
ghost use Rattle.et_state.specs.Words.{HasFrame};

use et_base::{ClassId, MethodId, NoMemory, ObjectId, ThreadId, Value};
use et_heap::RootList;
use et_state::{ClassState, Machine, NewFrame, Stage, Turn};
use smallvec::SmallVec;
use std::alloc::Global;
use std::process::Abort;
use std::test::Fail;

fn first(alloc: Global) -> Result<Machine, NoMemory> {
    let classes = vec![in alloc; ClassState::Untouched; 2]?;
    let statics = vec![in alloc; Value::Null; 1]?;
    Machine::of(alloc, ClassId::new(7), classes, statics)
}

fn frame(alloc: Global) -> Result<NewFrame, NoMemory> {
    Ok(NewFrame {
        method: Some(MethodId::new(3)),
        stage: Stage::Plain,
        lock: None,
        max_stack: 2,
        max_locals: 3,
        arguments: SmallVec::from_slice(alloc, &[Value::Int(5)])?,
    })
}

fn listed(alloc: Global, machine: &Machine) -> Result<Vec<ObjectId>, NoMemory> {
    let mut room = RootList::begin(alloc);
    machine.roots(&mut room)?;
    Ok(Vec::from_slice(alloc, room.as_slice())?)
}

#[test]
fn the_first_state(rt: HostRuntime) -> Result<(), Fail> {
    let machine = first(rt.alloc())?;
    assert_eq!(rt; machine.clock(), 0);
    assert!(rt; machine.heap.is_held(ObjectId::new(1)));
    assert_eq!(rt;
        listed(rt.alloc(), &machine)?.as_slice(),
        [ObjectId::new(1)].as_slice()
    );
    Ok(())
}

/// The first thread begins with its method, whose argument is object 1.
fn enters(rt: &impl Abort, machine: &Machine) {
    assert_eq!(rt; machine.started(), 1);
    assert_eq!(rt; machine.turn(ThreadId::new(0)), Turn::Entry);
    assert_eq!(rt;
        machine.entry_slot(ThreadId::new(0)),
        Some(ObjectId::new(1))
    );
}

#[test]
fn the_first_thread(rt: HostRuntime) -> Result<(), Fail> {
    let machine = first(rt.alloc())?;
    enters(&rt, &machine);
    assert_eq!(rt; machine.unended(0), Some(ThreadId::new(0)));
    assert_eq!(rt; machine.unended(1), None);
    Ok(())
}

/// Makes an object a string. Neither the text nor the object is one yet.
fn make_string(
    rt: &impl Abort,
    machine: &mut Machine,
    text: &[u8],
    o: ObjectId,
) -> Result<(), NoMemory>
    requires { length text.now < 2 ^ 16 }
{
    assert!(rt; machine.interned(text).is_none());
    assert!(rt; machine.text_of(o).is_none());
    machine.intern(text, o)
}

#[test]
fn strings_of_constants(rt: HostRuntime) -> Result<(), Fail> {
    let mut machine = first(rt.alloc())?;
    let o = ObjectId::new(1);
    make_string(&rt, &mut machine, b"ab", o)?;
    assert_eq!(rt; machine.interned(b"ab"), Some(o));
    assert_eq!(rt; machine.interned(b"a"), None);
    assert_eq!(rt; machine.text_of(o), Some(b"ab".as_slice()));
    assert_eq!(rt; listed(rt.alloc(), &machine)?.as_slice(), [o, o].as_slice());
    Ok(())
}

fn enter(rt: &impl Abort, machine: &mut Machine, made: NewFrame) -> Result<(), NoMemory> {
    assert_eq!(rt; machine.started(), 1);
    assert_eq!(rt; machine.frames(ThreadId::new(0)), 0);
    assert!(rt; made.arguments.len() <= made.max_locals as usize);
    machine.enter_frame(ThreadId::new(0), made)
}

/// The thread has one frame.
fn is_entered(rt: &impl Abort, machine: &Machine)
    ensures { HasFrame machine.now.guest 0 }
{
    assert_eq!(rt; machine.started(), 1);
    assert_eq!(rt; machine.frames(ThreadId::new(0)), 1);
}

fn begins(rt: &impl Abort, machine: &Machine)
    requires { HasFrame machine.now.guest 0 }
{
    assert_eq!(rt; machine.turn(ThreadId::new(0)), Turn::Instruction);
    assert_eq!(rt; machine.depth(ThreadId::new(0)), 0);
    assert_eq!(rt; machine.room(ThreadId::new(0)), 2);
}

fn push_null(rt: &impl Abort, machine: &mut Machine)
    requires { HasFrame machine.old.guest 0 }
{
    assert!(rt; machine.depth(ThreadId::new(0)) < u32::from(machine.room(ThreadId::new(0))));
    machine.push(ThreadId::new(0), Value::Null);
}

fn holds_null(rt: &impl Abort, machine: &Machine)
    requires { HasFrame machine.now.guest 0 }
{
    assert_eq!(rt; machine.depth(ThreadId::new(0)), 1);
    assert_eq!(rt; machine.operand(ThreadId::new(0), 0), Value::Null);
}

fn holds_its_argument(rt: &impl Abort, machine: &Machine)
    requires { HasFrame machine.now.guest 0 }
{
    assert_eq!(rt; machine.locals(ThreadId::new(0)), 3);
    assert_eq!(rt; machine.local(ThreadId::new(0), 0), Value::Int(5));
    assert_eq!(rt; machine.local(ThreadId::new(0), 2), Value::Unset);
}

#[test]
fn a_frame(rt: HostRuntime) -> Result<(), Fail> {
    let mut machine = first(rt.alloc())?;
    let made = frame(rt.alloc())?;
    enter(&rt, &mut machine, made)?;
    is_entered(&rt, &machine);
    begins(&rt, &machine);
    push_null(&rt, &mut machine);
    is_entered(&rt, &machine);
    holds_null(&rt, &machine);
    holds_its_argument(&rt, &machine);
    Ok(())
}

fn two_threads(rt: &impl Abort, machine: &mut Machine) -> Result<(), NoMemory> {
    let o = ObjectId::new(1);
    assert_eq!(rt; machine.started(), 1);
    assert!(rt; machine.thread_of(o).is_none());
    let second = machine.start_thread(o)?;
    assert_eq!(rt; second.number(), 1);
    assert_eq!(rt; machine.thread_of(o), Some(second));
    assert_eq!(rt; machine.unended(1), Some(second));
    Ok(())
}

#[test]
fn a_second_thread(rt: HostRuntime) -> Result<(), Fail> {
    let mut machine = first(rt.alloc())?;
    two_threads(&rt, &mut machine)?;
    Ok(())
}
