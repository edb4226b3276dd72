//! What an event makes and writes, and tells of it.
ghost use Rattle.std.specs.Prelude.{◌≡◌, ◌+◌, ◌*◌, ◌<◌, ◌^◌, ◌++◌, ◌∷◌, [], true, IfOk, OnOk, OnErr, length, unwrap_or};
ghost use Rattle.et_heap.specs.Objects.{has_room, new_object};
ghost use Rattle.et_state.specs.declared.records.Record.TheVariants.{Alloc};
ghost use Rattle.et_program.specs.Entries.{class_at};
ghost use Rattle.et_event.specs.Moments.{array_made, begins, instance_made, moment, number_of_value};
ghost use Rattle.et_event.specs.Making.{MakesObject, MayHaveMade};
ghost use Rattle.et_event.specs.Telling.{in_event, so_far, StandsAt, TellsUpdate};

use crate::objects::{array_size, slots_of, width_in};
use et_base::{ClassId, NoMemory, ObjectId, ThreadId, Value};
use et_heap::MakeFault;
use et_program::Program;
use et_state::{Lines, Machine, Record};

/// Tells in the event of this number of an instance of a class that was made, with so many slots. After `NoMemory` the
/// records are as before.
#[inline]
pub fn tell_instance(
    out: &mut Lines,
    event: u64,
    thread: ThreadId,
    object: ObjectId,
    class: ClassId,
    slots: u32,
) -> Result<(), NoMemory>
    ensures ok { OnOk result
        (out.new ≡ out.old ++ Alloc event thread object class (16 + 8 * slots) 0 ∷ []) }
    ensures err { OnErr result (out.new ≡ out.old) }
{
    out.push(Record::Alloc {
        event,
        thread: thread.number(),
        object: object.number(),
        class,
        size: 16 + 8 * slots as u64,
        length: 0,
    })
}

/// Makes an instance of a class in the event that is so many events ahead of the machine's, 0 or 1, and tells of it; `None`, and
/// nothing is done, exactly where it doesn't fit. After `NoMemory` the machine may have one object more, to which nothing refers
/// and of which nothing is told.
#[inline(always)]
#[tactic(auto, using(crate::proofs::Making::fits_made))]
fn instance_in(
    program: &Program,
    machine: &mut Machine,
    thread: ThreadId,
    ahead: u64,
    class: ClassId,
    out: &mut Lines,
) -> Result<Option<ObjectId>, NoMemory>
    requires { 0 < ahead → machine.old.guest.clock + ahead < 2 ^ 64 }
    ensures made { IfOk result (λ made.
        MakesObject (instance_made (moment program.now machine.old thread) class
        (in_event (machine.old.guest.clock + ahead) machine.old))
        made machine.old machine.new out.old out.new) }
    ensures left { OnErr result (MayHaveMade
        (new_object class 0 (class_at program.now class).info.slots) machine.old machine.new) }
    ensures untold { OnErr result (out.new ≡ out.old) }
{
    let slots = slots_of(program, class);
    let object = match machine.heap.make_object(class, slots) {
        Ok(object) => object,
        Err(MakeFault::Full) => return Ok(None),
        Err(MakeFault::NoMemory) => return Err(NoMemory),
    };
    let event = machine.clock() + ahead;
    tell_instance(out, event, thread, object, class, slots)?;
    Ok(Some(object))
}

/// Makes an array of a class in the event that is so many events ahead of the machine's, 0 or 1, and tells of it; `None`, and
/// nothing is done, exactly where it doesn't fit. After `NoMemory` the machine may have one object more, to which nothing refers
/// and of which nothing is told.
#[inline(always)]
#[tactic(auto, using(crate::proofs::Making::fits_made))]
fn array_in(
    program: &Program,
    machine: &mut Machine,
    thread: ThreadId,
    ahead: u64,
    class: ClassId,
    elements: u32,
    out: &mut Lines,
) -> Result<Option<ObjectId>, NoMemory>
    requires { 0 < ahead → machine.old.guest.clock + ahead < 2 ^ 64 }
    ensures made { IfOk result (λ made.
        MakesObject (array_made (moment program.now machine.old thread) class elements
        (in_event (machine.old.guest.clock + ahead) machine.old))
        made machine.old machine.new out.old out.new) }
    ensures left { OnErr result
        (MayHaveMade (new_object class elements elements) machine.old machine.new) }
    ensures untold { OnErr result (out.new ≡ out.old) }
{
    let width = width_in(program, class);
    let object = match machine.heap.make_array(class, elements) {
        Ok(object) => object,
        Err(MakeFault::Full) => return Ok(None),
        Err(MakeFault::NoMemory) => return Err(NoMemory),
    };
    out.push(Record::Alloc {
        event: machine.clock() + ahead,
        thread: thread.number(),
        object: object.number(),
        class,
        size: array_size(elements, width),
        length: elements,
    })?;
    Ok(Some(object))
}

/// Makes an instance of a class in the event that comes next, and tells of it; `None`, and nothing is done, exactly where
/// it doesn't fit. After `NoMemory` the machine may have one object more, to which nothing refers and of which nothing is
/// told.
pub fn make_instance(
    program: &Program,
    machine: &mut Machine,
    thread: ThreadId,
    class: ClassId,
    out: &mut Lines,
) -> Result<Option<ObjectId>, NoMemory>
    requires clock { machine.old.guest.clock < 2 ^ 40 }
    ensures err { OnErr result (machine.new.guest ≡ machine.old.guest) }
    ensures made { IfOk result
        (λ made. MakesObject (instance_made (moment program.now machine.old thread) class (begins
        (moment program.now machine.old thread))) made machine.old machine.new out.old out.new) }
    ensures left { OnErr result (MayHaveMade
        (new_object class 0 (class_at program.now class).info.slots) machine.old machine.new) }
    ensures untold { OnErr result (out.new ≡ out.old) }
{
    instance_in(program, machine, thread, 1, class, out)
}

/// Makes an array of a class in the event that comes next, and tells of it; `None`, and nothing is done, exactly where it
/// doesn't fit. After `NoMemory` the machine may have one object more, to which nothing refers and of which nothing is told.
pub fn make_array(
    program: &Program,
    machine: &mut Machine,
    thread: ThreadId,
    class: ClassId,
    elements: u32,
    out: &mut Lines,
) -> Result<Option<ObjectId>, NoMemory>
    requires clock { machine.old.guest.clock < 2 ^ 40 }
    ensures err { OnErr result (machine.new.guest ≡ machine.old.guest) }
    ensures made { IfOk result (λ made.
        MakesObject (array_made (moment program.now machine.old thread) class elements (begins
        (moment program.now machine.old thread))) made machine.old machine.new out.old out.new) }
    ensures left { OnErr result
        (MayHaveMade (new_object class elements elements) machine.old machine.new) }
    ensures untold { OnErr result (out.new ≡ out.old) }
{
    array_in(program, machine, thread, 1, class, elements, out)
}

/// Makes an instance of a class in the event under way, and tells of it. It fits. After `NoMemory` the machine may have one
/// object more, to which nothing refers and of which nothing is told.
#[inline(always)]
pub fn add_instance(
    program: &Program,
    machine: &mut Machine,
    thread: ThreadId,
    class: ClassId,
    out: &mut Lines,
) -> Result<ObjectId, NoMemory>
    requires { has_room machine.old.heap 1 (class_at program.now class).info.slots ≡ true }
    ensures object { IfOk result (λ o. o ≡ length machine.old.heap) }
    ensures made { OnOk result (StandsAt
        (instance_made (moment program.now machine.old thread) class (so_far machine.old out.old))
        machine.old machine.new out.new) }
    ensures left { OnErr result (MayHaveMade
        (new_object class 0 (class_at program.now class).info.slots) machine.old machine.new) }
    ensures untold { OnErr result (out.new ≡ out.old) }
{
    match instance_in(program, machine, thread, 0, class, out)? {
        Some(object) => Ok(object),
        None => unreachable!(),
    }
}

/// Makes an array of a class in the event under way, and tells of it. It fits. After `NoMemory` the machine may have one
/// object more, to which nothing refers and of which nothing is told.
pub fn add_array(
    program: &Program,
    machine: &mut Machine,
    thread: ThreadId,
    class: ClassId,
    elements: u32,
    out: &mut Lines,
) -> Result<ObjectId, NoMemory>
    requires { has_room machine.old.heap 1 elements ≡ true }
    ensures object { IfOk result (λ o. o ≡ length machine.old.heap) }
    ensures made { OnOk result (StandsAt (array_made (moment program.now machine.old thread) class
        elements (so_far machine.old out.old)) machine.old machine.new out.new) }
    ensures left { OnErr result
        (MayHaveMade (new_object class elements elements) machine.old machine.new) }
    ensures untold { OnErr result (out.new ≡ out.old) }
{
    match array_in(program, machine, thread, 0, class, elements, out)? {
        Some(object) => Ok(object),
        None => unreachable!(),
    }
}

/// The number of a reference in a record; 0 is null.
fn number_of(value: Value) -> u32
    ensures { result ≡ number_of_value value }
{
    match value {
        Value::Ref(o) => o.number(),
        Value::Unset | Value::Int(_) | Value::Long(_) | Value::LongHigh | Value::Null => 0,
    }
}

/// Tells in the event of this number that a value is written over another one to a slot of an object, or to a static slot
/// where there is no object. Where the value is no reference there is nothing to tell. After `NoMemory` the records are as
/// before.
#[inline]
pub fn tell_update(
    out: &mut Lines,
    event: u64,
    thread: ThreadId,
    object: Option<ObjectId>,
    slot: u32,
    old: Value,
    value: Value,
) -> Result<(), NoMemory>
    ensures ok { OnOk result
        (TellsUpdate event thread (unwrap_or object 0) slot old value out.old out.new) }
    ensures err { OnErr result (out.new ≡ out.old) }
{
    match value {
        Value::Null | Value::Ref(_) => out.push(Record::Update {
            event,
            thread: thread.number(),
            object: object.map_or(0, ObjectId::number),
            slot,
            old: number_of(old),
            new: number_of(value),
        }),
        Value::Unset | Value::Int(_) | Value::Long(_) | Value::LongHigh => Ok(()),
    }
}
