//! The constant of a static field (JVMS 4.7.2).
ghost use Rattle.std.specs.Prelude.{◌≡◌, ◌<◌, ◌^◌, true, IfOk, OnOk, length};
ghost use Rattle.et_base.specs.declared.value.Value.TheVariants.{Int, Long, Ref};
ghost use Rattle.et_state.specs.Words.{with_static};
ghost use Rattle.et_program.specs.Entries.{field_at};
ghost use Rattle.et_event.specs.Kinds.{narrowed_int};
ghost use Rattle.et_event.specs.Moments.{moment, fits_heap};
ghost use Rattle.et_event.specs.Sites.{AString, constant_at};
ghost use Rattle.et_event.specs.Strings.{interned, string_object};
ghost use Rattle.et_event.specs.Initialization.{constant_set, field_set};
ghost use Rattle.et_event.specs.Telling.{so_far, StandsAt};
ghost use Rattle.et_initialize.specs.Asked.{AreMade, MayWrite};

use et_base::{ClassId, FieldId, NoMemory, ObjectId, ThreadId, Value, to_byte, to_char, to_short};
use et_event::{add_instance, class_called, tell_update};
use et_pool::Pool;
use et_program::{BuiltInClass, FieldInfo, Program};
use et_state::{Lines, Machine};

/// What a field of this descriptor keeps of an int (JVMS 2.3.1).
fn narrowed(descriptor: &[u8], n: i32) -> i32
    ensures { result ≡ narrowed_int descriptor.now n }
{
    match descriptor.first() {
        Some(b'B' | b'Z') => to_byte(n),
        Some(b'S') => to_short(n),
        Some(b'C') => to_char(n),
        _ => n,
    }
}

/// The object of a string, made in the event under way where there is none yet. It fits.
fn string_of(
    program: &Program,
    machine: &mut Machine,
    thread: ThreadId,
    bytes: &[u8],
    out: &mut Lines,
) -> Result<ObjectId, NoMemory>
    requires short { length bytes.now < 2 ^ 16 }
    requires made { AreMade machine.old }
    requires fits { fits_heap (interned (moment program.now machine.old thread) bytes.now
        (so_far machine.old out.old)).state.heap ≡ true }
    ensures object { IfOk result (λ o. o ≡ string_object bytes.now
        (interned (moment program.now machine.old thread) bytes.now (so_far machine.old out.old))) }
    ensures made { OnOk result (StandsAt (interned (moment program.now machine.old thread)
        bytes.now
        (so_far machine.old out.old)) machine.old machine.new out.new) }
{
    match machine.interned(bytes) {
        Some(object) => Ok(object),
        None => {
            let class = class_called(program, BuiltInClass::String);
            let object = add_instance(program, machine, thread, class, out)?;
            machine.intern(bytes, object)?;
            Ok(object)
        }
    }
}

/// Writes a number to a static field to which nothing was written.
fn set_number(machine: &mut Machine, slot: u32, value: Value)
    requires { MayWrite machine.old slot }
    ensures { machine.new
        ≡ record machine.old { guest = with_static machine.old.guest slot value } }
{
    machine.set_static(slot, value);
}

/// Writes a string to a static field to which nothing was written.
fn set_string(
    program: &Program,
    machine: &mut Machine,
    thread: ThreadId,
    field: &FieldInfo,
    bytes: &[u8],
    out: &mut Lines,
) -> Result<(), NoMemory>
    requires short { length bytes.now < 2 ^ 16 }
    requires writes { MayWrite machine.old field.now.slot }
    requires fits { fits_heap (interned (moment program.now machine.old thread) bytes.now
        (so_far machine.old out.old)).state.heap ≡ true }
    ensures { OnOk result (StandsAt (constant_set (moment program.now machine.old thread)
        field.now
        (Some (AString bytes.now)) (so_far machine.old out.old)) machine.old machine.new out.new) }
{
    let object = string_of(program, machine, thread, bytes, out)?;
    let old = machine.set_static(field.slot, Value::Ref(object));
    let new = Value::Ref(object);
    tell_update(out, machine.clock(), thread, None, field.slot, old, new)
}

/// Sets a static field to the constant at its index of the pool.
fn set_constant(
    program: &Program,
    machine: &mut Machine,
    thread: ThreadId,
    pool: &Pool,
    field: &FieldInfo,
    out: &mut Lines,
) -> Result<(), NoMemory>
    requires writes { MayWrite machine.old field.now.slot }
    requires fits { fits_heap (constant_set (moment program.now machine.old thread) field.now
        (constant_at pool.now.slots field.now.constant) (so_far machine.old out.old)).state.heap
        ≡ true }
    ensures { OnOk result (StandsAt (constant_set (moment program.now machine.old thread)
        field.now
        (constant_at pool.now.slots field.now.constant)
        (so_far machine.old out.old)) machine.old machine.new out.new) }
{
    if let Some(n) = pool.integer(field.constant) {
        let kept = narrowed(field.descriptor.as_slice(), n);
        set_number(machine, field.slot, Value::Int(kept));
        return Ok(());
    }
    if let Some(n) = pool.long(field.constant) {
        set_number(machine, field.slot, Value::Long(n));
        return Ok(());
    }
    match pool.string(field.constant) {
        Some(bytes) => set_string(program, machine, thread, field, bytes, out),
        None => Ok(()),
    }
}

/// Sets a static field, to which nothing was written, to its constant.
pub(crate) fn set_field(
    program: &Program,
    machine: &mut Machine,
    thread: ThreadId,
    field: FieldId,
    out: &mut Lines,
) -> Result<(), NoMemory>
    requires field { field < length program.now.fields }
    requires writes { MayWrite machine.old (field_at program.now field).slot }
    requires fits { fits_heap (field_set (moment program.now machine.old thread)
        (so_far machine.old out.old) field).state.heap ≡ true }
    ensures { OnOk result (StandsAt (field_set (moment program.now machine.old thread)
        (so_far machine.old out.old) field) machine.old machine.new out.new) }
{
    let info = program.field(field);
    match program.pool(info.class) {
        Some(pool) => set_constant(program, machine, thread, pool, info, out),
        None => Ok(()),
    }
}
