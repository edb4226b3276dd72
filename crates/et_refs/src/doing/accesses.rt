//! What an event does once the class that it needs is initialized.
ghost use Rattle.std.specs.Prelude.{◌≡◌, ◌+◌, ◌*◌, ◌<◌, ◌≤◌, ◌++◌, ◌∷◌, [], length, OnOk};
ghost use Rattle.et_state.specs.Threads.{lost_room};
ghost use Rattle.et_state.specs.Words.{HasFrame, top, static_at};
ghost use Rattle.et_program.specs.Entries.{class_at};
ghost use Rattle.et_state.specs.declared.records.Record.TheVariants.{Alloc};
ghost use Rattle.et_event.specs.Telling.{TellsUpdate};
ghost use Rattle.et_refs.specs.Accesses.{CanRead, CanWrite, CanMake, CanAccess, Accesses, replaces, reads, access_written, makes, objects_in, slots_accessed};

use crate::doing::changes::replace_top;
use crate::types::kinds::or_zero;
use et_base::{ClassId, NoMemory, ThreadId, Value};
use et_event::{Operand, add_instance, slots_of, take, tell_update};
use et_program::Program;
use et_state::{Lines, Machine};

/// The value of a static slot is put on top, 0 or null of its kind where nothing was written to it.
#[derive(Clone, Copy)]
pub struct Read {
    pub slot: u32,
    pub kind: Option<Operand>,
}

/// So many operands are taken, and a value is written to a static slot.
#[derive(Clone, Copy)]
pub struct Write {
    pub slot: u32,
    pub taken: u32,
    pub value: Value,
}

/// What an event does with a class.
#[derive(Clone, Copy)]
pub enum Access {
    Read(Read),
    Write(Write),
    /// An instance is made, and put on top.
    Make,
}

/// A class that is to be initialized, and what the event does then.
#[derive(Clone, Copy)]
pub struct Wanted {
    pub class: ClassId,
    pub access: Access,
}

/// How many objects an access makes.
pub(crate) fn objects_made(wanted: &Wanted) -> u32
    ensures { result ≡ objects_in wanted.now.access }
{
    match wanted.access {
        Access::Read(_) | Access::Write(_) => 0,
        Access::Make => 1,
    }
}

/// How many slots they have.
pub(crate) fn slots_made(program: &Program, wanted: &Wanted) -> u32
    requires { wanted.now.class < length program.now.classes }
    ensures { result ≡ slots_accessed program.now wanted.now.class wanted.now.access }
{
    match wanted.access {
        Access::Read(_) | Access::Write(_) => 0,
        Access::Make => slots_of(program, wanted.class),
    }
}

/// In the event under way, the value of a static slot is put on top.
fn read_static(machine: &mut Machine, thread: ThreadId, next: u32, x: Read)
    requires frame { HasFrame machine.old.guest thread }
    requires lost { length machine.old.lost + 3 ≤ lost_room }
    requires can { CanRead machine.old (top machine.old.guest thread) x }
    ensures { machine.new ≡ reads thread next x machine.old }
{
    let value = or_zero(x.kind, machine.static_slot(x.slot));
    replace_top(machine, thread, 0, value, next);
}

/// In the event under way, so many operands are taken and the pc is set.
fn leave(machine: &mut Machine, thread: ThreadId, next: u32, taken: u32)
    requires frame { HasFrame machine.old.guest thread }
    requires operands { taken ≤ length (top machine.old.guest thread).operands }
    requires lost { length machine.old.lost + taken ≤ lost_room }
    ensures machine { machine.new ≡ replaces thread next taken [] machine.old }
    ensures lost { length machine.new.lost ≤ length machine.old.lost + taken }
{
    take(machine, thread, taken);
    machine.set_pc(thread, next);
}

/// In the event under way, operands are taken and a static slot is written.
fn write_static(
    machine: &mut Machine,
    thread: ThreadId,
    next: u32,
    x: Write,
    out: &mut Lines,
) -> Result<(), NoMemory>
    requires frame { HasFrame machine.old.guest thread }
    requires lost { length machine.old.lost + 3 ≤ lost_room }
    requires can { CanWrite machine.old (top machine.old.guest thread) x }
    ensures machine { OnOk result (machine.new ≡ access_written thread next x machine.old) }
    ensures told { OnOk result (TellsUpdate machine.old.guest.clock thread 0 x.slot
        (static_at machine.old.guest x.slot) x.value out.old out.new) }
{
    leave(machine, thread, next, x.taken);
    let old = machine.set_static(x.slot, x.value);
    tell_update(out, machine.clock(), thread, None, x.slot, old, x.value)
}

/// In the event under way, an instance of a class is made and put on top.
fn make_instance(
    program: &Program,
    machine: &mut Machine,
    thread: ThreadId,
    next: u32,
    class: ClassId,
    out: &mut Lines,
) -> Result<(), NoMemory>
    requires frame { HasFrame machine.old.guest thread }
    requires lost { length machine.old.lost + 3 ≤ lost_room }
    requires class { class < length program.now.classes }
    requires can { CanMake program.now machine.old (top machine.old.guest thread) class }
    ensures machine { OnOk result (machine.new ≡ makes program.now thread next class machine.old) }
    ensures told { OnOk result (out.new ≡ out.old ++ Alloc machine.old.guest.clock thread
        (length machine.old.heap) class (16 + 8 * (class_at program.now class).info.slots) 0 ∷ []) }
{
    let object = add_instance(program, machine, thread, class, out)?;
    replace_top(machine, thread, 0, Value::Ref(object), next);
    Ok(())
}

/// In the event under way, once its class is initialized, an access is done. All fits.
pub(crate) fn carry_out(
    program: &Program,
    machine: &mut Machine,
    thread: ThreadId,
    next: u32,
    wanted: &Wanted,
    out: &mut Lines,
) -> Result<(), NoMemory>
    requires frame { HasFrame machine.old.guest thread }
    requires lost { length machine.old.lost + 3 ≤ lost_room }
    requires class { wanted.now.class < length program.now.classes }
    requires can { CanAccess program.now machine.old
        (top machine.old.guest thread) wanted.now.class wanted.now.access }
    ensures { OnOk result (Accesses program.now thread
        next wanted.now.class wanted.now.access machine.old machine.new out.old out.new) }
{
    match wanted.access {
        Access::Read(x) => {
            read_static(machine, thread, next, x);
            Ok(())
        }
        Access::Write(x) => write_static(machine, thread, next, x, out),
        Access::Make => make_instance(program, machine, thread, next, wanted.class, out),
    }
}
