//! The records of unwinding.
ghost use Rattle.std.specs.Prelude.{◌≡◌, ◌+◌, ◌*◌, ◌<◌, ◌^◌, ◌∷◌, ◌++◌, [], OnOk, unwrap_or};
ghost use Rattle.et_state.specs.Words.{HasFrame, top};
ghost use Rattle.et_state.specs.declared.records.Record.TheVariants.{Alloc, Update, Unwind};
ghost use Rattle.et_throw.specs.Unwinding.{unwind_records};

use et_base::{ClassId, MethodId, NoMemory, ObjectId, ThreadId, Value};
use et_event::{tell_instance, tell_update};
use et_state::{Lines, Machine, Record};

/// The record of a frame that the next event leaves by an exception.
pub(crate) fn unwind_record(machine: &Machine, thread: ThreadId, exception: ObjectId) -> Record
    requires frame { HasFrame machine.now.guest thread }
    requires clock { machine.now.guest.clock < 2 ^ 40 }
    ensures { result ≡ Unwind (machine.now.guest.clock + 1) thread
        (unwrap_or (top machine.now.guest thread).method 0) exception }
{
    Record::Unwind {
        event: machine.clock() + 1,
        thread: thread.number(),
        method: machine.frame_method(thread).unwrap_or(MethodId::new(0)),
        exception: exception.number(),
    }
}

/// Tells that the next event leaves a frame by an exception, where it does tell that.
pub(crate) fn tell_unwind(
    machine: &Machine,
    thread: ThreadId,
    exception: ObjectId,
    tells: bool,
    out: &mut Lines,
) -> Result<(), NoMemory>
    requires frame { HasFrame machine.now.guest thread }
    requires clock { machine.now.guest.clock < 2 ^ 40 }
    ensures { OnOk result (out.new ≡ out.old ++ unwind_records machine.now thread tells exception) }
{
    if tells {
        out.push(unwind_record(machine, thread, exception))?;
    }
    Ok(())
}

/// Tells of an object of a class that the next event has made, and of its cause.
pub(crate) fn tell_error(
    machine: &Machine,
    thread: ThreadId,
    error: ObjectId,
    class: ClassId,
    slots: u32,
    cause: ObjectId,
    out: &mut Lines,
) -> Result<(), NoMemory>
    requires { machine.now.guest.clock < 2 ^ 40 }
    ensures { OnOk result
        (out.new ≡ out.old ++ (Alloc (machine.now.guest.clock + 1) thread error class
        (16 + 8 * slots) 0 ∷ Update (machine.now.guest.clock + 1) thread error 1 0 cause ∷ [])) }
{
    let event = machine.clock() + 1;
    tell_instance(out, event, thread, error, class, slots)?;
    tell_update(
        out,
        event,
        thread,
        Some(error),
        1,
        Value::Null,
        Value::Ref(cause),
    )
}
