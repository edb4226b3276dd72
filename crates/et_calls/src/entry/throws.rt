//! What the machine throws where a thread without a frame was to be entered.
ghost use Rattle.std.specs.Prelude.{◌<◌, ◌^◌, IfOk};
ghost use Rattle.et_state.specs.State.{kept_of};
ghost use Rattle.et_state.specs.Sound.{IsSound};
ghost use Rattle.et_event.specs.Answered.{EventAnswers};
ghost use Rattle.et_event.specs.Moments.{moment, begins, throws};
ghost use Rattle.et_calls.specs.Fresh.{IsFresh};

use et_base::{NoMemory, ThreadId};
use et_event::{GuestError, class_called, make_instance};
use et_program::Program;
use et_state::{EventEnd, Lines, Machine};

/// The event of a thread without a frame in which the machine throws an error (JVMS 2.10): a new object of its class is
/// pending then, and the thread counts as entered. After `NoMemory` the machine may have one object more, to which nothing
/// refers, and there may be its record.
pub(crate) fn throw_first(
    program: &Program,
    machine: &mut Machine,
    thread: ThreadId,
    error: GuestError,
    out: &mut Lines,
) -> Result<EventEnd, NoMemory>
    requires fresh { IsFresh machine.old.guest thread }
    requires sound { IsSound (kept_of machine.old) }
    requires clock { machine.old.guest.clock < 2 ^ 40 }
    ensures { IfOk result
        (λ end. EventAnswers (throws (moment program.now machine.old thread) error (begins
        (moment program.now machine.old thread))) end machine.old machine.new out.old out.new) }
{
    let class = class_called(program, error.class());
    let Some(object) = make_instance(program, machine, thread, class, out)? else {
        return Ok(EventEnd::ObjectLimit);
    };
    machine.begin_event();
    machine.set_entered(thread);
    machine.throw(thread, object);
    Ok(EventEnd::Done)
}
