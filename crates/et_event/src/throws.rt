//! What the machine itself throws.
ghost use Rattle.std.specs.Prelude.{◌≡◌, ◌<◌, ◌^◌, IfOk, OnErr};
ghost use Rattle.et_state.specs.State.{kept_of};
ghost use Rattle.et_state.specs.Words.{HasFrame};
ghost use Rattle.et_state.specs.Sound.{IsSound};
ghost use Rattle.et_event.specs.Answered.{EventAnswers};
ghost use Rattle.et_event.specs.Moments.{begins, throws, moment};

use crate::errors::GuestError;
use crate::objects::class_called;
use crate::telling::make_instance;
use et_base::{NoMemory, ThreadId};
use et_program::Program;
use et_state::{EventEnd, Lines, Machine};

/// The event of a thread with a frame in which the machine throws an error (JVMS 2.10): a new object of its class is pending
/// then, and the frame stays as it is. After `NoMemory` the machine may have one object more, to which nothing refers, and
/// there may be its record; all else is as before.
#[tactic(auto, using(crate::proofs::Throwing::thrown_by_name, crate::proofs::Throwing::unmade_by_name))]
pub fn throw_error(
    program: &Program,
    machine: &mut Machine,
    thread: ThreadId,
    error: GuestError,
    out: &mut Lines,
) -> Result<EventEnd, NoMemory>
    requires frame { HasFrame machine.old.guest thread }
    requires sound { IsSound (kept_of machine.old) }
    requires clock { machine.old.guest.clock < 2 ^ 40 }
    ensures ok { IfOk result
        (λ end. EventAnswers (throws (moment program.now machine.old thread) error (begins
        (moment program.now machine.old thread))) end machine.old machine.new out.old out.new) }
    ensures err { OnErr result (machine.new.guest ≡ machine.old.guest) }
{
    let class = class_called(program, error.class());
    let Some(object) = make_instance(program, machine, thread, class, out)? else {
        return Ok(EventEnd::ObjectLimit);
    };
    machine.begin_event();
    machine.throw(thread, object);
    Ok(EventEnd::Done)
}
