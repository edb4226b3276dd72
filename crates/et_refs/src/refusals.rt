//! Why an event does nothing but throw, or has no meaning.
ghost use Rattle.std.specs.Prelude.{◌≡◌, IfOk, OnErr};
ghost use Rattle.et_event.specs.Answered.{EventAnswers};
ghost use Rattle.et_event.specs.Moments.{moment};
ghost use Rattle.et_refs.specs.Asked.{MayStep};
ghost use Rattle.et_refs.specs.Refusals.{refusal_outcome};

use et_base::{NoMemory, ThreadId};
use et_event::{GuestError, ill_typed, throw_error};
use et_program::Program;
use et_state::{EventEnd, Lines, Machine};

/// What the first check says that refuses.
#[derive(Clone, Copy)]
pub enum Refusal {
    /// The event has no meaning.
    IllTyped,
    /// The machine throws this.
    Throws(GuestError),
}

/// The event that a check refused. After `NoMemory` the machine may have one object more, to which nothing refers, and there
/// may be its record; all else is as before.
pub fn refuse(
    program: &Program,
    machine: &mut Machine,
    thread: ThreadId,
    refusal: Refusal,
    out: &mut Lines,
) -> Result<EventEnd, NoMemory>
    requires step { MayStep machine.old thread }
    ensures ok { IfOk result (λ end. EventAnswers
        (refusal_outcome (moment program.now machine.old thread) refusal)
        end machine.old machine.new out.old out.new) }
    ensures err { OnErr result (machine.new.guest ≡ machine.old.guest) }
{
    match refusal {
        Refusal::IllTyped => Ok(ill_typed(machine, thread)),
        Refusal::Throws(error) => throw_error(program, machine, thread, error, out),
    }
}
