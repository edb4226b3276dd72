//! What events answer.
ghost use Rattle.std.specs.Prelude.{◌≡◌, ℕ, ◌<◌, ◌^◌, List, unwrap_or};
ghost use Rattle.et_program.specs.Entries.{Linked};
ghost use Rattle.et_state.specs.State.{kept_of};
ghost use Rattle.et_state.specs.Sound.{IsSound};
ghost use Rattle.et_state.specs.declared.records.Record.{Record};
ghost use Rattle.et_event.specs.Answered.{EventAnswers};
ghost use Rattle.et_event.specs.Moments.{moment, waits};
ghost use Rattle.et_state.specs.Words.{HasFrame, top};
ghost use Rattle.et_state.specs.declared.ends.EventEnd.TheVariants as ends;

use et_base::{MethodId, ThreadId};
use et_state::{EventEnd, Machine};

/// What an event without meaning answers: the method and the pc of the topmost frame.
pub fn ill_typed(machine: &Machine, thread: ThreadId) -> EventEnd
    requires { HasFrame machine.now.guest thread }
    ensures { result ≡ ends.IllTyped
        (unwrap_or (top machine.now.guest thread).method 0) (top machine.now.guest thread).pc }
{
    let method = machine.frame_method(thread).unwrap_or(MethodId::new(0));
    EventEnd::IllTyped {
        method,
        pc: machine.pc(thread),
    }
}

/// The event of a thread that waits: nothing but the clock goes on. It answers `Waited`, takes no memory and visits no object.
pub fn wait_event(machine: &mut Machine) -> EventEnd
    requires sound { IsSound (kept_of machine.old) }
    requires clock { machine.old.guest.clock < 2 ^ 40 }
    ensures { (p : Linked) (t : ℕ) (out : List Record) →
        EventAnswers (waits (moment p machine.old t)) result machine.old machine.new out out }
{
    machine.begin_event();
    EventEnd::Waited
}
