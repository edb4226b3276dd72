//! The event in which a thread ends.
ghost use Rattle.std.specs.Prelude.{◌≡◌, ◌+◌, ◌<◌, ◌^◌, List};
ghost use Rattle.et_state.specs.declared.stage.Turn.TheVariants as turns;
ghost use Rattle.et_state.specs.Threads.{turn_of};
ghost use Rattle.et_state.specs.State.{kept_of};
ghost use Rattle.et_state.specs.Words.{thread_at, IsUnended};
ghost use Rattle.et_state.specs.Sound.{IsSound};
ghost use Rattle.et_program.specs.Entries.{Linked};
ghost use Rattle.et_state.specs.declared.records.Record.{Record};
ghost use Rattle.et_event.specs.Answered.{EventAnswers};
ghost use Rattle.et_event.specs.Event.{event};
ghost use Rattle.et_event.specs.Sound.{IsSoundFor};

use et_base::ThreadId;
use et_state::{EventEnd, Machine};

/// The event of a thread whose turn is to end (JVMS 2.5.1, 2.5.2): what it left pending, its entry slot and its Thread object
/// are no roots any more. It answers what the table of events says, `Done`, and makes no record; what the machine keeps is a
/// sound state again. It takes no memory and visits no object.
pub(crate) fn end_event(machine: &mut Machine, thread: ThreadId) -> EventEnd
    requires sound { IsSound (kept_of machine.old) }
    requires clock { machine.old.guest.clock < 2 ^ 40 }
    requires thread { IsUnended machine.old.guest thread }
    requires turn { turn_of (thread_at machine.old.guest thread) ≡ turns.EndThread }
    ensures event { (p : Linked) (out : List Record) →
        EventAnswers (event p (kept_of machine.old) thread) result machine.old machine.new out out }
    ensures sound { (p : Linked) →
        IsSoundFor p (kept_of machine.old) → IsSoundFor p (kept_of machine.new) }
    ensures clock { machine.new.guest.clock ≡ machine.old.guest.clock + 1 }
{
    machine.begin_event();
    machine.end_thread(thread);
    EventEnd::Done
}
