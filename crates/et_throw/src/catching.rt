//! The event in which a handler is entered.
ghost use Rattle.std.specs.Prelude.{◌≡◌, ◌<◌, ◌^◌, List, Some, length};
ghost use Rattle.et_state.specs.State.{kept_of};
ghost use Rattle.et_state.specs.Words.{HasFrame, thread_at, top};
ghost use Rattle.et_state.specs.Sound.{IsSound};
ghost use Rattle.et_state.specs.Moves.{Led};
ghost use Rattle.et_program.specs.Entries.{Linked};
ghost use Rattle.et_state.specs.declared.records.Record.{Record};
ghost use Rattle.et_event.specs.Answered.{EventAnswers};
ghost use Rattle.et_event.specs.Throw.{caught};
ghost use Rattle.et_event.specs.Moments.{moment};
ghost use Rattle.et_throw.specs.Unwinding.{handled_state};

use et_base::{ObjectId, ThreadId, Value};
use et_event::ill_typed;
use et_state::{EventEnd, Machine};

/// The operands give way to an exception, which is pending no longer, and the pc is that of its handler.
fn enter_handler(machine: &mut Machine, thread: ThreadId, exception: ObjectId, handler: u32)
    requires frame { HasFrame machine.old.guest thread }
    requires sound { IsSound (kept_of machine.old) }
    requires clock { machine.old.guest.clock < 2 ^ 40 }
    requires small { length (top machine.old.guest thread).operands < 2 ^ 17 }
    requires room { 0 < (top machine.old.guest thread).room }
    requires pending { (thread_at machine.old.guest thread).pending ≡ Some exception }
    ensures { Led
        (kept_of machine.old) (handled_state machine.old thread exception handler) machine.new }
{
    machine.begin_event();
    machine.clear_operands(thread);
    machine.push(thread, Value::Ref(exception));
    machine.set_pc(thread, handler);
    machine.take_pending(thread);
}

/// The event in which the handler at a pc catches the exception that is pending: the operands give way to it. It has no
/// meaning where it doesn't fit.
pub(crate) fn catch_event(
    machine: &mut Machine,
    thread: ThreadId,
    exception: ObjectId,
    handler: u32,
) -> EventEnd
    requires frame { HasFrame machine.old.guest thread }
    requires sound { IsSound (kept_of machine.old) }
    requires clock { machine.old.guest.clock < 2 ^ 40 }
    requires small { length (top machine.old.guest thread).operands < 2 ^ 17 }
    requires pending { (thread_at machine.old.guest thread).pending ≡ Some exception }
    ensures { (p : Linked) (out : List Record) → EventAnswers (caught
        (moment p machine.old thread) exception handler) result machine.old machine.new out out }
{
    if machine.room(thread) == 0 {
        return ill_typed(machine, thread);
    }
    enter_handler(machine, thread, exception, handler);
    EventEnd::Done
}
