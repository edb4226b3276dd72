//! The turn in which a thread without a frame is entered.
ghost use Rattle.std.specs.Prelude.{◌≡◌, ◌+◌, ◌<◌, ◌≤◌, ◌^◌, IfOk};
ghost use Rattle.et_state.specs.declared.stage.Turn.TheVariants as turns;
ghost use Rattle.et_state.specs.Threads.{turn_of};
ghost use Rattle.et_state.specs.State.{kept_of};
ghost use Rattle.et_state.specs.Words.{IsUnended, thread_at};
ghost use Rattle.et_event.specs.Answered.{EventAnswers};
ghost use Rattle.et_event.specs.Event.{event};
ghost use Rattle.et_event.specs.Sound.{IsSoundFor};
ghost use Rattle.et_event.specs.Programs.{HasBuiltInMethods};
ghost use Rattle.et_event.specs.InitializationOrder.{IsInOrder};

use crate::entry::first::enter_first;
use crate::entry::plans::{EntryPlan, entry_plan};
use crate::entry::throws::throw_first;
use et_base::{MethodId, NoMemory, Steps, ThreadId};
use et_event::wait_event;
use et_initialize::begin_class_event;
use et_program::Program;
use et_state::{EventEnd, Lines, Machine};
use std::alloc::Global;
use std::sync::ledger::Ledger;

/// The event of a thread without a frame that is entered (JVMS 5.2, 5.5, 2.6): thread 0 enters `main`, and each other thread
/// calls `run` on its Thread object. After `NoMemory` the event may be half done, and the machine is not to be used.
pub fn entry_event<L: Ledger>(
    alloc: Global,
    program: &Program,
    machine: &mut Machine,
    thread: ThreadId,
    out: &mut Lines,
    visits: &mut Steps<L>,
) -> Result<EventEnd, NoMemory>
    requires sound { IsSoundFor program.now (kept_of machine.old) }
    requires clock { machine.old.guest.clock < 2 ^ 40 }
    requires thread { IsUnended machine.old.guest thread }
    requires turn { turn_of (thread_at machine.old.guest thread) ≡ turns.Entry }
    requires order { IsInOrder program.now }
    requires methods { HasBuiltInMethods program.now }
    ensures ok { IfOk result (λ end. EventAnswers (event program.now
        (kept_of machine.old) thread) end machine.old machine.new out.old out.new) }
    ensures visits { visits.new ≤ visits.old + 6 }
{
    match entry_plan(program, machine, thread, visits) {
        EntryPlan::IllTyped => Ok(EventEnd::IllTyped {
            method: MethodId::new(0),
            pc: 0,
        }),
        EntryPlan::Throws(error) => throw_first(program, machine, thread, error, out),
        EntryPlan::Waits => Ok(wait_event(machine)),
        EntryPlan::Initializes(class) => {
            begin_class_event(alloc, program, machine, thread, class, out)
        }
        EntryPlan::Enters(first) => {
            enter_first(alloc, program, machine, thread, &first, out, visits)
        }
    }
}
