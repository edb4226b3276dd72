//! What thread 0 comes to: `main`, whose class is initialized first (JVMS 5.2, 5.5).
ghost use Rattle.std.specs.Prelude.{◌≡◌};
ghost use Rattle.et_event.specs.Calls.{enters_main};
ghost use Rattle.et_event.specs.Moments.{moment};
ghost use Rattle.et_calls.specs.Asked.{MayBegin};
ghost use Rattle.et_calls.specs.EntryPlans.{IsEntryPlan, entry_planned};

use crate::entry::first::First;
use crate::entry::plans::EntryPlan;
use et_base::ThreadId;
use et_event::GuestError;
use et_initialize::{Need, need_of};
use et_program::Program;
use et_state::Machine;
use std::slice;

/// What thread 0 comes to: where the class of `main` is done, begun by this thread or quiet, `main` is entered, and else what
/// the initialization of the class asks for is done.
pub(crate) fn main_plan<'a>(
    program: &'a Program,
    machine: &Machine,
    thread: ThreadId,
) -> EntryPlan<'a>
    requires begins { MayBegin program.now machine.now thread }
    ensures plan { enters_main (moment program.now machine.now thread)
        ≡ entry_planned (moment program.now machine.now thread) result }
    ensures within { IsEntryPlan program.now machine.now thread result }
{
    let method = program.main();
    let argument = machine.entry_slot(thread);
    let class = &program.method(method).class;
    match need_of(program, machine, thread, *class) {
        Need::Ready => EntryPlan::Enters(First {
            method,
            argument,
            classes: &[],
        }),
        Need::Quiet => EntryPlan::Enters(First {
            method,
            argument,
            classes: slice::from_ref(class),
        }),
        Need::Begins => EntryPlan::Initializes(*class),
        Need::Failed => EntryPlan::Throws(GuestError::NoClassDefFoundError),
        Need::Waits => EntryPlan::Waits,
    }
}
