//! What a thread without a frame comes to as it is entered, found out without a change.
ghost use Rattle.std.specs.Prelude.{◌≡◌, ◌+◌, ◌≤◌};
ghost use Rattle.et_event.specs.Calls.{entry_call};
ghost use Rattle.et_event.specs.Moments.{moment};
ghost use Rattle.et_calls.specs.Asked.{MayBegin};
ghost use Rattle.et_calls.specs.EntryPlans.{IsEntryPlan, entry_planned};

use crate::entry::first::First;
use crate::entry::mains::main_plan;
use crate::entry::runs::run_plan;
use et_base::{ClassId, Steps, ThreadId};
use et_event::GuestError;
use et_program::Program;
use et_state::Machine;
use std::sync::ledger::Ledger;

/// What a thread comes to as it is entered.
#[derive(Clone, Copy)]
pub(crate) enum EntryPlan<'a> {
    /// It has no meaning.
    IllTyped,
    /// An error is thrown.
    Throws(GuestError),
    /// Another thread initializes the class of `main`, and the thread waits.
    Waits,
    /// The class of `main` is untouched, and is initialized first.
    Initializes(ClassId),
    /// A method is entered.
    Enters(First<'a>),
}

/// What a thread comes to: thread 0 enters `main`, and each other thread calls `run` on its Thread object.
pub(crate) fn entry_plan<'a, L: Ledger>(
    program: &'a Program,
    machine: &Machine,
    thread: ThreadId,
    visits: &mut Steps<L>,
) -> EntryPlan<'a>
    requires begins { MayBegin program.now machine.now thread }
    ensures plan { entry_call (moment program.now machine.now thread)
        ≡ entry_planned (moment program.now machine.now thread) result }
    ensures within { IsEntryPlan program.now machine.now thread result }
    ensures visits { visits.new ≤ visits.old + 1 }
{
    if thread.number() == 0 {
        main_plan(program, machine, thread)
    } else {
        run_plan(program, machine, thread, visits)
    }
}
