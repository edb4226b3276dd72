//! What each thread but the first comes to: `run` of its Thread object (JVMS 5.4.3.3, 5.4.6).
ghost use Rattle.std.specs.Prelude.{◌≡◌, ◌+◌, ◌<◌, ◌≤◌, false, codes, Ok, length};
ghost use Rattle.et_program.specs.Resolution.{resolve_method};
ghost use Rattle.et_state.specs.Words.{thread_at};
ghost use Rattle.et_event.specs.Calls.{enters_run};
ghost use Rattle.et_event.specs.Errors.{class_called};
ghost use Rattle.et_event.specs.Moments.{moment};
ghost use Rattle.et_calls.specs.Asked.{MayBegin};
ghost use Rattle.et_calls.specs.EntryPlans.{IsEntryPlan, entry_planned};

use crate::entry::first::First;
use crate::entry::plans::EntryPlan;
use et_base::{MethodId, Steps, ThreadId};
use et_event::GuestError;
use et_program::Program;
use et_state::Machine;
use std::sync::ledger::Ledger;

/// The place of `run` of Thread among the methods of a program: those of the built-in classes come first, class by class.
const RUN: u32 = 10;

/// `run` of Thread, as it is resolved in each program.
fn thread_run(program: &Program) -> MethodId
    ensures value { resolve_method program.now
        (class_called program.now (codes "java/lang/Thread")) false (codes "run") (codes "()V")
        ≡ Ok result }
    ensures within { result < length program.now.methods }
{
    // A law: it tells the prover, and does nothing.
    program.is_linked();
    MethodId::new(RUN)
}

/// What a thread other than the first comes to: `run` is resolved in Thread, and selected by the class of its Thread object.
pub(crate) fn run_plan<'a, L: Ledger>(
    program: &Program,
    machine: &Machine,
    thread: ThreadId,
    visits: &mut Steps<L>,
) -> EntryPlan<'a>
    requires begins { MayBegin program.now machine.now thread }
    ensures plan { enters_run
        (moment program.now machine.now thread) (thread_at machine.now.guest thread).object
        ≡ entry_planned (moment program.now machine.now thread) result }
    ensures within { IsEntryPlan program.now machine.now thread result }
    ensures visits { visits.new ≤ visits.old + 1 }
{
    let Some(object) = machine.object_of(thread) else {
        return EntryPlan::IllTyped;
    };
    let method = thread_run(program);
    let class = machine.heap.class_of(object, visits);
    if !program.is_subclass(class, program.method(method).class) {
        return EntryPlan::IllTyped;
    }
    match program.select(class, method, false) {
        Ok(selected) => EntryPlan::Enters(First {
            method: selected,
            argument: Some(object),
            classes: &[],
        }),
        Err(error) => EntryPlan::Throws(GuestError::of(error)),
    }
}
