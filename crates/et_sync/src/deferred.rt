//! The calls of built-in methods of threads, of weak references and of their queues (`java.lang.Thread`, `java.lang.ref`).
ghost use Rattle.std.specs.Prelude.{◌≡◌, ◌+◌, ◌≤◌, IfOk, IsSome};
ghost use Rattle.et_state.specs.Words.{HasFrame, top};
ghost use Rattle.et_event.specs.declared.rows.CallRow.TheVariants as calls;
ghost use Rattle.et_event.specs.declared.rows.Row.TheVariants as rows;
ghost use Rattle.et_event.specs.Answered.{EventAnswers};
ghost use Rattle.et_event.specs.Beginning.{BeginsEvent};
ghost use Rattle.et_event.specs.Calls.{invoke};
ghost use Rattle.et_event.specs.Moments.{moment};
ghost use Rattle.et_event.specs.Places.{IsPlace};
ghost use Rattle.et_event.specs.Selected.{deferred_at};

use et_base::{NoMemory, Steps, ThreadId};
use et_builtins::{Call, CallPlan, built_in_method_event, invoke_plan};
use et_event::{CallKind, Place};
use et_program::Program;
use et_state::{EventEnd, Lines, Machine};
use std::sync::ledger::Ledger;

/// The event of an invoke at a place that selects a built-in method without code of threads, of weak references or of their
/// queues. After `NoMemory` the event may be half done, and machine and records may only be dropped.
pub(crate) fn deferred_event<L: Ledger>(
    program: &Program,
    machine: &mut Machine,
    thread: ThreadId,
    place: &Place<'_>,
    kind: CallKind,
    out: &mut Lines,
    visits: &mut Steps<L>,
) -> Result<EventEnd, NoMemory>
    requires begins { BeginsEvent program.now machine.old thread }
    requires frame { HasFrame machine.old.guest thread }
    requires place { IsPlace program.now (top machine.old.guest thread) place.now }
    requires row { place.now.row ≡ rows.Call (calls.Invoke kind) }
    requires deferred { IsSome (deferred_at (moment program.now machine.old thread)
        place.now.site (rows.Call (calls.Invoke kind))) }
    ensures event { IfOk result (λ end. EventAnswers (invoke (moment program.now machine.old thread)
        place.now.site kind) end machine.old machine.new out.old out.new) }
    ensures visits { visits.new ≤ visits.old + 5 }
{
    match invoke_plan(program, machine, thread, place, kind, visits) {
        CallPlan::Enters { method, count } => {
            let call = Call {
                method,
                count,
                next: place.site.next(),
            };
            built_in_method_event(program, machine, thread, call, out, visits)
        }
        CallPlan::IllTyped | CallPlan::Throws(_) | CallPlan::Waits | CallPlan::Initializes { .. } =>
            unreachable!(),
    }
}
