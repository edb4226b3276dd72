//! The rows of calls and returns (JVMS 2.11.8, 5.5).
ghost use Rattle.std.specs.Prelude.{◌≡◌, ℕ, ◌+◌, ◌<◌, ◌≤◌, ◌^◌, Some, IfOk, IsSome, length};
ghost use Rattle.et_state.specs.declared.stage.Turn.TheVariants as turns;
ghost use Rattle.et_state.specs.Threads.{turn_of};
ghost use Rattle.et_state.specs.State.{kept_of};
ghost use Rattle.et_state.specs.Words.{thread_at, top};
ghost use Rattle.et_event.specs.Places.{IsPlace};
ghost use Rattle.et_event.specs.declared.families.Family.TheVariants as families;
ghost use Rattle.et_event.specs.Answered.{EventAnswers};
ghost use Rattle.et_event.specs.Event.{does};
ghost use Rattle.et_event.specs.Families.{family_of_row};
ghost use Rattle.et_event.specs.Moments.{moment};
ghost use Rattle.et_event.specs.Sites.{Site};
ghost use Rattle.et_event.specs.Sound.{IsSoundFor};
ghost use Rattle.et_event.specs.Programs.{HasMachineSlots, HasBuiltInMethods};
ghost use Rattle.et_event.specs.Selected.{deferred_at};
ghost use Rattle.et_event.specs.Answered.{DefersOrAnswers};
ghost use Rattle.et_calls.specs.Asked.{MayInvoke};
ghost use Rattle.et_builtins.specs.Plans.{IsCallPlan, call_planned as event_of};
ghost use Rattle.et_event.specs.InitializationOrder.{IsInOrder};

use crate::called::{enter_event, initialize_event};
use crate::returns::return_event;
use et_base::{NoMemory, Steps, ThreadId};
use et_builtins::{Call, CallPlan, deferred_method, invoke_plan};
use et_event::{CallRow, Place, Row, ill_typed, throw_error, wait_event};
use et_program::Program;
use et_state::{EventEnd, Lines, Machine};
use std::alloc::Global;
use std::sync::ledger::Ledger;

/// What an invoke comes to, and the pc behind it.
#[derive(Clone, Copy)]
struct Planned {
    plan: CallPlan,
    next: u32,
}

/// The event of a plan. After `NoMemory` the event may be half done.
fn plan_event<L: Ledger>(
    alloc: Global,
    program: &Program,
    machine: &mut Machine,
    thread: ThreadId,
    planned: Planned,
    out: &mut Lines,
    visits: &mut Steps<L>,
) -> Result<EventEnd, NoMemory>
    requires invoke { MayInvoke program.now machine.old thread }
    requires plan { IsCallPlan (moment program.now machine.old thread) planned.plan }
    ensures ok { IfOk result (λ end. (at : Site) →
        at.next ≡ planned.next → EventAnswers (event_of (moment program.now machine.old thread)
        at planned.plan) end machine.old machine.new out.old out.new) }
    ensures visits { visits.new ≤ visits.old + 3 }
{
    let Planned { plan, next } = planned;
    match plan {
        CallPlan::IllTyped => Ok(ill_typed(machine, thread)),
        CallPlan::Throws(error) => throw_error(program, machine, thread, error, out),
        CallPlan::Waits => Ok(wait_event(machine)),
        CallPlan::Initializes { method, count } => {
            let call = Call {
                method,
                count,
                next,
            };
            initialize_event(alloc, program, machine, thread, call, out, visits)
        }
        CallPlan::Enters { method, count } => {
            let call = Call {
                method,
                count,
                next,
            };
            enter_event(alloc, program, machine, thread, call, out, visits)
        }
    }
}

/// The event of an invoke or a return at the place where a thread stands (JVMS 2.11.8, 5.5, 6.5 invokevirtual,
/// invokespecial, invokestatic, invokeinterface, ireturn, lreturn, areturn, return). It answers what the table of events
/// says. Where a static method is called whose class is untouched, the class begins, or a quiet one becomes done and the
/// method is called in the same event. Where a built-in method of threads, weak references, queues or texts is selected it
/// answers `Native`, with nothing changed. After `NoMemory` the event may be half done, and machine and records may only be dropped.
pub fn call_event<L: Ledger>(
    alloc: Global,
    program: &Program,
    machine: &mut Machine,
    thread: ThreadId,
    place: &Place<'_>,
    out: &mut Lines,
    visits: &mut Steps<L>,
) -> Result<EventEnd, NoMemory>
    requires turn { turn_of (thread_at machine.old.guest thread) ≡ turns.Instruction }
    requires sound { IsSoundFor program.now (kept_of machine.old) }
    requires clock { machine.old.guest.clock < 2 ^ 40 }
    requires slots { HasMachineSlots program.now }
    requires order { IsInOrder program.now }
    requires methods { HasBuiltInMethods program.now }
    requires place { IsPlace program.now (top machine.old.guest thread) place.now }
    requires family { family_of_row (Some place.now.row) ≡ families.Calls }
    ensures ok { IfOk result (λ end. DefersOrAnswers
        (deferred_at (moment program.now machine.old thread) place.now.site place.now.row)
        (does (moment program.now machine.old thread) place.now.site place.now.row)
        end machine.old machine.new out.old out.new) }
    ensures within { IfOk result (λ end. (method : ℕ) → end ≡ EventEnd.Native method →
        method < length program.now.methods) }
    ensures visits { visits.new ≤ visits.old + 5 }
    ensures deferred { IsSome
        (deferred_at (moment program.now machine.old thread) place.now.site place.now.row)
        → visits.new ≤ visits.old + 2 }
{
    match place.row {
        Row::Call(CallRow::Invoke(kind)) => {
            let planned = Planned {
                plan: invoke_plan(program, machine, thread, place, kind, visits),
                next: place.site.next(),
            };
            if let Some(method) = deferred_method(program, planned.plan) {
                return Ok(EventEnd::Native { method });
            }
            plan_event(alloc, program, machine, thread, planned, out, visits)
        }
        Row::Call(CallRow::Return(kind)) => {
            return_event(program, machine, thread, kind, out, visits)
        }
        Row::Frame(_)
        | Row::PoolConstant
        | Row::Divide(_, _)
        | Row::Heap(_)
        | Row::Throw
        | Row::Monitor(_) => unreachable!(),
    }
}
