//! The event call of monitors, of the built-in methods of threads, weak references and their queues, and of the end of a thread.
ghost use Rattle.std.specs.Prelude.{◌≡◌, ◌+◌, ◌≤◌, ◌⊎◌, Some, IfOk, IsSome, OnErr};
ghost use Rattle.et_state.specs.declared.stage.Turn.TheVariants as turns;
ghost use Rattle.et_state.specs.State.{kept_of};
ghost use Rattle.et_state.specs.Words.{HasFrame, top};
ghost use Rattle.et_event.specs.declared.families.Family.TheVariants as families;
ghost use Rattle.et_event.specs.Answered.{EventAnswers};
ghost use Rattle.et_event.specs.Beginning.{BeginsEvent};
ghost use Rattle.et_event.specs.Event.{does, event};
ghost use Rattle.et_event.specs.Families.{family_of, family_of_row};
ghost use Rattle.et_event.specs.Moments.{moment};
ghost use Rattle.et_event.specs.Places.{IsPlace};
ghost use Rattle.et_event.specs.Selected.{deferred_at, deferred_call};

use crate::deferred::deferred_event;
use crate::ending::end_event;
use crate::monitoring::monitor_row_event;
use et_base::{NoMemory, Steps, ThreadId};
use et_event::{CallRow, Place, Row, ill_typed, place_of};
use et_program::Program;
use et_state::{EventEnd, Lines, Machine, Turn};
use std::alloc::Global;
use std::sync::ledger::Ledger;

/// The event of `monitorenter` or `monitorexit` at a place, or of a call of a deferred method.
fn place_event<L: Ledger>(
    program: &Program,
    machine: &mut Machine,
    thread: ThreadId,
    place: &Place<'_>,
    out: &mut Lines,
    visits: &mut Steps<L>,
) -> Result<EventEnd, NoMemory>
    requires begins { BeginsEvent program.now machine.old thread }
    requires frame { HasFrame machine.old.guest thread }
    requires place { IsPlace program.now (top machine.old.guest thread) place.now }
    requires turn { (family_of_row (Some place.now.row) ≡ families.Sync)
        ⊎ IsSome (deferred_at (moment program.now machine.old thread)
        place.now.site place.now.row) }
    ensures event { IfOk result (λ end. EventAnswers (does (moment program.now machine.old thread)
        place.now.site place.now.row) end machine.old machine.new out.old out.new) }
    ensures visits { visits.new ≤ visits.old + 5 }
    ensures err { family_of_row (Some place.now.row) ≡ families.Sync →
        OnErr result (machine.new.guest ≡ machine.old.guest) }
{
    match place.row {
        Row::Monitor(row) => {
            monitor_row_event(
                program,
                machine,
                thread,
                row,
                place.site.next(),
                out,
                visits,
            )
        }
        Row::Call(CallRow::Invoke(kind)) => {
            deferred_event(program, machine, thread, place, kind, out, visits)
        }
        Row::Call(CallRow::Return(_))
        | Row::Frame(_)
        | Row::PoolConstant
        | Row::Divide(_, _)
        | Row::Heap(_)
        | Row::Throw => unreachable!(),
    }
}

/// The event of a thread whose turn is `monitorenter` or `monitorexit` (JVMS 2.11.10, 6.5), to end (JVMS 2.5.1, 2.5.2), or a
/// call of a built-in method without code of Thread, Reference, WeakReference or ReferenceQueue, for which `calls_event`
/// answers `Native`. It answers what the table of events says: `Done`, and then the machine keeps the next state, to which a
/// legal step led, and the records of the event stand behind those that were there; `Waited`, and then only the clock has
/// gone on; or `IllTyped` or `ObjectLimit`, and then machine and records are as before. After `NoMemory` the machine may
/// have one object more, to which nothing refers, and there may be its record, and all else is as before; but a call may
/// then be half done, and machine and records may only be dropped.
#[tactic(auto, using(et_event::proofs::FamilyTurns::family_at))]
pub fn sync_event<L: Ledger>(
    _alloc: Global,
    program: &Program,
    machine: &mut Machine,
    thread: ThreadId,
    out: &mut Lines,
    visits: &mut Steps<L>,
) -> Result<EventEnd, NoMemory>
    requires begins { BeginsEvent program.now machine.old thread }
    requires turn { (family_of program.now (kept_of machine.old) thread ≡ families.Sync)
        ⊎ IsSome (deferred_call program.now (kept_of machine.old) thread) }
    ensures event { IfOk result (λ end. EventAnswers (event program.now
        (kept_of machine.old) thread) end machine.old machine.new out.old out.new) }
    ensures visits { visits.new ≤ visits.old + 5 }
    ensures err { family_of program.now (kept_of machine.old) thread ≡ families.Sync →
        OnErr result (machine.new.guest ≡ machine.old.guest) }
{
    match machine.turn(thread) {
        Turn::EndThread => Ok(end_event(machine, thread)),
        Turn::Instruction => match place_of(program, machine, thread) {
            Some(place) => place_event(program, machine, thread, &place, out, visits),
            None => Ok(ill_typed(machine, thread)),
        },
        Turn::Unwind | Turn::Entry | Turn::Initialize => unreachable!(),
    }
}
