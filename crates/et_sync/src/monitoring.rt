//! `monitorenter` and `monitorexit`.
ghost use Rattle.std.specs.Prelude.{◌≡◌, ◌+◌, ◌<◌, ◌≤◌, ◌^◌, List, IfOk, OnErr, length};
ghost use Rattle.et_state.specs.State.{kept_of};
ghost use Rattle.et_state.specs.Words.{HasFrame, top};
ghost use Rattle.et_state.specs.declared.records.Record.{Record};
ghost use Rattle.et_event.specs.Answered.{EventAnswers};
ghost use Rattle.et_event.specs.Sites.{Site};
ghost use Rattle.et_event.specs.Sound.{IsSoundFor};
ghost use Rattle.et_event.specs.Sync.{monitor_event};
ghost use Rattle.et_event.specs.declared.rows.MonitorRow.TheVariants as rows;
ghost use Rattle.et_event.specs.Moments.{moment};
ghost use Rattle.et_sync.specs.Monitoring.{MayLock, gone_past};

use et_base::{NoMemory, ObjectId, Steps, ThreadId};
use et_event::{
    GuestError, Lock, MonitorRow, enter_monitor, ill_typed, leave_monitor, may_enter, owns,
    reference_at, throw_error, wait_event,
};
use et_program::Program;
use et_state::{EventEnd, Lines, Machine};
use std::sync::ledger::Ledger;

/// An event begins, in which the operand on top is taken and the frame goes on at the pc `next`.
fn begin_past(machine: &mut Machine, thread: ThreadId, next: u32)
    requires frame { HasFrame machine.old.guest thread }
    requires clock { machine.old.guest.clock < 2 ^ 40 }
    requires operand { 0 < length (top machine.old.guest thread).operands }
    ensures { machine.new ≡ gone_past thread next machine.old }
{
    machine.begin_event();
    machine.pop(thread);
    machine.set_pc(thread, next);
}

/// `monitorenter` of an object, which waits for another owner.
#[tactic(auto, using(crate::proofs::Monitored::operand_there_is, crate::proofs::Monitored::object_few, crate::proofs::Monitored::entered_answers, crate::proofs::Monitored::waited_answers))]
fn monitorenter<L: Ledger>(
    program: &Program,
    machine: &mut Machine,
    thread: ThreadId,
    object: ObjectId,
    next: u32,
    visits: &mut Steps<L>,
) -> EventEnd
    requires locks { MayLock program.now machine.old thread object }
    ensures ok { (at : Site) (out : List Record) → at.next ≡ next →
        EventAnswers (monitor_event (moment program.now machine.old thread) at rows.Enter)
        result machine.old machine.new out out }
    ensures visits { visits.new ≤ visits.old + 3 }
{
    let lock = Lock::OfObject(object);
    if !may_enter(machine, thread, &lock, visits) {
        return wait_event(machine);
    }
    begin_past(machine, thread, next);
    enter_monitor(machine, thread, &lock, visits);
    EventEnd::Done
}

/// `monitorexit` of an object: one who doesn't own it throws.
#[tactic(auto, using(crate::proofs::Monitored::operand_there_is, crate::proofs::Monitored::exited_answers))]
fn monitorexit<L: Ledger>(
    program: &Program,
    machine: &mut Machine,
    thread: ThreadId,
    object: ObjectId,
    next: u32,
    out: &mut Lines,
    visits: &mut Steps<L>,
) -> Result<EventEnd, NoMemory>
    requires locks { MayLock program.now machine.old thread object }
    ensures ok { IfOk result (λ end. (at : Site) → at.next ≡ next →
        EventAnswers (monitor_event (moment program.now machine.old thread) at rows.Exit)
        end machine.old machine.new out.old out.new) }
    ensures err { OnErr result (machine.new.guest ≡ machine.old.guest) }
    ensures visits { visits.new ≤ visits.old + 3 }
{
    let lock = Lock::OfObject(object);
    if !owns(machine, thread, &lock, visits) {
        return throw_error(
            program,
            machine,
            thread,
            GuestError::IllegalMonitorStateException,
            out,
        );
    }
    begin_past(machine, thread, next);
    leave_monitor(machine, &lock, visits);
    Ok(EventEnd::Done)
}

/// The event of `monitorenter` or `monitorexit` (JVMS 6.5), in front of the pc `next`. Null throws NullPointerException. To
/// enter the monitor of an object a thread waits for another owner; to leave one that it doesn't own throws
/// IllegalMonitorStateException. It answers what the table of events says: `Done`, and then the machine keeps the next state,
/// to which a legal step led, and the records of the event stand behind those that were there; `Waited`, and then only the
/// clock has gone on; or `IllTyped` or `ObjectLimit`, and then machine and records are as before. After `NoMemory` the
/// machine may have one object more, to which nothing refers, and there may be its record; all else is as before.
#[tactic(auto, using(et_event::proofs::Referred::reference_held, crate::proofs::Monitored::null_each, crate::proofs::Monitored::ill_typed_row))]
pub(crate) fn monitor_row_event<L: Ledger>(
    program: &Program,
    machine: &mut Machine,
    thread: ThreadId,
    row: MonitorRow,
    next: u32,
    out: &mut Lines,
    visits: &mut Steps<L>,
) -> Result<EventEnd, NoMemory>
    requires sound { IsSoundFor program.now (kept_of machine.old) }
    requires frame { HasFrame machine.old.guest thread }
    requires clock { machine.old.guest.clock < 2 ^ 40 }
    ensures ok { IfOk result (λ end. (at : Site) →
        at.next ≡ next → EventAnswers (monitor_event (moment program.now machine.old thread) at row)
        end machine.old machine.new out.old out.new) }
    ensures err { OnErr result (machine.new.guest ≡ machine.old.guest) }
    ensures visits { visits.new ≤ visits.old + 3 }
{
    let Some(reference) = reference_at(machine, thread, 0) else {
        return Ok(ill_typed(machine, thread));
    };
    let Some(object) = reference else {
        return throw_error(
            program,
            machine,
            thread,
            GuestError::NullPointerException,
            out,
        );
    };
    match row {
        MonitorRow::Enter => Ok(monitorenter(program, machine, thread, object, next, visits)),
        MonitorRow::Exit => monitorexit(program, machine, thread, object, next, out, visits),
    }
}
