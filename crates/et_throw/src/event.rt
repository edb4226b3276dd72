//! The event call of exceptions.
ghost use Rattle.std.specs.Prelude.{◌≡◌, ◌+◌, ◌≤◌, IfOk, OnErr};
ghost use Rattle.et_state.specs.State.{kept_of};
ghost use Rattle.et_event.specs.declared.families.Family.TheVariants as families;
ghost use Rattle.et_event.specs.Answered.{EventAnswers};
ghost use Rattle.et_event.specs.Beginning.{BeginsEvent};
ghost use Rattle.et_event.specs.Event.{event};
ghost use Rattle.et_event.specs.Families.{family_of};

use crate::throwing::athrow_event;
use crate::unwinding::unwinding_event;
use et_base::{NoMemory, Steps, ThreadId};
use et_program::Program;
use et_state::{EventEnd, Lines, Machine, Turn};
use std::alloc::Global;
use std::sync::ledger::Ledger;

/// The event of a thread whose turn is `athrow`, or to unwind the exception that is pending (JVMS 2.10, 6.5 athrow, and 5.5
/// for initializers). It answers what the table of events says: `Done`, and then the machine keeps the next state, to which a
/// legal step led, and the records of the event stand behind those that were there; or `IllTyped` or `ObjectLimit`, and then
/// machine and records are as before. After `NoMemory` the machine may have one object more, to which nothing refers, and
/// there may be some of the records; all else is as before.
#[tactic(auto, using(et_event::proofs::FamilyTurns::family_at, et_event::proofs::FamilyTurns::throws_here))]
pub fn throw_event<L: Ledger>(
    _alloc: Global,
    program: &Program,
    machine: &mut Machine,
    thread: ThreadId,
    out: &mut Lines,
    visits: &mut Steps<L>,
) -> Result<EventEnd, NoMemory>
    requires begins { BeginsEvent program.now machine.old thread }
    requires family { family_of program.now (kept_of machine.old) thread ≡ families.Throw }
    ensures event { IfOk result (λ end. EventAnswers (event program.now
        (kept_of machine.old) thread) end machine.old machine.new out.old out.new) }
    ensures visits { visits.new ≤ visits.old + 6 }
    ensures err { OnErr result (machine.new.guest ≡ machine.old.guest) }
{
    match machine.turn(thread) {
        Turn::Unwind => unwinding_event(program, machine, thread, out, visits),
        Turn::Instruction => athrow_event(program, machine, thread, out, visits),
        Turn::EndThread | Turn::Entry | Turn::Initialize => unreachable!(),
    }
}
