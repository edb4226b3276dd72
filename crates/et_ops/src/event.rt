//! The event call of the plain instructions.
ghost use Rattle.std.specs.Prelude.{◌≡◌, IfOk, OnErr};
ghost use Rattle.et_state.specs.State.{kept_of};
ghost use Rattle.et_event.specs.declared.families.Family.TheVariants as families;
ghost use Rattle.et_event.specs.Answered.{EventAnswers};
ghost use Rattle.et_event.specs.Beginning.{BeginsEvent};
ghost use Rattle.et_event.specs.Event.{event};
ghost use Rattle.et_event.specs.Families.{family_of};

use crate::plain::plain_event;
use et_base::{NoMemory, Steps, ThreadId};
use et_event::{ill_typed, place_of};
use et_program::Program;
use et_state::{EventEnd, Lines, Machine};
use std::alloc::Global;
use std::sync::ledger::Ledger;

/// The event of a thread whose turn is a plain instruction (JVMS 2.11.2 to 2.11.4, 2.11.6, 2.11.7), or that stands at the
/// end of its code. It answers what the table of events says: `Done`, and then the machine keeps the next state, to which a
/// legal step led, and the records of the event stand behind those that were there; or `IllTyped` or `ObjectLimit`, and then
/// machine and records are as before. It visits no object. After `NoMemory` the machine may have one object more, to which
/// nothing refers, and there may be its record; all else is as before.
#[tactic(auto, using(et_event::proofs::FamilyTurns::ops_instructs))]
pub fn ops_event<L: Ledger>(
    _alloc: Global,
    program: &Program,
    machine: &mut Machine,
    thread: ThreadId,
    out: &mut Lines,
    visits: &mut Steps<L>,
) -> Result<EventEnd, NoMemory>
    requires begins { BeginsEvent program.now machine.old thread }
    requires family { family_of program.now (kept_of machine.old) thread ≡ families.Ops }
    ensures event { IfOk result (λ end. EventAnswers (event program.now
        (kept_of machine.old) thread) end machine.old machine.new out.old out.new) }
    ensures visits { visits.new ≡ visits.old }
    ensures err { OnErr result (machine.new.guest ≡ machine.old.guest) }
{
    match place_of(program, machine, thread) {
        Some(place) => plain_event(program, machine, thread, &place, out),
        None => Ok(ill_typed(machine, thread)),
    }
}
