//! The event call of calls and returns, of the entry of a thread and of the steps of initializers.
ghost use Rattle.std.specs.Prelude.{◌≡◌, ℕ, ◌+◌, ◌<◌, ◌≤◌, ◌↔◌, Some, IfOk, IsSome, length};
ghost use Rattle.et_event.specs.declared.families.Family.TheVariants as families;
ghost use Rattle.et_event.specs.Answered.{EventAnswers};
ghost use Rattle.et_event.specs.Beginning.{BeginsEvent};
ghost use Rattle.et_event.specs.Event.{event};
ghost use Rattle.et_event.specs.Families.{family_of};
ghost use Rattle.et_state.specs.declared.stage.Turn.TheVariants as turns;
ghost use Rattle.et_state.specs.State.{kept_of};
ghost use Rattle.et_state.specs.Threads.{turn_of};
ghost use Rattle.et_state.specs.Words.{thread_at};
ghost use Rattle.et_event.specs.Selected.{deferred_call};
ghost use Rattle.et_event.specs.Answered.{DefersOrAnswers};

use crate::entry::entry_event;
use crate::rows::call_event;
use et_base::{NoMemory, Steps, ThreadId};
use et_event::{ill_typed, place_of};
use et_initialize::initialization_event;
use et_program::Program;
use et_state::{EventEnd, Lines, Machine, Stage, Turn};
use std::alloc::Global;
use std::sync::ledger::Ledger;

/// A step of the initializer at the top.
fn initializer_event(
    alloc: Global,
    program: &Program,
    machine: &mut Machine,
    thread: ThreadId,
    out: &mut Lines,
) -> Result<EventEnd, NoMemory>
    requires begins { BeginsEvent program.now machine.old thread }
    requires turn { turn_of (thread_at machine.old.guest thread) ≡ turns.Initialize }
    ensures { IfOk result (λ end. EventAnswers (event program.now
        (kept_of machine.old) thread) end machine.old machine.new out.old out.new) }
{
    match machine.stage(thread) {
        Stage::Before(class) => initialization_event(alloc, program, machine, thread, class, out),
        Stage::Plain | Stage::Clinit(_) => unreachable!(),
    }
}

/// The event of a thread whose turn is a call or a return.
fn instruction_event<L: Ledger>(
    alloc: Global,
    program: &Program,
    machine: &mut Machine,
    thread: ThreadId,
    out: &mut Lines,
    visits: &mut Steps<L>,
) -> Result<EventEnd, NoMemory>
    requires begins { BeginsEvent program.now machine.old thread }
    requires turn { turn_of (thread_at machine.old.guest thread) ≡ turns.Instruction }
    requires family { family_of program.now (kept_of machine.old) thread ≡ families.Calls }
    ensures event { IfOk result (λ end.
        DefersOrAnswers (deferred_call program.now (kept_of machine.old) thread) (event program.now
        (kept_of machine.old) thread) end machine.old machine.new out.old out.new) }
    ensures within { IfOk result (λ end. (method : ℕ) → end ≡ EventEnd.Native method →
        method < length program.now.methods) }
    ensures visits { visits.new ≤ visits.old + 5 }
    ensures deferred { IsSome (deferred_call program.now (kept_of machine.old) thread) →
        visits.new ≤ visits.old + 2 }
{
    match place_of(program, machine, thread) {
        Some(place) => call_event(alloc, program, machine, thread, &place, out, visits),
        None => Ok(ill_typed(machine, thread)),
    }
}

/// The event of a thread whose turn is a call or a return (JVMS 2.11.8, 6.5), to be entered (JVMS 5.2), or a step of an
/// initializer (JVMS 5.5). It answers `Native` exactly where a call selects a built-in method without code of Thread,
/// Reference, WeakReference or ReferenceQueue, or of String, StringBuilder or PrintStream; then machine and records are as
/// before, and the event call of monitors, or that of texts, does the event. Else it answers what the table of events says:
/// `Done` or `Waited`, and then the machine keeps the next state, to which a legal step led, and the records of the event
/// stand behind those that were there; or `IllTyped` or `ObjectLimit`, and then machine and records are as before. After
/// `NoMemory` the event may be half done, and machine and records may only be dropped.
#[tactic(auto, using(et_event::proofs::FamilyTurns::family_at))]
pub fn calls_event<L: Ledger>(
    alloc: Global,
    program: &Program,
    machine: &mut Machine,
    thread: ThreadId,
    out: &mut Lines,
    visits: &mut Steps<L>,
) -> Result<EventEnd, NoMemory>
    requires begins { BeginsEvent program.now machine.old thread }
    requires family { family_of program.now (kept_of machine.old) thread ≡ families.Calls }
    ensures event { IfOk result (λ end.
        DefersOrAnswers (deferred_call program.now (kept_of machine.old) thread) (event program.now
        (kept_of machine.old) thread) end machine.old machine.new out.old out.new) }
    ensures native { IfOk result (λ end. (method : ℕ) → (end ≡ EventEnd.Native method)
        ↔ (deferred_call program.now (kept_of machine.old) thread ≡ Some method)) }
    ensures within { IfOk result (λ end. (method : ℕ) → end ≡ EventEnd.Native method →
        method < length program.now.methods) }
    ensures visits { visits.new ≤ visits.old + 6 }
    ensures deferred { IsSome (deferred_call program.now (kept_of machine.old) thread) →
        visits.new ≤ visits.old + 2 }
{
    match machine.turn(thread) {
        Turn::Entry => entry_event(alloc, program, machine, thread, out, visits),
        Turn::Initialize => initializer_event(alloc, program, machine, thread, out),
        Turn::Instruction => instruction_event(alloc, program, machine, thread, out, visits),
        Turn::Unwind | Turn::EndThread => unreachable!(),
    }
}
