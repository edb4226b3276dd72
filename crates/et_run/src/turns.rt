//! The event of a thread that has the turn.
ghost use Rattle.std.specs.Prelude.{◌≡◌, ◌+◌, ◌-◌, ◌<◌, ◌≤◌, ◌^◌, IfOk, IsSome, OnOk, length};
ghost use Rattle.et_event.specs.Answered.{TextAnswers};
ghost use Rattle.et_event.specs.Beginning.{BeginsEvent};
ghost use Rattle.et_event.specs.Event.{event};
ghost use Rattle.et_event.specs.Families.{family_of as family};
ghost use Rattle.et_event.specs.declared.families.Family.TheVariants as families;
ghost use Rattle.et_event.specs.Runnable.{IsRunnable};
ghost use Rattle.et_event.specs.Sound.{IsSoundFor};
ghost use Rattle.et_event.specs.SoundTexts.{HasSoundTexts};
ghost use Rattle.et_event.specs.Told.{event_with_texts, said_by};
ghost use Rattle.et_run.specs.WithTexts.{TurnAnswers, state_of, text_turn};
ghost use Rattle.et_state.specs.Answers.{SaysWhereDone};
ghost use Rattle.et_state.specs.Outcome.{state_after};
ghost use Rattle.et_state.specs.State.{kept_of};
ghost use Rattle.et_state.specs.Words.{IsUnended};

use crate::families::turn_family;
use crate::with_texts::MachineWithTexts;
use et_base::{NoMemory, Steps, ThreadId};
use et_calls::calls_event;
use et_event::Family;
use et_history::spoken_laws::{events_lead_to_sound_states, texts_stay_sound};
use et_ops::ops_event;
use et_program::Program;
use et_refs::refs_event;
use et_state::{EventEnd, Lines, Machine, Output};
use et_strings::strings_event;
use et_sync::sync_event;
use et_throw::throw_event;
use std::alloc::Global;
use std::sync::ledger::Ledger;

/// The event of a thread whose turn is a call or a return, to be entered, or a step of an initializer; `Native` where it calls
/// a method of texts. After `NoMemory` the machine may only be dropped.
fn call_turn_event<L: Ledger>(
    alloc: Global,
    program: &Program,
    machine: &mut Machine,
    thread: ThreadId,
    out: &mut Lines,
    visits: &mut Steps<L>,
) -> Result<EventEnd, NoMemory>
    requires begins { BeginsEvent program.now machine.old thread }
    requires family { family program.now (kept_of machine.old) thread ≡ families.Calls }
    ensures event { IfOk result (λ end. TurnAnswers program.now thread end
        machine.old machine.new out.old out.new) }
    ensures visits { visits.new ≤ visits.old + 7 }
    ensures deferred { IsSome (text_turn program.now (kept_of machine.old) thread) →
        visits.new ≤ visits.old + 2 }
{
    match calls_event(alloc, program, machine, thread, out, visits)? {
        EventEnd::Native { method } => match program.text_method(method) {
            Some(_) => Ok(EventEnd::Native { method }),
            None => sync_event(alloc, program, machine, thread, out, visits),
        },
        end => Ok(end),
    }
}

/// The event of a thread, by the family of its turn; `Native` where it calls a method of texts or reads System.out. It visits
/// eight objects at most, and one for each that the event makes. After `NoMemory` the machine may only be dropped.
#[inline(always)]
fn event_by_family<L: Ledger>(
    alloc: Global,
    program: &Program,
    machine: &mut Machine,
    thread: ThreadId,
    out: &mut Lines,
    visits: &mut Steps<L>,
) -> Result<EventEnd, NoMemory>
    requires begins { BeginsEvent program.now machine.old thread }
    ensures event { IfOk result (λ end. TurnAnswers program.now thread end
        machine.old machine.new out.old out.new) }
    ensures visits { visits.new ≤ visits.old + 8 + (length (state_after (kept_of machine.old)
        (event program.now (kept_of machine.old) thread)).heap - length machine.old.heap) }
    ensures deferred { IsSome (text_turn program.now (kept_of machine.old) thread) →
        visits.new ≤ visits.old + 2 }
{
    match turn_family(program, machine, thread) {
        Family::Ops => ops_event(alloc, program, machine, thread, out, visits),
        Family::Refs => refs_event(alloc, program, machine, thread, out, visits),
        Family::Calls => call_turn_event(alloc, program, machine, thread, out, visits),
        Family::Throw => throw_event(alloc, program, machine, thread, out, visits),
        Family::Sync => sync_event(alloc, program, machine, thread, out, visits),
    }
}

/// The event of a thread that has not ended: an instruction, a step of an unwinding or of an initializer, the entry of the
/// thread, or its end. It answers what the table of events and the rows of texts say: `Done` or `Waited`, and then machine and
/// texts are those of the next state, to which a legal step led, the records of the event stand behind those that were there,
/// and so do the bytes that it prints; or `IllTyped` or `ObjectLimit`, and then all is as before. Each of these leaves a sound
/// state. Whatever it answers, it visits eight objects at most, and one for each that the event makes. After `NoMemory` machine
/// and texts may only be dropped.
#[inline(always)]
pub fn turn_event<L: Ledger>(
    alloc: Global,
    program: &Program,
    running: &mut MachineWithTexts,
    thread: ThreadId,
    out: &mut Output,
    visits: &mut Steps<L>,
) -> Result<EventEnd, NoMemory>
    requires sound { IsSoundFor program.now (state_of running.old) }
    requires texts { HasSoundTexts program.now (state_of running.old) }
    requires clock { running.old.machine.guest.clock < 2 ^ 40 }
    requires thread { IsUnended running.old.machine.guest thread }
    requires program { IsRunnable program.now }
    ensures event { IfOk result (λ end. TextAnswers (event_with_texts program.now
        (state_of running.old) thread) end running.old.machine running.new.machine
        running.old.texts running.new.texts out.old.records out.new.records) }
    ensures said { IfOk result (λ end. SaysWhereDone end (said_by program.now
        (state_of running.old) thread) out.old.said.items out.new.said.items) }
    ensures visits { visits.new ≤ visits.old + 8 + (length (state_after (state_of running.old)
        (event_with_texts program.now (state_of running.old) thread)).heap
        - length running.old.machine.heap) }
    ensures sound { OnOk result (IsSoundFor program.now (state_of running.new)) }
    ensures sound_texts { OnOk result (HasSoundTexts program.now (state_of running.new)) }
{
    // Laws: they tell the prover, and do nothing.
    events_lead_to_sound_states();
    texts_stay_sound();
    running.machine.has_no_texts();
    match event_by_family(
        alloc,
        program,
        &mut running.machine,
        thread,
        &mut out.records,
        visits,
    )? {
        EventEnd::Native { .. } => strings_event(
            alloc,
            program,
            &mut running.machine,
            &mut running.texts,
            thread,
            out,
            visits,
        ),
        end => {
            running.machine.has_no_texts();
            Ok(end)
        }
    }
}
