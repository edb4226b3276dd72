//! Events in which a thread waits at the monitor of an object, as long as nobody else has the turn.
ghost use Rattle.std.specs.Prelude.{◌≡◌, ℕ, ◌+◌, ◌≤◌, ◌^◌, Contains, IsTrue, List, slice_index};
ghost use Rattle.et_event.specs.Sound.{IsSoundFor};
ghost use Rattle.et_event.specs.Told.{event_with_texts, said_by};
ghost use Rattle.et_history.specs.Settings.{IsSoundRun, unended_threads};
ghost use Rattle.et_loop.specs.Quiet.{AreQuiet};
ghost use Rattle.et_run.specs.Waits.{HasWaited, IsAtMonitor};
ghost use Rattle.et_run.specs.WithTexts.{state_of};
ghost use Rattle.et_state.specs.declared.ends.EventEnd.TheVariants as ends;
ghost use Rattle.et_state.specs.Roots.{graph_of};
ghost use Rattle.et_state.specs.State.{kept_of};
ghost use Rattle.et_state.specs.Words.{IsUnended};

use crate::with_texts::MachineWithTexts;
use et_base::ThreadId;
use et_event::{MonitorRow, Row, place_of};
use et_history::spoken_laws::{events_lead_to_sound_states, texts_stay_sound};
use et_program::Program;
use et_state::{EventEnd, Machine, Turn};

/// Whether a thread stands at a `monitorenter`.
#[inline(never)]
fn is_at_monitor(program: &Program, machine: &Machine, thread: ThreadId) -> bool
    requires sound { IsSoundFor program.now (kept_of machine.now) }
    requires thread { IsUnended machine.now.guest thread }
    ensures { IsTrue result → IsAtMonitor program.now (kept_of machine.now) thread }
{
    match machine.turn(thread) {
        Turn::Instruction => match place_of(program, machine, thread) {
            Some(place) => matches!(place.row, Row::Monitor(MonitorRow::Enter)),
            None => false,
        },
        Turn::Unwind | Turn::EndThread | Turn::Entry | Turn::Initialize => false,
    }
}

/// Events of a thread whose newest event ended so, which are waits: where it waited for the monitor of an object, `most` of
/// them, as nobody else has the turn in between; else none. They are quiet, and lose nothing.
#[tactic(auto, unfolding(et_loop::specs::Quiet::AreQuiet))]
#[inline(always)]
pub(crate) fn waiting_events(
    program: &Program,
    running: &mut MachineWithTexts,
    thread: ThreadId,
    end: &EventEnd,
    most: u64,
) -> u64
    requires clock { running.old.machine.guest.clock + most ≤ 2 ^ 40 }
    requires sound { IsSoundRun program.now (state_of running.old) }
    requires thread { Contains (unended_threads (state_of running.old)) thread }
    requires waited { end.now ≡ ends.Waited →
        HasWaited program.now (state_of running.old) thread }
    ensures few { result ≤ most }
    ensures quiet { (stamps : List ℕ) (place : ℕ) →
        slice_index (unended_threads (state_of running.old)) place ≡ thread → AreQuiet
        (event_with_texts program.now) (said_by program.now) unended_threads graph_of place
        result running.old.machine.guest.clock (state_of running.old) (state_of running.new)
        stamps stamps }
    ensures sound { IsSoundRun program.now (state_of running.new) }
    ensures clock { running.new.machine.guest.clock
        ≡ running.old.machine.guest.clock + result }
{
    // Laws: they tell the prover, and do nothing.
    events_lead_to_sound_states();
    texts_stay_sound();
    running.machine.has_no_texts();
    match end {
        EventEnd::Waited if is_at_monitor(program, &running.machine, thread) => {
            running.machine.pass_events(most);
            most
        }
        _ => 0,
    }
}
