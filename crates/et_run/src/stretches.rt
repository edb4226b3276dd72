//! Events of a machine that one thread does at once.
ghost use Rattle.std.specs.Prelude.{◌≡◌, ℕ, ◌+◌, ◌*◌, ◌<◌, ◌≤◌, ◌^◌, [], None, All, Contains, IfOk, IsTrue, OnErr, OnOk, length, slice_index};
ghost use Rattle.et_event.specs.Told.{event_with_texts, said_by};
ghost use Rattle.et_history.specs.Settings.{IsSoundRun, unended_threads};
ghost use Rattle.et_history.specs.steps.Telling.{names_of_program};
ghost use Rattle.et_loop.specs.Quiet.{AreQuiet, IsStretch, IsBrokenOff};
ghost use Rattle.et_loop.specs.Run.{end_after};
ghost use Rattle.et_loop.specs.Stamping.{AreMade, HasStamps};
ghost use Rattle.et_state.specs.Answers.{TicksWhereDone};
ghost use Rattle.et_state.specs.Naming.{IsNamed};
ghost use Rattle.et_state.specs.Roots.{graph_of};
ghost use Rattle.et_run.specs.Standing.{IsAsItStood};
ghost use Rattle.et_run.specs.WithTexts.{state_of};

use crate::lifted::lifted_events;
use crate::steps::running_event;
use crate::threads::nth_unended;
use crate::waits::waiting_events;
use crate::with_texts::MachineWithTexts;
use et_base::{NoMemory, Steps, ThreadId};
use et_graph::{Stamps, stamp_each};
use et_history::spoken_laws::{events_lead_to_sound_states, texts_stay_sound};
use et_loop::{Output, Stretch, TimeSlice};
use et_program::Program;
use et_state::{EventEnd, Machine, Turn};
use std::alloc::Global;
use std::sync::ledger::Ledger;

/// What stays as it is while events are quiet: the thread at the place, and how many threads have not ended and how many
/// objects were made.
#[derive(Clone, Copy)]
struct Standing {
    place: usize,
    thread: ThreadId,
    threads: usize,
    objects: u32,
}

/// Whether an event that went so was done.
#[inline(always)]
fn is_done(end: &EventEnd) -> bool
    ensures { IsTrue result → end_after 0 end.now ≡ None }
{
    matches!(end, EventEnd::Done | EventEnd::Waited)
}

/// Whether as many objects were made, and as many threads have not ended, with the same one at the place.
#[inline(always)]
fn stands(machine: &Machine, standing: &Standing) -> bool
    requires { standing.now.place < standing.now.threads }
    ensures { IsTrue result → IsAsItStood machine.now standing.now }
{
    if machine.heap.count() != standing.objects || machine.unended_count() != standing.threads {
        return false;
    }
    nth_unended(machine, standing.place) == standing.thread
}

/// Whether the newest event is quiet, which went so and put out this.
#[inline(always)]
fn is_quiet(machine: &Machine, standing: &Standing, end: &EventEnd, out: &Output) -> bool
    requires { standing.now.place < standing.now.threads }
    ensures done { IsTrue result → end_after 0 end.now ≡ None }
    ensures told { IsTrue result → out.now.records ≡ [] }
    ensures unsaid { IsTrue result → out.now.said.items ≡ [] }
    ensures stands { IsTrue result → IsAsItStood machine.now standing.now }
{
    is_done(end)
        && out.records.records().is_empty()
        && out.said.is_empty()
        && stands(machine, standing)
}

/// Events of a thread that has not ended which are instructions that change nothing but its topmost frame and numbers in the
/// heap, and read nothing else but the heap: as many as come one after the other, up to `most`. They are quiet. Where the thread does no instruction next
/// there are none.
#[tactic(auto, unfolding(et_loop::specs::Quiet::AreQuiet))]
#[inline(always)]
fn frame_stretch<L: Ledger>(
    program: &Program,
    running: &mut MachineWithTexts,
    thread: ThreadId,
    stamps: &mut Stamps,
    most: u64,
    visits: &mut Steps<L>,
) -> u64
    requires clock { running.old.machine.guest.clock + most ≤ 2 ^ 40 }
    requires sound { IsSoundRun program.now (state_of running.old) }
    requires thread { Contains (unended_threads (state_of running.old)) thread }
    requires made { AreMade (graph_of (state_of running.old)) }
    requires stamps { HasStamps (graph_of (state_of running.old)) stamps.old }
    ensures few { result ≤ most }
    ensures quiet { (place : ℕ) →
        slice_index (unended_threads (state_of running.old)) place ≡ thread → AreQuiet
        (event_with_texts program.now) (said_by program.now) unended_threads graph_of place
        result running.old.machine.guest.clock (state_of running.old) (state_of running.new)
        stamps.old stamps.new }
    ensures sound { IsSoundRun program.now (state_of running.new) }
    ensures clock { running.new.machine.guest.clock
        ≡ running.old.machine.guest.clock + result }
    ensures visits { visits.new ≤ visits.old + 8 * result }
{
    // Laws: they tell the prover, and do nothing.
    events_lead_to_sound_states();
    texts_stay_sound();
    running.machine.has_no_texts();
    if most == 0 {
        return 0;
    }
    match running.machine.turn(thread) {
        Turn::Instruction => {
            lifted_events(program, &mut running.machine, thread, stamps, most, visits)
        }
        Turn::Unwind | Turn::EndThread | Turn::Entry | Turn::Initialize => 0,
    }
}

/// How many events may be instructions that change nothing but their frame, of so many, behind one that went so: none where the
/// thread waited, since it stands where it stood.
#[inline(always)]
fn frames_behind(before: EventEnd, most: u64) -> u64
    ensures { result ≤ most }
{
    match before {
        EventEnd::Waited => 0,
        _ => most,
    }
}

/// The events of a time slice, up to one that is not quiet.
pub fn stretch<L: Ledger>(
    alloc: Global,
    program: &Program,
    running: &mut MachineWithTexts,
    slice: TimeSlice,
    out: &mut Output,
    stamps: &mut Stamps,
    visits: &mut Steps<L>,
) -> Result<Stretch, NoMemory>
    requires clock { running.old.machine.guest.clock + slice.events ≤ 2 ^ 40 }
    requires some { 0 < slice.events }
    requires sound { IsSoundRun program.now (state_of running.old) }
    requires place { slice.place < length (unended_threads (state_of running.old)) }
    requires made { AreMade (graph_of (state_of running.old)) }
    requires stamps { HasStamps (graph_of (state_of running.old)) stamps.old }
    requires empty { out.old.records ≡ [] }
    requires unsaid { out.old.said.items ≡ [] }
    ensures stretch { IfOk result (λ stretch. IsStretch
        (event_with_texts program.now) (said_by program.now) unended_threads graph_of slice.place
        slice.events running.old.machine.guest.clock (state_of running.old) stamps.old
        stamps.new visits.old visits.new (state_of running.new) out.new.records
        out.new.said.items running.new.machine.lost stretch) }
    ensures broken { OnErr result (IsBrokenOff (event_with_texts program.now) (said_by program.now)
        unended_threads graph_of slice.place slice.events running.old.machine.guest.clock
        (state_of running.old) stamps.old stamps.new visits.old visits.new) }
    ensures sound { OnOk result (IsSoundRun program.now (state_of running.new)) }
    ensures clock { IfOk result (λ stretch. TicksWhereDone stretch.end
        (running.old.machine.guest.clock + stretch.quiet) running.new.machine.guest.clock) }
    ensures named { OnOk result (All (IsNamed (names_of_program program.now)) out.new.records) }
{
    let thread = nth_unended(&running.machine, slice.place);
    let standing = Standing {
        place: slice.place,
        thread,
        threads: running.machine.unended_count(),
        objects: running.machine.heap.count(),
    };
    let mut quiet = 0;
    let mut before = EventEnd::Done;
    'events: loop {
        let most = frames_behind(before, slice.events - 1 - quiet);
        quiet += frame_stretch(program, running, thread, stamps, most, visits);
        let e = running.machine.clock();
        let end = running_event(alloc, program, running, thread, out, visits)?;
        if quiet + 1 == slice.events || !is_quiet(&running.machine, &standing, &end, out) {
            return Ok(Stretch { quiet, end });
        }
        stamp_each(stamps, running.machine.lost(), e);
        quiet += 1;
        quiet += waiting_events(program, running, thread, &end, slice.events - 1 - quiet);
        before = end;
    }
}
