//! An event of a machine and its texts, and a flush of them, as a run asks for them.
ghost use Rattle.std.specs.Prelude.{◌≡◌, ℕ, Bool, ◌+◌, ◌-◌, ◌<◌, ◌≤◌, ◌^◌, ◌↔◌, All, Contains, IfOk, IsTrue, OnOk, length, slice_index};
ghost use Rattle.et_event.specs.Told.{event_with_texts, said_by};
ghost use Rattle.et_graph.specs.Graph.{IsReached};
ghost use Rattle.et_history.specs.Settings.{IsSoundRun, flush_visits_of, unended_threads, flushed_of};
ghost use Rattle.et_history.specs.steps.Telling.{names_of_program};
ghost use Rattle.et_run.specs.Waits.{HasWaited};
ghost use Rattle.et_run.specs.WithTexts.{state_of};
ghost use Rattle.et_state.specs.Roots.{graph_of};
ghost use Rattle.et_loop.specs.Stamping.{StepsWhereDone};
ghost use Rattle.et_graph.specs.Cleared.{IsClearedAndTied};
ghost use Rattle.et_graph.specs.Listed.{AreListed};
ghost use Rattle.et_state.specs.Answers.{Answers, SaysWhereDone, TicksWhereDone};
ghost use Rattle.et_state.specs.Naming.{IsNamed};
ghost use Rattle.et_state.specs.Outcome.{state_after};
ghost use Rattle.et_state.specs.declared.ends.EventEnd.TheVariants as ends;

use crate::forgetting::forget_dead;
use crate::turns::turn_event;
use crate::with_texts::MachineWithTexts;
use et_base::{NoMemory, Steps, ThreadId};
use et_flush::{FlushRoom, flush_machine};
use et_graph::Stamps;
use et_graph::laws::reaching_is_decided;
use et_heap::RootList;
use et_history::spoken_laws::{events_are_told, events_keep_monitors};
use et_history::start_laws::flush_keeps_sound;
use et_history::text_laws::flushes_keep_texts;
use et_program::Program;
use et_state::{EventEnd, Output};
use std::alloc::Global;
use std::sync::ledger::Ledger;

/// The event of a thread that has not ended.
#[inline(always)]
pub fn running_event<L: Ledger>(
    alloc: Global,
    program: &Program,
    running: &mut MachineWithTexts,
    thread: ThreadId,
    out: &mut Output,
    visits: &mut Steps<L>,
) -> Result<EventEnd, NoMemory>
    requires clock { running.old.machine.guest.clock < 2 ^ 40 }
    requires sound { IsSoundRun program.now (state_of running.old) }
    requires thread { Contains (unended_threads (state_of running.old)) thread }
    ensures answers { IfOk result (λ end. Answers (event_with_texts program.now
        (state_of running.old) thread) end (state_of running.old) (state_of running.new)
        out.old.records out.new.records) }
    ensures says { IfOk result (λ end. SaysWhereDone end (said_by program.now
        (state_of running.old) thread) out.old.said.items out.new.said.items) }
    ensures step { IfOk result (λ end. StepsWhereDone end (graph_of (state_of running.old))
        (graph_of (state_of running.new)) running.new.machine.lost) }
    ensures visits { visits.new ≤ visits.old + 8 + ((graph_of (state_after (state_of running.old)
        (event_with_texts program.now (state_of running.old) thread))).made
        - (graph_of (state_of running.old)).made) }
    ensures sound { OnOk result (IsSoundRun program.now (state_of running.new)) }
    ensures clock { IfOk result (λ end. TicksWhereDone end
        running.old.machine.guest.clock running.new.machine.guest.clock) }
    ensures named { OnOk result (All (IsNamed (names_of_program program.now)) out.old.records →
        All (IsNamed (names_of_program program.now)) out.new.records) }
    ensures waited { IfOk result (λ end. end ≡ ends.Waited →
        HasWaited program.now (state_of running.new) thread) }
{
    // Laws: they tell the prover, and do nothing.
    events_are_told();
    events_keep_monitors();
    turn_event(alloc, program, running, thread, out, visits)
}

/// A flush of the machine of a program. The texts of the objects that it reports are forgotten.
pub fn running_flush<L: Ledger>(
    _program: &Program,
    running: &mut MachineWithTexts,
    stamps: &Stamps,
    roots: &mut RootList,
    room: &mut FlushRoom,
    visits: &mut Steps<L>,
) -> Result<(), NoMemory>
    requires sound { IsSoundRun _program.now (state_of running.old) }
    requires stamps { (graph_of (state_of running.old)).made < length stamps.now }
    ensures deaths { OnOk result
        (AreListed (graph_of (state_of running.old)) (slice_index stamps.now) room.new.deaths) }
    ensures numbers { room.old.numbers ≤ room.new.numbers }
    ensures state { (here : ℕ → Bool) →
        ((o : ℕ) → IsTrue (here o) ↔ IsReached (graph_of (state_of running.old)) o) →
        OnOk result (state_of running.new ≡ flushed_of here (state_of running.old)) }
    ensures visits { (here : ℕ → Bool) →
        ((o : ℕ) → IsTrue (here o) ↔ IsReached (graph_of (state_of running.old)) o) →
        visits.new ≤ visits.old + flush_visits_of here (state_of running.old) }
    ensures graph { OnOk result
        (IsClearedAndTied (graph_of (state_of running.old)) (graph_of (state_of running.new))) }
    ensures clock { OnOk result
        (running.new.machine.guest.clock ≡ running.old.machine.guest.clock) }
    ensures sound { OnOk result (IsSoundRun _program.now (state_of running.new)) }
{
    // Laws: they tell the prover, and do nothing.
    reaching_is_decided();
    flush_keeps_sound();
    flushes_keep_texts();
    running.machine.has_no_texts();
    flush_machine(&mut running.machine, stamps, roots, room, visits)?;
    forget_dead(&mut running.texts, room.deaths());
    Ok(())
}
