//! What is run.
ghost use Rattle.std.specs.Prelude.{◌≡◌, ℕ, Bool, ◌+◌, ◌<◌, ◌≤◌, ◌^◌, ◌↔◌, List, [], All, length, IfOk, OnOk, OnErr, IsTrue, slice_index};
ghost use Rattle.et_graph.specs.Graph.{Graph, IsReached};
ghost use Rattle.et_graph.specs.Listing.{death_pairs};
ghost use Rattle.et_state.specs.Outcome.{Outcome};
ghost use Rattle.et_state.specs.Naming.{IsNamed};
ghost use Rattle.et_state.specs.Answers.{TicksWhereDone};
ghost use Rattle.et_graph.specs.Listed.{AreListed};
ghost use Rattle.et_graph.specs.Cleared.{IsClearedAndTied};
ghost use Rattle.et_loop.specs.Quiet.{IsStretch, IsBrokenOff};
ghost use Rattle.et_loop.specs.Stamping.{AreMade, HasStamps};

use crate::program::Program;
use et_base::{NoMemory, ObjectId, Steps, ThreadId};
use et_graph::{Death, Stamps};
use et_state::{EventEnd, Output};
use std::alloc::Global;
use std::sync::ledger::Ledger;

/// The place of a thread among those that have not ended, and how many events it may do at once.
#[derive(Clone, Copy)]
pub struct TimeSlice {
    pub place: usize,
    pub events: u64,
}

/// Events that were done at once: so many quiet ones, and how the one behind them went.
#[derive(Clone, Copy)]
pub struct Stretch {
    pub quiet: u64,
    pub end: EventEnd,
}

/// A machine that does events of a program, says which objects an event took a reference away from, and finds the deaths of a
/// flush by stamps. The run knows of it nothing but this.
pub trait Guest {
    /// What it runs.
    type Code: Program;

    /// The room in which a flush works.
    type Room: Drop;

    /// What a state is, and the state that the machine stands for.
    ghost State: { Type 0 };

    ghost state: { Self → State };

    /// What an event of a thread leads to.
    ghost event_of: { Self.Code → State → ℕ → Outcome State };

    /// What the event of a thread prints, where it is done.
    ghost said_of: { Self.Code → State → ℕ → List ℕ };

    /// The threads that have not ended, in order of start.
    ghost unended_of: { State → List ℕ };

    /// The graph of what is kept: of reported objects it has no pairs.
    ghost graph_of: { State → Graph };

    /// What a flush leaves, where the test says of each object whether it is reached.
    ghost flushed_of: { (ℕ → Bool) → State → State };

    /// How many visits such a flush makes at most.
    ghost flush_visits_of: { (ℕ → Bool) → State → ℕ };

    /// The number of events so far.
    ghost clock_of: { State → ℕ };

    /// What holds of every state that a history reaches.
    ghost is_sound: { Self.Code → State → Type 0 };

    /// The objects that the newest event took a reference away from.
    ghost lost_of: { Self → List ℕ };

    /// The room has a place for each object up to this number.
    ghost has_places: { Self.Room → ℕ → Type 0 };

    /// The deaths that the newest flush in the room listed.
    ghost deaths_of: { Self.Room → List (ℕ × ℕ) };

    /// The number of threads that have not ended.
    fn unended(&self) -> usize
        ensures { result ≡ length (unended_of (state self.now)) };

    /// The k-th thread that has not ended, from 0.
    fn unended_at(&self, k: usize) -> ThreadId
        requires { k < length (unended_of (state self.now)) }
        ensures { result ≡ slice_index (unended_of (state self.now)) k };

    /// The number of objects ever made.
    fn made(&self) -> u32
        ensures { result ≡ (graph_of (state self.now)).made };

    /// The objects that the newest event took a reference away from.
    fn lost(&self) -> &[ObjectId]
        ensures { result.now ≡ lost_of self.now };

    /// Room with no places.
    fn begin_room(alloc: Global) -> Self::Room;

    /// Makes places up to this object.
    fn grow_room(room: &mut Self::Room, objects: u32) -> Result<(), NoMemory>
        ensures { OnOk result (has_places room.new objects) };

    /// The deaths that the newest flush listed.
    fn deaths(room: &Self::Room) -> &[Death]
        ensures { death_pairs result.now ≡ deaths_of room.now };

    /// Lists the dead objects, each with the greatest stamp of those that lead to it, takes them out, and clears the
    /// references to them. Then it may tie objects that are reached. After `NoMemory`, which may come while the roots are
    /// listed, the machine may only be dropped. Whatever it answers, it visits no more objects than such a flush does.
    fn flush<L: Ledger>(
        &mut self,
        program: &Self::Code,
        stamps: &Stamps,
        room: &mut Self::Room,
        visits: &mut Steps<L>,
    ) -> Result<(), NoMemory>
        requires sound { is_sound program.now (state self.old) }
        requires stamps { (graph_of (state self.old)).made < length stamps.now }
        requires room { has_places room.old (graph_of (state self.old)).made }
        ensures deaths { OnOk result
            (AreListed (graph_of (state self.old)) (slice_index stamps.now) (deaths_of room.new)) }
        ensures room { OnOk result (has_places room.new (graph_of (state self.old)).made) }
        ensures state { (here : ℕ → Bool) →
            ((o : ℕ) → IsTrue (here o) ↔ IsReached (graph_of (state self.old)) o) →
            OnOk result (state self.new ≡ flushed_of here (state self.old)) }
        ensures visits { (here : ℕ → Bool) →
            ((o : ℕ) → IsTrue (here o) ↔ IsReached (graph_of (state self.old)) o) →
            visits.new ≤ visits.old + flush_visits_of here (state self.old) }
        ensures graph { OnOk result
            (IsClearedAndTied (graph_of (state self.old)) (graph_of (state self.new))) }
        ensures clock { OnOk result (clock_of (state self.new) ≡ clock_of (state self.old)) }
        ensures sound { OnOk result (is_sound program.now (state self.new)) };

    /// Does events of the thread at a place among those that have not ended: any number of quiet ones, which have no records,
    /// print nothing, make no object, begin no thread and end none; and then one more, whatever it is. What the quiet ones lost
    /// is stamped; what the last one lost and made is not yet. Whatever it answers, it visits eight objects at most for each,
    /// and one for each that the last one makes. After `NoMemory`, which may come in any of them, the machine may only be
    /// dropped.
    fn events<L: Ledger>(
        &mut self,
        alloc: Global,
        program: &Self::Code,
        slice: TimeSlice,
        out: &mut Output,
        stamps: &mut Stamps,
        visits: &mut Steps<L>,
    ) -> Result<Stretch, NoMemory>
        requires clock { clock_of (state self.old) + slice.events ≤ 2 ^ 40 }
        requires some { 0 < slice.events }
        requires sound { is_sound program.now (state self.old) }
        requires place { slice.place < length (unended_of (state self.old)) }
        requires made { AreMade (graph_of (state self.old)) }
        requires stamps { HasStamps (graph_of (state self.old)) stamps.old }
        requires empty { out.old.records ≡ [] }
        requires unsaid { out.old.said.items ≡ [] }
        ensures stretch { IfOk result (λ stretch. IsStretch
            (event_of program.now) (said_of program.now) unended_of graph_of
            slice.place slice.events (clock_of (state self.old))
            (state self.old) stamps.old stamps.new visits.old visits.new (state self.new)
            out.new.records out.new.said.items (lost_of self.new) stretch) }
        ensures broken { OnErr result (IsBrokenOff (event_of program.now) (said_of program.now)
            unended_of graph_of slice.place slice.events (clock_of (state self.old))
            (state self.old) stamps.old stamps.new visits.old visits.new) }
        ensures sound { OnOk result (is_sound program.now (state self.new)) }
        ensures clock { IfOk result (λ stretch. TicksWhereDone stretch.end
            (clock_of (state self.old) + stretch.quiet) (clock_of (state self.new))) }
        ensures named { OnOk result (All (IsNamed (Self.Code.names program.now)) out.new.records) };
}
