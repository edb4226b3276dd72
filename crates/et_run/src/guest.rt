//! The machine of a linked program with its texts, as the run with stamps knows them.
ghost use Rattle.std.specs.Prelude.{◌≡◌, ◌≤◌, OnOk};
ghost use Rattle.et_graph.specs.Listing.{death_pairs};
ghost use Rattle.et_event.specs.Told.{event_with_texts, said_by};
ghost use Rattle.et_history.specs.Settings.{IsSoundRun, flush_visits_of, unended_threads, flushed_of};
ghost use Rattle.et_state.specs.Roots.{graph_of as graph_kept};
ghost use Rattle.et_state.specs.State.{Kept};
ghost use Rattle.et_run.specs.WithTexts.{state_of};

use crate::named::NamedProgram;
use crate::room::GuestRoom;
use crate::steps::running_flush;
use crate::stretches::stretch;
use crate::threads::nth_unended;
use crate::with_texts::MachineWithTexts;
use et_base::{NoMemory, ObjectId, Steps, ThreadId};
use et_graph::{Death, Stamps};
use et_loop::{Guest, Output, Stretch, TimeSlice};
use et_program::Program;
use std::alloc::Global;
use std::marker::{Model, PhantomData};
use std::sync::ledger::Ledger;

/// The machine of a linked program with its texts, which its code refers to. A contract sees it as these two.
#[derive(Drop)]
pub struct ProgramGuest<'a> {
    running: MachineWithTexts,
    code: PhantomData<&'a Program>,
}

impl<'a> Model for ProgramGuest<'a> {
    ghost use Rattle.et_run.specs.declared.with_texts.MachineWithTexts.{MachineWithTexts};

    ghost Value = { MachineWithTexts };

    ghost view = { λ g. g.running };
}

impl<'a> ProgramGuest<'a> {
    /// Of a machine with its texts.
    pub fn of(running: MachineWithTexts) -> ProgramGuest<'a>
        ensures { result ≡ running }
    {
        ProgramGuest {
            running,
            code: PhantomData,
        }
    }
}

impl<'a> Guest for ProgramGuest<'a> {
    type Code = NamedProgram<'a>;

    type Room = GuestRoom;

    ghost State = { Kept };

    ghost state = { λ r. state_of r };

    ghost event_of = { event_with_texts };

    ghost said_of = { said_by };

    ghost unended_of = { unended_threads };

    ghost graph_of = { graph_kept };

    ghost flushed_of = { flushed_of };

    ghost flush_visits_of = { flush_visits_of };

    ghost clock_of = { λ s. s.guest.clock };

    ghost is_sound = { IsSoundRun };

    ghost lost_of = { λ r. r.machine.lost };

    ghost has_places = { λ r n. n ≤ r.numbers };

    ghost deaths_of = { λ r. r.deaths };

    fn unended(&self) -> usize {
        self.running.machine.unended_count()
    }

    fn unended_at(&self, k: usize) -> ThreadId {
        nth_unended(&self.running.machine, k)
    }

    fn made(&self) -> u32 {
        self.running.machine.heap.count()
    }

    fn lost(&self) -> &[ObjectId] {
        self.running.machine.lost()
    }

    fn begin_room(alloc: Global) -> GuestRoom {
        GuestRoom::begin(alloc)
    }

    fn grow_room(room: &mut GuestRoom, objects: u32) -> Result<(), NoMemory>
        ensures { OnOk result (objects ≤ room.new.numbers) }
    {
        room.grow(objects)
    }

    fn deaths(room: &GuestRoom) -> &[Death]
        ensures { death_pairs result.now ≡ room.now.deaths }
    {
        room.deaths()
    }

    fn flush<L: Ledger>(
        &mut self,
        program: &NamedProgram<'a>,
        stamps: &Stamps,
        room: &mut GuestRoom,
        visits: &mut Steps<L>,
    ) -> Result<(), NoMemory> {
        running_flush(
            program.program(),
            &mut self.running,
            stamps,
            &mut room.roots,
            &mut room.room,
            visits,
        )
    }

    fn events<L: Ledger>(
        &mut self,
        alloc: Global,
        program: &NamedProgram<'a>,
        slice: TimeSlice,
        out: &mut Output,
        stamps: &mut Stamps,
        visits: &mut Steps<L>,
    ) -> Result<Stretch, NoMemory> {
        stretch(
            alloc,
            program.program(),
            &mut self.running,
            slice,
            out,
            stamps,
            visits,
        )
    }
}
