//! The whole run.
ghost use Rattle.std.specs.Prelude.{◌≡◌, ℕ, Bool, ◌≤◌, [], All, IfOk, OnErr};
ghost use Rattle.et_io.specs.Faults.{is_write_fault};
ghost use Rattle.et_graph.specs.Graph.{Graph, nothing_made, Decides};
ghost use Rattle.et_state.specs.Naming.{IsNamed};
ghost use Rattle.et_state.specs.Options.{AreOptions};
ghost use Rattle.et_loop.specs.Options.{guest_setting};
ghost use Rattle.et_loop.specs.Ends.{IsOver, IsCutOff};
ghost use Rattle.et_loop.specs.Kept.{IsStepTo};
ghost use Rattle.et_loop.specs.Said.{CountsWrite};

use crate::guest::Guest;
use crate::options::Ran;
use crate::tracer::{Tracer, turn};
use et_base::{NoMemory, Steps};
use et_io::{RunFault, Sink, put_all};
use et_state::{Lines, Options};
use std::alloc::Global;
use std::sync::ledger::Ledger;

/// A guest in its starting state, and the records of that state.
#[derive(Drop)]
pub struct Started<G: Drop> {
    pub guest: G,
    pub made: Lines,
}

/// Room with a place for each of so many objects.
fn first_room<G: Guest>(alloc: Global, objects: u32) -> Result<G::Room, NoMemory>
    ensures { IfOk result (λ room. G.has_places room objects) }
{
    let mut room = G::begin_room(alloc);
    G::grow_room(&mut room, objects)?;
    Ok(room)
}

/// Runs a guest from its starting state, whose objects are all reached, and writes the trace of its history to the first sink,
/// in the format of the options and event by event: one put after each event that has lines. Before it, where a flush comes
/// there, one put takes each 64 KiB of the lines of that flush, so that they are never whole in memory. What an event prints is
/// put to the second sink behind all that, in one put. It keeps a stamp for each object, and searches nothing but at a flush:
/// the visits are at most those that the flushes of the history make, eight for each event, and one for each object that an
/// event makes.
///
/// `Write` comes exactly where a put failed, and one of the two sinks counted one fault. After `Write` and after `NoMemory` the
/// one sink took a prefix of the trace, and the other a prefix of what is printed. Then the run was cut off in one turn, and the
/// visits are at most those that the turns up to it may make; before the first turn there are none.
pub fn run_guest<G: Guest + Drop, O: Sink, P: Sink, L: Ledger>(
    alloc: Global,
    program: &G::Code,
    options: &Options,
    start: Started<G>,
    trace: &mut O,
    printed: &mut P,
    visits: &mut Steps<L>,
) -> Result<Ran, RunFault>
    requires options { AreOptions options.now }
    requires clock { G.clock_of (G.state start.guest) ≡ 0 }
    requires sound { G.is_sound program.now (G.state start.guest) }
    requires first { IsStepTo nothing_made (G.graph_of (G.state start.guest)) [] }
    requires named { All (IsNamed (G.Code.names program.now)) start.made }
    ensures over { (reached : Graph → ℕ → Bool) → Decides reached → IfOk result (λ ran.
        IsOver reached (guest_setting G.Guest G.Code.Program program.now options.now)
        (G.said_of program.now) G.flush_visits_of (G.state start.guest) start.made
        (O.taken trace.old) (O.taken trace.new) (P.taken printed.old) (P.taken printed.new)
        visits.old visits.new ran) }
    ensures cut_off { (reached : Graph → ℕ → Bool) → Decides reached → OnErr result
        (IsCutOff reached (guest_setting G.Guest G.Code.Program program.now options.now)
        (G.said_of program.now) G.flush_visits_of (G.state start.guest) start.made
        (O.taken trace.old) (O.taken trace.new) (P.taken printed.old) (P.taken printed.new)
        visits.old visits.new) }
    ensures write { CountsWrite (is_write_fault result)
        (O.faults trace.old) (O.faults trace.new) (P.faults printed.old) (P.faults printed.new) }
    ensures never_falls { O.faults trace.old ≤ O.faults trace.new }
    ensures printed_never_falls { P.faults printed.old ≤ P.faults printed.new }
{
    let Started { mut guest, made } = start;
    let objects = guest.made();
    let room = match first_room::<G>(alloc, objects) {
        Ok(room) => room,
        Err(_) => return Err(RunFault::NoMemory),
    };
    let mut tracer = match Tracer::begin(alloc, program, options, &made, objects, room) {
        Ok(tracer) => tracer,
        Err(_) => return Err(RunFault::NoMemory),
    };
    put_all(trace, &tracer.buffer)?;
    let mut e = 0;
    'events: loop {
        tracer.buffer.clear();
        let progress = turn(program, options, e, &mut guest, &mut tracer, trace, visits)?;
        put_all(trace, &tracer.buffer)?;
        put_all(printed, &tracer.output.said)?;
        e += progress.quiet;
        let next = progress.end;
        match next {
            Some(end) => return Ok(Ran { end, event: e }),
            None => e += 1,
        }
    }
}
