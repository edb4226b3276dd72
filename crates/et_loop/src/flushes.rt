//! The flushes of a run.
ghost use Rattle.std.specs.Prelude.{◌≡◌, ℕ, Bool, true, false, ◌+◌, ◌<◌, ◌≤◌, ◌^◌, ◌++◌, ◌↔◌, List, IsTrue, length, OnOk, OnErr, slice_index};
ghost use Rattle.et_io.specs.Faults.{count_after, is_write_fault};
ghost use Rattle.et_io.specs.Sink.{TakesUpTo, TakesPrefix};
ghost use Rattle.et_graph.specs.Graph.{IsReached};
ghost use Rattle.et_graph.specs.Listing.{death_pairs};
ghost use Rattle.et_state.specs.History.{flush_lines};
ghost use Rattle.et_binary.specs.Formats.{lines_written_in};
ghost use Rattle.et_loop.specs.Run.{due_lines, due_state, last_lines, PutsFlush, PutsLast};
ghost use Rattle.et_graph.specs.Listed.{AreListed};
ghost use Rattle.et_loop.specs.Going.{MayFlush};
ghost use Rattle.et_loop.specs.Kept.{Settles};
ghost use Rattle.et_loop.specs.Visits.{due_visits, last_visits};

use crate::guest::Guest;
use crate::options::Ran;
use crate::schedule::ended_as;
use crate::tracer::Tracer;
use et_base::{Format, Steps, TraceLine};
use et_binary::write_line_in;
use et_graph::Death;
use et_io::{RunFault, Sink, put_piece};
use std::sync::ledger::Ledger;

/// Gathers the lines of a flush behind what is in the buffer, and puts that in pieces of 64 KiB; what is less stays in the
/// buffer.
fn put_deaths<O: Sink>(
    format: Format,
    event: u64,
    deaths: &[Death],
    buffer: &mut Vec<u8>,
    sink: &mut O,
) -> Result<(), RunFault>
    requires { length deaths.now < 2 ^ 32 }
    ensures ok { OnOk result
        (TakesUpTo (O.taken sink.old) (O.taken sink.new) (buffer.old.items
        ++ lines_written_in format (flush_lines event (death_pairs deaths.now))) buffer.new.items) }
    ensures write { O.faults sink.new ≡ count_after (is_write_fault result) (O.faults sink.old) }
    ensures err { OnErr result (TakesPrefix (O.taken sink.old) (O.taken sink.new) (buffer.old.items
        ++ lines_written_in format (flush_lines event (death_pairs deaths.now)))) }
    ensures never_falls { O.faults sink.old ≤ O.faults sink.new }
{
    let line = TraceLine::Flush {
        event,
        deaths: deaths.len() as u32,
    };
    let Ok(()) = write_line_in(format, &line, buffer) else {
        return Err(RunFault::NoMemory);
    };
    'put: for death in deaths {
        let line = TraceLine::Death {
            object: death.object.number(),
            time: death.time,
        };
        let Ok(()) = write_line_in(format, &line, buffer) else {
            return Err(RunFault::NoMemory);
        };
        put_piece(sink, buffer)?;
    }
    Ok(())
}

/// The flush after event e, where it is due. Its lines are gathered behind what is in the buffer, and put in pieces of 64 KiB.
/// `Write` comes exactly where a put failed, and the sink counted one fault; after `Write` and after `NoMemory` the sink took a
/// prefix of them all.
pub fn settle<G: Guest, O: Sink, L: Ledger>(
    program: &G::Code,
    due: bool,
    e: u64,
    guest: &mut G,
    tracer: &mut Tracer<G::Room>,
    sink: &mut O,
    visits: &mut Steps<L>,
) -> Result<(), RunFault>
    requires { MayFlush G.Guest program.now (G.state guest.old) tracer.old.stamps tracer.old.room }
    ensures lines { OnOk result (PutsFlush
        (G.graph_of (G.state guest.old)) tracer.old.stamps tracer.old.format due e
        (O.taken sink.old) (O.taken sink.new) tracer.old.buffer.items tracer.new.buffer.items) }
    ensures err { (deaths : List (ℕ × ℕ)) → (due ≡ true →
        AreListed (G.graph_of (G.state guest.old)) (slice_index tracer.old.stamps) deaths) →
        OnErr result (TakesPrefix (O.taken sink.old) (O.taken sink.new) (tracer.old.buffer.items
        ++ lines_written_in tracer.old.format (due_lines due (flush_lines e deaths)))) }
    ensures write { O.faults sink.new ≡ count_after (is_write_fault result) (O.faults sink.old) }
    ensures never_falls { O.faults sink.old ≤ O.faults sink.new }
    ensures state { (here : ℕ → Bool) → ((o : ℕ) → IsTrue (here o)
        ↔ IsReached (G.graph_of (G.state guest.old)) o) → OnOk result (G.state guest.new
        ≡ due_state due (G.flushed_of here (G.state guest.old)) (G.state guest.old)) }
    ensures visits { (here : ℕ → Bool) →
        ((o : ℕ) → IsTrue (here o) ↔ IsReached (G.graph_of (G.state guest.old)) o) →
        visits.new ≤ visits.old + due_visits due (G.flush_visits_of here (G.state guest.old)) }
    ensures graph { OnOk result
        (Settles due (G.graph_of (G.state guest.old)) (G.graph_of (G.state guest.new))) }
    ensures clock { OnOk result
        (G.clock_of (G.state guest.new) ≡ G.clock_of (G.state guest.old)) }
    ensures sound { OnOk result (G.is_sound program.now (G.state guest.new)) }
    ensures room { OnOk result
        (G.has_places tracer.new.room (G.graph_of (G.state guest.new)).made) }
    ensures format { OnOk result (tracer.new.format ≡ tracer.old.format) }
    ensures stamps { OnOk result (tracer.new.stamps ≡ tracer.old.stamps) }
    ensures numbering { OnOk result (tracer.new.numbering ≡ tracer.old.numbering) }
    ensures next_flush { OnOk result (tracer.new.next_flush ≡ tracer.old.next_flush) }
    ensures rota { OnOk result (tracer.new.rota ≡ tracer.old.rota) }
    ensures output { OnOk result (tracer.new.output ≡ tracer.old.output) }
{
    if !due {
        return Ok(());
    }
    let Ok(()) = guest.flush(program, &tracer.stamps, &mut tracer.room, visits) else {
        return Err(RunFault::NoMemory);
    };
    put_deaths(
        tracer.format,
        e,
        G::deaths(&tracer.room),
        &mut tracer.buffer,
        sink,
    )
}

/// What stands at the end: a last flush, unless there was one after the same event, and the Z line. They are put as `settle` puts
/// lines.
pub fn conclude<G: Guest, O: Sink, L: Ledger>(
    program: &G::Code,
    due: bool,
    ran: &Ran,
    guest: &mut G,
    tracer: &mut Tracer<G::Room>,
    sink: &mut O,
    visits: &mut Steps<L>,
) -> Result<(), RunFault>
    requires { MayFlush G.Guest program.now (G.state guest.old) tracer.old.stamps tracer.old.room }
    ensures visits { (here : ℕ → Bool) → (due ≡ false →
        (o : ℕ) → IsTrue (here o) ↔ IsReached (G.graph_of (G.state guest.old)) o) →
        visits.new ≤ visits.old + last_visits due (G.flush_visits_of here (G.state guest.old)) }
    ensures lines { OnOk result (PutsLast
        (G.graph_of (G.state guest.old)) tracer.old.stamps tracer.old.format due ran.now
        (O.taken sink.old) (O.taken sink.new) tracer.old.buffer.items tracer.new.buffer.items) }
    ensures err { (deaths : List (ℕ × ℕ)) → (due ≡ false →
        AreListed (G.graph_of (G.state guest.old)) (slice_index tracer.old.stamps) deaths) →
        OnErr result (TakesPrefix (O.taken sink.old) (O.taken sink.new)
        (tracer.old.buffer.items ++ lines_written_in tracer.old.format
        (last_lines due ran.now.end ran.now.event (flush_lines ran.now.event deaths)))) }
    ensures write { O.faults sink.new ≡ count_after (is_write_fault result) (O.faults sink.old) }
    ensures never_falls { O.faults sink.old ≤ O.faults sink.new }
    ensures output { OnOk result (tracer.new.output ≡ tracer.old.output) }
{
    settle(program, !due, ran.event, guest, tracer, sink, visits)?;
    let line = TraceLine::Finish {
        event: ran.event,
        how: ended_as(&ran.end),
    };
    let Ok(()) = write_line_in(tracer.format, &line, &mut tracer.buffer) else {
        return Err(RunFault::NoMemory);
    };
    Ok(())
}
