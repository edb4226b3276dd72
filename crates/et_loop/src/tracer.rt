//! One turn of the run: a flush comes where it is due, then events are done, and what the last one lost and made is stamped.
ghost use Rattle.std.specs.Prelude.{◌≡◌, ◌≢◌, ℕ, ◌+◌, ◌<◌, ◌≤◌, ◌^◌, ◌++◌, ◌∷◌, All, Contains, length, IfOk, OnOk, OnErr, IfNone, slice_index};
ghost use Rattle.et_base.specs.declared.line.TraceLine.TheVariants.{Header};
ghost use Rattle.et_io.specs.Faults.{count_after, is_write_fault};
ghost use Rattle.et_state.specs.Naming.{IsNamed, nothing_mentioned, mentions_after, lines_of};
ghost use Rattle.et_state.specs.History.{is_flush_point};
ghost use Rattle.et_state.specs.Options.{AreOptions};
ghost use Rattle.et_text.specs.Ranges.{header_version};
ghost use Rattle.et_binary.specs.Formats.{lines_written_in};
ghost use Rattle.et_loop.specs.Options.{guest_setting};
ghost use Rattle.et_loop.specs.Naming.{HasClasses};
ghost use Rattle.et_loop.specs.Going.{IsReady, MayFlush};
ghost use Rattle.et_loop.specs.Pace.{IsNextFlush, IsRota};
ghost use Rattle.et_loop.specs.Quiet.{IsStep, IsBrokenStep, IsTurn, IsBrokenTurn};
ghost use Rattle.et_loop.specs.Run.{end_after};
ghost use Rattle.et_loop.specs.Stamping.{AreMade, HasStamps, Restamps};

use crate::flushes::{conclude, settle};
use crate::guest::Guest;
use crate::marks::restamp;
use crate::naming::Numbering;
use crate::next_flush::NextFlush;
use crate::options::Ran;
use crate::program::Program;
use crate::schedule::Rota;
use crate::slices::next_slice;
use et_base::{End, Format, NoMemory, Steps, ThreadId, TraceLine};
use et_binary::{header_version, write_line_in};
use et_graph::Stamps;
use et_io::{RunFault, Sink};
use et_state::{EventEnd, Lines, Options, Output};
use std::alloc::Global;
use std::sync::ledger::Ledger;

/// What a run keeps beside its guest. R is the room in which its flushes work.
#[derive(Drop)]
pub struct Tracer<R: Drop> {
    /// Where its lists are.
    pub alloc: Global,
    /// The stamp of each object.
    pub stamps: Stamps,
    /// The room of a flush.
    pub room: R,
    /// What the trace mentioned so far.
    pub numbering: Numbering,
    /// The format of the trace.
    pub format: Format,
    /// What the newest event put out. It is emptied before each turn, and keeps its room.
    pub output: Output,
    /// Lines that are to be put.
    pub buffer: Vec<u8>,
    /// When the next flush is due.
    pub next_flush: NextFlush,
    /// Whose turn it is.
    pub rota: Rota,
}

/// How far a turn went: so many quiet events were done, and then one more, or the history ended before that one.
#[derive(Clone, Copy)]
pub struct Progress {
    pub quiet: u64,
    pub end: Option<End>,
}

/// How the history ends, if it does, where an event of this thread went so.
fn end_after(thread: ThreadId, end: EventEnd) -> Option<End>
    requires { (method : ℕ) → end ≢ EventEnd.Native method }
    ensures { result ≡ end_after thread end }
{
    match end {
        EventEnd::Done | EventEnd::Waited => None,
        EventEnd::IllTyped { method, pc } => Some(End::IllTyped { thread, method, pc }),
        EventEnd::ObjectLimit => Some(End::ObjectLimit),
        EventEnd::Native { .. } => unreachable!(),
    }
}

/// Writes the lines of the newest event, which is the one after event e, and stamps what it lost and made. There were so many
/// objects before it, and they had places.
fn tell<G: Guest>(
    program: &G::Code,
    format: Format,
    e: u64,
    before: u32,
    guest: &G,
    tracer: &mut Tracer<G::Room>,
) -> Result<(), NoMemory>
    requires named { All (IsNamed (G.Code.names program.now)) tracer.old.output.records }
    requires classes { HasClasses (G.Code.names program.now) tracer.old.numbering }
    requires clock { e < 2 ^ 40 }
    requires more { before ≤ (G.graph_of (G.state guest.now)).made }
    requires lost { (o : ℕ) →
        Contains (G.lost_of guest.now) o → o ≤ (G.graph_of (G.state guest.now)).made }
    requires stamps { before < length tracer.old.stamps }
    requires room { G.has_places tracer.old.room before }
    ensures mentions { OnOk result (tracer.new.numbering ≡ mentions_after (G.Code.names program.now)
        tracer.old.numbering tracer.old.output.records) }
    ensures lines { OnOk result (tracer.new.buffer.items
        ≡ tracer.old.buffer.items ++ lines_written_in format (lines_of (G.Code.names program.now)
        tracer.old.numbering tracer.old.output.records)) }
    ensures classes { OnOk result (HasClasses (G.Code.names program.now) tracer.new.numbering) }
    ensures stamps { OnOk result (Restamps e before (G.graph_of (G.state guest.now)).made
        (G.lost_of guest.now) (slice_index tracer.old.stamps) (slice_index tracer.new.stamps)) }
    ensures places { OnOk result
        (HasStamps (G.graph_of (G.state guest.now)) tracer.new.stamps) }
    ensures room { OnOk result
        (G.has_places tracer.new.room (G.graph_of (G.state guest.now)).made) }
    ensures format { tracer.new.format ≡ tracer.old.format }
    ensures next_flush { tracer.new.next_flush ≡ tracer.old.next_flush }
    ensures rota { tracer.new.rota ≡ tracer.old.rota }
    ensures output { tracer.new.output ≡ tracer.old.output }
{
    tracer.numbering.write_records(
        format,
        program,
        tracer.output.records.records(),
        &mut tracer.buffer,
    )?;
    restamp(guest, e, before, &mut tracer.stamps, &mut tracer.room)
}

/// The events that one thread may do at once after event e, or how the history ends. Whatever it answers, it visits objects
/// eight times at most for each event, and once for each that the last one makes.
fn step<G: Guest, L: Ledger>(
    program: &G::Code,
    options: &Options,
    e: u64,
    due: bool,
    guest: &mut G,
    tracer: &mut Tracer<G::Room>,
    visits: &mut Steps<L>,
) -> Result<Progress, NoMemory>
    requires options { AreOptions options.now }
    requires ready { IsReady G.Guest G.Code.Program program.now options.now e (G.state guest.old)
        tracer.old.stamps tracer.old.numbering tracer.old.format tracer.old.rota tracer.old.room }
    requires made { AreMade (G.graph_of (G.state guest.old)) }
    requires due { due ≡ is_flush_point options.now.interval e }
    requires next_flush { IsNextFlush options.now.interval (e + 1) tracer.old.next_flush.event }
    ensures step { IfOk result (λ progress. IsStep
        (guest_setting G.Guest G.Code.Program program.now options.now) (G.said_of program.now)
        e (G.state guest.old) tracer.old.stamps visits.old visits.new tracer.old.numbering
        (G.state guest.new) tracer.new.numbering tracer.old.buffer.items tracer.new.buffer.items
        tracer.new.output.said.items tracer.new.stamps progress) }
    ensures broken { OnErr result (IsBrokenStep
        (guest_setting G.Guest G.Code.Program program.now options.now) (G.said_of program.now)
        e (G.state guest.old) tracer.old.stamps visits.old visits.new) }
    ensures flush { OnOk result (MayFlush G.Guest program.now (G.state guest.new)
        tracer.new.stamps tracer.new.room) }
    ensures format { OnOk result (tracer.new.format ≡ options.now.format) }
    ensures within { IfOk result (λ progress. e + progress.quiet ≤ options.now.limit) }
    ensures ready { IfOk result (λ progress. IfNone progress.end
        (IsReady G.Guest G.Code.Program program.now options.now (e + progress.quiet + 1)
        (G.state guest.new) tracer.new.stamps tracer.new.numbering
        tracer.new.format tracer.new.rota tracer.new.room)) }
    ensures next_flush { IfOk result (λ progress. IfNone progress.end
        (IsNextFlush options.now.interval (e + progress.quiet + 1) tracer.new.next_flush.event)) }
{
    tracer.output.clear();
    let count = guest.unended();
    if count == 0 {
        return Ok(Progress {
            quiet: 0,
            end: Some(End::Finished),
        });
    }
    if e == options.limit {
        return Ok(Progress {
            quiet: 0,
            end: Some(End::EventLimit),
        });
    }
    let slice = next_slice(options, e, due, count, &tracer.next_flush, &mut tracer.rota);
    let thread = guest.unended_at(slice.place);
    let before = guest.made();
    let stretch = guest.events(
        tracer.alloc,
        program,
        slice,
        &mut tracer.output,
        &mut tracer.stamps,
        visits,
    )?;
    let quiet = stretch.quiet;
    match end_after(thread, stretch.end) {
        None => {
            tell(program, options.format, e + quiet, before, guest, tracer)?;
            Ok(Progress { quiet, end: None })
        }
        Some(end) => Ok(Progress {
            quiet,
            end: Some(end),
        }),
    }
}

impl<R: Drop> Tracer<R> {
    /// Begins with the H line and the records of the starting state, and with a place for each of so many objects.
    pub fn begin<P: Program>(
        alloc: Global,
        program: &P,
        options: &Options,
        made: &Lines,
        objects: u32,
        room: R,
    ) -> Result<Tracer<R>, NoMemory>
        requires named { All (IsNamed (P.names program.now)) made.now }
        requires options { AreOptions options.now }
        ensures stamps { IfOk result (λ t. (o : ℕ) → slice_index t.stamps o ≡ 0) }
        ensures places { IfOk result (λ t. objects < length t.stamps) }
        ensures room { IfOk result (λ t. t.room ≡ room) }
        ensures mentions { IfOk result
            (λ t. t.numbering ≡ mentions_after (P.names program.now) nothing_mentioned made.now) }
        ensures classes { IfOk result (λ t. HasClasses (P.names program.now) t.numbering) }
        ensures format { IfOk result (λ t. t.format ≡ options.now.format) }
        ensures lines { IfOk result (λ t. t.buffer.items ≡ lines_written_in options.now.format
            (Header (header_version options.now.format) options.now.interval
            ∷ lines_of (P.names program.now) nothing_mentioned made.now)) }
        ensures next_flush { IfOk result
            (λ t. IsNextFlush options.now.interval 0 t.next_flush.event) }
        ensures rota { IfOk result (λ t. IsRota options.now.schedule 0 t.rota) }
    {
        let format = options.format;
        let mut buffer = Vec::new(alloc);
        let line = TraceLine::Header {
            version: header_version(format),
            interval: options.interval,
        };
        write_line_in(format, &line, &mut buffer)?;
        let mut numbering = Numbering::begin(alloc);
        numbering.write_records(format, program, made.records(), &mut buffer)?;
        let mut stamps = Stamps::begin(alloc);
        stamps.grow(objects)?;
        Ok(Tracer {
            alloc,
            stamps,
            room,
            numbering,
            format,
            output: Output::begin(alloc),
            buffer,
            next_flush: NextFlush::begin(options.interval),
            rota: Rota::begin(),
        })
    }
}

/// One turn of the run after event e: a flush comes where it is due, and then events are done at once, the last of which alone
/// may have lines or print, or the history ends. The lines of a flush are put in pieces of 64 KiB, and what is less stays in the
/// buffer with the other lines of the turn. `Write` comes exactly where a put failed, and the sink counted one fault. After it
/// and after `NoMemory` the sink took a prefix of the lines, and no more visits of objects were made than the turn may.
pub fn turn<G: Guest, O: Sink, L: Ledger>(
    program: &G::Code,
    options: &Options,
    e: u64,
    guest: &mut G,
    tracer: &mut Tracer<G::Room>,
    sink: &mut O,
    visits: &mut Steps<L>,
) -> Result<Progress, RunFault>
    requires options { AreOptions options.now }
    requires ready { IsReady G.Guest G.Code.Program program.now options.now e (G.state guest.old)
        tracer.old.stamps tracer.old.numbering tracer.old.format tracer.old.rota tracer.old.room }
    requires made { AreMade (G.graph_of (G.state guest.old)) }
    requires next_flush { IsNextFlush options.now.interval e tracer.old.next_flush.event }
    ensures turn { IfOk result (λ progress. IsTurn
        (guest_setting G.Guest G.Code.Program program.now options.now) (G.said_of program.now)
        e (G.state guest.old) tracer.old.stamps visits.old visits.new G.flush_visits_of
        tracer.old.numbering (G.state guest.new) tracer.new.numbering
        (O.taken sink.old) (O.taken sink.new) tracer.old.buffer.items tracer.new.buffer.items
        tracer.new.output.said.items tracer.new.stamps progress) }
    ensures broken { OnErr result (IsBrokenTurn
        (guest_setting G.Guest G.Code.Program program.now options.now) (G.said_of program.now)
        e (G.state guest.old) tracer.old.stamps visits.old visits.new G.flush_visits_of
        (O.taken sink.old) (O.taken sink.new) tracer.old.buffer.items) }
    ensures write { O.faults sink.new ≡ count_after (is_write_fault result) (O.faults sink.old) }
    ensures never_falls { O.faults sink.old ≤ O.faults sink.new }
    ensures within { IfOk result (λ progress. e + progress.quiet ≤ options.now.limit) }
    ensures ready { IfOk result (λ progress. IfNone progress.end
        (IsReady G.Guest G.Code.Program program.now options.now (e + progress.quiet + 1)
        (G.state guest.new) tracer.new.stamps tracer.new.numbering
        tracer.new.format tracer.new.rota tracer.new.room)) }
    ensures next_flush { IfOk result (λ progress. IfNone progress.end
        (IsNextFlush options.now.interval (e + progress.quiet + 1) tracer.new.next_flush.event)) }
{
    let due = tracer.next_flush.pass(options.interval, e);
    settle(program, due, e, guest, tracer, sink, visits)?;
    let Ok(progress) = step(program, options, e, due, guest, tracer, visits) else {
        return Err(RunFault::NoMemory);
    };
    let event = e + progress.quiet;
    let end = progress.end;
    match end {
        None => Ok(progress),
        Some(end) => {
            let ran = Ran { end, event };
            conclude(program, due, &ran, guest, tracer, sink, visits)?;
            Ok(progress)
        }
    }
}
