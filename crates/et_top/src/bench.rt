//! The command `bench`: the program of a listing is run, and what its trace comes to is written.
ghost use Rattle.std.specs.Prelude.{◌≡◌, ℕ, Bool, false, List, Result, IfOk, IfErr, string_bytes};
ghost use Rattle.et_base.specs.declared.line.TraceLine.{TraceLine};
ghost use Rattle.et_io.specs.Faults.{Rose, count_after};
ghost use Rattle.et_graph.specs.Graph.{Graph, Decides};
ghost use Rattle.et_program.specs.Entries.{Linked};
ghost use Rattle.et_bench.specs.Listing.{bench_listing};
ghost use Rattle.et_bench.specs.Totals.{summary_text};
ghost use Rattle.et_files.specs.Loaded.{IsListingProgram};
ghost use Rattle.et_files.specs.Faults.{Fault};
ghost use Rattle.et_files.specs.Status.{is_read_status, is_write_status};
ghost use Rattle.et_files.specs.Told.{Tells, IsOfBytes, cause_of};
ghost use Rattle.et_top.specs.Answers.{AnswersBench};
ghost use Rattle.et_top.specs.Bench.{AreBenchNumbers, IsReadBack, IsNotReadBack};
ghost use Rattle.et_top.specs.Top.{GivesBench};
ghost use Rattle.et_top.specs.Visits.{IsBeforeBench};

use crate::answers::answer_fault;
use crate::discard::Discard;
use crate::programs::answer_end;
use et_base::{End, Format, Steps};
use et_bench::{bench_listing, bench_summary};
use et_convert::read_text;
use et_files::{Refusal, Status, program_of_listing, refuse};
use et_io::{MemSink, Sink, put_all};
use et_link::Program;
use et_state::{Options, Schedule};
use et_text::{Trace, TraceFault};
use std::alloc::Global;
use std::sync::ledger::Ledger;

/// The cells of the command.
pub const CELLS: u32 = 50_000;

/// The rounds of the command.
pub const ROUNDS: u32 = 40_000;

/// What a refusal names in the place of a file.
const NAME: &str = "bench";

/// The program of the listing with these numbers.
fn program_of_bench<'a>(
    alloc: Global,
    number: u64,
    cells: u32,
    rounds: u32,
) -> Result<Program, Refusal<'a>>
    requires { AreBenchNumbers number cells rounds }
    ensures tells { (p : Result Linked Fault) →
        IsListingProgram (bench_listing number cells rounds) p →
        Tells ⊥ (λ program. program) p result }
    ensures bytes { IfErr result (λ refusal. IsOfBytes (cause_of refusal)) }
{
    match bench_listing(alloc, number, cells, rounds) {
        Ok(listing) => program_of_listing(alloc, NAME, &listing),
        Err(_) => Err(Refusal::NoMemory),
    }
}

/// A trace that was read back, and how its history ended.
#[derive(Drop)]
struct ReadBack {
    end: End,
    trace: Trace,
}

/// Runs the program into memory, and reads its trace back.
fn read_back<L: Ledger>(
    alloc: Global,
    program: &Program,
    visits: &mut Steps<L>,
) -> Result<ReadBack, TraceFault>
    ensures ok { (reached : Graph → ℕ → Bool) → Decides reached → IfOk result (λ back. (event : ℕ)
        × IsReadBack reached program.now visits.old visits.new event back.end back.trace) }
    ensures err { (reached : Graph → ℕ → Bool) → Decides reached →
        IfErr result (IsNotReadBack reached program.now visits.old visits.new) }
{
    let options = Options {
        interval: 100_000,
        limit: 1_000_000_000,
        schedule: Schedule::Quantum(100),
        format: Format::Text,
    };
    let mut sink = MemSink::begin(alloc, u64::MAX);
    match et_run::run(alloc, program, &options, &mut sink, &mut Discard, visits) {
        Ok(ran) => match read_text(alloc, sink.bytes()) {
            Ok(trace) => Ok(ReadBack {
                end: ran.end,
                trace,
            }),
            Err(fault) => Err(fault),
        },
        Err(_) => Err(TraceFault::NoMemory),
    }
}

/// The summary of a history, and how it ended.
#[derive(Drop)]
struct Summary {
    end: End,
    text: String,
}

/// Runs the program, and sums up its trace.
fn summary_of<L: Ledger>(
    alloc: Global,
    program: &Program,
    visits: &mut Steps<L>,
) -> Result<Summary, TraceFault>
    ensures ok { (reached : Graph → ℕ → Bool) → Decides reached →
        IfOk result (λ summary. (event : ℕ) × (lines : List TraceLine)
        × IsReadBack reached program.now visits.old visits.new event summary.end lines
        × (string_bytes summary.text ≡ summary_text reached lines)) }
    ensures err { (reached : Graph → ℕ → Bool) → Decides reached →
        IfErr result (IsNotReadBack reached program.now visits.old visits.new) }
{
    let back = read_back(alloc, program, visits)?;
    match bench_summary(alloc, &back.trace) {
        Ok(text) => Ok(Summary {
            end: back.end,
            text,
        }),
        Err(_) => Err(TraceFault::NoMemory),
    }
}

/// Writes the summary of a history that ended so.
fn put_summary<O: Sink, E: Sink>(
    alloc: Global,
    program: &Program,
    summary: &Summary,
    out: &mut O,
    err: &mut E,
) -> Status
    ensures gives { (reached : Graph → ℕ → Bool) (old new event : ℕ) (lines : List TraceLine) →
        IsReadBack reached program.now old new event summary.now.end lines →
        string_bytes summary.now.text ≡ summary_text reached lines →
        GivesBench reached (O.taken out.old) (O.taken out.new) old new
        (Rose (O.faults out.old) (O.faults out.new)) program.now result }
    ensures write_fault { O.faults out.new
        ≡ count_after (is_write_status result) (O.faults out.old) }
    ensures no_read { is_read_status result ≡ false }
    ensures of_run { IsBeforeBench result → ⊥ }
{
    match put_all(out, summary.text.as_bytes()) {
        Ok(()) => answer_end(alloc, program, summary.end, err),
        Err(fault) => answer_fault(alloc, fault, err),
    }
}

/// The bench of a program: it is run into memory, its trace is read back, and the summary goes to out.
fn sum_up<O: Sink, E: Sink, L: Ledger>(
    alloc: Global,
    program: &Program,
    out: &mut O,
    err: &mut E,
    visits: &mut Steps<L>,
) -> Status
    ensures gives { (reached : Graph → ℕ → Bool) → Decides reached →
        GivesBench reached (O.taken out.old) (O.taken out.new) visits.old visits.new
        (Rose (O.faults out.old) (O.faults out.new)) program.now result }
    ensures write_fault { O.faults out.new
        ≡ count_after (is_write_status result) (O.faults out.old) }
    ensures no_read { is_read_status result ≡ false }
    ensures of_run { IsBeforeBench result → ⊥ }
{
    match summary_of(alloc, program, visits) {
        Ok(summary) => put_summary(alloc, program, &summary, out, err),
        Err(TraceFault::At { kind, line }) => {
            let path = NAME;
            refuse(alloc, err, &Refusal::BadTrace { path, kind, line })
        }
        Err(TraceFault::NoMemory) => refuse(alloc, err, &Refusal::NoMemory),
    }
}

/// The bench of the listing with these numbers, and a line for each refusal on err.
pub fn bench<O: Sink, E: Sink, L: Ledger>(
    alloc: Global,
    number: u64,
    cells: u32,
    rounds: u32,
    out: &mut O,
    err: &mut E,
    visits: &mut Steps<L>,
) -> Status
    requires { AreBenchNumbers number cells rounds }
    ensures { AnswersBench O.Sink out.old out.new visits.old visits.new number cells rounds result }
{
    match program_of_bench(alloc, number, cells, rounds) {
        Ok(program) => sum_up(alloc, &program, out, err, visits),
        Err(refusal) => refuse(alloc, err, &refusal),
    }
}

/// Writes the summary of `bench` for the listing with these numbers: it is assembled, read, linked and run with a flush
/// each 100,000 events, a quantum of 100 and at most 1,000,000,000 events into memory; the trace is read back, and
/// replayed by a mark-sweep heap. The answer is that of the history's end. A fault of the listing, its class or its
/// linking, or of the trace, is answered as it is for a file. After `WriteFault` and `NoMemory` out took a prefix of the two
/// lines, or nothing.
///
/// As it is written, and by no clause: bytes are put only once both lines are there.
pub fn bench_run<O: Sink, L: Ledger>(
    alloc: Global,
    number: u64,
    cells: u32,
    rounds: u32,
    out: &mut O,
    visits: &mut Steps<L>,
) -> Status
    requires { AreBenchNumbers number cells rounds }
    ensures { AnswersBench O.Sink out.old out.new visits.old visits.new number cells rounds result }
{
    let mut unheard = MemSink::begin(alloc, u64::MAX);
    bench(alloc, number, cells, rounds, out, &mut unheard, visits)
}
