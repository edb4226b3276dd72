//! The top call: all that the program does.
ghost use Rattle.std.specs.Prelude.{◌≡◌, ◌⊎◌, ℕ, Bool, None, All, map, string_bytes};
ghost use Rattle.et_io.specs.Faults.{Rose, count_after};
ghost use Rattle.et_io.specs.Files.{Held};
ghost use Rattle.et_graph.specs.Graph.{Graph, Decides};
ghost use Rattle.et_command.specs.Command.{command};
ghost use Rattle.et_command.specs.Asked.{asked_by, AreInRange};
ghost use Rattle.et_files.specs.Reads.{ReadsInOrder};
ghost use Rattle.et_top.specs.Answers.{Answers};
ghost use Rattle.et_top.specs.Paths.{paths_of, most_of};
ghost use Rattle.et_files.specs.Status.{is_read_status, is_write_status};
ghost use Rattle.et_top.specs.Top.{Defined, IsDefined, GivesDefined};
ghost use Rattle.et_top.specs.Visits.{IsWithoutRun, IsNoTrace, HasUnread};

use crate::answers::answer;
use crate::bench::{CELLS, ROUNDS, bench};
use crate::commands::{assemble, convert, curve, replay, snapshot, verify};
use crate::programs::{Output, run};
use et_base::Steps;
use et_command::{Command, read_words};
use et_files::{Refusal, Status, load_program, refuse};
use et_io::{Files, Sink};
use et_replay::HeapModel;
use std::alloc::Global;
use std::sync::ledger::Ledger;

/// The command, where the words are one.
fn perform<F: Files, O: Sink, E: Sink, L: Ledger>(
    alloc: Global,
    command: &Command<'_>,
    files: &mut F,
    out: &mut O,
    err: &mut E,
    models: Vec<Box<dyn HeapModel>>,
    visits: &mut Steps<L>,
) -> Status
    requires new { All (λ b. is_new b) models.items }
    requires range { AreInRange command.now }
    ensures { Answers F.Files O.Sink files.old files.new out.old out.new visits.old visits.new
        (map (λ b. kind_of b) models.items) (asked_by command.now) result }
{
    match command {
        Command::Trace { options, paths } => {
            let loaded = load_program(alloc, *paths, files);
            run(alloc, Output::Trace, options, loaded, out, err, visits)
        }
        Command::Run { options, paths } => {
            let loaded = load_program(alloc, *paths, files);
            run(alloc, Output::Prints, options, loaded, out, err, visits)
        }
        Command::Assemble(path) => answer(alloc, assemble(alloc, *path, files, out), err),
        Command::Verify(paths) => verify(alloc, *paths, files, out, err),
        Command::Replay {
            models: asked,
            path,
        } => answer(alloc, replay(alloc, asked, *path, files, out, models), err),
        Command::Convert(path) => answer(alloc, convert(alloc, *path, files, out), err),
        Command::Curve(path) => answer(alloc, curve(alloc, *path, files, out), err),
        Command::Snapshot { path, event } => {
            answer(alloc, snapshot(alloc, *path, *event, files, out), err)
        }
        Command::Bench(number) => bench(alloc, *number, CELLS, ROUNDS, out, err, visits),
    }
}

/// All that the program does. The words are those behind the program's name; the command's output goes to out, and a
/// line for each refusal to err. The models are new.
///
/// - `trace` reads the class files at the paths in their order, links them (JVMS 5.3, 5.4), runs their program from its
///   first state by the options, and writes the trace of its history. The counter tells how often objects were visited.
/// - `run` reads and runs the same by the same options but that of the format, and writes the bytes that the program prints, and
///   no trace.
/// - `asm` reads a listing and writes its class file.
/// - `verify` reads the class files at the paths as `trace` does and links them. Where each of their methods that have code
///   has a typing it writes how many these are; `Rejected` says which is the first that has none.
/// - `replay` reads a trace and writes a line for each of the models whose kind is asked for, in their order: what it
///   reports of the trace. The other models are dropped.
/// - `convert` reads a trace and writes the same lines in the other spelling, with its version in the header: binary for a
///   text, and a text for what is binary.
/// - `curve` reads a trace and writes its live curve.
/// - `snapshot` reads a trace and writes what stood in the heap at an event, which is no later than its last.
/// - `bench` assembles a large program whose choices are made from a number, runs it into memory, reads its trace back, and
///   writes what that comes to. The counter tells how often objects were visited.
///
/// A trace is written in the format that the options name. It is read in either spelling: bytes that begin with FE are
/// binary, and all others a text.
///
/// What is defined is said for all files that agree with what was read in this call, and of what out took by its log.
///
/// Refusals come in this order: the words; of each file the read, the length and what it holds; the event of a snapshot;
/// linking; a method that is rejected; the run. Each file is read once, for no more bytes than the limit of its kind, and only
/// when the one before it was found good. A read that fails counts one fault and is answered so, and so does a put; no other
/// answer changes these counts. A read that failed is the last one, and so is a put. Until all that is read is known to be good,
/// and to link, nothing is put to out; after `WriteFault` and `NoMemory` out took a prefix of the output. A fault of err changes
/// nothing. Only the run of a program or of a bench visits objects: no other answer
/// changes the counter, nor does `NoMemory` where neither is defined or a file was not read.
pub fn elephant<F: Files, O: Sink, E: Sink, L: Ledger>(
    alloc: Global,
    words: &[String],
    files: &mut F,
    out: &mut O,
    err: &mut E,
    models: Vec<Box<dyn HeapModel>>,
    visits: &mut Steps<L>,
) -> Status
    requires new { All (λ b. is_new b) models.items }
    ensures answers { (held : Held) → F.agrees files.new (F.asked files.old) held → (d : Defined) →
        IsDefined (map (λ b. kind_of b) models.items) (map string_bytes words.now) held d →
        (reached : Graph → ℕ → Bool) → Decides reached → GivesDefined reached (O.taken out.old)
        (O.taken out.new) visits.old visits.new (Rose (F.faults files.old) (F.faults files.new))
        (Rose (O.faults out.old) (O.faults out.new)) d result }
    ensures usage { result ≡ Status.Usage → command (map string_bytes words.now) ≡ None }
    ensures no_command { command (map string_bytes words.now) ≡ None →
        (result ≡ Status.Usage) ⊎ (result ≡ Status.NoMemory) }
    ensures read_fault { F.faults files.new
        ≡ count_after (is_read_status result) (F.faults files.old) }
    ensures write_fault { O.faults out.new
        ≡ count_after (is_write_status result) (O.faults out.old) }
    ensures reads { ReadsInOrder (F.agrees files.new (F.asked files.old)) (F.asked files.old)
        (F.asked files.new) (most_of (command (map string_bytes words.now)))
        (paths_of (command (map string_bytes words.now))) result }
    ensures no_visits { IsWithoutRun (command (map string_bytes words.now)) result →
        visits.new ≡ visits.old }
    ensures no_trace { (held : Held) → F.agrees files.new (F.asked files.old) held → (d : Defined) →
        IsDefined (map (λ b. kind_of b) models.items) (map string_bytes words.now) held d →
        IsNoTrace d → visits.new ≡ visits.old }
    ensures unread { HasUnread (F.asked files.old) (F.asked files.new)
        (paths_of (command (map string_bytes words.now))) → visits.new ≡ visits.old }
{
    let asked = match read_words(alloc, words) {
        Ok(asked) => asked,
        Err(_) => return refuse(alloc, err, &Refusal::NoMemory),
    };
    match &asked {
        Some(command) => perform(alloc, command, files, out, err, models, visits),
        None => refuse(alloc, err, &Refusal::Usage),
    }
}
