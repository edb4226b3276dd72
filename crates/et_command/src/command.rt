//! The command that the words are.
ghost use Rattle.std.specs.Prelude.{◌≡◌, ◌<◌, length, map, string_bytes, option_map, IfOk, IfSome};
ghost use Rattle.et_state.specs.Options.{IsSchedule, AreOptions};
ghost use Rattle.et_command.specs.Parts.{split_of};
ghost use Rattle.et_command.specs.Command as command;
ghost use Rattle.et_command.specs.Asked.{asked_by, AreInRange};

use crate::numbers::{number, numbers};
use crate::options::{are_options, capacity, number_or, value_of};
use crate::split::{Given, Split, split_words};
use et_base::NoMemory;
use et_convert::version_format;
use et_state::{Options, Schedule};
use std::alloc::Global;

/// The two spaces of a generational heap, in bytes.
#[derive(Clone, Copy, Debug, PartialEq, Eq)]
pub struct Generations {
    pub nursery: u64,
    pub old: u64,
}

/// The models of a heap that replay a trace, with their capacities in bytes, from 1 to 2^60. There is at least one.
#[derive(Clone, Copy, Debug, PartialEq, Eq)]
pub struct Models {
    pub mark_sweep: Option<u64>,
    pub semispace: Option<u64>,
    pub generational: Option<Generations>,
    pub ref_count: Option<u64>,
}

impl Models {
    ghost use Rattle.std.specs.Prelude.{◌≡◌};
    ghost use Rattle.et_command.specs.Command.{is_any_model};

    /// Whether there is a model.
    fn is_any(&self) -> bool
        ensures { result ≡ is_any_model self.now }
    {
        self.mark_sweep.is_some()
            || self.semispace.is_some()
            || self.generational.is_some()
            || self.ref_count.is_some()
    }
}

/// A command with its options and operands.
#[derive(Drop)]
pub enum Command<'a> {
    /// The trace of the classes of these files, of which there is at least one; the first has `main`.
    Trace {
        options: Options,
        paths: &'a [String],
    },
    /// What the program of the classes of these files prints; as for a trace.
    Run {
        options: Options,
        paths: &'a [String],
    },
    /// The class file of a listing.
    Assemble(&'a str),
    /// Whether each method of these files, of which there is at least one, has a typing.
    Verify(&'a [String]),
    /// What models of a heap report of a trace.
    Replay {
        models: Models,
        path: &'a str,
    },
    /// A trace in its other spelling.
    Convert(&'a str),
    /// The live curve of a trace.
    Curve(&'a str),
    /// What stood in the heap of a trace at an event, of at most 2^40.
    Snapshot {
        path: &'a str,
        event: u64,
    },
    /// The summary of the run of a large program, whose choices are made from this number, below 2^63.
    Bench(u64),
}

/// The greatest interval, limit and quantum, in events.
const MOST_EVENTS: u64 = 1 << 40;

/// How the turns go: by a quantum, or by words, but not by both.
fn schedule_of(
    alloc: Global,
    quantum: Option<&[u8]>,
    words: Option<&[u8]>,
) -> Result<Option<Schedule>, NoMemory>
    ensures range { IfOk result (λ schedule. IfSome schedule IsSchedule) }
    ensures schedule { IfOk result (λ schedule. schedule ≡ command.schedule_of
        (option_map (λ text. text.now) quantum.entry) (option_map (λ text. text.now) words.entry)) }
{
    match (quantum, words) {
        (_, None) => Ok(number_or(100, 1, MOST_EVENTS, quantum).map(Schedule::Quantum)),
        (None, Some(text)) => Ok(numbers(alloc, text)?.map(Schedule::Words)),
        (Some(_), Some(_)) => Ok(None),
    }
}

/// How a program is run, in the format of this version.
fn options_of(
    alloc: Global,
    version: Option<u64>,
    given: &[Given<'_>],
) -> Result<Option<Options>, NoMemory>
    ensures options { IfOk result (λ options. options ≡ command.options_of version given.now) }
    ensures range { IfOk result (λ options. IfSome options AreOptions) }
{
    let Some(interval) = number_or(0, 0, MOST_EVENTS, value_of(b"flush", given)) else {
        return Ok(None);
    };
    let Some(limit) = number_or(1_000_000_000, 0, MOST_EVENTS, value_of(b"limit", given)) else {
        return Ok(None);
    };
    let Some(version) = version else {
        return Ok(None);
    };
    let schedule = schedule_of(
        alloc,
        value_of(b"quantum", given),
        value_of(b"words", given),
    )?;
    let Some(schedule) = schedule else {
        return Ok(None);
    };
    Ok(Some(Options {
        interval,
        limit,
        schedule,
        format: version_format(version),
    }))
}

/// What is written out of a program that runs: its trace, by `trace`, or what it prints, by `run`.
#[derive(Clone, Copy)]
enum Output {
    Trace,
    Prints,
}

impl Output {
    ghost use Rattle.std.specs.Prelude.{◌≡◌, map};
    ghost use Rattle.et_command.specs.Command as command;

    /// The names of the options.
    fn option_names(self) -> &'static [&'static [u8]]
        ensures { map (λ name. name.now) result.now ≡ command.option_names self }
    {
        match self {
            Output::Trace => &[b"flush", b"limit", b"format", b"quantum", b"words"],
            Output::Prints => &[b"flush", b"limit", b"quantum", b"words"],
        }
    }

    /// The version of the format, of which what is printed has one.
    fn format_version(self, given: &[Given<'_>]) -> Option<u64>
        ensures { result ≡ command.format_version self given.now }
    {
        match self {
            Output::Trace => number_or(1, 1, 2, value_of(b"format", given)),
            Output::Prints => Some(1),
        }
    }

    /// The command.
    fn runs<'a>(self, options: Options, paths: &'a [String]) -> Command<'a>
        requires range { AreOptions options }
        requires some { 0 < length paths.now }
        ensures asked { asked_by result ≡ command.runs self options (map string_bytes paths.now) }
        ensures range { AreInRange result }
    {
        match self {
            Output::Trace => Command::Trace { options, paths },
            Output::Prints => Command::Run { options, paths },
        }
    }
}

/// The options of a program that runs.
fn output_options(
    alloc: Global,
    output: Output,
    given: &[Given<'_>],
) -> Result<Option<Options>, NoMemory>
    ensures options { IfOk result
        (λ options. options ≡ command.output_options output given.now) }
    ensures range { IfOk result (λ options. IfSome options AreOptions) }
{
    if !are_options(output.option_names(), given) {
        return Ok(None);
    }
    let options = options_of(alloc, output.format_version(given), given)?;
    Ok(options)
}

/// A nursery and an old space, or neither.
fn spaces(nursery: Option<u64>, old: Option<u64>) -> Option<Option<Generations>>
    ensures { result ≡ command.generations nursery old }
{
    match (nursery, old) {
        (None, None) => Some(None),
        (Some(nursery), Some(old)) => Some(Some(Generations { nursery, old })),
        _ => None,
    }
}

/// The models that `replay` was given.
fn replay_options(given: &[Given<'_>]) -> Option<Models>
    ensures { result ≡ command.replay_options given.now }
{
    if !are_options(
        &[b"mark-sweep", b"semispace", b"nursery", b"old", b"refcount"],
        given,
    ) {
        return None;
    }
    let mark_sweep = capacity(value_of(b"mark-sweep", given))?;
    let semispace = capacity(value_of(b"semispace", given))?;
    let nursery = capacity(value_of(b"nursery", given))?;
    let old = capacity(value_of(b"old", given))?;
    let generational = spaces(nursery, old)?;
    let ref_count = capacity(value_of(b"refcount", given))?;
    let models = Models {
        mark_sweep,
        semispace,
        generational,
        ref_count,
    };
    models.is_any().then_some(models)
}

/// The one operand.
fn only_path<'a>(operands: &'a [String]) -> Option<&'a str>
    ensures { option_map (λ path. path.now) result
        ≡ command.only_path (map string_bytes operands.now) }
{
    match operands {
        [path] => Some(path.as_str()),
        _ => None,
    }
}

/// The one operand, where there are no options.
fn plain_path<'a>(parts: &Split<'a>) -> Option<&'a str>
    ensures { option_map (λ path. path.now) result ≡ command.plain_path (split_of parts.now) }
{
    if parts.options.is_empty() {
        only_path(parts.operands)
    } else {
        None
    }
}

/// One or more operands, where there are no options.
fn plain_paths<'a>(parts: &Split<'a>) -> Option<&'a [String]>
    ensures paths { option_map (λ paths. map string_bytes paths.now) result
        ≡ command.plain_paths (split_of parts.now) }
    ensures some { IfSome result (λ paths. 0 < length paths.now) }
{
    if parts.options.is_empty() && !parts.operands.is_empty() {
        Some(parts.operands)
    } else {
        None
    }
}

/// The command of a program that runs.
fn program<'a>(
    alloc: Global,
    output: Output,
    parts: &Split<'a>,
) -> Result<Option<Command<'a>>, NoMemory>
    ensures asked { IfOk result
        (λ asked. option_map asked_by asked ≡ command.program output (split_of parts.now)) }
    ensures range { IfOk result (λ asked. IfSome asked AreInRange) }
{
    if parts.operands.is_empty() {
        return Ok(None);
    }
    match output_options(alloc, output, &parts.options)? {
        Some(options) => Ok(Some(output.runs(options, parts.operands))),
        None => Ok(None),
    }
}

/// The command `replay`.
fn replay<'a>(parts: &Split<'a>) -> Option<Command<'a>>
    ensures asked { option_map asked_by result ≡ command.replay (split_of parts.now) }
    ensures range { IfSome result AreInRange }
{
    let path = only_path(parts.operands)?;
    let models = replay_options(&parts.options)?;
    Some(Command::Replay { models, path })
}

/// The command `snapshot`.
fn snapshot<'a>(parts: &Split<'a>) -> Option<Command<'a>>
    ensures asked { option_map asked_by result ≡ command.snapshot (split_of parts.now) }
    ensures range { IfSome result AreInRange }
{
    if !parts.options.is_empty() {
        return None;
    }
    let [path, event] = parts.operands else {
        return None;
    };
    Some(Command::Snapshot {
        path: path.as_str(),
        event: number(event.as_bytes(), 0, MOST_EVENTS)?,
    })
}

/// The greatest number from which `bench` makes its choices.
const MOST_SEED: u64 = (1 << 63) - 1;

/// The command `bench`.
fn bench<'a>(parts: &Split<'a>) -> Option<Command<'a>>
    ensures asked { option_map asked_by result ≡ command.bench (split_of parts.now) }
    ensures range { IfSome result AreInRange }
{
    let text = plain_path(parts)?;
    let number = number(text.as_bytes(), 0, MOST_SEED)?;
    Some(Command::Bench(number))
}

/// The command of this name, with these parts behind it.
fn asked<'a>(alloc: Global, name: &str, parts: &Split<'a>) -> Result<Option<Command<'a>>, NoMemory>
    ensures asked { IfOk result
        (λ asked. option_map asked_by asked ≡ command.asked name.now (split_of parts.now)) }
    ensures range { IfOk result (λ asked. IfSome asked AreInRange) }
{
    match name {
        "trace" => program(alloc, Output::Trace, parts),
        "run" => program(alloc, Output::Prints, parts),
        "asm" => Ok(plain_path(parts).map(Command::Assemble)),
        "verify" => Ok(plain_paths(parts).map(Command::Verify)),
        "replay" => Ok(replay(parts)),
        "convert" => Ok(plain_path(parts).map(Command::Convert)),
        "curve" => Ok(plain_path(parts).map(Command::Curve)),
        "snapshot" => Ok(snapshot(parts)),
        "bench" => Ok(bench(parts)),
        _ => Ok(None),
    }
}

/// The command that the words are, if they are one. The words are those behind the program's name: the command, then
/// options as `--name=value` or `--name value`, each at most once and in any order, then operands; a word `--` alone
/// ends the options. A number is 1 to 20 decimal digits.
pub fn read_words<'a>(alloc: Global, words: &'a [String]) -> Result<Option<Command<'a>>, NoMemory>
    ensures command { IfOk result
        (λ asked. option_map asked_by asked ≡ command.command (map string_bytes words.now)) }
    ensures range { IfOk result (λ asked. IfSome asked AreInRange) }
{
    let [name, behind @ ..] = words else {
        return Ok(None);
    };
    match split_words(alloc, behind)? {
        Some(parts) => asked(alloc, name.as_str(), &parts),
        None => Ok(None),
    }
}
