//! The commands of files that run no program.
ghost use Rattle.std.specs.Prelude.{◌<◌, ℕ, List, All, length, map, string_bytes};
ghost use Rattle.et_replay.specs.declared.model.Kind.{Kind};
ghost use Rattle.et_command.specs.Command as words;
ghost use Rattle.et_files.specs.Told.{status_of_result};
ghost use Rattle.et_top.specs.Answers.{Answers};

use crate::answers::written;
use crate::models::replay_trace;
use crate::verdict::tell_verdict;
use et_command::Models;
use et_convert::convert_bytes;
use et_files::{
    Refusal, Status, follow_file, load_bytes, load_listing, load_program, load_trace_to, refuse,
};
use et_io::{Files, Sink, put_all};
use et_replay::{Curve, Happenings, HeapModel};
use et_snapshot::snapshot_lines;
use std::alloc::Global;

/// The command `asm`.
pub fn assemble<'a, F: Files, O: Sink>(
    alloc: Global,
    path: &'a str,
    files: &mut F,
    out: &mut O,
) -> Result<(), Refusal<'a>>
    ensures { (kinds : List Kind) (visits : ℕ) →
        Answers F.Files O.Sink files.old files.new out.old out.new visits visits
        kinds (words.Assemble path.now) (status_of_result result) }
{
    let bytes = load_listing(alloc, path, files)?;
    written(put_all(out, bytes.as_slice()))
}

/// The command `verify`.
pub fn verify<F: Files, O: Sink, E: Sink>(
    alloc: Global,
    paths: &[String],
    files: &mut F,
    out: &mut O,
    err: &mut E,
) -> Status
    requires some { 0 < length paths.now }
    ensures { (kinds : List Kind) (visits : ℕ) →
        Answers F.Files O.Sink files.old files.new out.old out.new visits visits
        kinds (words.Verify (map string_bytes paths.now)) result }
{
    match load_program(alloc, paths, files) {
        Ok(program) => tell_verdict(alloc, &program, out, err),
        Err(refusal) => refuse(alloc, err, &refusal),
    }
}

/// The command `convert`.
pub fn convert<'a, F: Files, O: Sink>(
    alloc: Global,
    path: &'a str,
    files: &mut F,
    out: &mut O,
) -> Result<(), Refusal<'a>>
    ensures { (kinds : List Kind) (visits : ℕ) →
        Answers F.Files O.Sink files.old files.new out.old out.new visits visits
        kinds (words.Convert path.now) (status_of_result result) }
{
    let bytes = load_bytes(alloc, path, files)?;
    written(convert_bytes(alloc, &bytes, out))
}

/// The command `curve`.
pub fn curve<'a, F: Files, O: Sink>(
    alloc: Global,
    path: &'a str,
    files: &mut F,
    out: &mut O,
) -> Result<(), Refusal<'a>>
    ensures { (kinds : List Kind) (visits : ℕ) →
        Answers F.Files O.Sink files.old files.new out.old out.new visits visits
        kinds (words.Curve path.now) (status_of_result result) }
{
    let curve = follow_file(alloc, path, files, Curve::begin(alloc))?;
    written(curve.put(alloc, out))
}

/// The command `snapshot`.
pub fn snapshot<'a, F: Files, O: Sink>(
    alloc: Global,
    path: &'a str,
    event: u64,
    files: &mut F,
    out: &mut O,
) -> Result<(), Refusal<'a>>
    ensures { (kinds : List Kind) (visits : ℕ) →
        Answers F.Files O.Sink files.old files.new out.old out.new visits visits
        kinds (words.Snapshot path.now event) (status_of_result result) }
{
    let trace = load_trace_to(alloc, path, event, files)?;
    written(snapshot_lines(alloc, &trace, event, out))
}

/// The command `replay`.
pub fn replay<'a, F: Files, O: Sink>(
    alloc: Global,
    asked: &Models,
    path: &'a str,
    files: &mut F,
    out: &mut O,
    models: Vec<Box<dyn HeapModel>>,
) -> Result<(), Refusal<'a>>
    requires new { All (λ b. is_new b) models.items }
    ensures { (visits : ℕ) →
        Answers F.Files O.Sink files.old files.new out.old out.new visits visits
        (map (λ b. kind_of b) models.items) (words.Replay asked.now path.now)
        (status_of_result result) }
{
    let happenings = follow_file(alloc, path, files, Happenings::begin(alloc))?;
    written(replay_trace(alloc, asked, happenings, models, out))
}
