//! The trace of the file that a command names, in either spelling, followed as it is read.
ghost use Rattle.std.specs.Prelude.{◌<◌, ◌^◌, [], List, Result, Ok, All, length, IfOk, IfErr};
ghost use Rattle.et_base.specs.declared.line.TraceLine.{TraceLine};
ghost use Rattle.et_convert.specs.Spellings.{SpellsTrace};
ghost use Rattle.et_text.specs.Ranges.{HasShortNames};
ghost use Rattle.et_files.specs.Answered.{Loads};
ghost use Rattle.et_files.specs.Faults.{Fault};
ghost use Rattle.et_files.specs.Following.{FollowsBytes, FollowsTrace, TellsOf};
ghost use Rattle.et_files.specs.Loaded.{most_of_trace, IsTraceOf};
ghost use Rattle.et_files.specs.Told.{IsOfBytes, Names, cause_of};

use crate::files::read_file;
use crate::refusal::Refusal;
use crate::traces::MOST_TRACE_BYTES;
use et_convert::laws::{
    conversions_are_traces, spelled_lists_differ, spelled_traces_have_no_fault,
    spelling_faults_are_one,
};
use et_convert::{Unkept, follow_trace};
use et_io::Files;
use et_text::{Follower, TraceFault};
use std::alloc::Global;

/// What followed the lines of these bytes, which the file at the path holds.
fn follow_in<'a, F: Follower>(
    alloc: Global,
    path: &'a str,
    bytes: &[u8],
    follower: F,
) -> Result<F, Refusal<'a>>
    requires new { F.follows follower [] }
    ensures tells { (trace : Result (List TraceLine) Fault) → IsTraceOf (Ok bytes.now) trace →
        TellsOf ⊥ (FollowsBytes F.follows bytes.now) trace result }
    ensures trace { IfOk result (λ follower. (lines : List TraceLine)
        × FollowsBytes F.follows bytes.now lines follower) }
    ensures bytes { IfErr result (λ refusal. IsOfBytes (cause_of refusal)) }
    ensures names { IfErr result (Names path.now) }
{
    // Laws: they tell the prover, and do nothing.
    spelling_faults_are_one();
    spelled_lists_differ();
    spelled_traces_have_no_fault();
    match follow_trace(alloc, bytes, follower) {
        Ok(follower) => Ok(follower),
        Err(TraceFault::At { kind, line }) => Err(Refusal::BadTrace { path, kind, line }),
        Err(TraceFault::NoMemory) => Err(Refusal::NoMemory),
    }
}

/// What followed the lines of the trace at the path.
pub fn follow_file<'a, F: Follower, S: Files>(
    alloc: Global,
    path: &'a str,
    files: &mut S,
    follower: F,
) -> Result<F, Refusal<'a>>
    requires new { F.follows follower [] }
    ensures loads { Loads S.Files files.old files.new path.now most_of_trace IsTraceOf
        (λ read. TellsOf read (FollowsTrace F.follows)) result }
    ensures trace { IfOk result (λ follower. (lines : List TraceLine)
        × FollowsTrace F.follows lines follower) }
{
    let bytes = read_file(alloc, path, MOST_TRACE_BYTES, files)?;
    follow_in(alloc, path, &bytes, follower)
}

/// The bytes where they are those of a trace.
fn checked<'a>(alloc: Global, path: &'a str, bytes: Vec<u8>) -> Result<Vec<u8>, Refusal<'a>>
    requires small { length bytes.items < 2 ^ 32 }
    ensures tells { (trace : Result (List TraceLine) Fault) → IsTraceOf (Ok bytes.items) trace →
        TellsOf ⊥ (λ lines same. SpellsTrace lines same.items) trace result }
    ensures trace { IfOk result (λ same. (lines : List TraceLine)
        × SpellsTrace lines same.items × All HasShortNames lines) }
    ensures bytes { IfErr result (λ refusal. IsOfBytes (cause_of refusal)) }
    ensures names { IfErr result (Names path.now) }
{
    // A law: it tells the prover, and does nothing.
    conversions_are_traces();
    follow_in(alloc, path, &bytes, Unkept {})?;
    Ok(bytes)
}

/// The bytes of the trace at the path.
pub fn load_bytes<'a, S: Files>(
    alloc: Global,
    path: &'a str,
    files: &mut S,
) -> Result<Vec<u8>, Refusal<'a>>
    ensures loads { Loads S.Files files.old files.new path.now most_of_trace IsTraceOf
        (λ read. TellsOf read (λ lines bytes. SpellsTrace lines bytes.items)) result }
    ensures trace { IfOk result (λ bytes. (lines : List TraceLine)
        × SpellsTrace lines bytes.items × All HasShortNames lines) }
{
    let bytes = read_file(alloc, path, MOST_TRACE_BYTES, files)?;
    checked(alloc, path, bytes)
}
