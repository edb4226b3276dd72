//! The trace of the file that a command names, in either spelling.
ghost use Rattle.std.specs.Prelude.{◌≡◌, ◌<◌, ◌^◌, List, Result, Ok, Some, All, length, IfOk, IfErr};
ghost use Rattle.et_base.specs.declared.line.TraceLine.{TraceLine};
ghost use Rattle.et_io.specs.Faults.{Rose};
ghost use Rattle.et_io.specs.Files.{Held};
ghost use Rattle.et_text.specs.Ranges.{HasShortNames};
ghost use Rattle.et_files.specs.Answered.{Loads, ReadsOne};
ghost use Rattle.et_files.specs.Faults.{Fault};
ghost use Rattle.et_files.specs.Loaded.{file_bytes, most_of_trace, IsTraceOf, last_event, reaching};
ghost use Rattle.et_files.specs.Told.{Tells, IsOfBytes, Names, cause_of};

use crate::files::read_file;
use crate::refusal::Refusal;
use et_base::TraceLine;
use et_convert::laws::{
    conversions_are_traces, spelled_lists_differ, spelled_traces_have_no_fault,
    spelling_faults_are_one,
};
use et_convert::read_trace;
use et_io::Files;
use et_text::{Trace, TraceFault};
use std::alloc::Global;

/// The longest trace that is read, in bytes.
pub const MOST_TRACE_BYTES: u64 = 268_435_456;

/// The trace of these bytes, which the file at the path holds.
fn trace_in<'a>(alloc: Global, path: &'a str, bytes: &[u8]) -> Result<Trace, Refusal<'a>>
    ensures tells { (trace : Result (List TraceLine) Fault) →
        IsTraceOf (Ok bytes.now) trace → Tells ⊥ (λ lines. lines) trace result }
    ensures short { length bytes.now < 2 ^ 32 → IfOk result (λ trace. All HasShortNames trace) }
    ensures bytes { IfErr result (λ refusal. IsOfBytes (cause_of refusal)) }
    ensures names { IfErr result (Names path.now) }
{
    // Laws: they tell the prover, and do nothing.
    spelling_faults_are_one();
    spelled_lists_differ();
    spelled_traces_have_no_fault();
    conversions_are_traces();
    match read_trace(alloc, bytes) {
        Ok(trace) => Ok(trace),
        Err(TraceFault::At { kind, line }) => Err(Refusal::BadTrace { path, kind, line }),
        Err(TraceFault::NoMemory) => Err(Refusal::NoMemory),
    }
}

/// The trace at the path.
fn load_trace<'a, F: Files>(
    alloc: Global,
    path: &'a str,
    files: &mut F,
) -> Result<Trace, Refusal<'a>>
    ensures loads { Loads F.Files files.old files.new path.now most_of_trace IsTraceOf
        (λ read. Tells read (λ lines. lines)) result }
    ensures short { IfOk result (λ trace. All HasShortNames trace) }
{
    let bytes = read_file(alloc, path, MOST_TRACE_BYTES, files)?;
    trace_in(alloc, path, &bytes)
}

/// The event of the Z line, which is the last line of a trace; 0 of lines that have none there.
pub fn last_event(lines: &[TraceLine]) -> u64
    ensures { result ≡ last_event lines.now }
{
    match lines.last() {
        Some(TraceLine::Finish { event, .. }) => *event,
        _ => 0,
    }
}

/// The trace at the path, which doesn't end before the event.
pub fn load_trace_to<'a, F: Files>(
    alloc: Global,
    path: &'a str,
    event: u64,
    files: &mut F,
) -> Result<Trace, Refusal<'a>>
    ensures tells { (held : Held) → F.agrees files.new (F.asked files.old) held →
        (trace : Result (List TraceLine) Fault) → IsTraceOf
        (file_bytes most_of_trace (held path.now)) trace → Tells
        (Rose (F.faults files.old) (F.faults files.new)) (λ lines. lines) (reaching event trace)
        result }
    ensures read { ReadsOne F.Files files.old files.new path.now most_of_trace result }
{
    let trace = load_trace(alloc, path, files)?;
    if event > last_event(trace.lines()) {
        return Err(Refusal::BadEvent(event));
    }
    Ok(trace)
}
