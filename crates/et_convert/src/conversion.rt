//! A trace in its other spelling.
ghost use Rattle.std.specs.Prelude.{◌≡◌, ◌≤◌, [], ◌∷◌, ◌++◌, All, reverse, OnOk, OnErr};
ghost use Rattle.std.specs.List.{flat_map};
ghost use Rattle.et_io.specs.Faults.{count_after, is_write_fault};
ghost use Rattle.et_io.specs.Sink.{with_more, TakesPrefix};
ghost use Rattle.et_text.specs.Ranges.{HasShortNames};
ghost use Rattle.et_text.specs.Rules.{IsGoodTrace, version_of};
ghost use Rattle.et_convert.specs.Conversions.{version_format, format_said, other_format, converted_line, converted_bytes};

use et_base::{Format, NoMemory, TraceLine};
use et_binary::laws::records_are_packs;
use et_binary::{header_version, write_line_in};
use et_io::{RunFault, Sink, put_all, put_piece};
use et_text::Trace;
use std::alloc::Global;

/// The format of a trace of this version, which is 1 or 2: 1 is the text, and 2 the binary one.
pub fn version_format(version: u64) -> Format
    ensures { result ≡ version_format version }
{
    if version == 1 {
        Format::Text
    } else {
        Format::Binary
    }
}

/// The version that the line says, where it is a header.
fn version_in(line: &TraceLine) -> u32
    ensures { result ≡ version_of (line.now ∷ []) }
{
    match line {
        TraceLine::Header { version, .. } => *version,
        _ => 0,
    }
}

/// The version of a trace, which its first line says.
fn version_of(lines: &[TraceLine]) -> u32
    requires good { IsGoodTrace lines.now }
    ensures { result ≡ version_of (reverse lines.now) }
{
    match lines.first() {
        Some(header) => version_in(header),
        None => 0,
    }
}

/// The format of a trace, which its header says.
fn format_said(lines: &[TraceLine]) -> Format
    requires good { IsGoodTrace lines.now }
    ensures { result ≡ format_said lines.now }
{
    version_format(u64::from(version_of(lines)))
}

/// The other of the two formats.
pub fn other_format(format: Format) -> Format
    ensures { result ≡ other_format format }
{
    match format {
        Format::Text => Format::Binary,
        Format::Binary => Format::Text,
    }
}

/// Appends the line as a trace in this format has it, where a header says the version of that.
pub fn put_line(bytes: &mut Vec<u8>, format: Format, line: &TraceLine) -> Result<(), NoMemory>
    requires short { HasShortNames line.now }
    ensures { OnOk result (bytes.new.items ≡ bytes.old.items ++ converted_line format line.now) }
{
    match line {
        TraceLine::Header { interval, .. } => {
            let header = TraceLine::Header {
                version: header_version(format),
                interval: *interval,
            };
            write_line_in(format, &header, bytes)
        }
        _ => write_line_in(format, line, bytes),
    }
}

/// Puts the lines as a trace in this format has them, one after the other.
fn put_lines<O: Sink>(
    alloc: Global,
    format: Format,
    lines: &[TraceLine],
    sink: &mut O,
) -> Result<(), RunFault>
    requires short { All HasShortNames lines.now }
    ensures ok { OnOk result (O.taken sink.new
        ≡ with_more (O.taken sink.old) (flat_map (converted_line format) lines.now)) }
    ensures write { O.faults sink.new ≡ count_after (is_write_fault result) (O.faults sink.old) }
    ensures err { OnErr result (TakesPrefix
        (O.taken sink.old) (O.taken sink.new) (flat_map (converted_line format) lines.now)) }
    ensures never_falls { O.faults sink.old ≤ O.faults sink.new }
{
    let mut bytes = Vec::new(alloc);
    for line in lines {
        let Ok(()) = put_line(&mut bytes, format, line) else {
            return Err(RunFault::NoMemory);
        };
        put_piece(sink, &mut bytes)?;
    }
    put_all(sink, bytes.as_slice())
}

/// Writes the lines of the trace in the other spelling: those of a text in the binary one, and those of a binary trace as
/// text. The header says the version of what is written. How the bytes are cut into pieces is no promise. `Write` comes exactly
/// where the sink counted one fault; after `Write` and after `NoMemory` the sink took a prefix of the bytes.
pub fn convert_trace<O: Sink>(alloc: Global, trace: &Trace, sink: &mut O) -> Result<(), RunFault>
    requires short { All HasShortNames trace.now }
    ensures ok { OnOk result
        (O.taken sink.new ≡ with_more (O.taken sink.old) (converted_bytes trace.now)) }
    ensures write { O.faults sink.new ≡ count_after (is_write_fault result) (O.faults sink.old) }
    ensures err { OnErr result
        (TakesPrefix (O.taken sink.old) (O.taken sink.new) (converted_bytes trace.now)) }
    ensures never_falls { O.faults sink.old ≤ O.faults sink.new }
{
    // A law: it tells the prover, and does nothing.
    records_are_packs();
    let lines = trace.lines();
    put_lines(alloc, other_format(format_said(lines)), lines, sink)
}
