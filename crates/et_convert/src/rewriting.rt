//! The bytes of a trace, rewritten in the other spelling as they are read once more.
ghost use Rattle.std.specs.Prelude.{◌≡◌, ◌≤◌, List, [], ◌++◌, All, IfOk, IfSome, IfNone, OnOk, OnErr};
ghost use Rattle.std.specs.List.{flat_map};
ghost use Rattle.et_base.specs.declared.format.Format.TheVariants as formats;
ghost use Rattle.et_base.specs.declared.line.TraceLine.{TraceLine};
ghost use Rattle.et_io.specs.Faults.{count_after, is_write_fault};
ghost use Rattle.et_io.specs.Sink.{with_more, TakesPrefix, TakesUpTo};
ghost use Rattle.et_text.specs.Ranges.{HasShortNames};
ghost use Rattle.et_convert.specs.Conversions.{other_format, converted_line, converted_bytes};
ghost use Rattle.et_convert.specs.Rewriting.{AreLeft, StandsFirst, HasLines};
ghost use Rattle.et_convert.specs.Spellings.{SpellsTrace};

use crate::conversion::{other_format, put_line};
use crate::laws::spelled_lists_differ;
use crate::reading::format_in;
use et_base::{Format, NoMemory, TraceLine};
use et_binary::laws::records_are_packs;
use et_binary::{OPENING, read_record};
use et_io::{RunFault, Sink, put_all, put_piece};
use et_text::{Follower, LineError, first_line, read_line};
use std::alloc::Global;

/// Follows the lines of a trace and keeps nothing of them.
#[derive(Drop)]
pub struct Unkept {}

impl Follower for Unkept {
    ghost follows = { λ _ _. Unit {0} };

    fn line(&mut self, _line: &TraceLine) -> Result<(), NoMemory> {
        Ok(())
    }
}

/// The first line of a text and the bytes behind it, where there is one.
fn first_of_text(alloc: Global, bytes: &[u8]) -> Result<Option<(TraceLine, &[u8])>, NoMemory>
    requires lines { HasLines formats.Text bytes.now }
    ensures some { (lines : List TraceLine) → AreLeft formats.Text lines bytes.now → IfOk result
        (λ found. IfSome found (λ x. StandsFirst formats.Text lines x.0 x.1.now)) }
    ensures none { (lines : List TraceLine) → AreLeft formats.Text lines bytes.now →
        IfOk result (λ found. IfNone found (lines ≡ [])) }
{
    let Some((line, behind)) = first_line(bytes) else {
        return Ok(None);
    };
    match read_line(alloc, line) {
        Ok(read) => Ok(Some((read, behind))),
        Err(LineError::Memory) => Err(NoMemory),
        Err(LineError::Form) => unreachable!(),
    }
}

/// The first line of records and the bytes behind it, where there is one.
fn first_of_records(alloc: Global, bytes: &[u8]) -> Result<Option<(TraceLine, &[u8])>, NoMemory>
    requires lines { HasLines formats.Binary bytes.now }
    ensures some { (lines : List TraceLine) → AreLeft formats.Binary lines bytes.now → IfOk result
        (λ found. IfSome found (λ x. StandsFirst formats.Binary lines x.0 x.1.now)) }
    ensures none { (lines : List TraceLine) → AreLeft formats.Binary lines bytes.now →
        IfOk result (λ found. IfNone found (lines ≡ [])) }
{
    match read_record(alloc, bytes) {
        Ok(found) => Ok(found),
        Err(LineError::Memory) => Err(NoMemory),
        Err(LineError::Form) => unreachable!(),
    }
}

/// The first line in this format and the bytes behind it, where there is one.
fn first_in(
    alloc: Global,
    format: Format,
    bytes: &[u8],
) -> Result<Option<(TraceLine, &[u8])>, NoMemory>
    requires lines { HasLines format bytes.now }
    ensures some { (lines : List TraceLine) → AreLeft format lines bytes.now → IfOk result
        (λ found. IfSome found (λ x. StandsFirst format lines x.0 x.1.now)) }
    ensures none { (lines : List TraceLine) → AreLeft format lines bytes.now →
        IfOk result (λ found. IfNone found (lines ≡ [])) }
{
    match format {
        Format::Text => first_of_text(alloc, bytes),
        Format::Binary => first_of_records(alloc, bytes),
    }
}

/// Appends a line in this format to what was gathered, and puts that once it is a piece.
fn gather<O: Sink>(
    sink: &mut O,
    gathered: &mut Vec<u8>,
    format: Format,
    line: TraceLine,
) -> Result<(), RunFault>
    requires short { HasShortNames line }
    ensures ok { OnOk result (TakesUpTo (O.taken sink.old) (O.taken sink.new)
        (gathered.old.items ++ converted_line format line) gathered.new.items) }
    ensures write { O.faults sink.new ≡ count_after (is_write_fault result) (O.faults sink.old) }
    ensures err { OnErr result (TakesPrefix (O.taken sink.old) (O.taken sink.new)
        (gathered.old.items ++ converted_line format line)) }
    ensures never_falls { O.faults sink.old ≤ O.faults sink.new }
{
    let Ok(()) = put_line(gathered, format, &line) else {
        return Err(RunFault::NoMemory);
    };
    put_piece(sink, gathered)
}

/// Puts the lines of these bytes, which stand behind the opening, in the other format.
fn put_rewritten<O: Sink>(
    alloc: Global,
    format: Format,
    bytes: &[u8],
    sink: &mut O,
) -> Result<(), RunFault>
    requires lines { HasLines format bytes.now }
    ensures ok { (lines : List TraceLine) → AreLeft format lines bytes.now →
        OnOk result (O.taken sink.new ≡ with_more (O.taken sink.old)
        (flat_map (converted_line (other_format format)) lines)) }
    ensures write { O.faults sink.new ≡ count_after (is_write_fault result) (O.faults sink.old) }
    ensures err { (lines : List TraceLine) → AreLeft format lines bytes.now →
        OnErr result (TakesPrefix (O.taken sink.old) (O.taken sink.new)
        (flat_map (converted_line (other_format format)) lines)) }
    ensures never_falls { O.faults sink.old ≤ O.faults sink.new }
{
    let other = other_format(format);
    let mut gathered = Vec::new(alloc);
    let mut rest = bytes;
    'lines: loop {
        let Ok(next) = first_in(alloc, format, rest) else {
            return Err(RunFault::NoMemory);
        };
        let Some((line, behind)) = next else {
            return put_all(sink, gathered.as_slice());
        };
        gather(sink, &mut gathered, other, line)?;
        rest = behind;
    }
}

/// Writes the lines of a trace in the other spelling as they are read once more: those of a text in the binary one, and those of
/// a binary trace as text. The header says the version of what is written. The bytes are put in pieces of 64 KiB. `Write` comes
/// exactly where a put failed, and the sink counted one fault; after `Write` and after `NoMemory` the sink took a prefix of the
/// bytes.
pub fn convert_bytes<O: Sink>(alloc: Global, bytes: &[u8], sink: &mut O) -> Result<(), RunFault>
    requires trace { (lines : List TraceLine)
        × SpellsTrace lines bytes.now × All HasShortNames lines }
    ensures ok { (lines : List TraceLine) → SpellsTrace lines bytes.now → OnOk result
        (O.taken sink.new ≡ with_more (O.taken sink.old) (converted_bytes lines)) }
    ensures write { O.faults sink.new ≡ count_after (is_write_fault result) (O.faults sink.old) }
    ensures err { (lines : List TraceLine) → SpellsTrace lines bytes.now → OnErr result
        (TakesPrefix (O.taken sink.old) (O.taken sink.new) (converted_bytes lines)) }
    ensures never_falls { O.faults sink.old ≤ O.faults sink.new }
{
    // Laws: they tell the prover, and do nothing.
    records_are_packs();
    spelled_lists_differ();
    match format_in(bytes) {
        Format::Text => put_rewritten(alloc, Format::Text, bytes, sink),
        Format::Binary => put_rewritten(alloc, Format::Binary, &bytes[OPENING.len()..], sink),
    }
}
