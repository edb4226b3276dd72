//! Reading a trace in either spelling.
ghost use Rattle.std.specs.Prelude.{◌≡◌, [], IfOk, IfErr};
ghost use Rattle.et_base.specs.declared.format.Format.TheVariants as formats;
ghost use Rattle.et_text.specs.Text.{IsTextOf};
ghost use Rattle.et_binary.specs.Packs.{IsPackOf};
ghost use Rattle.et_convert.specs.Spellings.{SpellsTrace, IsTraceFollowed, IsAnswerIn, format_in};

use et_base::Format;
use et_binary::{BinaryReader, OPENING, follow_pack};
use et_text::{Follower, TextReader, Trace, TraceFault, follow_text};
use std::alloc::Global;

/// The format of the bytes, which the first of them tells: no text begins with FE.
pub fn format_in(bytes: &[u8]) -> Format
    ensures { result ≡ format_in bytes.now }
{
    match bytes {
        [first, ..] if *first == OPENING[0] => Format::Binary,
        _ => Format::Text,
    }
}

/// The trace of these bytes by the rules of the text. The error is the kind and line of the first fault, or want of memory.
pub fn read_text(alloc: Global, bytes: &[u8]) -> Result<Trace, TraceFault>
    ensures trace { IfOk result (λ trace. IsTextOf trace bytes.now) }
    ensures fault { IfErr result (IsAnswerIn formats.Text bytes.now) }
{
    let mut reader = TextReader::begin(alloc);
    reader.feed(bytes)?;
    reader.finish()
}

/// The trace of these bytes by the rules of the binary spelling.
fn read_pack(alloc: Global, bytes: &[u8]) -> Result<Trace, TraceFault>
    ensures trace { IfOk result (λ trace. IsPackOf trace bytes.now) }
    ensures fault { IfErr result (IsAnswerIn formats.Binary bytes.now) }
{
    let mut reader = BinaryReader::begin(alloc);
    reader.feed(bytes)?;
    reader.finish()
}

/// The trace of these bytes: binary where they begin with FE, and else a text. The error is the kind and the line or record
/// of the first fault by the rules of that spelling, or want of memory.
pub fn read_trace(alloc: Global, bytes: &[u8]) -> Result<Trace, TraceFault>
    ensures trace { IfOk result (λ trace. SpellsTrace trace bytes.now) }
    ensures fault { IfErr result (IsAnswerIn (format_in bytes.now) bytes.now) }
{
    match format_in(bytes) {
        Format::Text => read_text(alloc, bytes),
        Format::Binary => read_pack(alloc, bytes),
    }
}

/// Reads a whole trace in either spelling and hands each of its lines to the follower, once it broke no rule; the lines are not
/// kept. The error is that of `read_trace`.
pub fn follow_trace<F: Follower>(alloc: Global, bytes: &[u8], follower: F) -> Result<F, TraceFault>
    requires new { F.follows follower [] }
    ensures trace { IfOk result (λ follower. IsTraceFollowed F.follows follower bytes.now) }
    ensures fault { IfErr result (IsAnswerIn (format_in bytes.now) bytes.now) }
{
    match format_in(bytes) {
        Format::Text => follow_text(alloc, bytes, follower),
        Format::Binary => follow_pack(alloc, bytes, follower),
    }
}
