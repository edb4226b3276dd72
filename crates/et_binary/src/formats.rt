//! A trace in either format, line by line.
ghost use Rattle.std.specs.Prelude.{◌≡◌, ◌++◌, OnOk, OnErr};
ghost use Rattle.et_base.specs.declared.format.Format.TheVariants as formats;
ghost use Rattle.et_text.specs.Ranges.{HasShortNames, header_version};
ghost use Rattle.et_binary.specs.Formats.{written_in};

use crate::writing::write_record;
use et_base::{Format, NoMemory, TraceLine};
use et_text::write_line;

/// The version that the header of a trace in this format says: 1 for the text, 2 for the binary spelling.
pub fn header_version(format: Format) -> u32
    ensures { result ≡ header_version format }
{
    match format {
        Format::Text => 1,
        Format::Binary => 2,
    }
}

/// Appends the line to the buffer, as a trace in this format has it: its line of text, or its record, which stands behind the
/// bytes that begin a binary trace where it is the header. In a binary trace no name or descriptor is longer than 2^32 - 1
/// bytes. It takes no memory but for the growth of the buffer; after `NoMemory` the buffer is as before.
pub fn write_line_in(format: Format, line: &TraceLine, buffer: &mut Vec<u8>) -> Result<(), NoMemory>
    requires short { format ≡ formats.Binary → HasShortNames line.now }
    ensures ok { OnOk result (buffer.new.items ≡ buffer.old.items ++ written_in format line.now) }
    ensures err { OnErr result (buffer.new.items ≡ buffer.old.items) }
{
    match format {
        Format::Text => write_line(line, buffer),
        Format::Binary => write_record(line, buffer),
    }
}
