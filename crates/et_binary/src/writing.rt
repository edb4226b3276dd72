//! Writing a record, in a buffer that grows as it must and by nothing else.
ghost use Rattle.std.specs.Prelude.{◌≡◌, ◌+◌, ◌≤◌, ◌++◌, length, take, OnOk, OnErr};
ghost use Rattle.std.specs.Int.{byte_len, to_be_bytes};
ghost use Rattle.et_base.specs.declared.line.TraceLine.TheVariants.{Header};
ghost use Rattle.et_text.specs.Fields.{width_of};
ghost use Rattle.et_text.specs.Ranges.{IsShort, HasShortNames};
ghost use Rattle.et_binary.specs.Packing.{opening, packed_field, packing, written_record};

use crate::ranges::OPENING;
use et_base::{Name, NoMemory, TraceLine};
use et_text::{FieldWriter, Width, put_fields};

/// The most bytes of a letter and six numbers.
const MOST_BYTES: usize = 49;

/// Packs a number in the bytes from the start on, its highest byte first, and returns their end.
#[inline]
fn pack_number(bytes: &mut [u8], start: usize, number: u64, width: Width) -> usize
    requires { start + byte_len (width_of width) ≤ length bytes.old }
    ensures end { result ≡ start + byte_len (width_of width) }
    ensures packed { take result bytes.new
        ≡ take start bytes.old ++ to_be_bytes (width_of width) number }
{
    let packed = number.to_be_bytes();
    match width {
        Width::Byte => {
            bytes[start] = packed[7];
            start + 1
        }
        Width::Word => {
            bytes[start..start + 4].copy_from_slice(&packed[4..]);
            start + 4
        }
        Width::Long => {
            bytes[start..start + 8].copy_from_slice(&packed);
            start + 8
        }
    }
}

/// The record of a line: numbers in so many bytes as they are wide, and names behind their lengths.
struct Packed;

impl FieldWriter for Packed {
    ghost field = { packed_field };

    ghost header = { λ version interval. opening ++ packing (Header version interval) };

    ghost can_name = { IsShort };

    /// The letter and the numbers are packed in an array, which is appended at once.
    fn put_numbers(
        buffer: &mut Vec<u8>,
        letter: u8,
        numbers: &[u64],
        widths: &[Width],
    ) -> Result<(), NoMemory> {
        let mut record = [0; MOST_BYTES];
        record[0] = letter;
        let mut end = 1;
        for (index, number) in numbers.iter().enumerate() {
            end = pack_number(&mut record, end, *number, widths[index]);
        }
        buffer.extend_from_slice(&record[..end])?;
        Ok(())
    }

    fn put_name(buffer: &mut Vec<u8>, name: &Name) -> Result<(), NoMemory> {
        let name = name.as_slice();
        let size = name.len() as u32;
        buffer.extend_from_slice(&size.to_be_bytes())?;
        buffer.extend_from_slice(name)?;
        Ok(())
    }

    /// The bytes that begin a binary trace stand before its header, which has no version.
    fn put_header(buffer: &mut Vec<u8>, _version: u32, interval: u64) -> Result<(), NoMemory> {
        buffer.extend_from_slice(&OPENING)?;
        Self::put_numbers(buffer, b'H', &[interval], &[Width::Long])
    }
}

/// Appends the record of the line to the buffer: its letter and its fields, where a number's highest byte stands first and a
/// name or descriptor stands behind its length in four bytes. Before the record of a header stand the bytes FE 45 54 32 that
/// begin a binary trace. No name or descriptor is longer than 2^32 - 1 bytes. It takes no memory but for the growth of the
/// buffer; after `NoMemory` the buffer is as before.
#[tactic(auto, using(et_text::proofs::Extending::extends_on, crate::proofs::Puts::line_packed))]
pub fn write_record(line: &TraceLine, buffer: &mut Vec<u8>) -> Result<(), NoMemory>
    requires short { HasShortNames line.now }
    ensures ok { OnOk result (buffer.new.items ≡ buffer.old.items ++ written_record line.now) }
    ensures err { OnErr result (buffer.new.items ≡ buffer.old.items) }
{
    let before = buffer.len();
    match put_fields::<Packed>(buffer, line) {
        Ok(()) => Ok(()),
        Err(error) => {
            buffer.truncate(before);
            Err(error)
        }
    }
}
