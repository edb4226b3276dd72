//! Writing a line, in a buffer that grows as it must and by nothing else.
ghost use Rattle.std.specs.Prelude.{◌≡◌, ◌<◌, ◌≤◌, ◌∷◌, ◌++◌, length, OnOk, OnErr, true};
ghost use Rattle.std.specs.Fmt.{digit_glyph};
ghost use Rattle.std.specs.List.{flat_map};
ghost use Rattle.et_text.specs.Spelling.{is_escaped, escape, escapes, spelling, text_field, number_field, field_text, line_body};
ghost use Rattle.et_base.specs.declared.line.TraceLine.TheVariants.{Header};
ghost use Rattle.et_text.specs.Extends.{Extends};

use crate::fields::{FieldWriter, Width, put_fields};
use et_base::{Name, NoMemory, TraceLine};
use itoa::write_digits;

/// The most bytes of a letter and six numbers: a number has at most 20 digits, and a space before them.
const MOST_BYTES: usize = 127;

fn hex_digit(digit: u8) -> u8
    requires { digit < 16 }
    ensures { result ≡ digit_glyph true digit }
{
    if digit < 10 {
        b'0' + digit
    } else {
        b'A' - 10 + digit
    }
}

/// Whether a byte of a name is written as an escape.
pub fn is_escaped(byte: u8) -> bool
    ensures { result ≡ is_escaped byte }
{
    byte < 33 || byte == b'%' || byte >= 127
}

fn put_byte(buffer: &mut Vec<u8>, byte: u8) -> Result<(), NoMemory>
    ensures ok { OnOk result (buffer.new.items ≡ buffer.old.items ++ escape byte) }
    ensures err { OnErr result (Extends buffer.old.items buffer.new.items) }
{
    if is_escaped(byte) {
        buffer.push(b'%')?;
        buffer.push(hex_digit(byte / 16))?;
        buffer.push(hex_digit(byte % 16))?;
    } else {
        buffer.push(byte)?;
    }
    Ok(())
}

fn put_bytes(buffer: &mut Vec<u8>, name: &[u8]) -> Result<(), NoMemory>
    ensures ok { OnOk result (buffer.new.items ≡ buffer.old.items ++ escapes name.now) }
    ensures err { OnErr result (Extends buffer.old.items buffer.new.items) }
{
    for byte in name {
        put_byte(buffer, *byte)?;
    }
    Ok(())
}

/// A name behind a space, with its escapes. After an error the buffer may have more, but nothing of it changed.
pub fn put_name(buffer: &mut Vec<u8>, name: &Name) -> Result<(), NoMemory>
    ensures ok { OnOk result (buffer.new.items ≡ buffer.old.items ++ text_field name.now) }
    ensures err { OnErr result (Extends buffer.old.items buffer.new.items) }
{
    buffer.push(b' ')?;
    put_bytes(buffer, name.as_slice())?;
    Ok(())
}

/// The letter of a line and up to six numbers, each behind a space. They are spelled from the last digit on, in an array, and
/// are appended at once.
fn put_numbers(buffer: &mut Vec<u8>, letter: u8, numbers: &[u64]) -> Result<(), NoMemory>
    requires few { length numbers.now ≤ 6 }
    ensures ok { OnOk result
        (buffer.new.items ≡ buffer.old.items ++ letter ∷ flat_map number_field numbers.now) }
    ensures err { OnErr result (buffer.new.items ≡ buffer.old.items) }
{
    let mut line = [0; MOST_BYTES];
    let mut start = MOST_BYTES;
    let mut left = numbers.len();
    while left > 0 {
        left -= 1;
        start = write_digits(numbers[left], &mut line, start) - 1;
        line[start] = b' ';
    }
    start -= 1;
    line[start] = letter;
    buffer.extend_from_slice(&line[start..])?;
    Ok(())
}

/// The text of a line: decimal numbers, and names with their escapes.
struct Spelled;

impl FieldWriter for Spelled {
    ghost field = { field_text };

    ghost header = { λ version interval. line_body (Header version interval) };

    ghost can_name = { λ name. Unit {0} };

    #[inline]
    #[tactic(auto, using(crate::proofs::Extending::extends_on, crate::proofs::Written::numbers_spelled))]
    fn put_numbers(
        buffer: &mut Vec<u8>,
        letter: u8,
        numbers: &[u64],
        _widths: &[Width],
    ) -> Result<(), NoMemory> {
        put_numbers(buffer, letter, numbers)
    }

    fn put_name(buffer: &mut Vec<u8>, name: &Name) -> Result<(), NoMemory> {
        put_name(buffer, name)
    }

    fn put_header(buffer: &mut Vec<u8>, version: u32, interval: u64) -> Result<(), NoMemory> {
        put_numbers(buffer, b'H', &[u64::from(version), interval])
    }
}

#[tactic(auto, using(crate::proofs::Extending::extends_on, crate::proofs::Written::line_spelled, crate::proofs::Written::any_names))]
fn put_whole(buffer: &mut Vec<u8>, line: &TraceLine) -> Result<(), NoMemory>
    ensures ok { OnOk result (buffer.new.items ≡ buffer.old.items ++ spelling line.now) }
    ensures err { OnErr result (Extends buffer.old.items buffer.new.items) }
{
    put_fields::<Spelled>(buffer, line)?;
    buffer.push(b'\n')?;
    Ok(())
}

/// Appends the line to the buffer: its letter, each field behind a space, and LF. Numbers are decimal without leading
/// zeros. In names and descriptors `%`, the space, the bytes below it and those from 7F on are written as `%` and two
/// upper-case hexadecimal digits. It takes no memory but for the growth of the buffer; after `NoMemory` the buffer is
/// as before.
pub fn write_line(line: &TraceLine, buffer: &mut Vec<u8>) -> Result<(), NoMemory>
    ensures ok { OnOk result (buffer.new.items ≡ buffer.old.items ++ spelling line.now) }
    ensures err { OnErr result (buffer.new.items ≡ buffer.old.items) }
{
    let before = buffer.len();
    match put_whole(buffer, line) {
        Ok(()) => Ok(()),
        Err(error) => {
            buffer.truncate(before);
            Err(error)
        }
    }
}
