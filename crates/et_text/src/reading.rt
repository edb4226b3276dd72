//! Reading a line, from left to right.
ghost use Rattle.std.specs.Prelude.{◌≡◌, ◌-◌, ◌<◌, ◌≤◌, length, IfOk, IsErrOf};
ghost use Rattle.et_base.specs.declared.line.TraceLine.{TraceLine};
ghost use Rattle.et_text.specs.Ranges.{IsInRange};
ghost use Rattle.et_text.specs.Spelling.{line_body};
ghost use Rattle.et_text.specs.Stream.{FirstLine};
ghost use Rattle.et_text.specs.Text.{IsLineSpelled};
ghost use Rattle.et_text.specs.Reading.{GivesWhereRead, number_after, digits_at, number_field_at, number_field_in, hex_value, escaped_at, byte_at, is_break, name_bytes_at, text_field_at, done, turn_at, header_line_at, class_line_at, method_line_at, alloc_at, update_at, enter_at, exit_at, unwind_at, flush_at, death_line_at, finish_at, front_at, line_at};
ghost use Rattle.et_base.specs.Digits.{is_digit};

use crate::fault::LineError;
use crate::ranges::{
    GREATEST_ENDING, GREATEST_EVENT, GREATEST_LENGTH, GREATEST_NUMBER, GREATEST_SIZE, LEAST_SIZE,
    OBJECT_LIMIT, SLOT_LIMIT, THREAD_COUNT,
};
use crate::writing::is_escaped;
use et_base::{Name, TraceLine};
use std::alloc::Global;

/// The greatest number of a thread.
const GREATEST_THREAD: u8 = THREAD_COUNT - 1;

/// The greatest object.
const GREATEST_OBJECT: u32 = OBJECT_LIMIT - 1;

/// The greatest number of a slot.
const GREATEST_SLOT: u32 = SLOT_LIMIT - 1;

fn is_digit(b: u8) -> bool
    ensures { result ≡ is_digit b }
{
    b'0' <= b && b <= b'9'
}

/// The number whose first digit is given, and the bytes behind its digits.
#[tactic(auto, unfolding(crate::specs::Reading::number_after))]
fn number_after(first: u64, bytes: &[u8]) -> Result<(u64, &[u8]), LineError>
    requires { first < 10 }
    ensures { GivesWhereRead (λ x. (x.0, x.1.now)) result (number_after first bytes.now) }
{
    let mut n = first;
    let mut rest = bytes;
    'digits: while let [b, after @ ..] = rest {
        if !is_digit(*b) {
            return Ok((n, rest));
        }
        if n > GREATEST_EVENT {
            return Err(LineError::Form);
        }
        n = 10 * n + u64::from(*b - b'0');
        rest = after;
    }
    Ok((n, rest))
}

/// The number at the front, without leading zeros, and the bytes behind it.
#[tactic(auto, unfolding(crate::specs::Reading::digits_at))]
fn digits_at(bytes: &[u8]) -> Result<(u64, &[u8]), LineError>
    ensures { GivesWhereRead (λ x. (x.0, x.1.now)) result (digits_at bytes.now) }
{
    match bytes {
        [] => Err(LineError::Form),
        [b, rest @ ..] => {
            if *b == b'0' {
                return Ok((0, rest));
            }
            if !is_digit(*b) {
                return Err(LineError::Form);
            }
            number_after(u64::from(*b - b'0'), rest)
        }
    }
}

/// A number behind a space.
#[tactic(auto, unfolding(crate::specs::Reading::number_field_at))]
fn number_at(bytes: &[u8]) -> Result<(u64, &[u8]), LineError>
    ensures { GivesWhereRead (λ x. (x.0, x.1.now)) result (number_field_at bytes.now) }
{
    match bytes {
        [] => Err(LineError::Form),
        [b, rest @ ..] => {
            if *b != b' ' {
                return Err(LineError::Form);
            }
            digits_at(rest)
        }
    }
}

/// A number behind a space, from `low` to `high`.
#[tactic(auto, unfolding(crate::specs::Reading::number_field_in))]
fn number_in(low: u64, high: u64, bytes: &[u8]) -> Result<(u64, &[u8]), LineError>
    ensures gives { GivesWhereRead (λ x. (x.0, x.1.now)) result
        (number_field_in low high bytes.now) }
    ensures within { IfOk result (λ x. x.0 ≤ high) }
{
    let (n, rest) = number_at(bytes)?;
    if n < low {
        return Err(LineError::Form);
    }
    if n > high {
        return Err(LineError::Form);
    }
    Ok((n, rest))
}

fn u32_in(low: u32, high: u32, bytes: &[u8]) -> Result<(u32, &[u8]), LineError>
    ensures { GivesWhereRead (λ x. (x.0, x.1.now)) result (number_field_in low high bytes.now) }
{
    let (n, rest) = number_in(u64::from(low), u64::from(high), bytes)?;
    Ok((n as u32, rest))
}

fn u8_in(high: u8, bytes: &[u8]) -> Result<(u8, &[u8]), LineError>
    ensures { GivesWhereRead (λ x. (x.0, x.1.now)) result (number_field_in 0 high bytes.now) }
{
    let (n, rest) = number_in(0, u64::from(high), bytes)?;
    Ok((n as u8, rest))
}

/// The value of an upper-case hexadecimal digit.
#[tactic(auto, unfolding(crate::specs::Reading::hex_value))]
fn hex_value(b: u8) -> Result<u8, LineError>
    ensures gives { GivesWhereRead (λ x. x) result (hex_value b) }
    ensures small { IfOk result (λ x. x < 16) }
{
    if is_digit(b) {
        return Ok(b - b'0');
    }
    if b'A' <= b && b <= b'F' {
        return Ok(b - b'A' + 10);
    }
    Err(LineError::Form)
}

/// The byte of an escape, behind its `%`.
#[tactic(auto, unfolding(crate::specs::Reading::escaped_at))]
fn escaped_at(bytes: &[u8]) -> Result<(u8, &[u8]), LineError>
    ensures { GivesWhereRead (λ x. (x.0, x.1.now)) result (escaped_at bytes.now) }
{
    match bytes {
        [] => Err(LineError::Form),
        [_] => Err(LineError::Form),
        [h, l, rest @ ..] => {
            let high = hex_value(*h)?;
            let low = hex_value(*l)?;
            let byte = 16 * high + low;
            if !is_escaped(byte) {
                return Err(LineError::Form);
            }
            Ok((byte, rest))
        }
    }
}

/// A byte of a name, by itself or as an escape.
#[tactic(auto, unfolding(crate::specs::Reading::byte_at))]
fn byte_at(bytes: &[u8]) -> Result<(u8, &[u8]), LineError>
    ensures { GivesWhereRead (λ x. (x.0, x.1.now)) result (byte_at bytes.now) }
{
    match bytes {
        [] => Err(LineError::Form),
        [b, rest @ ..] => {
            if *b == b'%' {
                return escaped_at(rest);
            }
            if is_escaped(*b) {
                return Err(LineError::Form);
            }
            Ok((*b, rest))
        }
    }
}

/// Whether a name ends here.
fn is_break(bytes: &[u8]) -> bool
    ensures { result ≡ is_break bytes.now }
{
    match bytes {
        [] => true,
        [b, ..] => *b == b' ',
    }
}

/// The bytes of a name up to the next space.
fn bytes_at(alloc: Global, bytes: &[u8]) -> Result<(Name, &[u8]), LineError>
    ensures { GivesWhereRead (λ x. (x.0, x.1.now)) result
        (name_bytes_at (length bytes.now) bytes.now) }
{
    let mut name = Name::begin(alloc);
    let mut rest = bytes;
    let count = bytes.len();
    'bytes: for _ in 0..count {
        if is_break(rest) {
            return Ok((name, rest));
        }
        let (byte, after) = byte_at(rest)?;
        name.push(byte)?;
        rest = after;
    }
    Ok((name, rest))
}

/// A name or descriptor behind a space.
#[tactic(auto, unfolding(crate::specs::Reading::text_field_at))]
fn text_at(alloc: Global, bytes: &[u8]) -> Result<(Name, &[u8]), LineError>
    ensures { GivesWhereRead (λ x. (x.0, x.1.now)) result (text_field_at bytes.now) }
{
    match bytes {
        [] => Err(LineError::Form),
        [b, rest @ ..] => {
            if *b != b' ' {
                return Err(LineError::Form);
            }
            let (name, after) = bytes_at(alloc, rest)?;
            if name.as_slice().is_empty() {
                return Err(LineError::Form);
            }
            Ok((name, after))
        }
    }
}

/// The line, where nothing is left.
fn done(line: TraceLine, rest: &[u8]) -> Result<TraceLine, LineError>
    ensures { GivesWhereRead (λ x. x) result (done line rest.now) }
{
    match rest {
        [] => Ok(line),
        [_, ..] => Err(LineError::Form),
    }
}

/// An event and a thread.
#[tactic(auto, unfolding(crate::specs::Reading::turn_at))]
#[inline(always)]
fn turn_at(bytes: &[u8]) -> Result<((u64, u8), &[u8]), LineError>
    ensures { GivesWhereRead (λ x. (x.0, x.1.now)) result (turn_at bytes.now) }
{
    let (event, rest) = number_in(0, GREATEST_EVENT, bytes)?;
    let (thread, rest) = u8_in(GREATEST_THREAD, rest)?;
    Ok(((event, thread), rest))
}

#[tactic(auto, unfolding(crate::specs::Reading::header_line_at))]
fn header_at(bytes: &[u8]) -> Result<(TraceLine, &[u8]), LineError>
    ensures { GivesWhereRead (λ x. (x.0, x.1.now)) result (header_line_at bytes.now) }
{
    let (version, rest) = u32_in(1, 1, bytes)?;
    let (interval, rest) = number_in(0, GREATEST_EVENT, rest)?;
    let line = TraceLine::Header { version, interval };
    Ok((line, rest))
}

#[tactic(auto, unfolding(crate::specs::Reading::class_line_at))]
#[inline(never)]
fn class_at(alloc: Global, bytes: &[u8]) -> Result<(TraceLine, &[u8]), LineError>
    ensures { GivesWhereRead (λ x. (x.0, x.1.now)) result (class_line_at bytes.now) }
{
    let (number, rest) = u32_in(1, GREATEST_NUMBER, bytes)?;
    let (name, rest) = text_at(alloc, rest)?;
    let line = TraceLine::Class { number, name };
    Ok((line, rest))
}

#[tactic(auto, unfolding(crate::specs::Reading::method_line_at))]
#[inline(never)]
fn method_at(alloc: Global, bytes: &[u8]) -> Result<(TraceLine, &[u8]), LineError>
    ensures { GivesWhereRead (λ x. (x.0, x.1.now)) result (method_line_at bytes.now) }
{
    let (number, rest) = u32_in(1, GREATEST_NUMBER, bytes)?;
    let (class, rest) = u32_in(1, GREATEST_NUMBER, rest)?;
    let (name, rest) = text_at(alloc, rest)?;
    let (descriptor, rest) = text_at(alloc, rest)?;
    let line = TraceLine::Method {
        number,
        class,
        name,
        descriptor,
    };
    Ok((line, rest))
}

#[tactic(auto, unfolding(crate::specs::Reading::alloc_at))]
fn alloc_at(bytes: &[u8]) -> Result<(TraceLine, &[u8]), LineError>
    ensures { GivesWhereRead (λ x. (x.0, x.1.now)) result (alloc_at bytes.now) }
{
    let ((event, thread), rest) = turn_at(bytes)?;
    let (object, rest) = u32_in(1, GREATEST_OBJECT, rest)?;
    let (class, rest) = u32_in(1, GREATEST_NUMBER, rest)?;
    let (size, rest) = number_in(LEAST_SIZE, GREATEST_SIZE, rest)?;
    let (length, rest) = u32_in(0, GREATEST_LENGTH, rest)?;
    let line = TraceLine::Alloc {
        event,
        thread,
        object,
        class,
        size,
        length,
    };
    Ok((line, rest))
}

#[tactic(auto, unfolding(crate::specs::Reading::update_at))]
fn update_at(bytes: &[u8]) -> Result<(TraceLine, &[u8]), LineError>
    ensures { GivesWhereRead (λ x. (x.0, x.1.now)) result (update_at bytes.now) }
{
    let ((event, thread), rest) = turn_at(bytes)?;
    let (object, rest) = u32_in(0, GREATEST_OBJECT, rest)?;
    let (slot, rest) = u32_in(0, GREATEST_SLOT, rest)?;
    let (old, rest) = u32_in(0, GREATEST_OBJECT, rest)?;
    let (new, rest) = u32_in(0, GREATEST_OBJECT, rest)?;
    let line = TraceLine::Update {
        event,
        thread,
        object,
        slot,
        old,
        new,
    };
    Ok((line, rest))
}

#[tactic(auto, unfolding(crate::specs::Reading::enter_at))]
fn enter_at(bytes: &[u8]) -> Result<(TraceLine, &[u8]), LineError>
    ensures { GivesWhereRead (λ x. (x.0, x.1.now)) result (enter_at bytes.now) }
{
    let ((event, thread), rest) = turn_at(bytes)?;
    let (method, rest) = u32_in(1, GREATEST_NUMBER, rest)?;
    let (receiver, rest) = u32_in(0, GREATEST_OBJECT, rest)?;
    let line = TraceLine::Enter {
        event,
        thread,
        method,
        receiver,
    };
    Ok((line, rest))
}

#[tactic(auto, unfolding(crate::specs::Reading::exit_at))]
fn exit_at(bytes: &[u8]) -> Result<(TraceLine, &[u8]), LineError>
    ensures { GivesWhereRead (λ x. (x.0, x.1.now)) result (exit_at bytes.now) }
{
    let ((event, thread), rest) = turn_at(bytes)?;
    let (method, rest) = u32_in(1, GREATEST_NUMBER, rest)?;
    let line = TraceLine::Exit {
        event,
        thread,
        method,
    };
    Ok((line, rest))
}

#[tactic(auto, unfolding(crate::specs::Reading::unwind_at))]
fn unwind_at(bytes: &[u8]) -> Result<(TraceLine, &[u8]), LineError>
    ensures { GivesWhereRead (λ x. (x.0, x.1.now)) result (unwind_at bytes.now) }
{
    let ((event, thread), rest) = turn_at(bytes)?;
    let (method, rest) = u32_in(1, GREATEST_NUMBER, rest)?;
    let (exception, rest) = u32_in(1, GREATEST_OBJECT, rest)?;
    let line = TraceLine::Unwind {
        event,
        thread,
        method,
        exception,
    };
    Ok((line, rest))
}

#[tactic(auto, unfolding(crate::specs::Reading::flush_at))]
fn flush_at(bytes: &[u8]) -> Result<(TraceLine, &[u8]), LineError>
    ensures { GivesWhereRead (λ x. (x.0, x.1.now)) result (flush_at bytes.now) }
{
    let (event, rest) = number_in(0, GREATEST_EVENT, bytes)?;
    let (deaths, rest) = u32_in(0, GREATEST_OBJECT, rest)?;
    let line = TraceLine::Flush { event, deaths };
    Ok((line, rest))
}

#[tactic(auto, unfolding(crate::specs::Reading::death_line_at))]
fn death_at(bytes: &[u8]) -> Result<(TraceLine, &[u8]), LineError>
    ensures { GivesWhereRead (λ x. (x.0, x.1.now)) result (death_line_at bytes.now) }
{
    let (object, rest) = u32_in(1, GREATEST_OBJECT, bytes)?;
    let (time, rest) = number_in(0, GREATEST_EVENT, rest)?;
    let line = TraceLine::Death { object, time };
    Ok((line, rest))
}

#[tactic(auto, unfolding(crate::specs::Reading::finish_at))]
fn finish_at(bytes: &[u8]) -> Result<(TraceLine, &[u8]), LineError>
    ensures { GivesWhereRead (λ x. (x.0, x.1.now)) result (finish_at bytes.now) }
{
    let (event, rest) = number_in(0, GREATEST_EVENT, bytes)?;
    let (how, rest) = u8_in(GREATEST_ENDING, rest)?;
    let line = TraceLine::Finish { event, how };
    Ok((line, rest))
}

/// The line at the front, and the bytes behind its fields.
#[tactic(auto, unfolding(crate::specs::Reading::front_at))]
#[inline(always)]
fn front_at(alloc: Global, bytes: &[u8]) -> Result<(TraceLine, &[u8]), LineError>
    ensures { GivesWhereRead (λ x. (x.0, x.1.now)) result (front_at bytes.now) }
{
    let [letter, rest @ ..] = bytes else {
        return Err(LineError::Form);
    };
    match *letter {
        b'H' => header_at(rest),
        b'C' => class_at(alloc, rest),
        b'N' => method_at(alloc, rest),
        b'A' => alloc_at(rest),
        b'U' => update_at(rest),
        b'M' => enter_at(rest),
        b'E' => exit_at(rest),
        b'X' => unwind_at(rest),
        b'F' => flush_at(rest),
        b'D' => death_at(rest),
        b'Z' => finish_at(rest),
        _ => Err(LineError::Form),
    }
}

/// The line that the bytes of a line, without their LF, are.
#[tactic(auto, unfolding(crate::specs::Reading::line_at))]
fn line_at(alloc: Global, bytes: &[u8]) -> Result<TraceLine, LineError>
    ensures { GivesWhereRead (λ x. x) result (line_at bytes.now) }
{
    let (line, rest) = front_at(alloc, bytes)?;
    done(line, rest)
}

/// The line whose spelling, but for the LF at its end, the bytes are. `Form` comes exactly where no line has this
/// spelling: the letter, the number of fields, their ranges, a leading zero or the escape of a byte that is not
/// escaped. It takes memory for names and descriptors alone.
pub fn read_line(alloc: Global, bytes: &[u8]) -> Result<TraceLine, LineError>
    ensures found { IfOk result (λ line. IsLineSpelled line bytes.now) }
    ensures form { IsErrOf result LineError.Form →
        (line : TraceLine) → IsLineSpelled line bytes.now → ⊥ }
{
    line_at(alloc, bytes)
}

/// The first line, where it has a spelling, and the bytes behind its LF. `Form` says nothing of the bytes: `read_line` tells
/// whether their first line is none. A line with a name is always left to it.
#[inline(always)]
pub fn read_front(alloc: Global, bytes: &[u8]) -> Result<(TraceLine, &[u8]), LineError>
    ensures range { IfOk result (λ x. IsInRange 1 x.0) }
    ensures first { IfOk result (λ x. FirstLine bytes.now (line_body x.0) x.1.now) }
{
    let (line, rest) = front_at(alloc, bytes)?;
    let [b, behind @ ..] = rest else {
        return Err(LineError::Form);
    };
    if *b != b'\n' {
        return Err(LineError::Form);
    }
    Ok((line, behind))
}
