//! The table of the lines, for each way to write them: the letter of a line, and its fields in their order.
ghost use Rattle.std.specs.Prelude.{◌≡◌, ◌≤◌, ℕ, List, [], ◌∷◌, ◌++◌, length, OnOk, OnErr, false};
ghost use Rattle.std.specs.Int.{w8, w32, w64};
ghost use Rattle.std.specs.List.{flat_map};
ghost use Rattle.et_base.specs.declared.line.TraceLine.TheVariants.{Class, Method, Alloc, Update, Exit};
ghost use Rattle.et_text.specs.Extends.{Extends};
ghost use Rattle.et_text.specs.Fields.{numbers_of, line_bytes};
ghost use Rattle.et_text.specs.Kinds.{is_of_thread};
ghost use Rattle.et_text.specs.Ranges.{HasNames};
ghost use Rattle.et_text.specs.Spelling.{LineField, Number, Text};

use et_base::{Name, NoMemory, TraceLine};

/// How many bytes a number has where numbers are packed: 1, 4 or 8.
#[derive(Clone, Copy)]
pub enum Width {
    Byte,
    Word,
    Long,
}

use Width::{Byte, Long, Word};

/// A way to write the parts of a line. After an error the buffer may have more, but nothing of it changed.
pub trait FieldWriter {
    /// The bytes of a field.
    ghost field: { LineField → List ℕ };

    /// The bytes of a header, by its version and interval.
    ghost header: { ℕ → ℕ → List ℕ };

    /// A name that can be written.
    ghost can_name: { List ℕ → Type 0 };

    /// The letter of a line, and up to six numbers behind it, each of which has a width.
    fn put_numbers(
        buffer: &mut Vec<u8>,
        letter: u8,
        numbers: &[u64],
        widths: &[Width],
    ) -> Result<(), NoMemory>
        requires few { length numbers.now ≤ 6 }
        requires paired { length widths.now ≡ length numbers.now }
        ensures ok { OnOk result (buffer.new.items ≡ buffer.old.items
            ++ letter ∷ flat_map field (numbers_of widths.now numbers.now)) }
        ensures err { OnErr result (Extends buffer.old.items buffer.new.items) };

    /// A name or a descriptor.
    fn put_name(buffer: &mut Vec<u8>, name: &Name) -> Result<(), NoMemory>
        requires { can_name name.now }
        ensures ok { OnOk result
            (buffer.new.items ≡ buffer.old.items ++ field (Text name.now)) }
        ensures err { OnErr result (Extends buffer.old.items buffer.new.items) };

    /// A header.
    fn put_header(buffer: &mut Vec<u8>, version: u32, interval: u64) -> Result<(), NoMemory>
        ensures ok { OnOk result
            (buffer.new.items ≡ buffer.old.items ++ header version interval) }
        ensures err { OnErr result (Extends buffer.old.items buffer.new.items) };
}

/// A class.
fn put_class<W: FieldWriter>(buffer: &mut Vec<u8>, number: u32, name: &Name) -> Result<(), NoMemory>
    requires { W.can_name name.now }
    ensures ok { OnOk result (buffer.new.items
        ≡ buffer.old.items ++ line_bytes W.header W.field (Class number name.now)) }
    ensures err { OnErr result (Extends buffer.old.items buffer.new.items) }
{
    W::put_numbers(buffer, b'C', &[u64::from(number)], &[Word])?;
    W::put_name(buffer, name)?;
    Ok(())
}

/// A method.
fn put_method<W: FieldWriter>(
    buffer: &mut Vec<u8>,
    number: u32,
    class: u32,
    name: &Name,
    descriptor: &Name,
) -> Result<(), NoMemory>
    requires { W.can_name name.now × W.can_name descriptor.now }
    ensures ok { OnOk result (buffer.new.items ≡ buffer.old.items
        ++ line_bytes W.header W.field (Method number class name.now descriptor.now)) }
    ensures err { OnErr result (Extends buffer.old.items buffer.new.items) }
{
    let numbers = [u64::from(number), u64::from(class)];
    W::put_numbers(buffer, b'N', &numbers, &[Word, Word])?;
    W::put_name(buffer, name)?;
    W::put_name(buffer, descriptor)?;
    Ok(())
}

/// An object that is made.
#[inline]
fn put_alloc<W: FieldWriter>(
    buffer: &mut Vec<u8>,
    event: u64,
    thread: u8,
    object: u32,
    class: u32,
    size: u64,
    length: u32,
) -> Result<(), NoMemory>
    ensures ok { OnOk result (buffer.new.items ≡ buffer.old.items
        ++ line_bytes W.header W.field (Alloc event thread object class size length)) }
    ensures err { OnErr result (Extends buffer.old.items buffer.new.items) }
{
    let (thread, object) = (u64::from(thread), u64::from(object));
    let (class, length) = (u64::from(class), u64::from(length));
    let numbers = [event, thread, object, class, size, length];
    let widths = [Long, Byte, Word, Word, Long, Word];
    W::put_numbers(buffer, b'A', &numbers, &widths)
}

/// A reference that is written to a slot.
#[inline]
fn put_update<W: FieldWriter>(
    buffer: &mut Vec<u8>,
    event: u64,
    thread: u8,
    object: u32,
    slot: u32,
    old: u32,
    new: u32,
) -> Result<(), NoMemory>
    ensures ok { OnOk result (buffer.new.items ≡ buffer.old.items
        ++ line_bytes W.header W.field (Update event thread object slot old new)) }
    ensures err { OnErr result (Extends buffer.old.items buffer.new.items) }
{
    let (thread, object) = (u64::from(thread), u64::from(object));
    let (slot, old, new) = (u64::from(slot), u64::from(old), u64::from(new));
    let numbers = [event, thread, object, slot, old, new];
    let widths = [Long, Byte, Word, Word, Word, Word];
    W::put_numbers(buffer, b'U', &numbers, &widths)
}

/// A method that is entered, or left by an exception, with the receiver or the exception.
#[inline]
fn put_passage<W: FieldWriter>(
    buffer: &mut Vec<u8>,
    letter: u8,
    event: u64,
    thread: u8,
    method: u32,
    object: u32,
) -> Result<(), NoMemory>
    ensures ok { OnOk result (buffer.new.items ≡ buffer.old.items
        ++ letter ∷ flat_map W.field
        (Number w64 event ∷ Number w8 thread ∷ Number w32 method ∷ Number w32 object ∷ [])) }
    ensures err { OnErr result (Extends buffer.old.items buffer.new.items) }
{
    let (thread, method) = (u64::from(thread), u64::from(method));
    let numbers = [event, thread, method, u64::from(object)];
    W::put_numbers(buffer, letter, &numbers, &[Long, Byte, Word, Word])
}

/// A method that returns.
#[inline]
fn put_exit<W: FieldWriter>(
    buffer: &mut Vec<u8>,
    event: u64,
    thread: u8,
    method: u32,
) -> Result<(), NoMemory>
    ensures ok { OnOk result (buffer.new.items
        ≡ buffer.old.items ++ line_bytes W.header W.field (Exit event thread method)) }
    ensures err { OnErr result (Extends buffer.old.items buffer.new.items) }
{
    let numbers = [event, u64::from(thread), u64::from(method)];
    W::put_numbers(buffer, b'E', &numbers, &[Long, Byte, Word])
}

/// A line that tells of the trace, and of no thread.
#[inline]
fn put_other<W: FieldWriter>(buffer: &mut Vec<u8>, line: &TraceLine) -> Result<(), NoMemory>
    requires names { HasNames W.can_name line.now }
    requires other { is_of_thread line.now ≡ false }
    ensures ok { OnOk result (buffer.new.items
        ≡ buffer.old.items ++ line_bytes W.header W.field line.now) }
    ensures err { OnErr result (Extends buffer.old.items buffer.new.items) }
{
    match line {
        TraceLine::Header { version, interval } => W::put_header(buffer, *version, *interval),
        TraceLine::Class { number, name } => put_class::<W>(buffer, *number, name),
        TraceLine::Method {
            number,
            class,
            name,
            descriptor,
        } => put_method::<W>(buffer, *number, *class, name, descriptor),
        TraceLine::Flush { event, deaths } => {
            W::put_numbers(buffer, b'F', &[*event, u64::from(*deaths)], &[Long, Word])
        }
        TraceLine::Death { object, time } => {
            W::put_numbers(buffer, b'D', &[u64::from(*object), *time], &[Word, Long])
        }
        TraceLine::Finish { event, how } => {
            W::put_numbers(buffer, b'Z', &[*event, u64::from(*how)], &[Long, Byte])
        }
        _ => unreachable!(),
    }
}

/// Appends a line to the buffer: its letter and its fields in their order. After an error the buffer may have more, but
/// nothing of it changed.
pub fn put_fields<W: FieldWriter>(buffer: &mut Vec<u8>, line: &TraceLine) -> Result<(), NoMemory>
    requires { HasNames W.can_name line.now }
    ensures ok { OnOk result (buffer.new.items
        ≡ buffer.old.items ++ line_bytes W.header W.field line.now) }
    ensures err { OnErr result (Extends buffer.old.items buffer.new.items) }
{
    match line {
        TraceLine::Alloc {
            event,
            thread,
            object,
            class,
            size,
            length,
        } => put_alloc::<W>(buffer, *event, *thread, *object, *class, *size, *length),
        TraceLine::Update {
            event,
            thread,
            object,
            slot,
            old,
            new,
        } => put_update::<W>(buffer, *event, *thread, *object, *slot, *old, *new),
        TraceLine::Enter {
            event,
            thread,
            method,
            receiver,
        } => put_passage::<W>(buffer, b'M', *event, *thread, *method, *receiver),
        TraceLine::Exit {
            event,
            thread,
            method,
        } => put_exit::<W>(buffer, *event, *thread, *method),
        TraceLine::Unwind {
            event,
            thread,
            method,
            exception,
        } => put_passage::<W>(buffer, b'X', *event, *thread, *method, *exception),
        _ => put_other::<W>(buffer, line),
    }
}
