//! With what bytes a binary trace begins, and whether the fields of a record are in their ranges.
ghost use Rattle.std.specs.Prelude.{◌≡◌, ◌<◌, ◌↔◌, IsTrue, false, length};
ghost use Rattle.et_base.specs.declared.line.TraceLine.TheVariants.{Alloc, Update, Enter, Exit, Unwind, Flush, Death, Finish};
ghost use Rattle.et_text.specs.Kinds.{is_of_thread};
ghost use Rattle.et_text.specs.Ranges.{IsEventNumber, IsThreadNumber, IsNumber, IsObject, IsInRange};
ghost use Rattle.et_binary.specs.Fronts.{is_record_letter, may_open};
ghost use Rattle.et_binary.specs.Packing.{packing};
ghost use Rattle.et_binary.specs.Packs.{IsPacked};

use et_base::{Name, TraceLine};
use et_text::ranges::{
    GREATEST_ENDING, GREATEST_EVENT, GREATEST_LENGTH, GREATEST_SIZE, LEAST_SIZE, OBJECT_LIMIT,
    SLOT_LIMIT, THREAD_COUNT,
};

/// What stands before the first record.
pub const OPENING: [u8; 4] = [0xFE, b'E', b'T', b'2'];

/// Whether a record begins with the letter.
pub fn is_record_letter(b: u8) -> bool
    ensures { result ≡ is_record_letter b }
{
    matches!(
        b,
        b'H' | b'C' | b'N' | b'A' | b'U' | b'M' | b'E' | b'X' | b'F' | b'D' | b'Z'
    )
}

/// Whether the first four bytes, as far as they came, are those of a binary trace.
pub fn may_open(bytes: &[u8]) -> bool
    ensures { result ≡ may_open bytes.now }
{
    let count = bytes.len().min(OPENING.len());
    bytes[..count] == OPENING[..count]
}

fn is_event(event: u64) -> bool
    ensures { IsTrue result ↔ IsEventNumber event }
{
    event <= GREATEST_EVENT
}

fn is_turn(event: u64, thread: u8) -> bool
    ensures { IsTrue result ↔ (IsEventNumber event × IsThreadNumber thread) }
{
    event <= GREATEST_EVENT && thread < THREAD_COUNT
}

fn is_object(object: u32) -> bool
    ensures { IsTrue result ↔ IsObject object }
{
    0 < object && object < OBJECT_LIMIT
}

fn is_class_in_range(number: u32, name: &Name) -> bool
    ensures { IsTrue result ↔ (IsNumber number × (0 < length name.now)) }
{
    0 < number && 0 < name.as_slice().len()
}

fn is_method_in_range(number: u32, class: u32, name: &Name, descriptor: &Name) -> bool
    ensures { IsTrue result ↔ (IsNumber number × IsNumber class
        × (0 < length name.now) × (0 < length descriptor.now)) }
{
    let (name, descriptor) = (name.as_slice(), descriptor.as_slice());
    0 < number && 0 < class && 0 < name.len() && 0 < descriptor.len()
}

fn is_alloc_in_range(
    event: u64,
    thread: u8,
    object: u32,
    class: u32,
    size: u64,
    length: u32,
) -> bool
    ensures { IsTrue result ↔ IsInRange 2 (Alloc event thread object class size length) }
{
    let is_size = LEAST_SIZE <= size && size <= GREATEST_SIZE;
    let is_made = is_object(object) && 0 < class && is_size && length <= GREATEST_LENGTH;
    is_turn(event, thread) && is_made
}

fn is_update_in_range(event: u64, thread: u8, object: u32, slot: u32, old: u32, new: u32) -> bool
    ensures { IsTrue result ↔ IsInRange 2 (Update event thread object slot old new) }
{
    let are_objects = object < OBJECT_LIMIT && old < OBJECT_LIMIT && new < OBJECT_LIMIT;
    is_turn(event, thread) && slot < SLOT_LIMIT && are_objects
}

fn is_enter_in_range(event: u64, thread: u8, method: u32, receiver: u32) -> bool
    ensures { IsTrue result ↔ IsInRange 2 (Enter event thread method receiver) }
{
    is_turn(event, thread) && 0 < method && receiver < OBJECT_LIMIT
}

fn is_exit_in_range(event: u64, thread: u8, method: u32) -> bool
    ensures { IsTrue result ↔ IsInRange 2 (Exit event thread method) }
{
    is_turn(event, thread) && 0 < method
}

fn is_unwind_in_range(event: u64, thread: u8, method: u32, exception: u32) -> bool
    ensures { IsTrue result ↔ IsInRange 2 (Unwind event thread method exception) }
{
    is_turn(event, thread) && 0 < method && is_object(exception)
}

fn is_flush_in_range(event: u64, deaths: u32) -> bool
    ensures { IsTrue result ↔ IsInRange 2 (Flush event deaths) }
{
    event <= GREATEST_EVENT && deaths < OBJECT_LIMIT
}

fn is_death_in_range(object: u32, time: u64) -> bool
    ensures { IsTrue result ↔ IsInRange 2 (Death object time) }
{
    is_object(object) && time <= GREATEST_EVENT
}

fn is_finish_in_range(event: u64, how: u8) -> bool
    ensures { IsTrue result ↔ IsInRange 2 (Finish event how) }
{
    event <= GREATEST_EVENT && how <= GREATEST_ENDING
}

/// Of a line that tells of the trace, and of no thread.
#[inline(always)]
fn is_other_in_range(line: &TraceLine) -> bool
    requires packed { IsPacked line.now (packing line.now) }
    requires other { is_of_thread line.now ≡ false }
    ensures { IsTrue result ↔ IsInRange 2 line.now }
{
    match line {
        TraceLine::Header { interval, .. } => is_event(*interval),
        TraceLine::Class { number, name } => is_class_in_range(*number, name),
        TraceLine::Method {
            number,
            class,
            name,
            descriptor,
        } => is_method_in_range(*number, *class, name, descriptor),
        TraceLine::Flush { event, deaths } => is_flush_in_range(*event, *deaths),
        TraceLine::Death { object, time } => is_death_in_range(*object, *time),
        TraceLine::Finish { event, how } => is_finish_in_range(*event, *how),
        _ => unreachable!(),
    }
}

/// Whether the fields of a line that was read from a record are in their ranges.
#[inline(always)]
pub fn is_in_range(line: &TraceLine) -> bool
    requires { IsPacked line.now (packing line.now) }
    ensures { IsTrue result ↔ IsInRange 2 line.now }
{
    match line {
        TraceLine::Alloc {
            event,
            thread,
            object,
            class,
            size,
            length,
        } => is_alloc_in_range(*event, *thread, *object, *class, *size, *length),
        TraceLine::Update {
            event,
            thread,
            object,
            slot,
            old,
            new,
        } => is_update_in_range(*event, *thread, *object, *slot, *old, *new),
        TraceLine::Enter {
            event,
            thread,
            method,
            receiver,
        } => is_enter_in_range(*event, *thread, *method, *receiver),
        TraceLine::Exit {
            event,
            thread,
            method,
        } => is_exit_in_range(*event, *thread, *method),
        TraceLine::Unwind {
            event,
            thread,
            method,
            exception,
        } => is_unwind_in_range(*event, *thread, *method, *exception),
        _ => is_other_in_range(line),
    }
}
