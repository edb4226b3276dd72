//! Which rule the next line breaks.
ghost use Rattle.std.specs.Prelude.{◌≡◌, ◌-◌, nat_le, length, slice_index, if◌then◌else◌};
ghost use Rattle.et_text.specs.Rules.{is_flush_point, is_before, stands_at};
ghost use Rattle.et_text.specs.ByStanding.{misses_no_flush_in, is_open_in, is_timely_in, order_in, reported_in, known_in, lives_in, dies_once_in, fault_in};

use crate::fault::{AFTER, ORDER, TWICE, UNKNOWN};
use crate::standing::Standing;
use et_base::TraceLine;

/// Whether a flush follows the event even where it is not the last: the interval is not 0, and the event is a multiple of it
/// from 1 on.
pub fn is_flush_point(interval: u64, event: u64) -> bool
    ensures { result ≡ is_flush_point interval event }
{
    0 < interval && 0 < event && event % interval == 0
}

fn is_before(flushed: Option<u64>, event: u64) -> bool
    ensures { result ≡ is_before flushed event }
{
    match flushed {
        None => true,
        Some(flush) => flush < event,
    }
}

/// Whether each flush point below the event has its flush.
fn misses_no_flush(s: &Standing, event: u64) -> bool
    ensures { result ≡ misses_no_flush_in s.now event }
{
    s.interval == 0 || event.saturating_sub(s.last_due) <= s.interval
}

/// Whether a line that is no H, D or Z may stand here.
fn is_open(s: &Standing) -> bool
    ensures { result ≡ is_open_in s.now }
{
    s.begun && s.awaited == 0 && !s.is_last
}

/// .. and one of this event.
fn is_timely(s: &Standing, event: u64) -> bool
    ensures { result ≡ is_timely_in s.now event }
{
    is_open(s) && s.latest <= event && is_before(s.flushed, event) && misses_no_flush(s, event)
}

/// Whether nothing but its D lines came behind the flush at this event.
fn stands_at(s: &Standing, event: u64) -> bool
    ensures { result ≡ stands_at (if s.now.stands then s.now.flushed else None) event }
{
    match s.flushed {
        None => false,
        Some(flush) => s.stands && flush == event,
    }
}

/// Order, but for the lives of objects.
#[inline(always)]
fn keeps_order(s: &Standing, line: &TraceLine) -> bool
    ensures { result ≡ order_in s.now line.now }
{
    match line {
        TraceLine::Header { .. } => !s.begun,
        TraceLine::Class { number, .. } => is_open(s)
            && u64::from(*number) == u64::from(s.classes) + 1,
        TraceLine::Method { number, .. } => is_open(s)
            && u64::from(*number) == u64::from(s.methods) + 1,
        TraceLine::Alloc { event, object, .. } => is_timely(s, *event)
            && u64::from(*object) == s.births.len() as u64 + 1,
        TraceLine::Update { event, .. }
        | TraceLine::Enter { event, .. }
        | TraceLine::Exit { event, .. }
        | TraceLine::Unwind { event, .. }
        | TraceLine::Flush { event, .. } => is_timely(s, *event),
        TraceLine::Death { object, time } => {
            0 < s.awaited && s.last_dead < *object && *time <= s.flushed.unwrap_or(0)
        }
        TraceLine::Finish { event, .. } => s.awaited == 0 && stands_at(s, *event),
    }
}

fn has_object(s: &Standing, object: u32) -> bool
    ensures { result ≡ nat_le object (length s.now.births.items) }
{
    object as usize <= s.births.len()
}

/// Whether what the line mentions was defined.
fn is_known(s: &Standing, line: &TraceLine) -> bool
    ensures { result ≡ known_in s.now line.now }
{
    match line {
        TraceLine::Method { class, .. } => *class <= s.classes,
        TraceLine::Alloc { class, .. } => *class <= s.classes,
        TraceLine::Update {
            object,
            old,
            new,
            ..
        } => has_object(s, *object) && has_object(s, *old) && has_object(s, *new),
        TraceLine::Enter {
            method,
            receiver,
            ..
        } => *method <= s.methods && has_object(s, *receiver),
        TraceLine::Exit { method, .. } => *method <= s.methods,
        TraceLine::Unwind {
            method,
            exception,
            ..
        } => *method <= s.methods && has_object(s, *exception),
        TraceLine::Death { object, .. } => has_object(s, *object),
        _ => true,
    }
}

fn is_reported(s: &Standing, object: u32) -> bool
    ensures { result ≡ reported_in s.now object }
{
    if object == 0 {
        return false;
    }
    let place = object as usize - 1;
    if place < s.reported.len() {
        s.reported[place]
    } else {
        false
    }
}

/// The event at which the object was made.
fn birth(s: &Standing, object: u32) -> u64
    ensures { result ≡ slice_index s.now.births.items (object - 1) }
{
    let place = (object as usize).saturating_sub(1);
    if place < s.births.len() {
        s.births[place]
    } else {
        0
    }
}

/// Order, as the lives of objects go: no line mentions what was reported dead, and no death is before the birth.
fn keeps_lives(s: &Standing, line: &TraceLine) -> bool
    ensures { result ≡ lives_in s.now line.now }
{
    match line {
        TraceLine::Update {
            object,
            old,
            new,
            ..
        } => !is_reported(s, *object) && !is_reported(s, *old) && !is_reported(s, *new),
        TraceLine::Enter { receiver, .. } => !is_reported(s, *receiver),
        TraceLine::Unwind { exception, .. } => !is_reported(s, *exception),
        TraceLine::Death { object, time } => birth(s, *object) <= *time,
        _ => true,
    }
}

/// Whether the line reports no object that was reported.
fn dies_once(s: &Standing, line: &TraceLine) -> bool
    ensures { result ≡ dies_once_in s.now line.now }
{
    match line {
        TraceLine::Death { object, .. } => !is_reported(s, *object),
        _ => true,
    }
}

/// The kind of the first rule that the line breaks, but for names that are not new.
#[inline(always)]
pub fn fault_of(s: &Standing, line: &TraceLine) -> Option<u8>
    ensures { result ≡ fault_in s.now line.now }
{
    if s.ended {
        return Some(AFTER);
    }
    if !keeps_order(s, line) {
        return Some(ORDER);
    }
    if !is_known(s, line) {
        return Some(UNKNOWN);
    }
    if !keeps_lives(s, line) {
        return Some(ORDER);
    }
    if !dies_once(s, line) {
        return Some(TWICE);
    }
    None
}
