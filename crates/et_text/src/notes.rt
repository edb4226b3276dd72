//! What the next line changes.
ghost use Rattle.std.specs.Prelude.{◌≡◌, ◌-◌, slice_set, true, false, Some, OnOk, IfOk};
ghost use Rattle.et_text.specs.Rules.{is_final};
ghost use Rattle.et_text.specs.StandsFor.{last_due, NotesObject, NotesDeath, NotesClass, NotesMethod};

use crate::breaking::is_flush_point;
use crate::names::{add_method, add_name};
use crate::standing::Standing;
use et_base::{Name, NoMemory};
use std::alloc::Global;

/// Of a line that is no F and no D.
pub fn leave_group(s: &mut Standing)
    ensures { s.new ≡ record s.old { begun = true; stands = false; awaited = 0; last_dead = 0 } }
{
    s.begun = true;
    s.stands = false;
    s.awaited = 0;
    s.last_dead = 0;
}

pub fn note_header(s: &mut Standing, interval: u64)
    ensures { s.new ≡ record s.old
        { begun = true; interval = interval; stands = false; awaited = 0; last_dead = 0 } }
{
    leave_group(s);
    s.interval = interval;
}

pub fn note_event(s: &mut Standing, event: u64)
    ensures { s.new ≡ record s.old
        { begun = true; latest = event; stands = false; awaited = 0; last_dead = 0 } }
{
    leave_group(s);
    s.latest = event;
}

/// The newest event up to this one after which a flush is due.
fn last_due(interval: u64, event: u64) -> u64
    ensures { result ≡ last_due interval (Some event) }
{
    if interval == 0 {
        return 0;
    }
    event - event % interval
}

pub fn note_flush(s: &mut Standing, event: u64, deaths: u32)
    ensures { s.new ≡ record s.old {
      begun = true;
      latest = event;
      flushed = Some event;
      is_last = is_final s.old.interval (Some event);
      last_due = last_due s.old.interval (Some event);
      stands = true;
      awaited = deaths;
      last_dead = 0;
    } }
{
    leave_group(s);
    s.latest = event;
    s.flushed = Some(event);
    s.is_last = !is_flush_point(s.interval, event);
    s.last_due = last_due(s.interval, event);
    s.stands = true;
    s.awaited = deaths;
}

pub fn note_finish(s: &mut Standing)
    ensures { s.new
        ≡ record s.old { begun = true; ended = true; stands = false; awaited = 0; last_dead = 0 } }
{
    leave_group(s);
    s.ended = true;
}

#[inline(never)]
pub fn note_class(
    alloc: Global,
    s: &mut Standing,
    number: u32,
    name: &Name,
) -> Result<bool, NoMemory>
    ensures { IfOk result (NotesClass s.old s.new number name.now) }
{
    leave_group(s);
    s.classes = number;
    let added = add_name(alloc, &mut s.class_names, name)?;
    Ok(added)
}

#[inline(never)]
pub fn note_method(
    alloc: Global,
    s: &mut Standing,
    number: u32,
    class: u32,
    name: &Name,
    descriptor: &Name,
) -> Result<bool, NoMemory>
    ensures { IfOk result (NotesMethod s.old s.new number class name.now descriptor.now) }
{
    leave_group(s);
    s.methods = number;
    let added = add_method(alloc, &mut s.method_names, class, name, descriptor)?;
    Ok(added)
}

#[inline(always)]
pub fn note_object(s: &mut Standing, event: u64) -> Result<(), NoMemory>
    ensures { OnOk result (NotesObject s.old s.new event) }
{
    s.births.push(event)?;
    s.reported.push(false)?;
    note_event(s, event);
    Ok(())
}

pub fn note_death(s: &mut Standing, object: u32)
    ensures { NotesDeath s.old s.new object }
{
    mark(&mut s.reported, (object as usize).saturating_sub(1));
    s.begun = true;
    s.awaited = s.awaited.saturating_sub(1);
    s.last_dead = object;
}

fn mark(flags: &mut Vec<bool>, place: usize)
    ensures { flags.new.items ≡ slice_set flags.old.items place true }
{
    if place < flags.len() {
        flags[place] = true;
    }
}
