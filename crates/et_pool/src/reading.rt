//! Reading a pool.

ghost use Rattle.std.specs.Prelude.{◌≡◌, ◌<◌, ◌≤◌, ◌+◌, take, drop, length, IfOk, IfErr};
ghost use Rattle.et_pool.specs.Entries.{view};
ghost use Rattle.et_pool.specs.Reading.{GivesOrIsBroken, text_at, body_at, shaped_at, entry_at};
ghost use Rattle.et_pool.specs.Pools.{ReadsSlots, ReadsPool};

use crate::entry::{Entry, Layout, indices_of, layout_of_tag, room_of_entry};
use crate::fault::PoolFault;
use crate::items::{u8_item, u16_item, u32_item, u64_item};
use crate::look::Pool;
use crate::text::is_text;
use et_base::numbers::run_at;
use std::alloc::Global;

#[tactic(auto, unfolding(crate::specs::Reading::text_at))]
fn text_of(
    alloc: Global,
    bytes: &[u8],
    entry: usize,
    at: usize,
) -> Result<(Entry, usize), PoolFault>
    ensures { GivesOrIsBroken (λ x. (view x.0, x.1)) result (text_at bytes.now entry at) }
{
    let (len, at) = u16_item(bytes, at)?;
    let (text, after) = run_at(bytes, len as usize, at).ok_or(PoolFault::Short { offset: at })?;
    if !is_text(text) {
        return Err(PoolFault::Utf8 { offset: entry });
    }
    Ok((Entry::Text(Vec::from_slice(alloc, text)?), after))
}

fn body_of(
    alloc: Global,
    bytes: &[u8],
    entry: usize,
    tag: u8,
    layout: Layout,
    at: usize,
) -> Result<(Entry, usize), PoolFault>
    ensures { GivesOrIsBroken (λ x. (view x.0, x.1)) result
        (body_at bytes.now entry tag at layout) }
{
    match layout {
        Layout::Text => text_of(alloc, bytes, entry, at),
        Layout::Word => {
            let (bits, at) = u32_item(bytes, at)?;
            Ok((Entry::Word(tag, bits), at))
        }
        Layout::Wide => {
            let (bits, at) = u64_item(bytes, at)?;
            Ok((Entry::Wide(tag, bits), at))
        }
        Layout::Name => {
            let (index, at) = u16_item(bytes, at)?;
            Ok((Entry::Name(tag, index), at))
        }
        Layout::Pair => {
            let (first, at) = u16_item(bytes, at)?;
            let (second, at) = u16_item(bytes, at)?;
            Ok((Entry::Pair(tag, first, second), at))
        }
        Layout::Handle => {
            let (kind, at) = u8_item(bytes, at)?;
            let (index, at) = u16_item(bytes, at)?;
            Ok((Entry::Handle(kind, index), at))
        }
    }
}

#[tactic(auto, unfolding(crate::specs::Reading::entry_at))]
fn entry_of(
    alloc: Global,
    bytes: &[u8],
    room: usize,
    at: usize,
) -> Result<(Entry, usize), PoolFault>
    ensures { GivesOrIsBroken (λ x. (view x.0, x.1)) result (entry_at bytes.now room at) }
{
    let (tag, after) = u8_item(bytes, at)?;
    match layout_of_tag(tag) {
        None => Err(PoolFault::Tag { offset: at }),
        Some(layout) => {
            if room < indices_of(layout) {
                return Err(PoolFault::Tag { offset: at });
            }
            body_of(alloc, bytes, at, tag, layout, after)
        }
    }
}

/// The slots behind a count, from the place of the first entry.
fn slots_of(
    alloc: Global,
    bytes: &[u8],
    count: usize,
    start: usize,
) -> Result<(Vec<Option<Entry>>, usize), PoolFault>
    requires { 0 < count }
    ensures { ReadsSlots bytes.now count start result }
{
    let mut slots = Vec::new(alloc);
    slots.push(None)?;
    let mut at = start;
    'entries: while slots.len() < count {
        let room = count - slots.len();
        let (entry, after) = entry_of(alloc, bytes, room, at)?;
        let taken = room_of_entry(&entry);
        slots.push(Some(entry))?;
        if taken == 2 {
            slots.push(None)?;
        }
        at = after;
    }
    Ok((slots, at))
}

/// Reads the pool whose count stands at a place, and gives the pool and the place after it.
///
/// The places in the faults count from the start of `bytes`. `Tag`, `Utf8` and `Short` come
/// exactly where the first broken item is of that kind (JVMS 4.4), and `Index` never.
pub fn read_pool(alloc: Global, bytes: &[u8], at: usize) -> Result<(Pool, usize), PoolFault>
    ensures { ReadsPool bytes.now at result }
{
    let (count, start) = u16_item(bytes, at)?;
    let count = count as usize;
    if count == 0 {
        return Err(PoolFault::Tag { offset: at });
    }
    let (slots, after) = slots_of(alloc, bytes, count, start)?;
    Ok((Pool { at, slots }, after))
}
