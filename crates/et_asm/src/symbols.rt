//! The constant pool of a listing, with its indices.

ghost use Rattle.std.specs.Prelude.{◌≡◌, ◌≤◌, ◌<◌, ◌+◌, ℕ, IfOk, length, take, slice_index};
ghost use Rattle.et_asm.specs.Pool.{pool, width, index_behind, entry_index};

use crate::uses::pool;
use et_listing::entry::Entry;
use et_listing::line::Parsed;
use indexmap::IndexSet;
use std::alloc::{AllocError, Global};
use std::marker::Model;

/// How many indices an entry takes.
pub(crate) fn width(e: &Entry) -> usize
    ensures value { result ≡ width e.now }
    ensures small { result ≤ 2 }
{
    match e {
        Entry::Long(_) => 2,
        _ => 1,
    }
}

/// The sum of two numbers. One that doesn't fit is taken for want of memory: no listing that memory
/// holds comes near it.
pub(crate) fn sum(a: usize, b: usize) -> Result<usize, AllocError>
    ensures { IfOk result (λ n. n ≡ a + b) }
{
    a.checked_add(b).ok_or(AllocError)
}

/// The index of each entry, and the one behind them.
fn indices(alloc: Global, entries: &[Entry]) -> Result<(Vec<usize>, usize), AllocError>
    ensures counted { IfOk result (λ x. length x.0.items ≡ length entries.now) }
    ensures indices { IfOk result (λ x. (i : ℕ) →
        i < length entries.now → slice_index x.0.items i ≡ index_behind (take i entries.now)) }
    ensures behind { IfOk result (λ x. x.1 ≡ index_behind entries.now) }
{
    let mut indices = Vec::new(alloc);
    let mut next: usize = 1;
    for e in entries {
        indices.push(next)?;
        next = sum(next, width(e))?;
    }
    Ok((indices, next))
}

/// The constant pool with the index of each entry, and the one behind them. Contracts see it as its
/// entries.
#[derive(Drop)]
pub(crate) struct Symbols<'a> {
    entries: IndexSet<Entry<'a>>,
    indices: Vec<usize>,
    end: usize,
}

impl<'a> Model for Symbols<'a> {
    ghost use Rattle.std.specs.Prelude.{List};
    ghost use Rattle.et_listing.specs.declared.entry.Entry.{Entry};
    ghost use Rattle.et_asm.specs.Symbols.{AreIndicesOf};

    ghost Value = { List Entry };

    ghost view = { λ s. s.entries.keys };

    ghost invariant = { λ s. AreIndicesOf s.entries.keys s.indices.items s.end };
}

impl<'a> Symbols<'a> {
    /// Its entries, in order.
    pub(crate) fn entries(&self) -> &[Entry<'a>]
        ensures { result.now ≡ self.now }
    {
        self.entries.as_slice()
    }

    /// The index behind its entries: the count of the class file.
    pub(crate) fn end(&self) -> usize
        ensures { result ≡ index_behind self.now }
    {
        self.end
    }
}

/// The constant pool of lines, with the index of each entry.
pub(crate) fn symbols_of<'a>(alloc: Global, lines: &[Parsed<'a>]) -> Result<Symbols<'a>, AllocError>
    ensures { IfOk result (λ s. s ≡ pool lines.now) }
{
    let entries = pool(alloc, lines)?;
    let (indices, end) = indices(alloc, entries.as_slice())?;
    Ok(Symbols {
        entries,
        indices,
        end,
    })
}

/// The index of an entry, or 0 where the pool lacks it.
pub(crate) fn index_of<'a>(symbols: &Symbols<'a>, e: &Entry<'a>) -> usize
    ensures { result ≡ entry_index symbols.now e.now }
{
    match symbols.entries.get_index_of(e) {
        Some(place) => symbols.indices[place],
        None => 0,
    }
}
