//! The `Code` attribute of a method.

ghost use Rattle.std.specs.Prelude.{◌≡◌, ◌++◌, ◌<◌, ◌^◌, OnOk, IfOk};
ghost use Rattle.std.specs.List.{flat_map};
ghost use Rattle.et_asm.specs.Symbols.{places};
ghost use Rattle.et_asm.specs.Code.{place_behind, labels_of, code_bytes, is_catch, catch_count, caught_index, row_bytes, code_head, code_tail, code_attribute};

use crate::emit::{put_u2, put_u4};
use crate::instruction::{behind, put_line};
use crate::labels::{Labels, labels_of, place_of};
use crate::symbols::{Symbols, index_of, sum};
use et_listing::entry::Entry;
use et_listing::line::{Line, Parsed};
use et_listing::word::Word;
use std::alloc::{AllocError, Global};

/// The length of the code of a body.
fn code_length<'a>(symbols: &Symbols<'a>, body: &[Parsed<'a>]) -> Result<usize, AllocError>
    ensures { IfOk result (λ n. n ≡ place_behind symbols.now body.now) }
{
    let mut at = 0;
    for p in body {
        at = behind(symbols, at, &p.line)?;
    }
    Ok(at)
}

/// Appends the code of a body.
fn put_code<'a>(
    out: &mut Vec<u8>,
    alloc: Global,
    symbols: &Symbols<'a>,
    labels: &Labels<'a>,
    body: &[Parsed<'a>],
) -> Result<(), AllocError>
    ensures { OnOk result (out.new.items ≡ out.old.items
        ++ code_bytes symbols.now (places labels.now.entries) body.now) }
{
    let mut at = 0;
    for p in body {
        put_line(out, alloc, symbols, labels, at, &p.line)?;
        at = behind(symbols, at, &p.line)?;
    }
    Ok(())
}

/// Whether a line is a handler.
pub(crate) fn is_catch(line: &Line) -> bool
    ensures { result ≡ is_catch line.now }
{
    match line {
        Line::Catch(..) => true,
        _ => false,
    }
}

/// How many handlers a body has.
fn catch_count(body: &[Parsed]) -> usize
    ensures count { result ≡ catch_count body.now }
    ensures small { result < 2 ^ 60 }
{
    body.iter().filter(|p| is_catch(&p.line)).count()
}

fn caught_index<'a>(symbols: &Symbols<'a>, class: &Option<Word<'a>>) -> usize
    ensures { result ≡ caught_index symbols.now class.now }
{
    match class {
        None => 0,
        Some(class) => index_of(symbols, &Entry::Class(class.copy())),
    }
}

/// Appends the row of a handler.
fn put_row<'a>(
    out: &mut Vec<u8>,
    symbols: &Symbols<'a>,
    labels: &Labels<'a>,
    line: &Line<'a>,
) -> Result<(), AllocError>
    ensures { OnOk result (out.new.items ≡ out.old.items
        ++ row_bytes symbols.now (places labels.now.entries) line.now) }
{
    match line {
        Line::Catch(from, to, handler, class) => {
            put_u2(out, place_of(labels, from))?;
            put_u2(out, place_of(labels, to))?;
            put_u2(out, place_of(labels, handler))?;
            put_u2(out, caught_index(symbols, class))
        }
        _ => Ok(()),
    }
}

fn put_rows<'a>(
    out: &mut Vec<u8>,
    symbols: &Symbols<'a>,
    labels: &Labels<'a>,
    body: &[Parsed<'a>],
) -> Result<(), AllocError>
    ensures { OnOk result (out.new.items ≡ out.old.items ++ flat_map
        (λ p. row_bytes symbols.now (places labels.now.entries) p.line) body.now) }
{
    for p in body {
        put_row(out, symbols, labels, &p.line)?;
    }
    Ok(())
}

/// Appends the items of a `Code` attribute up to its code.
fn put_code_head(
    out: &mut Vec<u8>,
    limits: (u16, u16),
    size: usize,
    rows: usize,
) -> Result<(), AllocError>
    requires { rows < 2 ^ 60 }
    ensures { OnOk result (out.new.items ≡ out.old.items ++ code_head limits size rows) }
{
    let length = sum(12, size)?;
    let length = sum(length, rows * 8)?;
    put_u4(out, length)?;
    put_u2(out, limits.0 as usize)?;
    put_u2(out, limits.1 as usize)?;
    put_u4(out, size)
}

/// Appends the items of a `Code` attribute behind its code.
fn put_code_tail<'a>(
    out: &mut Vec<u8>,
    symbols: &Symbols<'a>,
    labels: &Labels<'a>,
    body: &[Parsed<'a>],
) -> Result<(), AllocError>
    ensures { OnOk result (out.new.items ≡ out.old.items
        ++ code_tail symbols.now (places labels.now.entries) body.now) }
{
    put_u2(out, catch_count(body))?;
    put_rows(out, symbols, labels, body)?;
    put_u2(out, 0)
}

/// Appends the body of a `Code` attribute, behind its name.
pub(crate) fn put_code_attribute<'a>(
    out: &mut Vec<u8>,
    alloc: Global,
    symbols: &Symbols<'a>,
    limits: (u16, u16),
    body: &[Parsed<'a>],
) -> Result<(), AllocError>
    ensures { OnOk result (out.new.items ≡ out.old.items ++ code_attribute symbols.now
        (labels_of symbols.now body.now) limits body.now) }
{
    let labels = labels_of(alloc, symbols, body)?;
    let size = code_length(symbols, body)?;
    let rows = catch_count(body);
    put_code_head(out, limits, size, rows)?;
    put_code(out, alloc, symbols, &labels, body)?;
    put_code_tail(out, symbols, &labels, body)
}
