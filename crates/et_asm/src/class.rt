//! The class file.

ghost use Rattle.std.specs.Prelude.{◌≡◌, ◌++◌, OnOk, IfOk, Some};
ghost use Rattle.std.specs.List.{flat_map};
ghost use Rattle.et_asm.specs.Pool.{entry_pool_bytes};
ghost use Rattle.et_asm.specs.Symbols.{stage_method};
ghost use Rattle.et_asm.specs.Listings.{count, is_interface_line, is_field_line, is_method_line, listed_member_bytes, constant_bytes, section_bytes, body_bytes, method_bytes, methods_bytes, listed_class_bytes};

use crate::code::put_code_attribute;
use crate::counts::{is_field, is_interface, is_method};
use crate::emit::{put_entry, put_index, put_u2, put_u4};
use crate::order::{Stage, body_of, is_inside, step};
use crate::symbols::{Symbols, index_of};
use et_listing::entry::Entry;
use et_listing::line::{Line, Parsed};
use et_listing::word::Word;
use std::alloc::{AllocError, Global};

/// A part of the class file to which a line gives its bytes by itself.
#[derive(Clone, Copy)]
pub(crate) enum Section {
    /// The flags and the names of the class and its superclass.
    Header,
    /// The interfaces.
    Interfaces,
    /// The fields.
    Fields,
}

/// Appends the constant pool.
fn put_pool<'a>(out: &mut Vec<u8>, symbols: &Symbols<'a>) -> Result<(), AllocError>
    ensures { OnOk result (out.new.items ≡ out.old.items ++ entry_pool_bytes symbols.now) }
{
    put_u2(out, symbols.end())?;
    for e in symbols.entries() {
        put_entry(out, symbols, e)?;
    }
    Ok(())
}

/// Appends the value of a field, as its one attribute.
fn put_value<'a>(
    out: &mut Vec<u8>,
    symbols: &Symbols<'a>,
    value: &Entry<'a>,
) -> Result<(), AllocError>
    ensures { OnOk result (out.new.items
        ≡ out.old.items ++ constant_bytes symbols.now (Some value.now)) }
{
    put_u2(out, 1)?;
    put_index(out, symbols, Entry::Utf8(Word::new(b"ConstantValue")))?;
    put_u4(out, 2)?;
    put_u2(out, index_of(symbols, value))
}

/// Appends the attributes of a field.
fn put_constant<'a>(
    out: &mut Vec<u8>,
    symbols: &Symbols<'a>,
    constant: &Option<Entry<'a>>,
) -> Result<(), AllocError>
    ensures { OnOk result
        (out.new.items ≡ out.old.items ++ constant_bytes symbols.now constant.now) }
{
    match constant {
        None => put_u2(out, 0),
        Some(value) => put_value(out, symbols, value),
    }
}

/// Appends the flags, the name and the descriptor of a field or a method.
fn put_member<'a>(
    out: &mut Vec<u8>,
    symbols: &Symbols<'a>,
    name: &Word<'a>,
    descriptor: &Word<'a>,
    flags: u16,
) -> Result<(), AllocError>
    ensures { OnOk result (out.new.items
        ≡ out.old.items ++ listed_member_bytes symbols.now name.now descriptor.now
        flags) }
{
    put_u2(out, flags as usize)?;
    put_index(out, symbols, Entry::Utf8(name.copy()))?;
    put_index(out, symbols, Entry::Utf8(descriptor.copy()))
}

/// Appends the code of a method, as its one attribute.
fn put_code_of<'a>(
    out: &mut Vec<u8>,
    alloc: Global,
    symbols: &Symbols<'a>,
    limits: (u16, u16),
    body: &[Parsed<'a>],
) -> Result<(), AllocError>
    ensures { OnOk result (out.new.items
        ≡ out.old.items ++ body_bytes symbols.now (Some limits) body.now) }
{
    put_u2(out, 1)?;
    put_index(out, symbols, Entry::Utf8(Word::new(b"Code")))?;
    put_code_attribute(out, alloc, symbols, limits, body)
}

/// Appends the attributes of a method.
fn put_body<'a>(
    out: &mut Vec<u8>,
    alloc: Global,
    symbols: &Symbols<'a>,
    limits: Option<(u16, u16)>,
    body: &[Parsed<'a>],
) -> Result<(), AllocError>
    ensures { OnOk result
        (out.new.items ≡ out.old.items ++ body_bytes symbols.now limits body.now) }
{
    match limits {
        None => put_u2(out, 0),
        Some(limits) => put_code_of(out, alloc, symbols, limits, body),
    }
}

/// Appends a method, whose body begins behind its line.
fn put_method<'a>(
    out: &mut Vec<u8>,
    alloc: Global,
    symbols: &Symbols<'a>,
    line: &Line<'a>,
    more: &[Parsed<'a>],
) -> Result<(), AllocError>
    ensures { OnOk result
        (out.new.items ≡ out.old.items ++ method_bytes symbols.now line.now more.now) }
{
    match line {
        Line::Method(name, descriptor, flags, limits) => {
            put_member(out, symbols, name, descriptor, *flags)?;
            put_body(out, alloc, symbols, *limits, body_of(more))
        }
        _ => Ok(()),
    }
}

/// Appends what a line gives to a section.
fn put_line<'a>(
    out: &mut Vec<u8>,
    symbols: &Symbols<'a>,
    section: Section,
    line: &Line<'a>,
) -> Result<(), AllocError>
    ensures { OnOk result (out.new.items
        ≡ out.old.items ++ section_bytes symbols.now section line.now) }
{
    match (section, line) {
        (Section::Header, Line::Class(name, super_name, flags)) => {
            put_u2(out, *flags as usize)?;
            put_index(out, symbols, Entry::Class(name.copy()))?;
            put_index(out, symbols, Entry::Class(super_name.copy()))
        }
        (Section::Interfaces, Line::Interface(name)) => {
            put_index(out, symbols, Entry::Class(name.copy()))
        }
        (Section::Fields, Line::Field(name, descriptor, flags, constant)) => {
            put_member(out, symbols, name, descriptor, *flags)?;
            put_constant(out, symbols, constant)
        }
        _ => Ok(()),
    }
}

/// Appends a section.
fn put_section<'a>(
    out: &mut Vec<u8>,
    symbols: &Symbols<'a>,
    section: Section,
    lines: &[Parsed<'a>],
) -> Result<(), AllocError>
    ensures { OnOk result (out.new.items ≡ out.old.items
        ++ flat_map (λ p. section_bytes symbols.now section p.line) lines.now) }
{
    for p in lines {
        put_line(out, symbols, section, &p.line)?;
    }
    Ok(())
}

/// Appends the method of a line at a stage.
fn put_method_at<'a>(
    out: &mut Vec<u8>,
    alloc: Global,
    symbols: &Symbols<'a>,
    stage: Stage,
    line: &Line<'a>,
    more: &[Parsed<'a>],
) -> Result<(), AllocError>
    ensures { OnOk result (out.new.items
        ≡ out.old.items ++ stage_method symbols.now stage line.now more.now) }
{
    if is_inside(stage) {
        return Ok(());
    }
    put_method(out, alloc, symbols, line, more)
}

fn put_methods<'a>(
    out: &mut Vec<u8>,
    alloc: Global,
    symbols: &Symbols<'a>,
    lines: &[Parsed<'a>],
) -> Result<(), AllocError>
    ensures { OnOk result (out.new.items ≡ out.old.items ++ methods_bytes symbols.now lines.now) }
{
    let mut stage = Stage::Start;
    for i in 0..lines.len() {
        let p = &lines[i];
        put_method_at(out, alloc, symbols, stage, &p.line, &lines[i + 1..])?;
        stage = step(stage, &p.line);
    }
    Ok(())
}

fn interface_count(lines: &[Parsed]) -> usize
    ensures { result ≡ count is_interface_line lines.now }
{
    lines.iter().filter(|p| is_interface(&p.line)).count()
}

fn field_count(lines: &[Parsed]) -> usize
    ensures { result ≡ count is_field_line lines.now }
{
    lines.iter().filter(|p| is_field(&p.line)).count()
}

fn method_count(lines: &[Parsed]) -> usize
    ensures { result ≡ count is_method_line lines.now }
{
    lines.iter().filter(|p| is_method(&p.line)).count()
}

/// The bytes of the class file.
pub(crate) fn class_bytes<'a>(
    alloc: Global,
    symbols: &Symbols<'a>,
    lines: &[Parsed<'a>],
) -> Result<Vec<u8>, AllocError>
    ensures { IfOk result (λ bytes. bytes.items ≡ listed_class_bytes symbols.now lines.now) }
{
    let mut out = Vec::new(alloc);
    put_u4(&mut out, 0xcafe_babe)?;
    put_u2(&mut out, 0)?;
    put_u2(&mut out, 52)?;
    put_pool(&mut out, symbols)?;
    put_section(&mut out, symbols, Section::Header, lines)?;
    put_u2(&mut out, interface_count(lines))?;
    put_section(&mut out, symbols, Section::Interfaces, lines)?;
    put_u2(&mut out, field_count(lines))?;
    put_section(&mut out, symbols, Section::Fields, lines)?;
    put_u2(&mut out, method_count(lines))?;
    put_methods(&mut out, alloc, symbols, lines)?;
    put_u2(&mut out, 0)?;
    Ok(out)
}
