//! The instructions of a body: their lengths and their bytes.

ghost use Rattle.std.specs.Prelude.{◌≡◌, ◌++◌, ◌∷◌, [], ◌+◌, ◌<◌, ◌^◌, length, OnOk, IfOk};
ghost use Rattle.std.specs.List.{flat_map};
ghost use Rattle.et_listing.specs.Lines.{pairs};
ghost use Rattle.et_asm.specs.Pool.{entry_index};
ghost use Rattle.et_class.specs.Layout.{u2};
ghost use Rattle.et_asm.specs.Symbols.{places};
ghost use Rattle.et_asm.specs.Code.{is_short_increment, padding, instruction_size, size, offset_bits, offset4, argument_count, key_bits, bounds_bytes, table_bytes, pair_bytes, lookup_bytes, branch_bytes, local_bytes, load_bytes, increment_bytes, switch_bytes, instruction_bytes, line_bytes};

use crate::emit::{put_index, put_u1, put_u2, put_u4};
use crate::labels::{Labels, place_of};
use crate::symbols::{Symbols, index_of, sum};
use et_code::opcode::{
    GOTO_W, IINC, INVOKEINTERFACE, LDC, LDC_W, LOOKUPSWITCH, MULTIANEWARRAY, TABLESWITCH, WIDE,
};
use et_listing::entry::Entry;
use et_listing::instruction::Instruction;
use et_listing::line::Line;
use et_listing::operand::int32_of;
use et_listing::spelling::put_text;
use et_listing::word::Word;
use et_pool::descriptor::method_shape;
use std::alloc::{AllocError, Global};

fn is_short_increment(local: u16, constant: i16) -> bool
    ensures { result ≡ is_short_increment local constant }
{
    local <= 255 && -128 <= constant && constant <= 127
}

/// The bytes between the opcode at a place and the items of a switch.
fn padding(at: usize) -> usize
    ensures { result ≡ padding at }
{
    3 - at % 4
}

/// How many pairs words are, two by two.
#[tactic(auto, using(crate::proofs::Pairs::pairs_least, crate::proofs::Pairs::pairs_most))]
fn pair_count(words: &[Word]) -> usize
    ensures count { result ≡ length (pairs words.now) }
    ensures small { result < 2 ^ 59 }
{
    words.len() / 2
}

/// How many bytes an instruction takes at a place of the code.
fn instruction_size<'a>(symbols: &Symbols<'a>, at: usize, instruction: &Instruction<'a>) -> usize
    ensures { result ≡ instruction_size symbols.now at instruction.now }
{
    match instruction {
        Instruction::Plain(_) => 1,
        Instruction::Byte(..) => 2,
        Instruction::Short(..) | Instruction::Pool(..) => 3,
        Instruction::Interface(..) => 5,
        Instruction::Array(..) => 4,
        Instruction::Local(_, local) => { if *local <= 255 { 2 } else { 4 } }
        Instruction::Increment(local, constant) => {
            if is_short_increment(*local, *constant) {
                3
            } else {
                6
            }
        }
        Instruction::Load(e) => { if index_of(symbols, e) <= 255 { 2 } else { 3 } }
        Instruction::Branch(opcode, _) => { if *opcode == GOTO_W { 5 } else { 3 } }
        Instruction::Table(_, labels, _) => 13 + padding(at) + labels.as_slice().len() * 4,
        Instruction::Lookup(words, _) => 9 + padding(at) + pair_count(words.as_slice()) * 8,
    }
}

/// How many bytes a line takes at a place of the code.
fn size<'a>(symbols: &Symbols<'a>, at: usize, line: &Line<'a>) -> usize
    ensures { result ≡ size symbols.now at line.now }
{
    match line {
        Line::Instruction(i) => instruction_size(symbols, at, i),
        _ => 0,
    }
}

/// The place behind a line.
pub(crate) fn behind<'a>(
    symbols: &Symbols<'a>,
    at: usize,
    line: &Line<'a>,
) -> Result<usize, AllocError>
    ensures { IfOk result (λ place. place ≡ at + size symbols.now at line.now) }
{
    sum(at, size(symbols, at, line))
}

/// The offset of a label from a place, in two's complement.
fn offset_bits(labels: &Labels, at: usize, name: &Word) -> usize
    ensures { result ≡ offset_bits (places labels.now.entries) at name.now }
{
    place_of(labels, name).wrapping_sub(at)
}

fn put_offset4(out: &mut Vec<u8>, labels: &Labels, at: usize, name: &Word) -> Result<(), AllocError>
    ensures { OnOk result
        (out.new.items ≡ out.old.items ++ offset4 (places labels.now.entries) at name.now) }
{
    put_u4(out, offset_bits(labels, at, name))
}

/// The count byte of `invokeinterface`.
fn argument_count(alloc: Global, descriptor: &Word) -> Result<u8, AllocError>
    ensures { IfOk result (λ n. n ≡ argument_count descriptor.now) }
{
    let mut text = Vec::new(alloc);
    put_text(&mut text, descriptor.bytes())?;
    match method_shape(&text) {
        Some(shape) if shape.entries <= 254 => Ok(shape.entries as u8 + 1),
        _ => Ok(0),
    }
}

/// Appends the opcode of a switch and its padding.
fn put_switch(out: &mut Vec<u8>, opcode: u8, at: usize) -> Result<(), AllocError>
    ensures { OnOk result (out.new.items ≡ out.old.items ++ switch_bytes opcode at) }
{
    put_u1(out, opcode)?;
    out.extend_from_slice(&[0; 3][..padding(at)])
}

fn put_offsets(
    out: &mut Vec<u8>,
    labels: &Labels,
    at: usize,
    names: &[Word],
) -> Result<(), AllocError>
    ensures { OnOk result (out.new.items
        ≡ out.old.items ++ flat_map (offset4 (places labels.now.entries) at) names.now) }
{
    for name in names {
        put_offset4(out, labels, at, name)?;
    }
    Ok(())
}

/// Appends the first and the last number of a table.
fn put_bounds(out: &mut Vec<u8>, low: i32, rows: usize) -> Result<(), AllocError>
    requires { rows < 2 ^ 62 }
    ensures { OnOk result (out.new.items ≡ out.old.items ++ bounds_bytes low rows) }
{
    let low = low.cast_unsigned() as usize;
    put_u4(out, low)?;
    put_u4(out, low + rows.saturating_sub(1))
}

/// Appends a `tableswitch`.
fn put_table(
    out: &mut Vec<u8>,
    labels: &Labels,
    at: usize,
    low: i32,
    names: &[Word],
    otherwise: &Word,
) -> Result<(), AllocError>
    ensures { OnOk result (out.new.items ≡ out.old.items ++ (switch_bytes TABLESWITCH at
        ++ table_bytes (places labels.now.entries) at low names.now otherwise.now)) }
{
    put_switch(out, TABLESWITCH, at)?;
    put_offset4(out, labels, at, otherwise)?;
    put_bounds(out, low, names.len())?;
    put_offsets(out, labels, at, names)
}

/// A number of 32 bits, or 0 where the word is none.
fn key_bits(word: &Word) -> u32
    ensures { result ≡ key_bits word.now }
{
    match int32_of(word.bytes()) {
        Some(value) => value.cast_unsigned(),
        None => 0,
    }
}

fn put_pair(
    out: &mut Vec<u8>,
    labels: &Labels,
    at: usize,
    number: &Word,
    target: &Word,
) -> Result<(), AllocError>
    ensures { OnOk result (out.new.items
        ≡ out.old.items ++ pair_bytes (places labels.now.entries) at (number.now, target.now)) }
{
    put_u4(out, key_bits(number) as usize)?;
    put_offset4(out, labels, at, target)
}

fn put_pairs(
    out: &mut Vec<u8>,
    labels: &Labels,
    at: usize,
    words: &[Word],
) -> Result<(), AllocError>
    ensures { OnOk result (out.new.items
        ≡ out.old.items ++ flat_map (pair_bytes (places labels.now.entries) at) (pairs words.now)) }
{
    let mut rest = words;
    while let [number, target, more @ ..] = rest {
        put_pair(out, labels, at, number, target)?;
        rest = more;
    }
    Ok(())
}

/// Appends the items of a `lookupswitch` behind its padding.
fn put_lookup(
    out: &mut Vec<u8>,
    labels: &Labels,
    at: usize,
    words: &[Word],
    otherwise: &Word,
) -> Result<(), AllocError>
    ensures { OnOk result (out.new.items
        ≡ out.old.items ++ lookup_bytes (places labels.now.entries) at words.now otherwise.now) }
{
    put_offset4(out, labels, at, otherwise)?;
    put_u4(out, pair_count(words))?;
    put_pairs(out, labels, at, words)
}

fn put_local(out: &mut Vec<u8>, opcode: u8, local: u16) -> Result<(), AllocError>
    ensures { OnOk result (out.new.items ≡ out.old.items ++ local_bytes opcode local) }
{
    if local <= 255 {
        put_u1(out, opcode)?;
        return put_u1(out, local as u8);
    }
    put_u1(out, WIDE)?;
    put_u1(out, opcode)?;
    put_u2(out, local as usize)
}

fn put_increment(out: &mut Vec<u8>, local: u16, constant: i16) -> Result<(), AllocError>
    ensures { OnOk result (out.new.items ≡ out.old.items ++ increment_bytes local constant) }
{
    if is_short_increment(local, constant) {
        put_u1(out, IINC)?;
        put_u1(out, local as u8)?;
        return put_u1(out, (constant as i8).cast_unsigned());
    }
    put_u1(out, WIDE)?;
    put_u1(out, IINC)?;
    put_u2(out, local as usize)?;
    put_u2(out, constant.cast_unsigned() as usize)
}

fn put_load(out: &mut Vec<u8>, index: usize) -> Result<(), AllocError>
    ensures { OnOk result (out.new.items ≡ out.old.items ++ load_bytes index) }
{
    if index <= 255 {
        put_u1(out, LDC)?;
        return put_u1(out, index as u8);
    }
    put_u1(out, LDC_W)?;
    put_u2(out, index)
}

fn put_branch(
    out: &mut Vec<u8>,
    labels: &Labels,
    at: usize,
    opcode: u8,
    target: &Word,
) -> Result<(), AllocError>
    ensures { OnOk result (out.new.items
        ≡ out.old.items ++ branch_bytes (places labels.now.entries) at opcode target.now) }
{
    put_u1(out, opcode)?;
    if opcode == GOTO_W {
        return put_offset4(out, labels, at, target);
    }
    put_u2(out, offset_bits(labels, at, target))
}

/// Appends `invokeinterface`.
fn put_interface<'a>(
    out: &mut Vec<u8>,
    alloc: Global,
    symbols: &Symbols<'a>,
    e: Entry<'a>,
    descriptor: &Word<'a>,
) -> Result<(), AllocError>
    ensures { OnOk result (out.new.items ≡ out.old.items ++ (INVOKEINTERFACE ∷ u2
        (entry_index symbols.now e.entry) ++ argument_count descriptor.now ∷ 0 ∷ [])) }
{
    let count = argument_count(alloc, descriptor)?;
    put_u1(out, INVOKEINTERFACE)?;
    put_index(out, symbols, e)?;
    put_u1(out, count)?;
    put_u1(out, 0)
}

/// Appends an instruction that stands at a place of the code.
fn put_instruction<'a>(
    out: &mut Vec<u8>,
    alloc: Global,
    symbols: &Symbols<'a>,
    labels: &Labels<'a>,
    at: usize,
    instruction: &Instruction<'a>,
) -> Result<(), AllocError>
    ensures { OnOk result (out.new.items ≡ out.old.items ++ instruction_bytes
        symbols.now (places labels.now.entries) at instruction.now) }
{
    match instruction {
        Instruction::Plain(opcode) => put_u1(out, *opcode),
        Instruction::Byte(opcode, value) => {
            put_u1(out, *opcode)?;
            put_u1(out, *value)
        }
        Instruction::Short(opcode, value) => {
            put_u1(out, *opcode)?;
            put_u2(out, *value as usize)
        }
        Instruction::Local(opcode, local) => put_local(out, *opcode, *local),
        Instruction::Increment(local, constant) => put_increment(out, *local, *constant),
        Instruction::Load(e) => put_load(out, index_of(symbols, e)),
        Instruction::Pool(opcode, e) => {
            put_u1(out, *opcode)?;
            put_u2(out, index_of(symbols, e))
        }
        Instruction::Interface(class, name, descriptor) => {
            let e = Entry::InterfaceMethod(class.copy(), name.copy(), descriptor.copy());
            put_interface(out, alloc, symbols, e, descriptor)
        }
        Instruction::Array(class, dimensions) => {
            put_u1(out, MULTIANEWARRAY)?;
            put_index(out, symbols, Entry::Class(class.copy()))?;
            put_u1(out, *dimensions)
        }
        Instruction::Branch(opcode, target) => put_branch(out, labels, at, *opcode, target),
        Instruction::Table(low, names, otherwise) => {
            put_table(out, labels, at, *low, names.as_slice(), otherwise)
        }
        Instruction::Lookup(words, otherwise) => {
            put_switch(out, LOOKUPSWITCH, at)?;
            put_lookup(out, labels, at, words.as_slice(), otherwise)
        }
    }
}

/// Appends what a line says that stands at a place of the code.
pub(crate) fn put_line<'a>(
    out: &mut Vec<u8>,
    alloc: Global,
    symbols: &Symbols<'a>,
    labels: &Labels<'a>,
    at: usize,
    line: &Line<'a>,
) -> Result<(), AllocError>
    ensures { OnOk result (out.new.items ≡ out.old.items
        ++ line_bytes symbols.now (places labels.now.entries) at line.now) }
{
    match line {
        Line::Instruction(i) => put_instruction(out, alloc, symbols, labels, at, i),
        _ => Ok(()),
    }
}
