//! Decoding.
//!
//! No call takes memory.

ghost use Rattle.std.specs.Prelude.{◌≡◌, ◌<◌, ◌≤◌, pos, length, int_lt, false, true, IfOk};
ghost use Rattle.std.specs.Int.{cast_signed, w8, w16, w32};
ghost use Rattle.et_code.specs.Decoding.{Fits, read, instr, rows_at, row_count, table_instruction, table_place, table_at, lookup_at, wide_at, behind_wide, interface_at, dimensions_at, operands_at, instruction_at, IsNarrow};
ghost use Rattle.et_code.specs.Forms.{form_of};

use crate::form::{Form, form_behind, form_behind_wide};
use crate::instr::{CodeFault, Instr};
use et_base::numbers::{u8_at, u16_at, u32_at};

/// The byte at a place of the code, and the place behind it.
#[inline(always)]
fn byte(code: &[u8], at: usize) -> Result<(u8, usize), CodeFault>
    ensures { result ≡ read w8 code.now at }
{
    u8_at(code, at).ok_or(CodeFault::Short)
}

/// The number in the two bytes at a place of the code, and the place behind it.
#[inline(always)]
fn short(code: &[u8], at: usize) -> Result<(u16, usize), CodeFault>
    ensures { result ≡ read w16 code.now at }
{
    u16_at(code, at).ok_or(CodeFault::Short)
}

/// The number in the four bytes at a place of the code, and the place behind it.
fn word(code: &[u8], at: usize) -> Result<(u32, usize), CodeFault>
    ensures { result ≡ read w32 code.now at }
{
    u32_at(code, at).ok_or(CodeFault::Short)
}

/// An instruction with these operands, or 0 in the place of one, and without rows.
#[inline(always)]
fn with_operands(opcode: u8, wide: bool, first: i32, second: i32) -> Instr
    ensures { result ≡ instr opcode wide first second 0 }
{
    Instr {
        opcode,
        wide,
        first,
        second,
        table: 0,
    }
}

fn place_of_table(pc: usize) -> usize
    requires { pc < 0x8000_0000_0000_0000 }
    ensures { result ≡ table_place pc }
{
    pc + 4 - pc % 4
}

fn switch(
    code: &[u8],
    pc: usize,
    opcode: u8,
    at: usize,
    size: usize,
) -> Result<(Instr, usize), CodeFault>
    requires pc { pc < length code.now }
    requires at { at ≤ length code.now }
    requires size { size ≤ 0x10_0000_0000 }
    ensures decoded { result ≡ rows_at code.now pc opcode at size }
    ensures narrow { IfOk result (λ x. IsNarrow x.0) }
{
    if code.len() < at + size {
        return Err(CodeFault::Short);
    }
    let instr = Instr {
        table: place_of_table(pc),
        ..with_operands(opcode, false, 0, 0)
    };
    Ok((instr, at + size))
}

/// How many rows a table has, by its bounds.
pub(crate) fn rows_between(low: i32, high: i32) -> usize
    requires { int_lt high low ≡ false }
    ensures rows { result ≡ row_count low high }
    ensures few { result ≤ 0x1_0000_0000 }
{
    (high as i64 - low as i64) as usize + 1
}

fn table_of(
    code: &[u8],
    pc: usize,
    opcode: u8,
    at: usize,
    low: u32,
    high: u32,
) -> Result<(Instr, usize), CodeFault>
    requires pc { pc < length code.now }
    requires at { at ≤ length code.now }
    ensures decoded { result
        ≡ table_instruction code.now pc opcode at (cast_signed w32 low) (cast_signed w32 high) }
    ensures narrow { IfOk result (λ x. IsNarrow x.0) }
{
    let low = low.cast_signed();
    let high = high.cast_signed();
    if high < low {
        return Err(CodeFault::Short);
    }
    let rows = rows_between(low, high);
    switch(code, pc, opcode, at, rows * 4)
}

#[tactic(auto, unfolding(crate::specs::Decoding::table_at))]
fn table(code: &[u8], pc: usize, opcode: u8) -> Result<(Instr, usize), CodeFault>
    requires { pc < length code.now }
    ensures decoded { result ≡ table_at code.now pc opcode }
    ensures narrow { IfOk result (λ x. IsNarrow x.0) }
{
    let (_otherwise, at) = word(code, place_of_table(pc))?;
    let (low, at) = word(code, at)?;
    let (high, at) = word(code, at)?;
    table_of(code, pc, opcode, at, low, high)
}

#[tactic(auto, unfolding(crate::specs::Decoding::lookup_at))]
fn lookup(code: &[u8], pc: usize, opcode: u8) -> Result<(Instr, usize), CodeFault>
    requires { pc < length code.now }
    ensures decoded { result ≡ lookup_at code.now pc opcode }
    ensures narrow { IfOk result (λ x. IsNarrow x.0) }
{
    let (_otherwise, at) = word(code, place_of_table(pc))?;
    let (count, at) = word(code, at)?;
    if 0x8000_0000 <= count {
        return Err(CodeFault::Short);
    }
    switch(code, pc, opcode, at, count as usize * 8)
}

#[tactic(auto, unfolding(crate::specs::Decoding::behind_wide))]
fn wide(code: &[u8], at: usize) -> Result<(Instr, usize), CodeFault>
    ensures decoded { result ≡ behind_wide code.now at }
    ensures narrow { IfOk result (λ x. IsNarrow x.0) }
{
    let (opcode, at) = byte(code, at)?;
    match form_behind_wide(opcode) {
        Form::U2 => {
            let (n, at) = short(code, at)?;
            Ok((with_operands(opcode, true, n as i32, 0), at))
        }
        Form::LongIncrement => {
            let (m, at) = short(code, at)?;
            let (n, at) = short(code, at)?;
            Ok((
                with_operands(opcode, true, m as i32, n.cast_signed() as i32),
                at,
            ))
        }
        Form::Refused => Err(CodeFault::Unsupported),
        _ => Err(CodeFault::Opcode),
    }
}

/// The operands of `invokeinterface`: a constant and a count, before a byte that is passed over.
fn interface(code: &[u8], opcode: u8, at: usize) -> Result<(Instr, usize), CodeFault>
    ensures decoded { result ≡ interface_at code.now opcode at }
    ensures narrow { IfOk result (λ x. IsNarrow x.0) }
{
    let (m, at) = short(code, at)?;
    let (n, at) = byte(code, at)?;
    let (_passed, at) = byte(code, at)?;
    Ok((with_operands(opcode, false, m as i32, n as i32), at))
}

/// The operands of `multianewarray`: a constant and how many dimensions are made.
fn dimensions(code: &[u8], opcode: u8, at: usize) -> Result<(Instr, usize), CodeFault>
    ensures decoded { result ≡ dimensions_at code.now opcode at }
    ensures narrow { IfOk result (λ x. IsNarrow x.0) }
{
    let (m, at) = short(code, at)?;
    let (n, at) = byte(code, at)?;
    Ok((with_operands(opcode, false, m as i32, n as i32), at))
}

#[inline(always)]
fn operands(
    code: &[u8],
    pc: usize,
    opcode: u8,
    at: usize,
    form: Form,
) -> Result<(Instr, usize), CodeFault>
    requires pc { pc < length code.now }
    requires form { form ≡ form_of opcode }
    ensures decoded { result ≡ operands_at code.now pc opcode at form }
    ensures narrow { IfOk result (λ x. IsNarrow x.0) }
{
    match form {
        Form::Plain => Ok((with_operands(opcode, false, 0, 0), at)),
        Form::S1 => {
            let (n, at) = byte(code, at)?;
            Ok((with_operands(opcode, false, n.cast_signed() as i32, 0), at))
        }
        Form::U1 => {
            let (n, at) = byte(code, at)?;
            Ok((with_operands(opcode, false, n as i32, 0), at))
        }
        Form::S2 => {
            let (n, at) = short(code, at)?;
            Ok((with_operands(opcode, false, n.cast_signed() as i32, 0), at))
        }
        Form::U2 => {
            let (n, at) = short(code, at)?;
            Ok((with_operands(opcode, false, n as i32, 0), at))
        }
        Form::S4 => {
            let (n, at) = word(code, at)?;
            Ok((with_operands(opcode, false, n.cast_signed(), 0), at))
        }
        Form::Increment => {
            let (m, at) = byte(code, at)?;
            let (n, at) = byte(code, at)?;
            Ok((
                with_operands(opcode, false, m as i32, n.cast_signed() as i32),
                at,
            ))
        }
        Form::Interface => interface(code, opcode, at),
        Form::Dimensions => dimensions(code, opcode, at),
        Form::Wide => wide(code, at),
        Form::Table => table(code, pc, opcode),
        Form::Lookup => lookup(code, pc, opcode),
        Form::Refused => Err(CodeFault::Unsupported),
        Form::LongIncrement | Form::Unknown => Err(CodeFault::Opcode),
    }
}

/// The instruction at `pc`, and the place behind it (JVMS 6.5). An opcode that is refused is refused
/// before any operand byte is looked at.
#[tactic(auto, unfolding(crate::specs::Decoding::instruction_at))]
#[inline(always)]
pub fn decode(code: &[u8], pc: usize) -> Result<(Instr, usize), CodeFault>
    requires { pc < length code.now }
    ensures decoded { result ≡ instruction_at code.now pc }
    ensures fits { IfOk result (λ x. Fits code.now pc x.0 x.1) }
    ensures narrow { IfOk result (λ x. IsNarrow x.0) }
{
    let (opcode, at) = byte(code, pc)?;
    operands(code, pc, opcode, at, form_behind(opcode))
}
