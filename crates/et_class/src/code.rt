//! The Code attribute (JVMS 4.7.3), and the rules on code that the entries of the pool decide
//! (JVMS 4.9.1, 6.5).

ghost use Rattle.std.specs.Prelude.{◌≡◌, ◌+◌, ◌<◌, ◌^◌, List, [], length, map, is_some, IfOk, option_map};
ghost use Rattle.std.specs.List.{flat_map};
ghost use Rattle.et_base.specs.Marks.{first_from};
ghost use Rattle.et_pool.specs.Looks.{class_name_at, tag_of_slot};
ghost use Rattle.et_code.specs.Bodies.{body_of};
ghost use Rattle.et_code.specs.Starts.{starts};
ghost use Rattle.et_code.specs.Rules.{is_class_instruction as is_class_opcode};
ghost use Rattle.et_class.specs.Reading.{GivesOrBreaks, many_at, counted_at};
ghost use Rattle.et_class.specs.Names.{is_text};
ghost use Rattle.et_class.specs.Codes.{exception_row_at, code_body_at, index_of, member_name, names_member, is_member_well, is_class_well, is_floating_class, instruction_marks, named_marks};

use crate::fault::ClassFault;
use crate::items::{short, u16_item, u32_item};
use crate::names::{CLINIT, INIT, names_text};
use et_base::marks::{First, mark};
use et_base::numbers::run_at;
use et_code::opcode::{
    ANEWARRAY, CHECKCAST, GETSTATIC, INSTANCEOF, INVOKEINTERFACE, INVOKESPECIAL, MULTIANEWARRAY,
    NEW,
};
use et_code::{CODE, Instr, RawCode, TableRow, UNSUPPORTED, decode};
use et_pool::Pool;
use et_pool::descriptor::{dimensions, is_array_name, is_floating_array_name};
use std::alloc::Global;

#[tactic(auto, unfolding(crate::specs::Codes::exception_row_at))]
fn read_row(bytes: &[u8], at: usize) -> Result<(TableRow, usize), ClassFault>
    ensures { GivesOrBreaks (λ x. x) result (exception_row_at bytes.now at) }
{
    let (start, at) = u16_item(bytes, at)?;
    let (end, at) = u16_item(bytes, at)?;
    let (handler, at) = u16_item(bytes, at)?;
    let (catch, at) = u16_item(bytes, at)?;
    let row = TableRow {
        start,
        end,
        handler,
        catch,
    };
    Ok((row, at))
}

fn rows_from(
    alloc: Global,
    bytes: &[u8],
    count: u16,
    start: usize,
) -> Result<(Vec<TableRow>, usize), ClassFault>
    ensures { GivesOrBreaks (λ x. (x.0.items, x.1)) result
        (many_at (exception_row_at bytes.now) count start) }
{
    let mut rows = Vec::new(alloc);
    let mut at = start;
    for _ in 0..count {
        let (row, after) = read_row(bytes, at)?;
        rows.push(row)?;
        at = after;
    }
    Ok((rows, at))
}

fn read_rows(alloc: Global, bytes: &[u8], at: usize) -> Result<(Vec<TableRow>, usize), ClassFault>
    ensures { GivesOrBreaks (λ x. (x.0.items, x.1)) result
        (counted_at bytes.now (exception_row_at bytes.now) at) }
{
    let (count, at) = u16_item(bytes, at)?;
    rows_from(alloc, bytes, count, at)
}

/// The items of the body of a Code attribute that stand before its attributes, and the place
/// after them in the body.
#[tactic(auto, unfolding(crate::specs::Codes::code_body_at))]
pub fn read_code(alloc: Global, bytes: &[u8]) -> Result<(RawCode, usize), ClassFault>
    ensures { GivesOrBreaks (λ x. (body_of x.0, x.1)) result (code_body_at bytes.now) }
{
    let (max_stack, at) = u16_item(bytes, 0)?;
    let (max_locals, at) = u16_item(bytes, at)?;
    let (size, at) = u32_item(bytes, at)?;
    let (code, at) = run_at(bytes, size as usize, at).ok_or(short(at))?;
    let code = Vec::from_slice(alloc, code)?;
    let (table, at) = read_rows(alloc, bytes, at)?;
    let raw = RawCode {
        max_stack,
        max_locals,
        code,
        table,
    };
    Ok((raw, at))
}

fn pool_index(operand: i32) -> u16
    ensures { result ≡ index_of operand }
{
    u16::try_from(operand).unwrap_or(0)
}

fn is_member_instruction(opcode: u8) -> bool
    ensures { result ≡ names_member opcode }
{
    GETSTATIC <= opcode && opcode <= INVOKEINTERFACE
}

fn is_class_instruction(opcode: u8) -> bool
    ensures { result ≡ is_class_opcode opcode }
{
    opcode == NEW
        || opcode == ANEWARRAY
        || opcode == CHECKCAST
        || opcode == INSTANCEOF
        || opcode == MULTIANEWARRAY
}

fn names_member_text(pool: &Pool, index: u16, text: &[u8]) -> bool
    ensures { result ≡ is_text (member_name pool.now.slots index) text.now }
{
    match pool.member(index) {
        None => false,
        Some((_, name_and_type)) => match pool.name_and_type(name_and_type) {
            None => false,
            Some((name, _)) => names_text(pool, name, text),
        },
    }
}

fn names_member_well(pool: &Pool, instr: &Instr) -> bool
    ensures { result ≡ is_member_well pool.now.slots instr.now }
{
    let index = pool_index(instr.first);
    !is_member_instruction(instr.opcode)
        || (!names_member_text(pool, index, CLINIT)
            && (instr.opcode == INVOKESPECIAL || !names_member_text(pool, index, INIT)))
}

fn names_class_well(instr: &Instr, name: &[u8]) -> bool
    ensures { result ≡ is_class_well instr.now (Some name.now) }
{
    if instr.opcode == NEW {
        !is_array_name(name)
    } else if instr.opcode == ANEWARRAY {
        dimensions(name) != 255
    } else {
        instr.opcode != MULTIANEWARRAY
            || (1 <= instr.second && instr.second as i64 <= dimensions(name) as i64)
    }
}

/// The first broken rule behind those on the names that an instruction at a place uses.
#[tactic(auto, unfolding(et_base::specs::Marks::first_from))]
fn check_names_of(first: First, pool: &Pool, place: usize, instr: &Instr) -> First
    ensures { result ≡ first_from first (instruction_marks pool.now.slots place instr.now) }
{
    let member = names_member_well(pool, instr);
    let (class, floating) = match pool.class_name(pool_index(instr.first)) {
        None => (true, false),
        Some(name) => (names_class_well(instr, name), is_floating_array_name(name)),
    };
    let left_out = is_class_instruction(instr.opcode) && floating;
    let found = mark(first, place, CODE, member);
    let found = mark(found, place, CODE, class);
    mark(found, place, UNSUPPORTED, !left_out)
}

/// The first broken rule behind those on the names that the instructions of code use, which begins
/// at a place.
pub fn check_instructions(first: First, pool: &Pool, place: usize, code: &[u8]) -> First
    requires { place + length code.now < 2 ^ 64 }
    ensures { result ≡ first_from first
        (flat_map (named_marks pool.now.slots place code.now) (starts code.now)) }
{
    let mut found = first;
    let mut pc = 0;
    'instructions: while pc < code.len() {
        match decode(code, pc) {
            Ok((instr, next)) => {
                found = check_names_of(found, pool, place + pc, &instr);
                pc = next;
            }
            Err(_) => return found,
        }
    }
    found
}
