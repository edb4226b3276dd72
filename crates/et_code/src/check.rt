//! The rules on code.

ghost use Rattle.std.specs.Prelude.{◌≡◌, ℕ, ◌+◌, ◌*◌, ◌<◌, ◌≤◌, ◌^◌, [], ◌∷◌, length, pos, true, false};
ghost use Rattle.std.specs.List.{flat_map};
ghost use Rattle.et_base.specs.Marks.{MarksAre, first_from};
ghost use Rattle.et_code.specs.Decoding.{SwitchFits};
ghost use Rattle.et_code.specs.Bodies.{body_of};
ghost use Rattle.et_code.specs.Starts.{starts, is_start};
ghost use Rattle.et_code.specs.Rules.{flag, operand_marks, array_marks, target_marks, decoded_marks, marks_at, row_holds, rows_marks, is_code_length, code_marks, tag_in, ChecksCode};

use crate::body::{CODE, CheckFault, Code, RawCode, TableRow, UNSUPPORTED};
use crate::decoding::decode;
use crate::instr::{CodeFault, Instr};
use crate::rules::{
    fits_locals, has_rising_keys, has_targets, is_array_kind, is_left_out, makes_float_array,
    may_name, tag_at,
};
use crate::starts::start_flags;
use et_base::marks::{First, mark};
use std::alloc::Global;

/// The first broken rule behind those on the operands of an instruction at a place.
#[tactic(auto, unfolding(et_base::specs::Marks::first_from))]
fn check_operands(first: First, body: &RawCode, tags: &[u8], place: usize, instr: &Instr) -> First
    ensures { result
        ≡ first_from first (operand_marks (body_of body.now) tags.now place instr.now) }
{
    let tag = tag_at(tags, instr.first);
    let locals = fits_locals(body.max_locals, instr);
    let named = may_name(instr.opcode, tag);
    let left_out = is_left_out(instr.opcode, tag);
    let first = mark(first, place, CODE, locals);
    let first = mark(first, place, CODE, named);
    mark(first, place, UNSUPPORTED, !left_out)
}

/// The first broken rule behind those on the array that an instruction at a place makes.
#[tactic(auto, unfolding(et_base::specs::Marks::first_from))]
fn check_array(first: First, place: usize, instr: &Instr) -> First
    ensures { result ≡ first_from first (array_marks place instr.now) }
{
    let first = mark(first, place, CODE, is_array_kind(instr));
    mark(first, place, UNSUPPORTED, !makes_float_array(instr))
}

/// The first broken rule behind those on the targets and the keys of an instruction at `pc`.
#[tactic(auto, unfolding(et_base::specs::Marks::first_from))]
fn check_targets(first: First, body: &RawCode, flags: &[bool], pc: usize, instr: &Instr) -> First
    requires pc { pc < 2 ^ 62 }
    requires switch { SwitchFits body.now.code.items instr.now }
    ensures { result ≡ first_from first
        (target_marks (body_of body.now) (flag flags.now) (pc + 4) pc instr.now) }
{
    let targets = has_targets(flags, &body.code, pc, instr);
    let rising = has_rising_keys(&body.code, instr);
    let first = mark(first, pc + 4, CODE, targets);
    mark(first, pc + 4, CODE, rising)
}

/// The first broken rule behind those on the instruction at `pc`.
fn check_instruction(
    first: First,
    body: &RawCode,
    tags: &[u8],
    flags: &[bool],
    pc: usize,
    instr: &Instr,
    next: usize,
) -> First
    requires pc { pc < 2 ^ 62 }
    requires switch { SwitchFits body.now.code.items instr.now }
    ensures { result ≡ first_from first
        (decoded_marks (body_of body.now) tags.now (flag flags.now) pc (Ok (instr.now, next))) }
{
    let first = check_operands(first, body, tags, pc + 4, instr);
    let first = check_array(first, pc + 4, instr);
    check_targets(first, body, flags, pc, instr)
}

/// The first broken rule behind the one that no instruction stands at `pc`.
#[tactic(auto, unfolding(et_base::specs::Marks::first_from))]
fn check_no_instruction(
    first: First,
    body: &RawCode,
    tags: &[u8],
    flags: &[bool],
    pc: usize,
    fault: CodeFault,
) -> First
    requires { pc < 2 ^ 62 }
    ensures { result ≡ first_from first
        (decoded_marks (body_of body.now) tags.now (flag flags.now) pc (Err fault)) }
{
    match fault {
        CodeFault::Opcode => mark(first, pc + 4, CODE, false),
        CodeFault::Short => mark(first, pc + 4, CODE, false),
        CodeFault::Unsupported => mark(first, pc + 4, UNSUPPORTED, false),
    }
}

/// The first broken rule on instructions.
fn check_instructions(body: &RawCode, tags: &[u8], flags: &[bool]) -> First
    requires { length body.now.code.items < 2 ^ 16 }
    ensures { result ≡ first_from None (flat_map
        (marks_at (body_of body.now) tags.now (flag flags.now)) (starts body.now.code.items)) }
{
    let code = body.code.as_slice();
    let mut first = None;
    let mut pc = 0;
    while pc < code.len() {
        match decode(code, pc) {
            Ok((instr, next)) => {
                first = check_instruction(first, body, tags, flags, pc, &instr, next);
                pc = next;
            }
            Err(fault) => return check_no_instruction(first, body, tags, flags, pc, fault),
        }
    }
    first
}

/// Whether a place is flagged.
fn is_flagged_at(flags: &[bool], place: u16) -> bool
    ensures { result ≡ flag flags.now place }
{
    (place as usize) < flags.len() && flags[place as usize]
}

/// Whether a row of the exception table keeps its rules.
fn row_holds(code_length: usize, tags: &[u8], flags: &[bool], row: &TableRow) -> bool
    ensures { result ≡ row_holds code_length tags.now (flag flags.now) row.now }
{
    let start = is_flagged_at(flags, row.start);
    let some = row.start < row.end;
    let end = is_flagged_at(flags, row.end) || row.end as usize == code_length;
    let handler = is_flagged_at(flags, row.handler);
    let class = row.catch == 0 || tag_at(tags, row.catch as i32) == 7;
    start && some && end && handler && class
}

/// The first broken rule behind those on the rows of the exception table.
#[tactic(auto, using(crate::proofs::Checked::rows_step, crate::proofs::Checked::rows_end))]
fn check_rows(first: First, body: &RawCode, tags: &[u8], flags: &[bool]) -> First
    requires { length body.now.code.items < 2 ^ 16 }
    ensures { result ≡ first_from first (rows_marks (length body.now.code.items) tags.now
        (flag flags.now) (length body.now.code.items + 6) body.now.table.items) }
{
    let code_length = body.code.len();
    let mut found = first;
    let mut place = code_length + 6;
    for row in &body.table {
        let holds = row_holds(code_length, tags, flags, row);
        found = mark(found, place, CODE, holds);
        place += 8;
    }
    found
}

/// Whether code may have so many bytes (JVMS 4.7.3).
fn is_code_length(length: usize) -> bool
    ensures { result ≡ is_code_length length }
{
    1 <= length && length < 0x1_0000
}

/// The first broken rule of code whose instruction starts are flagged.
fn first_broken(body: &RawCode, tags: &[u8], flags: &[bool]) -> First
    requires length { is_code_length (length body.now.code.items) ≡ true }
    requires starts { (place : ℕ) → flag flags.now place ≡ is_start body.now.code.items place }
    ensures { MarksAre (code_marks (body_of body.now) tags.now) result }
{
    let first = check_instructions(body, tags, flags);
    check_rows(first, body, tags, flags)
}

/// Checks code by the rules of JVMS 4.7.3 and 4.9.1 that the code, its exception table, its number
/// of local variables and the tags of its constant pool decide. The rest, on the arguments of the
/// method, the names behind entries of the pool and the dimensions of arrays, is left to the reader
/// of class files.
///
/// `tags` has at each index of the constant pool the tag of the entry there (JVMS 4.4), and 0 where
/// there is none. The fault is that of the first item which breaks a rule, in the order of the
/// bytes of a class file; code of a length that isn't allowed breaks the first one. The time is
/// linear in the code and the exception table.
pub fn check_code(alloc: Global, body: RawCode, tags: &[u8]) -> Result<Code, CheckFault>
    ensures { ChecksCode body tags.now result }
{
    if !is_code_length(body.code.len()) {
        let (kind, place) = (CODE, 0);
        return Err(CheckFault::At { kind, place });
    }
    let flags = start_flags(alloc, &body.code)?;
    match first_broken(&body, tags, &flags) {
        None => Ok(Code::new(body)),
        Some((place, kind)) => Err(CheckFault::At { kind, place }),
    }
}
