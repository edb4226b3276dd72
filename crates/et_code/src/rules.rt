//! The rules on one instruction (JVMS 4.9.1).

ghost use Rattle.std.specs.Prelude.{◌≡◌, ℕ, ℤ, pos, ◌+ℤ◌, ◌+◌, ◌*◌, ◌-◌, ◌<◌, ◌≤◌, ◌^◌, length, map, int_lt, int_le, false};
ghost use Rattle.std.specs.List.{list_all};
ghost use Rattle.std.specs.Int.{cast_signed, w32};
ghost use Rattle.et_code.specs.Decoding.{code_word_at, TableFits, LookupFits, SwitchFits};
ghost use Rattle.et_code.specs.Switches.{table_rows, lookup_pairs};
ghost use Rattle.et_code.specs.Rules.{locals_needed, implicit_locals, is_one_of_four, fits_locals, tag_in, is_loadable, is_field_instruction, is_class_instruction, may_name, is_left_out, is_array_kind, makes_float_array, passes_test, flag, is_branch, offsets, has_targets, rises, has_rising_keys};

use crate::instr::Instr;
use crate::opcode::{
    ALOAD, ALOAD_0, ANEWARRAY, ASTORE, ASTORE_0, CHECKCAST, GETSTATIC, GOTO, GOTO_W, IFEQ, IFNULL,
    IINC, ILOAD, ILOAD_0, INSTANCEOF, INVOKEINTERFACE, INVOKESPECIAL, INVOKESTATIC, INVOKEVIRTUAL,
    ISTORE, ISTORE_0, LDC, LDC_W, LDC2_W, LLOAD, LLOAD_0, LOOKUPSWITCH, LSTORE, LSTORE_0,
    MULTIANEWARRAY, NEW, NEWARRAY, PUTFIELD, TABLESWITCH,
};
use crate::starts::is_flagged;
use crate::switches::{bits, row_count};

/// Whether an opcode is the lowest of four in a row or one of the three behind it.
fn is_one_of_four(lowest: u8, opcode: u8) -> bool
    requires { lowest < 200 }
    ensures { result ≡ is_one_of_four lowest opcode }
{
    lowest <= opcode && opcode <= lowest + 3
}

/// How many entries of local variables an instruction needs that has the variable in its opcode.
fn implicit_locals(opcode: u8) -> u8
    ensures { result ≡ implicit_locals opcode }
{
    if is_one_of_four(ILOAD_0, opcode) {
        opcode - ILOAD_0 + 1
    } else if is_one_of_four(LLOAD_0, opcode) {
        opcode - LLOAD_0 + 2
    } else if is_one_of_four(ALOAD_0, opcode) {
        opcode - ALOAD_0 + 1
    } else if is_one_of_four(ISTORE_0, opcode) {
        opcode - ISTORE_0 + 1
    } else if is_one_of_four(LSTORE_0, opcode) {
        opcode - LSTORE_0 + 2
    } else if is_one_of_four(ASTORE_0, opcode) {
        opcode - ASTORE_0 + 1
    } else {
        0
    }
}

/// How many entries of local variables an instruction needs.
fn locals_needed(instr: &Instr) -> i64
    ensures { result ≡ locals_needed instr.now }
{
    match instr.opcode {
        ILOAD | ALOAD | ISTORE | ASTORE | IINC => instr.first as i64 + 1,
        LLOAD | LSTORE => instr.first as i64 + 2,
        opcode => implicit_locals(opcode) as i64,
    }
}

/// Whether the local variables that an instruction names are among the method's.
pub(crate) fn fits_locals(max_locals: u16, instr: &Instr) -> bool
    ensures { result ≡ fits_locals max_locals instr.now }
{
    locals_needed(instr) <= max_locals as i64
}

/// The tag of an entry of the constant pool, or 0 where there is none.
pub(crate) fn tag_at(tags: &[u8], index: i32) -> u8
    ensures { result ≡ tag_in tags.now index }
{
    match usize::try_from(index) {
        Ok(index) if index < tags.len() => tags[index],
        _ => 0,
    }
}

/// Whether an entry of this tag may be loaded by `ldc`.
fn is_loadable(tag: u8) -> bool
    ensures { result ≡ is_loadable tag }
{
    matches!(tag, 3 | 4 | 7 | 8 | 15 | 16)
}

/// Whether the instruction of an opcode may name an entry of this tag.
pub(crate) fn may_name(opcode: u8, tag: u8) -> bool
    ensures { result ≡ may_name opcode tag }
{
    match opcode {
        LDC | LDC_W => is_loadable(tag),
        LDC2_W => tag == 5 || tag == 6,
        GETSTATIC..=PUTFIELD => tag == 9,
        INVOKEVIRTUAL => tag == 10,
        INVOKESPECIAL | INVOKESTATIC => tag == 10 || tag == 11,
        INVOKEINTERFACE => tag == 11,
        NEW | ANEWARRAY | CHECKCAST | INSTANCEOF | MULTIANEWARRAY => tag == 7,
        _ => true,
    }
}

/// Whether the profile leaves out that an instruction loads an entry of this tag.
pub(crate) fn is_left_out(opcode: u8, tag: u8) -> bool
    ensures { result ≡ is_left_out opcode tag }
{
    match opcode {
        LDC | LDC_W => is_loadable(tag) && tag != 3 && tag != 8,
        LDC2_W => tag == 6,
        _ => false,
    }
}

/// Whether a `newarray` makes an array of a kind that there is.
pub(crate) fn is_array_kind(instr: &Instr) -> bool
    ensures { result ≡ is_array_kind instr.now }
{
    instr.opcode != NEWARRAY || (4 <= instr.first && instr.first <= 11)
}

/// Whether an instruction makes an array of `float` or `double`.
pub(crate) fn makes_float_array(instr: &Instr) -> bool
    ensures { result ≡ makes_float_array instr.now }
{
    instr.opcode == NEWARRAY && 6 <= instr.first && instr.first <= 7
}

fn is_branch(opcode: u8) -> bool
    ensures { result ≡ is_branch opcode }
{
    (IFEQ <= opcode && opcode <= GOTO) || (IFNULL <= opcode && opcode <= GOTO_W)
}

/// Whether each row of a table leads to a flagged place.
fn rows_have_targets(flags: &[bool], code: &[u8], pc: usize, table: usize) -> bool
    requires pc { pc < 2 ^ 62 }
    requires fits { TableFits code.now table }
    ensures { result ≡ list_all
        (λ offset. passes_test (flag flags.now) (pos pc +ℤ offset)) (table_rows code.now table) }
{
    for row in 0..row_count(code, table) {
        let offset = bits(code, table + 12 + row * 4).cast_signed();
        if !is_flagged(flags, pc, offset) {
            return false;
        }
    }
    true
}

/// Whether each pair of a lookup leads to a flagged place.
fn pairs_have_targets(flags: &[bool], code: &[u8], pc: usize, table: usize) -> bool
    requires pc { pc < 2 ^ 62 }
    requires fits { LookupFits code.now table }
    ensures { result ≡ list_all (λ offset. passes_test (flag flags.now) (pos pc +ℤ offset))
        (map (λ p. p.1) (lookup_pairs code.now table)) }
{
    for pair in 0..bits(code, table + 4) {
        let offset = bits(code, table + 8 + pair as usize * 8 + 4).cast_signed();
        if !is_flagged(flags, pc, offset) {
            return false;
        }
    }
    true
}

/// Whether the default of a switch leads to a flagged place.
fn default_has_target(flags: &[bool], code: &[u8], pc: usize, table: usize) -> bool
    requires pc { pc < 2 ^ 62 }
    requires fits { table + 4 ≤ length code.now }
    ensures { result ≡ passes_test (flag flags.now) (pos pc +ℤ code_word_at code.now table) }
{
    is_flagged(flags, pc, bits(code, table).cast_signed())
}

/// Whether one key is below another, each in its four bytes.
fn is_below(low: u32, high: u32) -> bool
    ensures { result ≡ int_lt (cast_signed w32 low) (cast_signed w32 high) }
{
    low.cast_signed() < high.cast_signed()
}

/// Whether the keys of a lookup rise.
fn keys_rise(code: &[u8], table: usize) -> bool
    requires { LookupFits code.now table }
    ensures { result ≡ rises (map (λ p. cast_signed w32 p.0) (lookup_pairs code.now table)) }
{
    for pair in 0..bits(code, table + 4).saturating_sub(1) {
        let at = table + 8 + pair as usize * 8;
        if !is_below(bits(code, at), bits(code, at + 8)) {
            return false;
        }
    }
    true
}

/// Whether an instruction branches to flagged places only.
pub(crate) fn has_targets(flags: &[bool], code: &[u8], pc: usize, instr: &Instr) -> bool
    requires pc { pc < 2 ^ 62 }
    requires switch { SwitchFits code.now instr.now }
    ensures { result ≡ has_targets code.now (flag flags.now) pc instr.now }
{
    if is_branch(instr.opcode) {
        return is_flagged(flags, pc, instr.first);
    }
    match instr.opcode {
        TABLESWITCH => {
            default_has_target(flags, code, pc, instr.table)
                && rows_have_targets(flags, code, pc, instr.table)
        }
        LOOKUPSWITCH => {
            default_has_target(flags, code, pc, instr.table)
                && pairs_have_targets(flags, code, pc, instr.table)
        }
        _ => true,
    }
}

/// Whether a `lookupswitch` has rising keys.
pub(crate) fn has_rising_keys(code: &[u8], instr: &Instr) -> bool
    requires { instr.now.opcode ≡ LOOKUPSWITCH → LookupFits code.now instr.now.table }
    ensures { result ≡ has_rising_keys code.now instr.now }
{
    instr.opcode != LOOKUPSWITCH || keys_rise(code, instr.table)
}
