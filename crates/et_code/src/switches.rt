//! What a switch chooses (JVMS 6.5, tableswitch and lookupswitch).
//!
//! No call takes memory.

ghost use Rattle.std.specs.Prelude.{◌≡◌, ◌+◌, ◌*◌, ◌≤◌, length, drop, find, int_lt, false, true, ◌==◌};
ghost use Rattle.std.specs.Option.{option_map_or};
ghost use Rattle.std.specs.Int.{int_gap, cast_unsigned, w32};
ghost use Rattle.et_code.specs.Decoding.{bits_at, code_word_at, row_count, TableFits, LookupFits};
ghost use Rattle.et_code.specs.Switches.{IsSwitch, switch_pairs_from, table_target, lookup_target, target_of};

use crate::decoding::rows_between;
use crate::instr::Instr;
use byteorder::{BigEndian, ByteOrder};

/// The four bytes at a place, as an unsigned number.
pub(crate) fn bits(code: &[u8], at: usize) -> u32
    requires { at + 4 ≤ length code.now }
    ensures { result ≡ bits_at code.now at }
{
    BigEndian::read_u32(&code[at..])
}

/// How many rows stand before that of the key.
fn key_index(low: i32, key: i32) -> usize
    requires { int_lt key low ≡ false }
    ensures { result ≡ int_gap low key }
{
    (key as i64 - low as i64) as usize
}

/// How many rows the table with its default at `table` has.
pub(crate) fn row_count(code: &[u8], table: usize) -> usize
    requires { TableFits code.now table }
    ensures { result ≡ row_count (code_word_at code.now (table + 4))
        (code_word_at code.now (table + 8)) }
{
    rows_between(
        bits(code, table + 4).cast_signed(),
        bits(code, table + 8).cast_signed(),
    )
}

/// The offset that the table with its default at `table` chooses.
fn in_table(code: &[u8], table: usize, key: i32) -> i32
    requires { TableFits code.now table }
    ensures { result ≡ table_target code.now table key }
{
    let low = bits(code, table + 4).cast_signed();
    let high = bits(code, table + 8).cast_signed();
    if key < low || high < key {
        return bits(code, table).cast_signed();
    }
    let row = key_index(low, key);
    bits(code, table + 12 + row * 4).cast_signed()
}

/// The place of the offset beside the key, or that of the default.
fn place_of_offset(code: &[u8], table: usize, key: u32, count: u32) -> usize
    requires { table + 8 + count * 8 ≤ length code.now }
    ensures chosen { code_word_at code.now result ≡ option_map_or (λ p. p.1)
        (find (λ p. p.0 == key) (switch_pairs_from code.now count (table + 8)))
        (code_word_at code.now table) }
    ensures within { result + 4 ≤ length code.now }
{
    for i in 0..count {
        let at = table + 8 + i as usize * 8;
        if bits(code, at) == key {
            return at + 4;
        }
    }
    table
}

/// The offset that the pairs with their default at `table` choose.
fn in_pairs(code: &[u8], table: usize, key: i32) -> i32
    requires { LookupFits code.now table }
    ensures { result ≡ lookup_target code.now table key }
{
    let count = bits(code, table + 4);
    let place = place_of_offset(code, table, key.cast_unsigned(), count);
    bits(code, place).cast_signed()
}

/// The offset that a switch chooses for a key. It stands in the code as it is, and counts from the
/// switch's own pc. `instr` was decoded from this code.
pub fn switch_target(code: &[u8], instr: &Instr, key: i32) -> i32
    requires { IsSwitch code.now instr.now }
    ensures { result ≡ target_of code.now instr.now key }
{
    if instr.opcode == 0xaa {
        in_table(code, instr.table, key)
    } else {
        in_pairs(code, instr.table, key)
    }
}
