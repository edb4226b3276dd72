//! Simple instructions: those without an operand, or with one unsigned number, that neither branch nor switch. Most are. They
//! are decoded in place.
ghost use Rattle.std.specs.Prelude.{◌≡◌, ◌<◌, [], pos, false, length, IfSome, Ok, slice_index_or};
ghost use Rattle.et_code.specs.Decoding.{instr as instruction, instruction_at as stands_at};
ghost use Rattle.et_code.specs.Rules.{offsets};
ghost use Rattle.et_verify.specs.Simple.{IsSimple};

use et_base::numbers::{u8_at, u16_at};
use et_code::Instr;

/// For each opcode how many bytes a simple instruction with it takes, and 0 where there is none.
static LENGTHS: [u8; 256] = [
    1, 1, 1, 1, 1, 1, 1, 1, 1, 1, 1, 0, 0, 0, 0, 0, // 0x00
    0, 0, 2, 3, 3, 2, 2, 0, 0, 2, 1, 1, 1, 1, 1, 1, // 0x10
    1, 1, 0, 0, 0, 0, 0, 0, 0, 0, 1, 1, 1, 1, 1, 1, // 0x20
    0, 0, 1, 1, 1, 1, 2, 2, 0, 0, 2, 1, 1, 1, 1, 1, // 0x30
    1, 1, 1, 0, 0, 0, 0, 0, 0, 0, 0, 1, 1, 1, 1, 1, // 0x40
    1, 0, 0, 1, 1, 1, 1, 1, 1, 1, 1, 1, 1, 1, 1, 1, // 0x50
    1, 1, 0, 0, 1, 1, 0, 0, 1, 1, 0, 0, 1, 1, 0, 0, // 0x60
    1, 1, 0, 0, 1, 1, 0, 0, 1, 1, 1, 1, 1, 1, 1, 1, // 0x70
    1, 1, 1, 1, 0, 1, 0, 0, 1, 0, 0, 0, 0, 0, 0, 0, // 0x80
    0, 1, 1, 1, 1, 0, 0, 0, 0, 0, 0, 0, 0, 0, 0, 0, // 0x90
    0, 0, 0, 0, 0, 0, 0, 0, 0, 0, 0, 0, 1, 1, 0, 0, // 0xa0
    1, 1, 3, 3, 3, 3, 3, 3, 3, 0, 0, 3, 2, 3, 1, 1, // 0xb0
    3, 3, 1, 1, 0, 0, 0, 0, 0, 0, 0, 0, 0, 0, 0, 0, // 0xc0
    0, 0, 0, 0, 0, 0, 0, 0, 0, 0, 0, 0, 0, 0, 0, 0, // 0xd0
    0, 0, 0, 0, 0, 0, 0, 0, 0, 0, 0, 0, 0, 0, 0, 0, // 0xe0
    0, 0, 0, 0, 0, 0, 0, 0, 0, 0, 0, 0, 0, 0, 0, 0, // 0xf0
];

/// An entry of the table.
fn length_in(lengths: &[u8], opcode: u8) -> u8
    requires { length lengths.now ≡ 256 }
    ensures { result ≡ slice_index_or lengths.now opcode 0 }
{
    lengths[opcode as usize]
}

/// How many bytes a simple instruction with an opcode takes; 0 where there is none.
#[tactic(auto, using(crate::proofs::Entries::simple_at))]
fn length_of(opcode: u8) -> u8
    ensures { IsSimple opcode result }
{
    length_in(&LENGTHS, opcode)
}

/// An instruction with one unsigned operand, or with none.
fn with_operand(opcode: u8, first: u16) -> Instr
    ensures { result ≡ instruction opcode false (pos first) (pos 0) 0 }
{
    Instr {
        opcode,
        wide: false,
        first: first as i32,
        second: 0,
        table: 0,
    }
}

/// The instruction at a place, and the place behind it, where it is a simple one.
#[inline(always)]
pub(crate) fn simple_at(code: &[u8], pc: usize) -> Option<(Instr, usize)>
    requires { pc < length code.now }
    ensures found { IfSome result (λ x. stands_at code.now pc ≡ Ok x) }
    ensures straight { IfSome result (λ x. offsets code.now x.0 ≡ []) }
{
    let (opcode, at) = u8_at(code, pc)?;
    match length_of(opcode) {
        1 => Some((with_operand(opcode, 0), at)),
        2 => {
            let (first, at) = u8_at(code, at)?;
            Some((with_operand(opcode, first as u16), at))
        }
        3 => {
            let (first, at) = u16_at(code, at)?;
            Some((with_operand(opcode, first), at))
        }
        _ => None,
    }
}
