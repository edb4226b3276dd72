//! The instructions that have a row of the table of events, as the code has them.
ghost use Rattle.std.specs.Prelude.{◌≡◌, ◌<◌, ◌^◌, ℕ, [], None, length, IfSome, IfNone};
ghost use Rattle.et_code.specs.Bodies.{Body};
ghost use Rattle.et_code.specs.Decoding.{instruction_at as stands_at};
ghost use Rattle.et_code.specs.Rules.{offsets};
ghost use Rattle.et_program.specs.Entries.{Linked};
ghost use Rattle.et_flow.specs.Types.{TypesOf};
ghost use Rattle.et_verify.specs.Methods.{StandsAt};
ghost use Rattle.et_verify.specs.Typings.{leads_by};

use crate::simple::simple_at;
use et_code::{Instr, decode};
use et_event::{Row, row_of};

/// An instruction that has a row.
#[derive(Clone, Copy)]
pub(crate) struct Decoded {
    /// What it does.
    pub row: Row,
    /// The instruction.
    pub instr: Instr,
    /// The place behind it.
    pub next: u32,
}

/// The instruction at a place; `None` where none stands there, or one without a row.
#[inline]
pub(crate) fn decoded_at(code: &[u8], pc: u32) -> Option<Decoded>
    requires inside { pc < length code.now }
    requires few { length code.now < 2 ^ 16 }
    ensures stands { IfSome result (λ x. StandsAt code.now pc x) }
    ensures none { IfNone result ((p : Linked) (m : ℕ) (body : Body) (ts : TypesOf) →
        leads_by p m body pc ts (stands_at code.now pc) ≡ None) }
{
    let Ok((instr, next)) = decode(code, pc as usize) else {
        return None;
    };
    let row = row_of(instr.opcode)?;
    Some(Decoded {
        row,
        instr,
        next: next as u32,
    })
}

/// The simple instruction with a row at a place; `None` where none stands there.
#[inline(always)]
pub(crate) fn simple_decoded_at(code: &[u8], pc: u32) -> Option<Decoded>
    requires inside { pc < length code.now }
    requires few { length code.now < 2 ^ 16 }
    ensures stands { IfSome result (λ x. StandsAt code.now pc x) }
    ensures straight { IfSome result (λ x. offsets code.now x.instr ≡ []) }
{
    let (instr, next) = simple_at(code, pc as usize)?;
    let row = row_of(instr.opcode)?;
    Some(Decoded {
        row,
        instr,
        next: next as u32,
    })
}
