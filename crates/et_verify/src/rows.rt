//! The types after an instruction, from those before it, by the row of the table of events that it has (JVMS 6.5).
ghost use Rattle.std.specs.Prelude.{◌≡◌, ℕ, List, ◌⊎◌, true, false, Some, None, IfOk};
ghost use Rattle.et_event.specs.Sites.{Site};
ghost use Rattle.et_event.specs.declared.rows.CallRow.TheVariants as calls;
ghost use Rattle.et_event.specs.declared.rows.Row.TheVariants as rows;
ghost use Rattle.et_pool.specs.Operands.{return_of};
ghost use Rattle.et_verify.specs.Calling.{returned_taken};
ghost use Rattle.et_verify.specs.Effects.{MayName};
ghost use Rattle.et_verify.specs.Steps.{IsMove, locals_by, locals_after, operands_after, types_after};

use crate::calls::step_call;
use crate::effects::REFERENCE;
use crate::heap::{step_constant, step_heap};
use crate::operands::{exchange, take};
use crate::stack::rearrange;
use crate::steps::{combine, step_plain};
use et_base::NoMemory;
use et_code::Instr;
use et_event::{CallRow, FrameRow, Operand, Place, Row};
use et_flow::Types;
use et_pool::Returned;
use et_program::Program;

/// An instruction that changes nothing but the topmost frame. `false` where it doesn't accept the types; some entries may be
/// gone then.
#[inline(always)]
#[tactic(auto, using(crate::proofs::Rowing::plain_operands))]
fn step_frame(types: &mut Types, row: FrameRow, instr: &Instr) -> Result<bool, NoMemory>
    ensures done { IfOk result (λ b. (at : Site) (bytes : List ℕ) → at.instr ≡ instr.now →
        b ≡ true →
        (operands_after bytes at (rows.Frame row) types.old.operands ≡ Some types.new.operands)
        × (locals_by at row types.old.locals ≡ Some types.new.locals)) }
    ensures refused { IfOk result (λ b. (at : Site) (bytes : List ℕ) → at.instr ≡ instr.now →
        b ≡ false → (operands_after bytes at (rows.Frame row) types.old.operands ≡ None)
        ⊎ (locals_by at row types.old.locals ≡ None)) }
{
    if let FrameRow::Rearrange(rearrangement) = row {
        let done = rearrange(types, rearrangement)?;
        return Ok(done);
    }
    let done = step_plain(types, row, instr)?;
    Ok(done)
}

/// The same, with so much room for operands.
#[inline(always)]
#[tactic(auto, using(crate::proofs::Rowing::both_fit, crate::proofs::Rowing::one_missing, crate::proofs::Rowing::too_many))]
pub(crate) fn step_within(
    types: &mut Types,
    row: FrameRow,
    instr: &Instr,
    room: usize,
) -> Result<bool, NoMemory>
    ensures done { IfOk result (λ b. (at : Site) (bytes : List ℕ) → at.instr ≡ instr.now →
        b ≡ true → types_after room bytes at (rows.Frame row) types.old ≡ Some types.new) }
    ensures refused { IfOk result (λ b. (at : Site) (bytes : List ℕ) → at.instr ≡ instr.now →
        b ≡ false → types_after room bytes at (rows.Frame row) types.old ≡ None) }
{
    if !step_frame(types, row, instr)? {
        return Ok(false);
    }
    Ok(types.depth() <= room)
}

/// A return of an operand of a kind, or of none, from a method. `false` where the method returns no such, or the operand isn't
/// there.
fn step_return(types: &mut Types, kind: Option<Operand>, returned: Returned) -> bool
    ensures { IsMove (returned_taken kind returned) types.old types.new result }
{
    if !returned.may_be(kind) {
        return false;
    }
    match kind {
        Some(kind) => take(types, kind),
        None => true,
    }
}

/// A return, of a method with so much room for operands.
#[inline]
#[tactic(auto, using(crate::proofs::Rowing::both_fit, crate::proofs::Rowing::one_missing, crate::proofs::Rowing::too_many))]
pub(crate) fn step_returned(
    types: &mut Types,
    kind: Option<Operand>,
    returned: Returned,
    room: usize,
) -> bool
    ensures done { result ≡ true → (at : Site) (bytes : List ℕ) → return_of bytes ≡ returned →
        types_after room bytes at (rows.Call (calls.Return kind)) types.old ≡ Some types.new }
    ensures refused { result ≡ false → (at : Site) (bytes : List ℕ) → return_of bytes ≡ returned →
        types_after room bytes at (rows.Call (calls.Return kind)) types.old ≡ None }
{
    step_return(types, kind, returned) && types.depth() <= room
}

/// What the instruction at a place does with the types of a frame, of a method that returns such. `false` where it doesn't
/// accept them; some entries may be gone then.
#[tactic(auto, using(crate::proofs::Rowing::return_moved))]
fn step_row(
    types: &mut Types,
    program: &Program,
    place: &Place<'_>,
    returned: Returned,
) -> Result<bool, NoMemory>
    requires { MayName program.now place.now.row place.now.site }
    ensures done { IfOk result (λ b. (bytes : List ℕ) → return_of bytes ≡ returned → b ≡ true →
        (operands_after bytes place.now.site place.now.row types.old.operands
        ≡ Some types.new.operands)
        × (locals_after place.now.site place.now.row types.old.locals
        ≡ Some types.new.locals)) }
    ensures refused { IfOk result (λ b. (bytes : List ℕ) → return_of bytes ≡ returned →
        b ≡ false →
        (operands_after bytes place.now.site place.now.row types.old.operands ≡ None)
        ⊎ (locals_after place.now.site place.now.row types.old.locals ≡ None)) }
{
    let done = match place.row {
        Row::Frame(row) => step_frame(types, row, place.site.instr())?,
        Row::PoolConstant => step_constant(types, &place.site)?,
        Row::Divide(number, _) => combine(types, number)?,
        Row::Heap(row) => step_heap(types, program, &place.site, row)?,
        Row::Call(CallRow::Invoke(kind)) => step_call(types, program, &place.site, kind)?,
        Row::Call(CallRow::Return(kind)) => step_return(types, kind, returned),
        Row::Throw | Row::Monitor(_) => exchange(types, &REFERENCE, None)?,
    };
    Ok(done)
}

/// Makes types those after the instruction at a place, in a method with so much room for operands that returns such. `false`
/// where it doesn't accept them; some entries may be gone then.
#[inline(never)]
#[tactic(auto, using(crate::proofs::Rowing::both_fit, crate::proofs::Rowing::one_missing, crate::proofs::Rowing::too_many))]
pub(crate) fn step(
    types: &mut Types,
    program: &Program,
    place: &Place<'_>,
    returned: Returned,
    room: usize,
) -> Result<bool, NoMemory>
    requires { MayName program.now place.now.row place.now.site }
    ensures done { IfOk result (λ b. (bytes : List ℕ) → return_of bytes ≡ returned → b ≡ true →
        types_after room bytes place.now.site place.now.row types.old ≡ Some types.new) }
    ensures refused { IfOk result (λ b. (bytes : List ℕ) → return_of bytes ≡ returned →
        b ≡ false →
        types_after room bytes place.now.site place.now.row types.old ≡ None) }
{
    if !step_row(types, program, place, returned)? {
        return Ok(false);
    }
    Ok(types.depth() <= room)
}
