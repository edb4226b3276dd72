//! Operands of types that are taken and given (JVMS 2.6.2).
ghost use Rattle.std.specs.Prelude.{◌≡◌, [], ◌∷◌, ◌++◌, OnOk, IfOk};
ghost use Rattle.et_flow.specs.Types.{operand_entries};
ghost use Rattle.et_verify.specs.Steps.{IsMove, below_taken, moved_by, with_given};

use et_base::NoMemory;
use et_event::Operand;
use et_flow::{EntryType, Types};

/// Takes an operand of a kind. `false` where the topmost one is of no such kind; some entries may be gone then.
#[inline(always)]
pub fn take(types: &mut Types, kind: Operand) -> bool
    ensures { IsMove (below_taken (kind ∷ [])) types.old types.new result }
{
    match kind {
        Operand::Int => types.pop_entry(EntryType::Int),
        Operand::Long => {
            types.pop_entry(EntryType::LongHigh) && types.pop_entry(EntryType::Long)
        }
        Operand::Reference => types.pop_entry(EntryType::Reference),
    }
}

/// Takes operands of kinds, the topmost first. `false` where one is of no such kind; some entries may be gone then.
#[inline(always)]
pub fn take_all(types: &mut Types, kinds: &[Operand]) -> bool
    ensures { IsMove (below_taken kinds.now) types.old types.new result }
{
    for kind in kinds {
        if !take(types, *kind) {
            return false;
        }
    }
    true
}

/// Gives an operand of a kind.
#[inline(always)]
pub fn give(types: &mut Types, kind: Operand) -> Result<(), NoMemory>
    ensures operands { OnOk result
        (types.new.operands ≡ operand_entries kind ++ types.old.operands) }
    ensures locals { OnOk result (types.new.locals ≡ types.old.locals) }
{
    match kind {
        Operand::Int => types.push_entry(EntryType::Int),
        Operand::Long => {
            types.push_entry(EntryType::Long)?;
            types.push_entry(EntryType::LongHigh)
        }
        Operand::Reference => types.push_entry(EntryType::Reference),
    }
}

/// Gives an operand of a kind, or none.
#[inline(always)]
pub fn give_some(types: &mut Types, kind: Option<Operand>) -> Result<(), NoMemory>
    ensures operands { OnOk result (types.new.operands ≡ with_given kind types.old.operands) }
    ensures locals { OnOk result (types.new.locals ≡ types.old.locals) }
{
    match kind {
        Some(kind) => give(types, kind),
        None => Ok(()),
    }
}

/// Takes operands of kinds, the topmost first, and gives one of a kind, or none. `false` where one is of no such kind; some
/// entries may be gone then.
#[inline(always)]
pub(crate) fn exchange(
    types: &mut Types,
    taken: &[Operand],
    given: Option<Operand>,
) -> Result<bool, NoMemory>
    ensures { IfOk result
        (IsMove (moved_by (record { taken = taken.now; given = given })) types.old types.new) }
{
    if !take_all(types, taken) {
        return Ok(false);
    }
    give_some(types, given)?;
    Ok(true)
}
