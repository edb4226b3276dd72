//! The targets of code: the first place, those of branches and switches, and the handlers. To each other place one
//! instruction alone leads, the one before it.
ghost use Rattle.std.specs.Prelude.{◌≡◌, ◌<◌, ◌^◌, ℕ, true, Bool, List, Ok, Contains, length, map, IfOk, OnOk};
ghost use Rattle.et_code.specs.Rules.{flag, offsets};
ghost use Rattle.et_code.specs.Decoding.{instruction_at};
ghost use Rattle.et_code.specs.Starts.{is_start};
ghost use Rattle.et_code.specs.declared.body.TableRow.{TableRow as RowOf};
ghost use Rattle.et_code.specs.declared.instr.Instr.{Instr as InstrOf};
ghost use Rattle.et_event.specs.Sites.{target as target_at};
ghost use Rattle.et_verify.specs.Targets.{KeepsFlags, AreFlagged, HasTargets, place_behind};

use crate::leads::{is_branch, push_targets, target};
use crate::simple::simple_at;
use et_base::NoMemory;
use et_code::{TableRow, decode};

/// Flags a place, where the code has it.
fn mark(flags: &mut [bool], place: u32)
    ensures kept { KeepsFlags flags.old flags.new }
    ensures marked { place < length flags.old → flag flags.new place ≡ true }
{
    if (place as usize) < flags.len() {
        flags[place as usize] = true;
    }
}

/// Flags these places, where the code has them.
fn mark_all(flags: &mut [bool], places: &[u32])
    ensures kept { KeepsFlags flags.old flags.new }
    ensures marked { AreFlagged flags.new places.now }
{
    for place in places {
        mark(flags, *place);
    }
}

/// Flags the targets of the instruction at a place, and answers the place behind it; `None` where none stands there. Those of
/// a switch are put into `targets` first.
fn mark_targets(
    flags: &mut [bool],
    targets: &mut Vec<u32>,
    code: &[u8],
    pc: u32,
) -> Result<Option<usize>, NoMemory>
    requires inside { pc < length code.now }
    requires few { length code.now < 2 ^ 16 }
    ensures kept { OnOk result (KeepsFlags flags.old flags.new) }
    ensures marked { OnOk result ((i : InstrOf) (next : ℕ) →
        instruction_at code.now pc ≡ Ok (i, next) →
        AreFlagged flags.new (map (target_at pc) (offsets code.now i))) }
    ensures behind { IfOk result (λ r. r ≡ place_behind code.now pc) }
{
    if let Some((_, next)) = simple_at(code, pc as usize) {
        return Ok(Some(next));
    }
    let Ok((instr, next)) = decode(code, pc as usize) else {
        return Ok(None);
    };
    if is_branch(instr.opcode) {
        mark(flags, target(pc, instr.first));
        return Ok(Some(next));
    }
    targets.clear();
    push_targets(targets, pc, code, &instr)?;
    mark_all(flags, targets);
    Ok(Some(next))
}

/// Flags the targets of all instructions in `flags`, and makes `starts` a flag for each place of the code: whether an instruction
/// begins there. The targets of each switch are put into `targets` first.
fn mark_code(
    flags: &mut [bool],
    starts: &mut Vec<bool>,
    targets: &mut Vec<u32>,
    code: &[u8],
) -> Result<(), NoMemory>
    requires few { length code.now < 2 ^ 16 }
    ensures kept { OnOk result (KeepsFlags flags.old flags.new) }
    ensures starts { OnOk result ((place : ℕ) →
        flag starts.new.items place ≡ is_start code.now place) }
    ensures marked { OnOk result ((pc : ℕ) (i : InstrOf) (next : ℕ) →
        flag starts.new.items pc ≡ true → instruction_at code.now pc ≡ Ok (i, next) →
        AreFlagged flags.new (map (target_at pc) (offsets code.now i))) }
{
    starts.clear();
    starts.resize(code.len(), false)?;
    let mut pc = 0;
    while pc < code.len() {
        starts[pc] = true;
        let Some(next) = mark_targets(flags, targets, code, pc as u32)? else {
            return Ok(());
        };
        pc = next;
    }
    Ok(())
}

/// Flags the handlers of an exception table.
fn mark_handlers(flags: &mut [bool], table: &[TableRow])
    ensures kept { KeepsFlags flags.old flags.new }
    ensures marked { AreFlagged flags.new (map (λ (r : RowOf). r.handler) table.now) }
{
    for row in table {
        mark(flags, row.handler as u32);
    }
}

/// Makes flags for each place of a method's code: whether an instruction begins there, and whether it is a target. `places` is
/// room for the targets of one switch.
pub(crate) fn mark_method(
    starts: &mut Vec<bool>,
    targets: &mut Vec<bool>,
    places: &mut Vec<u32>,
    code: &[u8],
    table: &[TableRow],
) -> Result<(), NoMemory>
    requires few { length code.now < 2 ^ 16 }
    ensures starts { OnOk result ((place : ℕ) →
        flag starts.new.items place ≡ is_start code.now place) }
    ensures targets { OnOk result
        (HasTargets starts.new.items code.now table.now targets.new.items) }
{
    targets.clear();
    targets.resize(code.len(), false)?;
    mark(targets, 0);
    mark_code(targets, starts, places, code)?;
    mark_handlers(targets, table);
    Ok(())
}
