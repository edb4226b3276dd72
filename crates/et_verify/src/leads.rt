//! The places at which the code goes on behind an instruction, and the handlers that may be entered at it.
ghost use Rattle.std.specs.Prelude.{◌&&◌, if◌then◌else◌, ◌≡◌, ◌+◌, ◌<◌, ◌≤◌, ◌^◌, ◌++◌, length, map, filter, int_lt, false, true, ◌⊎◌, ℕ, [], ◌∷◌, Contains, OnOk, IfOk, IfSome};
ghost use Rattle.std.specs.List.{list_all};
ghost use Rattle.std.specs.Option.{option_copied};
ghost use Rattle.et_class.specs.Looks.{class_name_at};
ghost use Rattle.et_code.specs.Decoding.{bits_at, code_word_at, row_count as count_of_rows, TableFits, LookupFits, Fits};
ghost use Rattle.et_code.specs.Rules.{flag, is_branch as branches, offsets};
ghost use Rattle.et_code.specs.Switches.{table_rows, lookup_pairs};
ghost use Rattle.et_code.specs.declared.body.TableRow.{TableRow as RowOf};
ghost use Rattle.et_event.specs.Sites.{target as target_at};
ghost use Rattle.et_event.specs.Pools.{pool_slots};
ghost use Rattle.et_verify.specs.Typings.{has_room as room_for};
ghost use Rattle.et_flow.specs.Flows.{some_place};
ghost use Rattle.et_flow.specs.Types.{caught as caught_types};
ghost use Rattle.et_verify.specs.Simple.{turns};
ghost use Rattle.et_verify.specs.Leads.{goes_past as past, is_of_program, covers as covering, may_catch as catches};

use crate::decoded::Decoded;
use byteorder::{BigEndian, ByteOrder};
use et_base::NoMemory;
use et_code::opcode::{GOTO, GOTO_W, IFEQ, IFNULL, LOOKUPSWITCH, TABLESWITCH};
use et_code::{Instr, TableRow};
use et_event::{CallRow, Condition, FrameRow, Row};
use et_flow::{Lead, Types};
use et_pool::Pool;
use et_program::Program;
use std::alloc::Global;

/// Whether the code may go on behind an instruction.
fn goes_past(row: Row) -> bool
    ensures { result ≡ past row }
{
    match row {
        Row::Frame(FrameRow::Branch(Condition::Always))
        | Row::Frame(FrameRow::Switch)
        | Row::Call(CallRow::Return(_))
        | Row::Throw => false,
        _ => true,
    }
}

/// The place so far from an instruction.
#[inline]
pub(crate) fn target(pc: u32, offset: i32) -> u32
    requires { pc < 2 ^ 16 }
    ensures { result ≡ target_at pc offset }
{
    (pc as i64 + offset as i64).max(0) as u32
}

/// The four bytes at a place of the code.
fn bits(code: &[u8], at: usize) -> u32
    requires { at + 4 ≤ length code.now }
    ensures { result ≡ bits_at code.now at }
{
    BigEndian::read_u32(&code[at..])
}

/// How many rows the table with its default at `table` has.
fn row_count(code: &[u8], table: usize) -> usize
    requires { TableFits code.now table }
    ensures { result ≡ count_of_rows (code_word_at code.now (table + 4))
        (code_word_at code.now (table + 8)) }
{
    let low = bits(code, table + 4).cast_signed();
    let high = bits(code, table + 8).cast_signed();
    (high as i64 - low as i64) as usize + 1
}

/// Adds the targets in the rows of a table.
fn push_rows(targets: &mut Vec<u32>, pc: u32, code: &[u8], table: usize) -> Result<(), NoMemory>
    requires pc { pc < 2 ^ 16 }
    requires fits { TableFits code.now table }
    ensures { OnOk result (targets.new.items
        ≡ targets.old.items ++ map (target_at pc) (table_rows code.now table)) }
{
    for row in 0..row_count(code, table) {
        let offset = bits(code, table + 12 + row * 4).cast_signed();
        targets.push(target(pc, offset))?;
    }
    Ok(())
}

/// Adds the targets in the pairs of a lookup.
fn push_pairs(targets: &mut Vec<u32>, pc: u32, code: &[u8], table: usize) -> Result<(), NoMemory>
    requires pc { pc < 2 ^ 16 }
    requires fits { LookupFits code.now table }
    ensures { OnOk result (targets.new.items
        ≡ targets.old.items ++ map (target_at pc) (map (λ p. p.1) (lookup_pairs code.now table))) }
{
    for pair in 0..bits(code, table + 4) {
        let offset = bits(code, table + 8 + pair as usize * 8 + 4).cast_signed();
        targets.push(target(pc, offset))?;
    }
    Ok(())
}

/// Whether an opcode is that of a branch.
#[inline]
pub(crate) fn is_branch(opcode: u8) -> bool
    ensures { result ≡ branches opcode }
{
    (IFEQ <= opcode && opcode <= GOTO) || (IFNULL <= opcode && opcode <= GOTO_W)
}

/// Whether an opcode is that of a branch or a switch.
fn may_turn(opcode: u8) -> bool
    ensures { result ≡ turns opcode }
{
    is_branch(opcode) || opcode == TABLESWITCH || opcode == LOOKUPSWITCH
}

/// Adds the targets of a branch or switch, the default of a switch first.
#[inline(never)]
#[tactic(auto, using(std::proofs::lemmas::List::append_assoc))]
fn push_turns(targets: &mut Vec<u32>, pc: u32, code: &[u8], instr: &Instr) -> Result<(), NoMemory>
    requires pc { pc < 2 ^ 16 }
    requires table { instr.now.opcode ≡ TABLESWITCH → TableFits code.now instr.now.table }
    requires lookup { instr.now.opcode ≡ LOOKUPSWITCH → LookupFits code.now instr.now.table }
    ensures { OnOk result (targets.new.items
        ≡ targets.old.items ++ map (target_at pc) (offsets code.now instr.now)) }
{
    if is_branch(instr.opcode) {
        targets.push(target(pc, instr.first))?;
        return Ok(());
    }
    match instr.opcode {
        TABLESWITCH => {
            targets.push(target(pc, bits(code, instr.table).cast_signed()))?;
            push_rows(targets, pc, code, instr.table)
        }
        LOOKUPSWITCH => {
            targets.push(target(pc, bits(code, instr.table).cast_signed()))?;
            push_pairs(targets, pc, code, instr.table)
        }
        _ => Ok(()),
    }
}

/// Adds the targets of an instruction: none, or those of a branch or switch.
#[inline]
#[tactic(auto, using(crate::proofs::Entries::no_targets))]
pub(crate) fn push_targets(
    targets: &mut Vec<u32>,
    pc: u32,
    code: &[u8],
    instr: &Instr,
) -> Result<(), NoMemory>
    requires pc { pc < 2 ^ 16 }
    requires table { instr.now.opcode ≡ TABLESWITCH → TableFits code.now instr.now.table }
    requires lookup { instr.now.opcode ≡ LOOKUPSWITCH → LookupFits code.now instr.now.table }
    ensures { OnOk result (targets.new.items
        ≡ targets.old.items ++ map (target_at pc) (offsets code.now instr.now)) }
{
    if !may_turn(instr.opcode) {
        return Ok(());
    }
    push_turns(targets, pc, code, instr)
}

/// The code goes on behind an instruction that has no targets.
#[inline(always)]
pub(crate) fn go_past(targets: &[bool], next: u32, lead: &mut Lead) -> Result<(), NoMemory>
    ensures places { OnOk result (some_place lead.new.on ++ lead.new.nexts.items ≡ next ∷ []) }
    ensures on { OnOk result (IfSome lead.new.on (λ q. flag targets.now q ≡ false)) }
    ensures behind { OnOk result ((q : ℕ) → Contains lead.new.nexts.items q →
        flag targets.now q ≡ true) }
    ensures handlers { OnOk result (lead.new.handlers.items ≡ lead.old.handlers.items) }
    ensures caught { OnOk result (lead.new.caught ≡ lead.old.caught) }
{
    lead.on = None;
    lead.nexts.clear();
    if is_flagged(targets, next) {
        lead.nexts.push(next)?;
    } else {
        lead.on = Some(next);
    }
    Ok(())
}

/// The code goes on behind an instruction without targets that has a row, or nowhere.
#[inline]
pub(crate) fn go_on(targets: &[bool], row: Row, next: u32, lead: &mut Lead) -> Result<(), NoMemory>
    ensures places { OnOk result (some_place lead.new.on ++ lead.new.nexts.items
        ≡ (if past row then next ∷ [] else [])) }
    ensures on { OnOk result (IfSome lead.new.on (λ q. flag targets.now q ≡ false)) }
    ensures behind { OnOk result ((q : ℕ) → Contains lead.new.nexts.items q →
        flag targets.now q ≡ true) }
    ensures handlers { OnOk result (lead.new.handlers.items ≡ lead.old.handlers.items) }
    ensures caught { OnOk result (lead.new.caught ≡ lead.old.caught) }
{
    if goes_past(row) {
        return go_past(targets, next, lead);
    }
    lead.on = None;
    lead.nexts.clear();
    Ok(())
}

/// The places at which the code goes on from the instruction at a place: behind it, and at the targets of a branch or switch.
#[inline]
pub(crate) fn next_places(
    targets: &[bool],
    code: &[u8],
    pc: u32,
    at: &Decoded,
    lead: &mut Lead,
) -> Result<(), NoMemory>
    requires pc { pc < 2 ^ 16 }
    requires fits { Fits code.now pc at.now.instr at.now.next }
    ensures places { OnOk result (some_place lead.new.on ++ lead.new.nexts.items
        ≡ (if past at.now.row then at.now.next ∷ [] else [])
        ++ map (target_at pc) (offsets code.now at.now.instr)) }
    ensures on { OnOk result (IfSome lead.new.on (λ q. flag targets.now q ≡ false)) }
    ensures behind { OnOk result ((q : ℕ) → Contains lead.new.nexts.items q →
        Contains (map (target_at pc) (offsets code.now at.now.instr)) q
        ⊎ (flag targets.now q ≡ true)) }
    ensures handlers { OnOk result (lead.new.handlers.items ≡ lead.old.handlers.items) }
    ensures caught { OnOk result (lead.new.caught ≡ lead.old.caught) }
{
    go_on(targets, at.row, at.next, lead)?;
    push_targets(&mut lead.nexts, pc, code, &at.instr)
}

/// Whether the Class entry at an index of a pool names a class of the program.
fn names_class(program: &Program, pool: Option<&Pool>, index: u16) -> bool
    ensures { result ≡ is_of_program program.now
        (class_name_at (pool_slots (option_copied pool.entry)) index) }
{
    match pool {
        Some(pool) => match pool.class_name(index) {
            Some(name) => program.resolve_class(name).is_ok(),
            None => false,
        },
        None => false,
    }
}

/// Whether a row of an exception table may catch anything: all, or a class of the program.
fn may_catch(program: &Program, pool: Option<&Pool>, row: &TableRow) -> bool
    ensures { result ≡ catches program.now (pool_slots (option_copied pool.entry)) row.now }
{
    row.catch == 0 || names_class(program, pool, row.catch)
}

/// The rows of an exception table that may catch anything.
pub(crate) fn catching_rows(
    alloc: Global,
    program: &Program,
    pool: Option<&Pool>,
    table: &[TableRow],
) -> Result<Vec<TableRow>, NoMemory>
    ensures { IfOk result (λ rows. rows.items
        ≡ filter (catches program.now (pool_slots (option_copied pool.entry))) table.now) }
{
    let mut rows = Vec::new(alloc);
    for row in table {
        if may_catch(program, pool, row) {
            rows.push(*row)?;
        }
    }
    Ok(rows)
}

/// Finds the handlers that may be entered at a place where types are these, with those that they are entered with.
#[inline(always)]
pub(crate) fn find_handlers(
    rows: &[TableRow],
    pc: u32,
    types: &Types,
    lead: &mut Lead,
) -> Result<(), NoMemory>
    ensures handlers { OnOk result (lead.new.handlers.items
        ≡ map (λ (r : RowOf). r.handler) (filter (covering pc) rows.now)) }
    ensures caught { OnOk result ((q : ℕ) → Contains lead.new.handlers.items q →
        caught_types types.now ≡ lead.new.caught) }
{
    lead.handlers.clear();
    for row in rows {
        if row.start as u32 <= pc && pc < row.end as u32 {
            lead.handlers.push(row.handler as u32)?;
        }
    }
    if !lead.handlers.is_empty() {
        lead.caught.copy_caught(types)?;
    }
    Ok(())
}

/// Whether a place is flagged.
pub(crate) fn is_flagged(flags: &[bool], place: u32) -> bool
    ensures { result ≡ flag flags.now place }
{
    (place as usize) < flags.len() && flags[place as usize]
}

/// Whether all places are flagged.
fn are_flagged(flags: &[bool], places: &[u32]) -> bool
    ensures { result ≡ list_all (flag flags.now) places.now }
{
    for place in places {
        if !is_flagged(flags, *place) {
            return false;
        }
    }
    true
}

/// Whether instructions start at all places at which the code goes on.
#[inline(always)]
pub(crate) fn may_go(starts: &[bool], lead: &Lead) -> bool
    ensures { result ≡ list_all (flag starts.now) (some_place lead.now.on ++ lead.now.nexts.items) }
{
    match lead.on {
        None => are_flagged(starts, &lead.nexts),
        Some(place) => is_flagged(starts, place) && are_flagged(starts, &lead.nexts),
    }
}

/// Whether instructions start at all handlers, and there is room for the exception.
#[inline(always)]
pub(crate) fn may_enter(starts: &[bool], lead: &Lead, room: usize) -> bool
    ensures { result ≡ (list_all (flag starts.now) lead.now.handlers.items
        && room_for room lead.now.handlers.items) }
{
    are_flagged(starts, &lead.handlers) && (lead.handlers.is_empty() || room > 0)
}
