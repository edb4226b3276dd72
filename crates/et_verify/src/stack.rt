//! Rearrangements of the topmost operands (JVMS 2.11.6), by their types.
ghost use Rattle.std.specs.Prelude.{◌≡◌, [], ◌∷◌, ◌++◌, true, false, IfOk, OnOk, IfSome, IfNone};
ghost use Rattle.et_event.specs.declared.rows.Rearrangement.TheVariants as stack;
ghost use Rattle.et_verify.specs.Steps.{IsMove, is_one, is_pair as pair_first, rearranged_types};
ghost use Rattle.et_verify.specs.Groups.{entries_of, is_group, are_groups, IsGroup, doubling, inserting};

use et_base::NoMemory;
use et_event::Rearrangement;
use et_flow::{EntryType, Types};

/// Whether two entries are a long, or two values.
#[tactic(auto, using(crate::proofs::Groups::pair_alone))]
fn are_together(upper: EntryType, lower: EntryType) -> bool
    ensures { result ≡ pair_first (upper ∷ lower ∷ []) }
{
    match (upper, lower) {
        (EntryType::LongHigh, EntryType::Long) => true,
        (upper, lower) => upper.is_single() && lower.is_single(),
    }
}

/// Takes an entry that is a value by itself. Where the topmost one is none it may be gone then.
fn pop_one(types: &mut Types) -> Option<EntryType>
    ensures some { IfSome result (λ t. types.old.operands ≡ t ∷ types.new.operands) }
    ensures is_one { IfSome result (λ t. is_one types.old.operands ≡ true) }
    ensures none { IfNone result (is_one types.old.operands ≡ false) }
    ensures locals { types.new.locals ≡ types.old.locals }
{
    let entry = types.pop()?;
    if !entry.is_single() {
        return None;
    }
    Some(entry)
}

/// Takes two entries that are a long, or two values, the upper one first. Where the topmost ones are neither they may be gone
/// then.
#[tactic(auto, using(crate::proofs::Groups::pair_of, crate::proofs::Groups::no_pair))]
fn pop_pair(types: &mut Types) -> Option<(EntryType, EntryType)>
    ensures some { IfSome result (λ x. types.old.operands ≡ x.0 ∷ x.1 ∷ types.new.operands) }
    ensures is_pair { IfSome result (λ x. pair_first types.old.operands ≡ true) }
    ensures none { IfNone result (pair_first types.old.operands ≡ false) }
    ensures locals { types.new.locals ≡ types.old.locals }
{
    let upper = types.pop()?;
    let lower = types.pop()?;
    if !are_together(upper, lower) {
        return None;
    }
    Some((upper, lower))
}

/// How many entries a group of operands has: one that is a value by itself, or two that are a long or two such values.
#[derive(Clone, Copy)]
enum Width {
    One,
    Two,
}

/// The entries of a group of operands, the upper one first.
#[derive(Clone, Copy)]
enum Group {
    One(EntryType),
    Two(EntryType, EntryType),
}

/// Takes a group. Where none of this width stands on top, some of its entries may be gone then.
fn pop_group(types: &mut Types, width: Width) -> Option<Group>
    ensures some { IfSome result (λ group. types.old.operands
        ≡ entries_of group ++ types.new.operands) }
    ensures whole { IfSome result (λ group. IsGroup width group types.old.operands) }
    ensures none { IfNone result (is_group width types.old.operands ≡ false) }
    ensures locals { types.new.locals ≡ types.old.locals }
{
    match width {
        Width::One => {
            let entry = pop_one(types)?;
            Some(Group::One(entry))
        }
        Width::Two => {
            let (upper, lower) = pop_pair(types)?;
            Some(Group::Two(upper, lower))
        }
    }
}

/// Puts a group on top.
fn push_group(types: &mut Types, group: Group) -> Result<(), NoMemory>
    ensures operands { OnOk result
        (types.new.operands ≡ entries_of group ++ types.old.operands) }
    ensures locals { OnOk result (types.new.locals ≡ types.old.locals) }
{
    match group {
        Group::One(entry) => types.push_entry(entry),
        Group::Two(upper, lower) => {
            types.push_entry(lower)?;
            types.push_entry(upper)
        }
    }
}

/// Puts a copy of the topmost group on top: `dup` or `dup2`, by the width.
fn double(types: &mut Types, width: Width) -> Result<bool, NoMemory>
    ensures { IfOk result (IsMove (rearranged_types (doubling width)) types.old types.new) }
{
    let Some(group) = pop_group(types, width) else {
        return Ok(false);
    };
    push_group(types, group)?;
    push_group(types, group)?;
    Ok(true)
}

/// Takes two groups, the upper one first. Where no such groups stand on top, some entries may be gone then.
fn pop_groups(types: &mut Types, upper: Width, lower: Width) -> Option<(Group, Group)>
    ensures some { IfSome result (λ x. types.old.operands
        ≡ entries_of x.0 ++ (entries_of x.1 ++ types.new.operands)) }
    ensures upper { IfSome result (λ x. IsGroup upper x.0 types.old.operands) }
    ensures lower { IfSome result
        (λ x. IsGroup lower x.1 (entries_of x.1 ++ types.new.operands)) }
    ensures none { IfNone result (are_groups upper lower types.old.operands ≡ false) }
    ensures locals { types.new.locals ≡ types.old.locals }
{
    let first = pop_group(types, upper)?;
    let second = pop_group(types, lower)?;
    Some((first, second))
}

/// Puts a copy of the topmost group below the group under it: `dup_x1`, `dup_x2`, `dup2_x1` or `dup2_x2`, by their widths.
fn insert(types: &mut Types, upper: Width, lower: Width) -> Result<bool, NoMemory>
    ensures { IfOk result (IsMove (rearranged_types (inserting upper lower)) types.old types.new) }
{
    let Some((first, second)) = pop_groups(types, upper, lower) else {
        return Ok(false);
    };
    push_group(types, first)?;
    push_group(types, second)?;
    push_group(types, first)?;
    Ok(true)
}

/// `swap`.
fn swap(types: &mut Types) -> Result<bool, NoMemory>
    ensures { IfOk result (IsMove (rearranged_types stack.Swap) types.old types.new) }
{
    let Some((first, second)) = pop_groups(types, Width::One, Width::One) else {
        return Ok(false);
    };
    push_group(types, first)?;
    push_group(types, second)?;
    Ok(true)
}

/// Rearranges the topmost operands. `false` where they are not there, or a long would be cut in two; some may be gone then.
#[inline(never)]
pub(crate) fn rearrange(types: &mut Types, rearrangement: Rearrangement) -> Result<bool, NoMemory>
    ensures { IfOk result (IsMove (rearranged_types rearrangement) types.old types.new) }
{
    let done = match rearrangement {
        Rearrangement::Nop => true,
        Rearrangement::Pop => pop_one(types).is_some(),
        Rearrangement::Pop2 => pop_pair(types).is_some(),
        Rearrangement::Dup => double(types, Width::One)?,
        Rearrangement::DupX1 => insert(types, Width::One, Width::One)?,
        Rearrangement::DupX2 => insert(types, Width::One, Width::Two)?,
        Rearrangement::Dup2 => double(types, Width::Two)?,
        Rearrangement::Dup2X1 => insert(types, Width::Two, Width::One)?,
        Rearrangement::Dup2X2 => insert(types, Width::Two, Width::Two)?,
        Rearrangement::Swap => swap(types)?,
    };
    Ok(done)
}
