//! The slots of fields.

ghost use Rattle.std.specs.Prelude.{◌≡◌, ℕ, ◌+◌, ◌<◌, ◌≤◌, length, All, IfOk, sum_by, count_by};
ghost use Rattle.std.specs.List.{slice_index_or};
ghost use Rattle.et_hierarchy.specs.Ancestry.{Ancestry, ancestry_at, IsBelow};
ghost use Rattle.et_program.specs.declared.info.FieldInfo.{FieldInfo as FieldOf};
ghost use Rattle.et_program.specs.Files.{boots};
ghost use Rattle.et_program.specs.Slots.{is_static_field, is_instance_of, own_slots, slots_above, slot_of_field, placed_behind, places_from};
ghost use Rattle.et_link.specs.Counts.{Counts};

use crate::names::boots::{boot, boots};
use et_base::{ClassId, FieldId, NoMemory};
use et_class::flags::{STATIC, has};
use et_hierarchy::Row;
use et_program::FieldInfo;
use std::alloc::Global;

/// One more, or `NoMemory` where that has no number.
fn one_more(count: u32) -> Result<u32, NoMemory>
    ensures { IfOk result (λ n. n ≡ count + 1) }
{
    match count.checked_add(1) {
        Some(next) => Ok(next),
        None => Err(NoMemory),
    }
}

/// The slots that the built-in classes declare, and none for the others.
fn boot_slots(alloc: Global, count: usize) -> Result<Vec<u32>, NoMemory>
    ensures length { IfOk result (λ own. length own.items ≡ count) }
    ensures slots { IfOk result
        (λ own. (k : ℕ) → k < count → slice_index_or own.items k 0 ≡ own_slots [] k) }
{
    let mut own = Vec::new(alloc);
    'classes: for k in 0..count {
        let slots = if k < boots() { boot(k).slots } else { 0 };
        own.push(slots)?;
    }
    Ok(own)
}

ghost use Rattle.std.specs.Prelude.{[]};

/// How many instance slots each class declares itself.
pub(crate) fn own_slots(
    alloc: Global,
    fields: &[FieldInfo],
    count: usize,
) -> Result<Vec<u32>, NoMemory>
    requires { All (λ (f : FieldOf). f.class < count) fields.now }
    ensures length { IfOk result (λ own. length own.items ≡ count) }
    ensures slots { IfOk result
        (λ own. (k : ℕ) → k < count → slice_index_or own.items k 0 ≡ own_slots fields.now k) }
{
    let mut own = boot_slots(alloc, count)?;
    for field in fields {
        let class = field.class.number() as usize;
        if class >= boots() && !has(field.flags, STATIC) {
            let more = one_more(own[class])?;
            own[class] = more;
        }
    }
    Ok(own)
}

/// The sum of what these classes declare.
fn sum_of(own: &[u32], classes: &[ClassId]) -> Result<u32, NoMemory>
    requires { All (λ k. k < length own.now) classes.now }
    ensures { IfOk result (λ n. n ≡ sum_by (λ k. slice_index_or own.now k 0) classes.now) }
{
    let mut sum: u32 = 0;
    for class in classes {
        let Some(more) = sum.checked_add(own[class.number() as usize]) else {
            return Err(NoMemory);
        };
        sum = more;
    }
    Ok(sum)
}

/// How many instance slots the superclasses of each class declare.
pub(crate) fn slots_above(alloc: Global, own: &[u32], rows: &[Row]) -> Result<Vec<u32>, NoMemory>
    requires { (k : ℕ) → k < length rows.now → IsBelow (length own.now) (ancestry_at rows.now k) }
    ensures length { IfOk result (λ above. length above.items ≡ length rows.now) }
    ensures slots { IfOk result (λ above. (k : ℕ) → k < length rows.now → slice_index_or above.items
        k 0 ≡ sum_by (λ j. slice_index_or own.now j 0) (ancestry_at rows.now k).supers) }
{
    let mut above = Vec::new(alloc);
    for row in rows {
        let sum = sum_of(own, row.supers())?;
        above.push(sum)?;
    }
    Ok(above)
}

ghost use Rattle.std.specs.Prelude.{◌++◌, ◌∷◌, List, ◌^◌};

/// The static fields, in order.
pub(crate) fn static_fields(alloc: Global, fields: &[FieldInfo]) -> Result<Vec<FieldId>, NoMemory>
    requires { length fields.now < 2 ^ 32 }
    ensures { IfOk result (λ statics. statics.items ≡ places_from is_static_field 0 fields.now) }
{
    let mut statics = Vec::new(alloc);
    for (i, field) in fields.iter().enumerate() {
        if has(field.flags, STATIC) {
            statics.push(FieldId::new(i as u32))?;
        }
    }
    Ok(statics)
}

/// The slot of a field: the next one of the static fields, or of its class.
fn take_slot(next: &mut Vec<u32>, statics: &mut u32, field: &FieldInfo) -> Result<u32, NoMemory>
    requires { field.now.class < length next.old.items }
    ensures length { length next.new.items ≡ length next.old.items }
    ensures slot { IfOk result (λ slot. (base : ℕ → ℕ) (before : List FieldOf) →
        Counts base before next.old.items statics.old →
        slot ≡ slot_of_field base before field.now) }
    ensures counts { IfOk result (λ slot. (base : ℕ → ℕ) (before : List FieldOf) →
        Counts base before next.old.items statics.old →
        Counts base (before ++ field.now ∷ []) next.new.items statics.new) }
{
    if has(field.flags, STATIC) {
        let slot = *statics;
        *statics = one_more(slot)?;
        return Ok(slot);
    }
    let class = field.class.number() as usize;
    let slot = next[class];
    next[class] = one_more(slot)?;
    Ok(slot)
}

/// The fields with their slots; those of class k begin at `above[k]`.
pub(crate) fn place_fields(
    alloc: Global,
    fields: Vec<FieldInfo>,
    above: &[u32],
) -> Result<Vec<FieldInfo>, NoMemory>
    requires { All (λ (f : FieldOf). f.class < length above.now) fields.items }
    ensures { IfOk result
        (λ list. list.items ≡ placed_behind (λ k. slice_index_or above.now k 0) [] fields.items) }
{
    let mut list = Vec::new(alloc);
    let mut next = Vec::from_slice(alloc, above)?;
    let mut statics: u32 = 0;
    for field in fields {
        let slot = take_slot(&mut next, &mut statics, &field)?;
        let FieldInfo {
            class,
            name,
            descriptor,
            flags,
            slot: _,
            constant,
        } = field;
        list.push(FieldInfo {
            class,
            name,
            descriptor,
            flags,
            slot,
            constant,
        })?;
    }
    Ok(list)
}
