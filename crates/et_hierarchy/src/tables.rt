//! The superclasses and superinterfaces of each class.

ghost use Rattle.std.specs.Prelude.{◌≡◌, ℕ, ◌<◌, ◌^◌, ◌==◌, false, [], ◌∷◌, ◌++◌, length, drop, All, OnOk, IfOk, IfSome, Option};
ghost use Rattle.std.specs.Bool.{OnTrue};
ghost use Rattle.std.specs.List.{list_any, flat_map};
ghost use Rattle.et_hierarchy.specs.Links.{IsAcyclic, HasLinksWithin};
ghost use Rattle.et_hierarchy.specs.Ancestry.{ancestry_at, added_all, once, supers_over, superinterfaces_over, field_order_over, ancestry_of, IsAncestry, IsBelow, LooksUpward};

use crate::distinct::DistinctClasses;
use crate::links::Links;
use crate::lists::{ClassList, numbers_of};
use crate::rows::Row;
use crate::sorting::sort;
use crate::upward::lists_upward;
use et_base::ClassId;
use std::alloc::{AllocError, Global};

/// Puts each of these classes behind a list, unless the list has it.
pub(crate) fn add_all(list: &mut DistinctClasses, classes: &[u32]) -> Result<(), AllocError>
    ensures { OnOk result (list.new ≡ added_all list.old classes.now) }
{
    for class in classes {
        list.add(*class)?;
    }
    Ok(())
}

/// Each of these classes once. The list is for the work alone.
pub(crate) fn distinct(
    alloc: Global,
    list: &mut DistinctClasses,
    classes: &[u32],
) -> Result<Vec<u32>, AllocError>
    ensures { IfOk result (λ found. found.items ≡ once classes.now) }
{
    list.clear();
    add_all(list, classes)?;
    let found = numbers_of(alloc, list.as_slice())?;
    Ok(found)
}

/// Puts each of these classes behind a list, unless the list has it.
pub(crate) fn add_each(list: &mut DistinctClasses, classes: &[ClassId]) -> Result<(), AllocError>
    ensures { OnOk result (list.new ≡ added_all list.old classes.now) }
{
    for class in classes {
        list.add(class.number())?;
    }
    Ok(())
}

/// Where a superclass looks for a field.
fn field_order_over(rows: &[Row], above: Option<u32>) -> &[ClassId]
    requires { IfSome above (λ s. s < length rows.now) }
    ensures { result.now ≡ field_order_over rows.now above }
{
    match above {
        Some(class) => rows[class as usize].field_order(),
        None => &[],
    }
}

/// Puts the superinterfaces of a superclass behind a list.
fn add_superinterfaces_over(
    list: &mut DistinctClasses,
    rows: &[Row],
    above: Option<u32>,
) -> Result<(), AllocError>
    requires { IfSome above (λ s. s < length rows.now) }
    ensures { OnOk result
        (list.new ≡ added_all list.old (superinterfaces_over rows.now above)) }
{
    match above {
        Some(class) => {
            let row = &rows[class as usize];
            add_all(list, row.superinterfaces())
        }
        None => Ok(()),
    }
}

/// Puts interfaces, each after its superinterfaces, behind a list.
#[tactic(auto, using(crate::proofs::AddLemmas::add_rules))]
pub(crate) fn add_interfaces(
    list: &mut DistinctClasses,
    rows: &[Row],
    interfaces: &[u32],
) -> Result<(), AllocError>
    requires { All (λ i. i < length rows.now) interfaces.now }
    ensures { OnOk result (list.new ≡ added_all list.old
        (flat_map (λ i. (ancestry_at rows.now i).superinterfaces ++ i ∷ []) interfaces.now)) }
{
    for interface in interfaces {
        let row = &rows[*interface as usize];
        add_all(list, row.superinterfaces())?;
        list.add(*interface)?;
    }
    Ok(())
}

/// Puts the classes where interfaces look for a field behind a list.
#[tactic(auto, using(crate::proofs::AddLemmas::add_rules))]
fn add_field_orders(
    list: &mut DistinctClasses,
    rows: &[Row],
    interfaces: &[u32],
) -> Result<(), AllocError>
    requires { All (λ i. i < length rows.now) interfaces.now }
    ensures { OnOk result (list.new ≡ added_all list.old
        (flat_map (λ i. (ancestry_at rows.now i).field_order) interfaces.now)) }
{
    for interface in interfaces {
        let row = &rows[*interface as usize];
        add_each(list, row.field_order())?;
    }
    Ok(())
}

/// All superinterfaces of a class, each once.
#[tactic(auto, using(crate::proofs::AddLemmas::add_rules))]
fn superinterfaces(
    alloc: Global,
    list: &mut DistinctClasses,
    links: &Links,
    rows: &[Row],
    class: u32,
) -> Result<Vec<u32>, AllocError>
    requires above { IfSome links.now.above (λ s. s < length rows.now) }
    requires interfaces { All (λ i. i < length rows.now) links.now.interfaces }
    ensures { IfOk result
        (λ found. found.items ≡ (ancestry_of links.now rows.now class).superinterfaces) }
{
    let above = links.above();
    let interfaces = distinct(alloc, list, links.interfaces())?;
    list.clear();
    add_superinterfaces_over(list, rows, above)?;
    add_interfaces(list, rows, interfaces.as_slice())?;
    let found = numbers_of(alloc, list.as_slice())?;
    Ok(found)
}

/// Where a class looks for a field: itself, its interfaces, its superclass.
#[tactic(auto, using(crate::proofs::AddLemmas::add_rules))]
fn searched(
    alloc: Global,
    list: &mut DistinctClasses,
    links: &Links,
    rows: &[Row],
    class: u32,
) -> Result<ClassList, AllocError>
    requires above { IfSome links.now.above (λ s. s < length rows.now) }
    requires interfaces { All (λ i. i < length rows.now) links.now.interfaces }
    ensures { IfOk result (λ found. found ≡ (ancestry_of links.now rows.now class).field_order) }
{
    let above = links.above();
    let interfaces = distinct(alloc, list, links.interfaces())?;
    list.clear();
    list.add(class)?;
    add_field_orders(list, rows, interfaces.as_slice())?;
    add_each(list, field_order_over(rows, above))?;
    let found = Vec::from_slice(alloc, list.as_slice())?;
    let order = ClassList::of(found)?;
    Ok(order)
}

/// Whether a class has no interfaces, and its superclass, if it has one, looks for a field in itself and its superclasses
/// alone, as the row of it tells.
fn looks_upward(links: &Links, rows: &[Row]) -> bool
    requires { IfSome links.now.above (λ s. s < length rows.now) }
    ensures { OnTrue result (LooksUpward links.now rows.now) }
{
    if !links.interfaces().is_empty() {
        return false;
    }
    match links.above() {
        Some(superclass) => rows[superclass as usize].looks_upward(),
        None => true,
    }
}

/// The lists of a class, by those of the classes right above it, and by the list of itself and its superclasses. Where the
/// class looks for a field in these alone, that list is the very one.
fn row_of(
    alloc: Global,
    list: &mut DistinctClasses,
    links: &Links,
    rows: &[Row],
    class: u32,
    upward: ClassList,
) -> Result<Row, AllocError>
    requires above { IfSome links.now.above (λ s. s < length rows.now) }
    requires interfaces { All (λ i. i < length rows.now) links.now.interfaces }
    requires once { once (field_order_over rows.now links.now.above)
        ≡ field_order_over rows.now links.now.above }
    requires first { IfSome links.now.above (λ s. (ancestry_at rows.now s).field_order
        ≡ s ∷ drop 1 (ancestry_at rows.now s).field_order) }
    requires upward { upward ≡ class ∷ supers_over rows.now links.now.above }
    requires new { list_any (λ y. y == class) (supers_over rows.now links.now.above) ≡ false }
    ensures { IfOk result (λ row. row ≡ ancestry_of links.now rows.now class) }
{
    let supers = upward.behind(1)?;
    let superinterfaces = superinterfaces(alloc, list, links, rows, class)?;
    if looks_upward(links, rows) {
        return Ok(Row::new(supers, superinterfaces, upward, true));
    }
    let field_order = searched(alloc, list, links, rows, class)?;
    Ok(Row::new(supers, superinterfaces, field_order, false))
}

/// The superclasses and superinterfaces of each class, and where it looks for a field (JVMS 5.4.3.2, 5.4.3.3), by the
/// links that [`check_set`](crate::check_set) answers. The only error is want of memory.
pub fn ancestries(alloc: Global, table: &[Links]) -> Result<Vec<Row>, AllocError>
    requires few { length table.now < 2 ^ 32 }
    requires within { HasLinksWithin (length table.now) table.now }
    requires acyclic { IsAcyclic table.now }
    ensures rows { IfOk result (λ rows. IsAncestry table.now rows.items) }
    ensures below { IfOk result (λ rows. (k : ℕ) →
        k < length table.now → IsBelow (length table.now) (ancestry_at rows.items k)) }
{
    let sorting = sort(alloc, table)?;
    let order = sorting.order();
    let lists = lists_upward(alloc, table, order)?;
    let mut rows = empty_rows(alloc, table.len())?;
    let mut list = DistinctClasses::begin(alloc);
    for class in order {
        let links = &table[*class as usize];
        let upward = lists[*class as usize].share()?;
        let row = row_of(alloc, &mut list, links, rows.as_slice(), *class, upward)?;
        rows[*class as usize] = row;
    }
    Ok(rows)
}

/// As many empty rows.
fn empty_rows(alloc: Global, count: usize) -> Result<Vec<Row>, AllocError>
    ensures { IfOk result (λ rows. length rows.items ≡ count) }
{
    let nothing = ClassList::of(Vec::new(alloc))?;
    let mut rows = Vec::with_capacity(alloc, count)?;
    for _ in 0..count {
        let row = Row::new(nothing.share()?, Vec::new(alloc), nothing.share()?, false);
        rows.push(row)?;
    }
    Ok(rows)
}
