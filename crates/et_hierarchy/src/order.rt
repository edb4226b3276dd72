//! The order of initialization (JVMS 5.5).

ghost use Rattle.std.specs.Prelude.{◌≡◌, ℕ, ◌<◌, ◌≤◌, ◌^◌, Bool, false, List, [], length, drop, filter, All, OnOk, IfOk};
ghost use Rattle.std.specs.List.{slice_index_or};
ghost use Rattle.et_hierarchy.specs.Links.{LinkEntry, IsAcyclic, HasLinksWithin};
ghost use Rattle.et_hierarchy.specs.Ancestry.{Ancestry, added_all, once, ancestry_at, IsAncestry};
ghost use Rattle.et_hierarchy.specs.Initialization.{listed_interfaces, interfaces_to_run, with_interfaces, class_order};
ghost use Rattle.et_hierarchy.specs.Orders.{order_down, IsStop, HasOrder, AreOrders, OrdersGrow};
ghost use Rattle.et_hierarchy.specs.declared.order.Stop.{Stop};

use crate::distinct::{DistinctClasses, is_marked};
use crate::links::Links;
use crate::lists::{ClassList, empty_lists};
use crate::rows::Row;
use crate::sorting::sort;
use crate::tables::{add_all, add_each, add_interfaces, distinct};
use et_base::ClassId;
use std::alloc::{AllocError, Global};

/// Makes a list of the superinterfaces by the interface list of a class, each after its own superinterfaces.
#[tactic(auto, using(crate::proofs::AddLemmas::add_rules))]
fn list_interfaces(
    alloc: Global,
    list: &mut DistinctClasses,
    rows: &[Row],
    links: &Links,
) -> Result<(), AllocError>
    requires { All (λ i. i < length rows.now) links.now.interfaces }
    ensures { OnOk result (list.new ≡ listed_interfaces rows.now links.now) }
{
    let interfaces = distinct(alloc, list, links.interfaces())?;
    list.clear();
    add_interfaces(list, rows, interfaces.as_slice())?;
    Ok(())
}

/// The superinterfaces by the interface list of a class, each after its own superinterfaces, that are marked as having
/// a method to run.
pub fn interfaces_to_run(
    alloc: Global,
    needs: &[bool],
    rows: &[Row],
    links: &Links,
) -> Result<Vec<u32>, AllocError>
    requires { All (λ i. i < length rows.now) links.now.interfaces }
    ensures { IfOk result (λ list.
        list.items ≡ interfaces_to_run (λ k. slice_index_or needs.now k false) rows.now links.now) }
{
    let mut list = DistinctClasses::begin(alloc);
    list_interfaces(alloc, &mut list, rows, links)?;
    marked_among(alloc, needs, list.as_slice())
}

/// Those of these classes that are marked.
fn marked_among(alloc: Global, marks: &[bool], classes: &[ClassId]) -> Result<Vec<u32>, AllocError>
    ensures { IfOk result
        (λ list. list.items ≡ filter (λ k. slice_index_or marks.now k false) classes.now) }
{
    let mut list = Vec::new(alloc);
    for class in classes {
        if is_marked(marks, class.number()) {
            list.push(class.number())?;
        }
    }
    Ok(list)
}

/// The superclasses of a class, nearest first.
fn supers_of(rows: &[Row], class: u32) -> &[ClassId]
    requires { class < length rows.now }
    ensures { result.now ≡ (ancestry_at rows.now class).supers }
{
    rows[class as usize].supers()
}

/// How many of these superclasses, the nearest ones, have no list yet.
fn count_missing(orders: &[ClassList], supers: &[ClassId]) -> usize
    requires { All (λ s. s < length orders.now) supers.now }
    ensures few { result ≤ length supers.now }
    ensures found { result < length supers.now →
        0 < length (slice_index_or orders.now (slice_index_or supers.now result 0) []) }
{
    for (i, class) in supers.iter().enumerate() {
        if !orders[class.number() as usize].is_empty() {
            return i;
        }
    }
    supers.len()
}

/// Begins an order of initialization with that of the superclass behind so many that have no list yet.
fn begin_order(
    list: &mut DistinctClasses,
    orders: &[ClassList],
    supers: &[ClassId],
    missing: usize,
) -> Result<(), AllocError>
    requires { All (λ s. s < length orders.now) supers.now }
    ensures over { OnOk result (missing < length supers.now →
        list.new ≡ once (slice_index_or orders.now (slice_index_or supers.now missing 0) [])) }
    ensures none { OnOk result (length supers.now ≤ missing → list.new ≡ []) }
{
    list.clear();
    match supers.get(missing) {
        Some(class) => add_each(list, orders[class.number() as usize].as_slice()),
        None => Ok(()),
    }
}

/// A superclass, and where its order of initialization ends in that of a class below it.
#[derive(Drop)]
struct Stop {
    class: ClassId,
    end: usize,
}

/// Lists for the work alone.
#[derive(Drop)]
struct Work {
    interfaces: DistinctClasses,
    order: DistinctClasses,
}

/// Puts the interfaces that are initialized with a class, and the class, behind an order of initialization.
fn add_class(
    alloc: Global,
    work: &mut Work,
    needs: &[bool],
    table: &[Links],
    rows: &[Row],
    class: u32,
) -> Result<(), AllocError>
    requires class { class < length table.now }
    requires same { length rows.now ≡ length table.now }
    requires within { HasLinksWithin (length table.now) table.now }
    ensures { OnOk result (work.new.order ≡ added_all work.old.order
        (with_interfaces (λ k. slice_index_or needs.now k false) table.now rows.now class)) }
{
    let links = &table[class as usize];
    list_interfaces(alloc, &mut work.interfaces, rows, links)?;
    let found = marked_among(alloc, needs, work.interfaces.as_slice())?;
    add_all(&mut work.order, found.as_slice())?;
    work.order.add(class)?;
    Ok(())
}

/// Goes down so many superclasses to a class, and adds each. Answers where their orders end.
fn add_supers(
    alloc: Global,
    work: &mut Work,
    needs: &[bool],
    table: &[Links],
    rows: &[Row],
    class: u32,
    missing: usize,
) -> Result<Vec<Stop>, AllocError>
    requires class { class < length table.now }
    requires within { HasLinksWithin (length table.now) table.now }
    requires rows { IsAncestry table.now rows.now }
    requires missing { missing ≤ length (ancestry_at rows.now class).supers }
    requires begun { work.old.order ≡ order_down (λ k. slice_index_or needs.now k false)
        table.now rows.now (drop missing (ancestry_at rows.now class).supers) }
    ensures order { IfOk result
        (λ stops. work.new.order ≡ order_down (λ k. slice_index_or needs.now k false)
        table.now rows.now (ancestry_at rows.now class).supers) }
    ensures stops { IfOk result (λ stops. All (IsStop (λ k. slice_index_or needs.now k false)
        table.now rows.now work.new.order) stops.items) }
{
    let supers = supers_of(rows, class);
    let mut stops = Vec::with_capacity(alloc, missing)?;
    for i in (0..missing).rev() {
        let class = supers[i];
        add_class(alloc, work, needs, table, rows, class.number())?;
        let end = work.order.as_slice().len();
        stops.push(Stop { class, end })?;
    }
    Ok(stops)
}

/// Gives each superclass its part of the list of a class.
fn give(orders: &mut Vec<ClassList>, list: &ClassList, stops: &[Stop]) -> Result<(), AllocError>
    requires { All (λ (s : Stop).
        (s.class < length orders.old.items) × (s.end ≤ length list.now)) stops.now }
    ensures length { length orders.new.items ≡ length orders.old.items }
    ensures grow { OnOk result
        ((needs : ℕ → Bool) (table : List LinkEntry) (rows : List Ancestry) →
        AreOrders needs table rows orders.old.items →
        All (IsStop needs table rows list.now) stops.now →
        OrdersGrow needs table rows orders.old.items orders.new.items) }
{
    for stop in stops {
        orders[stop.class.number() as usize] = list.first(stop.end)?;
    }
    Ok(())
}

/// The list of a class, and where in it the orders of its superclasses that have none end.
fn whole_list(
    alloc: Global,
    work: &mut Work,
    needs: &[bool],
    table: &[Links],
    rows: &[Row],
    orders: &[ClassList],
    class: u32,
) -> Result<(ClassList, Vec<Stop>), AllocError>
    requires class { class < length table.now }
    requires within { HasLinksWithin (length table.now) table.now }
    requires rows { IsAncestry table.now rows.now }
    requires orders { AreOrders (λ k. slice_index_or needs.now k false)
        table.now rows.now orders.now }
    ensures list { IfOk result (λ x. x.0
        ≡ class_order (λ k. slice_index_or needs.now k false) table.now rows.now class) }
    ensures stops { IfOk result (λ x. All (IsStop (λ k. slice_index_or needs.now k false)
        table.now rows.now x.0) x.1.items) }
{
    let supers = supers_of(rows, class);
    let missing = count_missing(orders, supers);
    begin_order(&mut work.order, orders, supers, missing)?;
    let stops = add_supers(alloc, work, needs, table, rows, class, missing)?;
    add_class(alloc, work, needs, table, rows, class)?;
    let classes = Vec::from_slice(alloc, work.order.as_slice())?;
    let list = ClassList::of(classes)?;
    Ok((list, stops))
}

/// Makes the list of a class, and gives its superclasses that have none their parts of it.
fn make_order(
    alloc: Global,
    work: &mut Work,
    needs: &[bool],
    table: &[Links],
    rows: &[Row],
    orders: &mut Vec<ClassList>,
    class: u32,
) -> Result<(), AllocError>
    requires class { class < length table.now }
    requires within { HasLinksWithin (length table.now) table.now }
    requires rows { IsAncestry table.now rows.now }
    requires orders { AreOrders (λ k. slice_index_or needs.now k false)
        table.now rows.now orders.old.items }
    ensures grow { OnOk result (OrdersGrow (λ k. slice_index_or needs.now k false)
        table.now rows.now orders.old.items orders.new.items) }
    ensures class { OnOk result (HasOrder (λ k. slice_index_or needs.now k false)
        table.now rows.now orders.new.items class) }
{
    let (list, stops) = whole_list(alloc, work, needs, table, rows, orders.as_slice(), class)?;
    give(orders, &list, stops.as_slice())?;
    orders[class as usize] = list;
    Ok(())
}

/// Of each class the classes that are initialized with it, in order, and the class itself as the last, as of a class that is
/// no interface (JVMS 5.5). The classes are taken in an order in which each stands before its superclass, which has a part of
/// the list of the first class below it. The only error is want of memory.
pub fn class_orders(
    alloc: Global,
    needs: &[bool],
    table: &[Links],
    rows: &[Row],
) -> Result<Vec<ClassList>, AllocError>
    requires few { length table.now < 2 ^ 32 }
    requires within { HasLinksWithin (length table.now) table.now }
    requires acyclic { IsAcyclic table.now }
    requires rows { IsAncestry table.now rows.now }
    ensures each { IfOk result (λ orders. length orders.items ≡ length table.now) }
    ensures order { IfOk result (λ orders. (k : ℕ) → k < length table.now →
        slice_index_or orders.items k []
        ≡ class_order (λ k. slice_index_or needs.now k false) table.now rows.now k) }
{
    let sorting = sort(alloc, table)?;
    let order = sorting.order();
    let mut orders = empty_lists(alloc, table.len())?;
    let mut work = Work {
        interfaces: DistinctClasses::begin(alloc),
        order: DistinctClasses::begin(alloc),
    };
    for i in (0..order.len()).rev() {
        let class = order[i];
        if !orders[class as usize].is_empty() {
            continue;
        }
        make_order(alloc, &mut work, needs, table, rows, &mut orders, class)?;
    }
    Ok(orders)
}
