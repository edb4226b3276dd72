//! The search for the ancestors of a class.

ghost use Rattle.std.specs.Prelude.{◌≡◌, ℕ, ◌<◌, ◌^◌, ◌↔◌, [], ◌∷◌, length, All, OnOk, IfOk, IsTrue, Option, MatchOption};
ghost use Rattle.std.specs.Option.{option_to_list};
ghost use Rattle.et_hierarchy.specs.Search.{VisitsLinks, IsMarkedIn};
ghost use Rattle.et_hierarchy.specs.Sorting.{IsSorted};
ghost use Rattle.et_hierarchy.specs.Links.{parents_of, IsAncestor, HasLinksWithin, AnswersCycle};

use crate::below::turned;
use crate::links::Links;
use crate::sorting::{Sorting, sort};
use std::alloc::{AllocError, Global};

/// Marks a class and puts it on the list of work, unless it is marked.
fn visit(marks: &mut Vec<bool>, work: &mut Vec<u32>, o: u32) -> Result<(), AllocError>
    requires { o < length marks.old.items }
    ensures { OnOk result
        (VisitsLinks (o ∷ []) marks.old.items work.old.items marks.new.items work.new.items) }
{
    if !marks[o as usize] {
        marks[o as usize] = true;
        work.push(o)?;
    }
    Ok(())
}

/// Visits each of these classes.
fn visit_all(marks: &mut Vec<bool>, work: &mut Vec<u32>, classes: &[u32]) -> Result<(), AllocError>
    requires { All (λ o. o < length marks.old.items) classes.now }
    ensures { OnOk result
        (VisitsLinks classes.now marks.old.items work.old.items marks.new.items work.new.items) }
{
    for o in classes {
        visit(marks, work, *o)?;
    }
    Ok(())
}

/// Visits a class, if there is one.
fn visit_above(
    marks: &mut Vec<bool>,
    work: &mut Vec<u32>,
    above: Option<u32>,
) -> Result<(), AllocError>
    requires { All (λ o. o < length marks.old.items) (option_to_list above) }
    ensures { OnOk result (VisitsLinks
        (option_to_list above) marks.old.items work.old.items marks.new.items work.new.items) }
{
    match above {
        Some(o) => visit(marks, work, o),
        None => Ok(()),
    }
}

/// Visits the superclass and the interfaces of a class.
fn visit_parents(
    marks: &mut Vec<bool>,
    work: &mut Vec<u32>,
    links: &Links,
) -> Result<(), AllocError>
    requires { All (λ o. o < length marks.old.items) (parents_of links.now) }
    ensures { OnOk result (VisitsLinks
        (parents_of links.now) marks.old.items work.old.items marks.new.items work.new.items) }
{
    visit_above(marks, work, links.above())?;
    visit_all(marks, work, links.interfaces())?;
    Ok(())
}

/// Marks the ancestors of a class.
pub(crate) fn ancestors(alloc: Global, table: &[Links], class: u32) -> Result<Vec<bool>, AllocError>
    requires class { class < length table.now }
    requires within { HasLinksWithin (length table.now) table.now }
    ensures length { IfOk result (λ marks. length marks.items ≡ length table.now) }
    ensures marks { IfOk result
        (λ marks. (o : ℕ) → IsMarkedIn marks.items o ↔ IsAncestor table.now class o) }
{
    let mut marks = vec![in alloc; false; table.len()]?;
    let mut work = Vec::new(alloc);
    let first = &table[class as usize];
    visit_parents(&mut marks, &mut work, first)?;
    while let Some(u) = work.pop() {
        let links = &table[u as usize];
        visit_parents(&mut marks, &mut work, links)?;
    }
    Ok(marks)
}

/// The first class that is its own ancestor, where none before `from` is. A class that has a place behind all those above
/// it, in `sorting`, is none. Nor is one that can be put in order behind all those below it. Neither is searched from.
fn first_among(
    alloc: Global,
    table: &[Links],
    sorting: &Sorting,
    from: usize,
) -> Result<Option<u32>, AllocError>
    requires few { length table.now < 2 ^ 32 }
    requires within { HasLinksWithin (length table.now) table.now }
    requires sorted { IsSorted table.now sorting.now.order.items sorting.now.done.items }
    requires before { (j : ℕ) → j < from → IsAncestor table.now j j → ⊥ }
    ensures { IfOk result (AnswersCycle table.now) }
{
    let below = turned(alloc, table)?;
    let upward = sort(alloc, below.as_slice())?;
    for k in from..table.len() {
        if sorting.is_done(k) {
            continue;
        }
        if upward.is_done(k) {
            continue;
        }
        let marks = ancestors(alloc, table, k as u32)?;
        if marks[k] {
            return Ok(Some(k as u32));
        }
    }
    Ok(None)
}

/// The first class that is its own ancestor. Classes that can be put in order, each behind those above it or each behind
/// those below it, are none. The others are on a way from such a class to such a class, and are searched from in turn.
pub(crate) fn first_on_cycle(alloc: Global, table: &[Links]) -> Result<Option<u32>, AllocError>
    requires few { length table.now < 2 ^ 32 }
    requires within { HasLinksWithin (length table.now) table.now }
    ensures { IfOk result (AnswersCycle table.now) }
{
    let sorting = sort(alloc, table)?;
    for k in 0..table.len() {
        if !sorting.is_done(k) {
            return first_among(alloc, table, &sorting, k);
        }
    }
    Ok(None)
}
