//! The superclasses of each class, in lists that are parts of one another.

ghost use Rattle.std.specs.Prelude.{◌≡◌, ℕ, ◌<◌, List, length, Some, All, OnOk, IfOk};
ghost use Rattle.et_hierarchy.specs.Links.{LinkEntry, IsAcyclic, HasLinksWithin};
ghost use Rattle.et_hierarchy.specs.Upward.{LeadsUp, HasListUp, AreListsUp, ListsGrow};

use crate::links::Links;
use crate::lists::{ClassList, empty_lists};
use et_base::ClassId;
use std::alloc::{AllocError, Global};

/// A class, and its superclasses upward.
fn climb(alloc: Global, table: &[Links], class: u32) -> Result<Vec<ClassId>, AllocError>
    requires class { class < length table.now }
    requires within { HasLinksWithin (length table.now) table.now }
    requires acyclic { IsAcyclic table.now }
    ensures { IfOk result (λ list. LeadsUp table.now (Some class) list.items) }
{
    let mut list = Vec::new(alloc);
    let mut next = Some(class);
    while let Some(k) = next {
        list.push(ClassId::new(k))?;
        next = table[k as usize].above();
    }
    Ok(list)
}

/// Gives each class of a list that has none its part of the list, up to the first that has one.
fn give(lists: &mut Vec<ClassList>, list: &ClassList) -> Result<(), AllocError>
    requires { All (λ s. s < length lists.old.items) list.now }
    ensures grow { OnOk result ((table : List LinkEntry) (class : ℕ) →
        AreListsUp table lists.old.items → LeadsUp table (Some class) list.now →
        ListsGrow table lists.old.items lists.new.items) }
    ensures first { OnOk result ((table : List LinkEntry) (class : ℕ) →
        AreListsUp table lists.old.items → LeadsUp table (Some class) list.now →
        HasListUp table lists.new.items class) }
{
    for (i, class) in list.as_slice().iter().enumerate() {
        if !lists[class.number() as usize].is_empty() {
            return Ok(());
        }
        lists[class.number() as usize] = list.behind(i)?;
    }
    Ok(())
}

/// Of each class the class itself and its superclasses upward. The classes are taken from the last of the order to the
/// first, so that a superclass has a part of the list of the first class below it.
pub(crate) fn lists_upward(
    alloc: Global,
    table: &[Links],
    order: &[u32],
) -> Result<Vec<ClassList>, AllocError>
    requires within { HasLinksWithin (length table.now) table.now }
    requires acyclic { IsAcyclic table.now }
    requires order { All (λ c. c < length table.now) order.now }
    ensures length { IfOk result (λ lists. length lists.items ≡ length table.now) }
    ensures upward { IfOk result (λ lists. All (HasListUp table.now lists.items) order.now) }
{
    let mut lists = empty_lists(alloc, table.len())?;
    for i in (0..order.len()).rev() {
        let class = order[i];
        if !lists[class as usize].is_empty() {
            continue;
        }
        let list = ClassList::of(climb(alloc, table, class)?)?;
        give(&mut lists, &list)?;
    }
    Ok(lists)
}
