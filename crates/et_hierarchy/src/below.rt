//! The classes right below each class.

ghost use Rattle.std.specs.Prelude.{◌≡◌, ℕ, ◌<◌, ◌^◌, length, All, Contains, OnOk, IfOk};
ghost use Rattle.std.specs.List.{slice_index_or};
ghost use Rattle.et_hierarchy.specs.Links.{no_links, parents_of, parents, HasLinksWithin};

use crate::links::Links;
use std::alloc::{AllocError, Global};

/// As many links that lead nowhere.
fn empty_links(alloc: Global, count: usize) -> Result<Vec<Links>, AllocError>
    ensures length { IfOk result (λ table. length table.items ≡ count) }
    ensures none { IfOk result (λ table.
        (k : ℕ) → slice_index_or table.items k no_links ≡ no_links) }
{
    let mut table = Vec::with_capacity(alloc, count)?;
    for _ in 0..count {
        table.push(Links::none(alloc))?;
    }
    Ok(table)
}

/// Links each of the classes right above a class to that class.
fn link_down(below: &mut Vec<Links>, links: &Links, class: u32) -> Result<(), AllocError>
    requires { All (λ p. p < length below.old.items) (parents_of links.now) }
    ensures length { length below.new.items ≡ length below.old.items }
    ensures within { OnOk result ((n : ℕ) →
        class < n → HasLinksWithin n below.old.items → HasLinksWithin n below.new.items) }
    ensures kept { OnOk result ((p c : ℕ) →
        Contains (parents below.old.items p) c → Contains (parents below.new.items p) c) }
    ensures linked { OnOk result ((p : ℕ) →
        Contains (parents_of links.now) p → Contains (parents below.new.items p) class) }
{
    for i in 0..links.parent_count() {
        let list = &mut below[links.parent(i) as usize];
        list.push(class)?;
    }
    Ok(())
}

/// The links that lead from each class to those right below it. The only error is want of memory.
pub(crate) fn turned(alloc: Global, table: &[Links]) -> Result<Vec<Links>, AllocError>
    requires few { length table.now < 2 ^ 32 }
    requires within { HasLinksWithin (length table.now) table.now }
    ensures length { IfOk result (λ below. length below.items ≡ length table.now) }
    ensures within { IfOk result (λ below. HasLinksWithin (length table.now) below.items) }
    ensures turned { IfOk result (λ below. (c p : ℕ) →
        Contains (parents table.now c) p → Contains (parents below.items p) c) }
{
    let mut below = empty_links(alloc, table.len())?;
    for (k, links) in table.iter().enumerate() {
        link_down(&mut below, links, k as u32)?;
    }
    Ok(below)
}
