//! An order of the classes in which each stands behind those right above it.

ghost use Rattle.std.specs.Prelude.{◌≡◌, ℕ, ◌+◌, ◌<◌, ◌^◌, List, [], ◌∷◌, ◌++◌, length, replicate, false, All, Contains, OnOk, IfOk};
ghost use Rattle.std.specs.List.{slice_index_or};
ghost use Rattle.et_hierarchy.specs.Links.{HasLinksWithin, parents_of};
ghost use Rattle.et_hierarchy.specs.Sorting.{is_done, AreSortedBefore, GrowsSorted, IsSorted, placed_count};

use crate::links::Links;
use std::alloc::{AllocError, Global};
use std::marker::Model;
use std::mem;

/// The classes that wait for a class.
#[derive(Drop)]
struct Waiting {
    classes: Vec<u32>,
}

impl Model for Waiting {
    ghost use Rattle.std.specs.Prelude.{ℕ, List};

    ghost Value = { List ℕ };

    ghost view = { λ w. w.classes.items };
}

impl Waiting {
    fn none(alloc: Global) -> Self
        ensures { result ≡ [] }
    {
        Waiting {
            classes: Vec::new(alloc),
        }
    }

    fn push(&mut self, class: u32) -> Result<(), AllocError>
        ensures { OnOk result (self.new ≡ self.old ++ class ∷ []) }
    {
        self.classes.push(class)?;
        Ok(())
    }

    /// Takes the classes away.
    fn take(&mut self, alloc: Global) -> Vec<u32>
        ensures taken { result.items ≡ self.old }
        ensures left { self.new ≡ [] }
    {
        mem::replace(&mut self.classes, Vec::new(alloc))
    }
}

/// Classes that are put in order, each behind those right above it, by Kahn's method: a class that can't be put into the
/// order yet waits for the first of those right above it that isn't there, and is looked at again when that one is.
#[derive(Drop)]
pub(crate) struct Sorting {
    /// The classes in their order.
    order: Vec<u32>,
    /// Which classes are in the order.
    done: Vec<bool>,
    /// Of each class, how many of those right above it, the first ones, are known to be in the order: each is looked at
    /// once and not again.
    passed: Vec<usize>,
    /// Of each class, those that wait for it.
    waiting: Vec<Waiting>,
    /// How many classes of the order had their turn, so that nothing waits for them.
    next: usize,
}

/// How many of the classes right above, the first ones, are done. The first `from` of them are known to be.
fn count_passed(done: &[bool], links: &Links, from: usize) -> usize
    requires { All (λ p. p < length done.now) (parents_of links.now) }
    ensures passed { AreSortedBefore done.now (parents_of links.now) from →
        AreSortedBefore done.now (parents_of links.now) result }
    ensures open { result < length (parents_of links.now) →
        is_done done.now (slice_index_or (parents_of links.now) result 0) ≡ false }
{
    let count = links.parent_count();
    for i in from..count {
        let parent = links.parent(i);
        if !done[parent as usize] {
            return i;
        }
    }
    count
}

/// For each class, that none wait for it.
fn none_waiting(alloc: Global, count: usize) -> Result<Vec<Waiting>, AllocError>
    ensures length { IfOk result (λ lists. length lists.items ≡ count) }
    ensures none { IfOk result (λ lists. (k : ℕ) → slice_index_or lists.items k [] ≡ []) }
{
    let mut lists = Vec::new(alloc);
    for _ in 0..count {
        lists.push(Waiting::none(alloc))?;
    }
    Ok(lists)
}

/// All classes by number.
fn all_classes(alloc: Global, count: usize) -> Result<Vec<u32>, AllocError>
    requires { count < 2 ^ 32 }
    ensures within { IfOk result (λ all. All (λ c. c < count) all.items) }
    ensures all { IfOk result (λ all. (c : ℕ) → c < count → Contains all.items c) }
{
    let mut all = Vec::new(alloc);
    for class in 0..count {
        all.push(class as u32)?;
    }
    Ok(all)
}

impl Sorting {
    /// An order of no class.
    fn begin(alloc: Global, count: usize) -> Result<Self, AllocError>
        ensures order { IfOk result (λ s. s.order.items ≡ []) }
        ensures done { IfOk result (λ s. s.done.items ≡ replicate count false) }
        ensures passed { IfOk result (λ s. s.passed.items ≡ replicate count 0) }
        ensures waiting_length { IfOk result (λ s. length s.waiting.items ≡ count) }
        ensures waiting { IfOk result (λ s. (k : ℕ) → slice_index_or s.waiting.items k [] ≡ []) }
        ensures next { IfOk result (λ s. s.next ≡ 0) }
    {
        let done = vec![in alloc; false; count]?;
        let passed = vec![in alloc; 0; count]?;
        let waiting = none_waiting(alloc, count)?;
        Ok(Sorting {
            order: Vec::new(alloc),
            done,
            passed,
            waiting,
            next: 0,
        })
    }

    /// Puts a class behind the order, if those right above it are in it; otherwise it waits for the first that isn't.
    fn place(&mut self, table: &[Links], class: u32) -> Result<(), AllocError>
        requires within { HasLinksWithin (length table.now) table.now }
        requires class { class < length table.now }
        requires done { length self.old.done.items ≡ length table.now }
        requires passed { length self.old.passed.items ≡ length table.now }
        requires waiting { length self.old.waiting.items ≡ length table.now }
        ensures grows { (rest : List ℕ) →
            GrowsSorted table.now (class ∷ rest) self.old → OnOk result
            (GrowsSorted table.now rest self.new) }
        ensures count { OnOk result (placed_count self.new ≡ placed_count self.old + 1) }
        ensures next { OnOk result (self.new.next ≡ self.old.next) }
    {
        let links = &table[class as usize];
        let from = self.passed[class as usize];
        let passed = count_passed(self.done.as_slice(), links, from);
        self.passed[class as usize] = passed;
        let count = links.parent_count();
        if passed < count {
            let parent = links.parent(passed);
            let list = &mut self.waiting[parent as usize];
            list.push(class)?;
            return Ok(());
        }
        self.order.push(class)?;
        self.done[class as usize] = true;
        Ok(())
    }

    /// Places each of these classes.
    fn place_all(&mut self, table: &[Links], classes: &[u32]) -> Result<(), AllocError>
        requires within { HasLinksWithin (length table.now) table.now }
        requires grows { GrowsSorted table.now classes.now self.old }
        ensures grows { OnOk result (GrowsSorted table.now [] self.new) }
        ensures count { OnOk result
            (placed_count self.new ≡ placed_count self.old + length classes.now) }
        ensures next { OnOk result (self.new.next ≡ self.old.next) }
    {
        for class in classes {
            self.place(table, *class)?;
        }
        Ok(())
    }

    /// The next class of the order has its turn: those that wait for it are placed.
    fn turn(&mut self, alloc: Global, table: &[Links]) -> Result<(), AllocError>
        requires within { HasLinksWithin (length table.now) table.now }
        requires grows { GrowsSorted table.now [] self.old }
        requires more { self.old.next < length self.old.order.items }
        ensures grows { OnOk result (GrowsSorted table.now [] self.new) }
        ensures count { OnOk result (placed_count self.new ≡ placed_count self.old) }
        ensures next { OnOk result (self.new.next ≡ self.old.next + 1) }
    {
        let class = self.order[self.next];
        let list = &mut self.waiting[class as usize];
        let freed = list.take(alloc);
        self.next += 1;
        self.place_all(table, freed.as_slice())?;
        Ok(())
    }

    /// The classes in their order.
    pub(crate) fn order(&self) -> &[u32]
        ensures { result.now ≡ self.now.order.items }
    {
        self.order.as_slice()
    }

    /// Whether a class is in the order.
    pub(crate) fn is_done(&self, class: usize) -> bool
        requires { class < length self.now.done.items }
        ensures { result ≡ is_done self.now.done.items class }
    {
        self.done[class]
    }
}

/// Puts the classes in an order in which each stands behind those right above it. A class that is its own ancestor, or
/// has one above it that is, has no place in it. The time is linear in the number of classes and links.
pub(crate) fn sort(alloc: Global, table: &[Links]) -> Result<Sorting, AllocError>
    requires few { length table.now < 2 ^ 32 }
    requires within { HasLinksWithin (length table.now) table.now }
    ensures { IfOk result (λ s. IsSorted table.now s.order.items s.done.items) }
{
    let mut sorting = Sorting::begin(alloc, table.len())?;
    let all = all_classes(alloc, table.len())?;
    sorting.place_all(table, all.as_slice())?;
    'turns: while sorting.next < sorting.order.len() {
        sorting.turn(alloc, table)?;
    }
    Ok(sorting)
}
