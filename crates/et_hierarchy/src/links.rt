//! The superclasses and interfaces of the classes, by place.

ghost use Rattle.std.specs.Prelude.{◌≡◌, ℕ, ◌<◌, ◌^◌, List, [], ◌∷◌, ◌++◌, length, OnOk, IfOk, IfSome, MatchOption, Option, All};
ghost use Rattle.std.specs.List.{slice_index_or};
ghost use Rattle.et_hierarchy.specs.Outline.{class_place, outline_at};
ghost use Rattle.et_hierarchy.specs.Faults.{IsFree, IsFirstToShow, names_class, is_interface_named, has_supers, has_final_super};
ghost use Rattle.et_hierarchy.specs.declared.fault.FaultKind.TheVariants.{NoSuper, FinalSuper};
ghost use Rattle.et_hierarchy.specs.Index.{IsIndexOf};

use crate::index::Places;
use crate::outlines::ClassOutline;
use et_base::Name;
use std::alloc::{AllocError, Global};
use std::marker::Model;

/// The direct superclass and the direct superinterfaces of a class, by place.
#[derive(Drop)]
pub struct Links {
    above: Option<u32>,
    interfaces: Vec<u32>,
}

impl Model for Links {
    ghost use Rattle.et_hierarchy.specs.Links.{LinkEntry};

    ghost Value = { LinkEntry };

    ghost view = { λ l. record { above = l.above; interfaces = l.interfaces.items } };
}

impl Links {
    ghost use Rattle.et_hierarchy.specs.Links.{parents_of, no_links};

    /// The direct superclass.
    pub fn above(&self) -> Option<u32>
        ensures { result ≡ self.now.above }
    {
        self.above
    }

    /// The direct superinterfaces, in order.
    pub fn interfaces(&self) -> &[u32]
        ensures { result.now ≡ self.now.interfaces }
    {
        self.interfaces.as_slice()
    }

    /// Nothing right above.
    pub(crate) fn none(alloc: Global) -> Links
        ensures { result ≡ no_links }
    {
        Links {
            above: None,
            interfaces: Vec::new(alloc),
        }
    }

    /// One interface more, at the end.
    pub(crate) fn push(&mut self, interface: u32) -> Result<(), AllocError>
        ensures { OnOk result (self.new
            ≡ record self.old { interfaces = self.old.interfaces ++ interface ∷ [] }) }
    {
        self.interfaces.push(interface)?;
        Ok(())
    }

    /// How many classes are right above.
    pub(crate) fn parent_count(&self) -> usize
        ensures { result ≡ length (parents_of self.now) }
    {
        let interfaces = self.interfaces();
        match self.above() {
            Some(_) => interfaces.len() + 1,
            None => interfaces.len(),
        }
    }

    /// A class right above: the superclass is the first, and then the interfaces stand in order.
    pub(crate) fn parent(&self, i: usize) -> u32
        requires { i < length (parents_of self.now) }
        ensures { result ≡ slice_index_or (parents_of self.now) i 0 }
    {
        let interfaces = self.interfaces();
        match self.above() {
            Some(class) => {
                if i == 0 {
                    return class;
                }
                interfaces[i - 1]
            }
            None => interfaces[i],
        }
    }
}

/// The place of the class of a name.
pub(crate) fn find(set: &[ClassOutline], places: &Places, name: &[u8]) -> Option<u32>
    requires { IsIndexOf set.now places.now }
    ensures value { result ≡ class_place set.now name.now }
    ensures within { IfSome result (λ k. k < length set.now) }
{
    places.get(name).copied()
}

/// Whether a name is that of a class that is no interface.
fn names_class(set: &[ClassOutline], places: &Places, name: &[u8]) -> bool
    requires { IsIndexOf set.now places.now }
    ensures { result ≡ names_class set.now name.now }
{
    match find(set, places, name) {
        Some(k) => !set[k as usize].is_interface(),
        None => false,
    }
}

/// Whether a name is that of an interface.
fn names_interface(set: &[ClassOutline], places: &Places, name: &[u8]) -> bool
    requires { IsIndexOf set.now places.now }
    ensures { result ≡ is_interface_named set.now name.now }
{
    match find(set, places, name) {
        Some(k) => set[k as usize].is_interface(),
        None => false,
    }
}

/// Whether the superclass and the interfaces of a class are there and are of their kinds.
fn has_supers(set: &[ClassOutline], places: &Places, class: &ClassOutline) -> bool
    requires { IsIndexOf set.now places.now }
    ensures { result ≡ has_supers set.now class.now }
{
    if let Some(name) = class.super_name() {
        if !names_class(set, places, name.as_slice()) {
            return false;
        }
    }
    for name in class.interfaces() {
        if !names_interface(set, places, name.as_slice()) {
            return false;
        }
    }
    true
}

/// Whether the superclass of a class is final.
fn has_final_super(set: &[ClassOutline], places: &Places, class: &ClassOutline) -> bool
    requires { IsIndexOf set.now places.now }
    ensures { result ≡ has_final_super set.now class.now }
{
    match class.super_name() {
        Some(name) => match find(set, places, name.as_slice()) {
            Some(k) => set[k as usize].is_final(),
            None => false,
        },
        None => false,
    }
}

/// The first class whose superclass or interfaces aren't as they must be.
pub(crate) fn first_without(set: &[ClassOutline], places: &Places) -> Option<u32>
    requires index { IsIndexOf set.now places.now }
    requires few { length set.now < 2 ^ 32 }
    ensures { MatchOption result (IsFree set.now NoSuper) (IsFirstToShow set.now NoSuper) }
{
    for (i, class) in set.iter().enumerate() {
        if !has_supers(set, places, class) {
            return Some(i as u32);
        }
    }
    None
}

/// The first class whose superclass is final.
pub(crate) fn first_final(set: &[ClassOutline], places: &Places) -> Option<u32>
    requires index { IsIndexOf set.now places.now }
    requires few { length set.now < 2 ^ 32 }
    ensures { MatchOption result (IsFree set.now FinalSuper) (IsFirstToShow set.now FinalSuper) }
{
    for (i, class) in set.iter().enumerate() {
        if has_final_super(set, places, class) {
            return Some(i as u32);
        }
    }
    None
}

ghost use Rattle.std.specs.Prelude.{map};
ghost use Rattle.std.specs.List.{filter_map};
ghost use Rattle.et_hierarchy.specs.Links.{links_of, links, HasLinksWithin};

/// The places of the interfaces of these names.
fn find_all(
    alloc: Global,
    set: &[ClassOutline],
    places: &Places,
    names: &[Name],
) -> Result<Vec<u32>, AllocError>
    requires { IsIndexOf set.now places.now }
    ensures { IfOk result (λ found. found.items ≡ filter_map (class_place set.now) names.now) }
{
    let mut found = Vec::new(alloc);
    for name in names {
        if let Some(k) = find(set, places, name.as_slice()) {
            found.push(k)?;
        }
    }
    Ok(found)
}

/// The links of a class.
fn links_of(
    alloc: Global,
    set: &[ClassOutline],
    places: &Places,
    class: &ClassOutline,
) -> Result<Links, AllocError>
    requires { IsIndexOf set.now places.now }
    ensures { IfOk result (λ l. l ≡ links_of set.now class.now) }
{
    let above = match class.super_name() {
        Some(name) => find(set, places, name.as_slice()),
        None => None,
    };
    let interfaces = find_all(alloc, set, places, class.interfaces())?;
    Ok(Links { above, interfaces })
}

/// The links of each class.
#[tactic(auto, using(crate::proofs::LinkLemmas::table_within))]
pub(crate) fn link_all(
    alloc: Global,
    set: &[ClassOutline],
    places: &Places,
) -> Result<Vec<Links>, AllocError>
    requires { IsIndexOf set.now places.now }
    ensures table { IfOk result (λ table. table.items ≡ links set.now) }
    ensures length { IfOk result (λ table. length table.items ≡ length set.now) }
    ensures within { IfOk result (λ table. HasLinksWithin (length table.items) table.items) }
{
    let mut table = Vec::new(alloc);
    for class in set {
        let one = links_of(alloc, set, places, class)?;
        table.push(one)?;
    }
    Ok(table)
}
