//! The names of the array classes, each once; below, the built-in classes, and what is kept of each class beside its members.

pub(crate) mod boots;
pub(crate) mod heads;

ghost use Rattle.std.specs.Prelude.{◌≡◌, ℕ, ◌<◌, List, length, filter, IfOk, None};
ghost use Rattle.std.specs.List.{flat_map, position_from};
ghost use Rattle.std.specs.Str.{bytes_eq};
ghost use Rattle.et_program.specs.Indices.{number_of_name};
ghost use Rattle.et_hierarchy.specs.Outline.{class_place};
ghost use Rattle.et_program.specs.ArrayTypes.{array_names, element_of, kind_of};
ghost use Rattle.et_link.specs.Naming.{IsIndexFrom};

use crate::linking::arrays::leaf_of;
use crate::members::class_at_place;
use et_base::{ClassId, Name, NoMemory};
use et_hierarchy::ClassOutline;
use et_pool::descriptor::{dimensions, is_array_name};
use et_program::{Element, Kind, Leaf, NameIndex};
use std::alloc::Global;

/// The classes of the set by name.
pub(crate) fn index_set(alloc: Global, set: &[ClassOutline]) -> Result<NameIndex, NoMemory>
    ensures { IfOk result
        (λ x. (name : List ℕ) → number_of_name x name ≡ class_place set.now name) }
{
    let mut places = NameIndex::begin(alloc);
    for (i, class) in set.iter().enumerate() {
        let number = class_at_place(i)?;
        places.put(alloc, class.name(), number.number())?;
    }
    Ok(places)
}

/// Names of array classes, each once, numbered from a number on.
#[derive(Drop)]
pub(crate) struct ArrayNames {
    pub first: usize,
    pub names: Vec<Name>,
    pub index: NameIndex,
}

impl ArrayNames {
    ghost use Rattle.std.specs.Prelude.{◌≡◌, [], OnOk, if◌then◌else◌};
    ghost use Rattle.et_program.specs.Indices.{number_of_name};
    ghost use Rattle.et_program.specs.ArrayTypes.{is_type_known, with_element_types, name_added, names_added};
    ghost use Rattle.et_link.specs.Naming.{AreIndexed};

    /// Puts a name behind the names, unless it is among them.
    fn add(&mut self, alloc: Global, name: &[u8]) -> Result<(), NoMemory>
        requires { AreIndexed self.old }
        ensures first { self.new.first ≡ self.old.first }
        ensures names { OnOk result
            (self.new.names.items ≡ name_added self.old.names.items name.now) }
        ensures index { OnOk result (AreIndexed self.new) }
    {
        if self.index.find(name).is_some() {
            return Ok(());
        }
        let Some(place) = self.first.checked_add(self.names.len()) else {
            return Err(NoMemory);
        };
        let number = class_at_place(place)?;
        let copy = Name::of(alloc, name)?;
        self.index.put(alloc, name, number.number())?;
        self.names.push(copy)?;
        Ok(())
    }

    /// Puts an array type and the array types of its elements behind the names.
    fn add_with_elements(&mut self, alloc: Global, name: &[u8]) -> Result<(), NoMemory>
        requires { AreIndexed self.old }
        ensures first { self.new.first ≡ self.old.first }
        ensures names { OnOk result (self.new.names.items
            ≡ names_added self.old.names.items (with_element_types name.now)) }
        ensures index { OnOk result (AreIndexed self.new) }
    {
        let mut at = 0;
        while at < name.len() && name[at] == b'[' {
            self.add(alloc, &name[at..])?;
            at += 1;
        }
        Ok(())
    }

    /// The same, if what is under the dimensions of the array type is known.
    fn add_if_known(
        &mut self,
        alloc: Global,
        places: &NameIndex,
        name: &[u8],
    ) -> Result<(), NoMemory>
        requires { AreIndexed self.old }
        ensures first { self.new.first ≡ self.old.first }
        ensures names { OnOk result (self.new.names.items ≡ names_added self.old.names.items
            (if is_type_known (number_of_name places.now) name.now
            then with_element_types name.now else [])) }
        ensures index { OnOk result (AreIndexed self.new) }
    {
        if leaf_of(places, name).is_some() {
            self.add_with_elements(alloc, name)?;
        }
        Ok(())
    }
}

/// The names of the array classes that a program has, of those that its files name or make.
pub(crate) fn array_names(
    alloc: Global,
    places: &NameIndex,
    first: usize,
    met: &[Name],
) -> Result<ArrayNames, NoMemory>
    ensures first { IfOk result (λ a. a.first ≡ first) }
    ensures names { IfOk result (λ a. a.names.items ≡ array_names (number_of_name places.now)
        met.now) }
    ensures index { IfOk result (λ a. IsIndexFrom first a.names.items a.index) }
{
    let mut arrays = ArrayNames {
        first,
        names: Vec::new(alloc),
        index: NameIndex::begin(alloc),
    };
    for name in met {
        arrays.add_if_known(alloc, places, name.as_slice())?;
    }
    Ok(arrays)
}

/// The class of this number as what an array has as its elements.
fn class_element(class: Option<u32>) -> Element
    ensures { result ≡ class_element class }
{
    match class {
        Some(class) => Element::Class(ClassId::new(class)),
        None => Element::NoArray,
    }
}

/// A type without dimensions as what an array has as its elements.
fn plain_element(leaf: Leaf) -> Element
    ensures { result ≡ leaf_element (Some leaf) }
{
    match leaf {
        Leaf::Base(kind) => Element::Base(kind),
        Leaf::Class(class) => Element::Class(class),
    }
}

/// The same where there is such a type.
fn leaf_element(leaf: Option<Leaf>) -> Element
    ensures { result ≡ leaf_element leaf }
{
    match leaf {
        Some(leaf) => plain_element(leaf),
        None => Element::NoArray,
    }
}

ghost use Rattle.std.specs.Prelude.{Some};
ghost use Rattle.et_program.specs.ArrayTypes.{class_element, leaf_element};

/// What stands behind the first byte.
fn behind_first(name: &[u8]) -> &[u8]
    ensures { result.now ≡ drop 1 name.now }
{
    match name {
        [_, rest @ ..] => rest,
        [] => name,
    }
}

ghost use Rattle.std.specs.Prelude.{drop};

/// What an array class has as its elements.
pub(crate) fn element_of(places: &NameIndex, arrays: &NameIndex, name: &[u8]) -> Element
    ensures { result ≡ element_of (number_of_name places.now) (number_of_name arrays.now) name.now }
{
    let element = behind_first(name);
    if is_array_name(element) {
        class_element(arrays.find(element))
    } else {
        leaf_element(leaf_of(places, name))
    }
}

/// The dimensions of an array class, and what is under them.
pub(crate) fn kind_of(places: &NameIndex, name: &[u8]) -> Result<Kind, NoMemory>
    ensures { IfOk result (λ k. k ≡ kind_of (number_of_name places.now) name.now) }
{
    let Ok(dimensions) = u8::try_from(dimensions(name)) else {
        return Err(NoMemory);
    };
    let leaf = match leaf_of(places, name) {
        Some(leaf) => leaf,
        None => Leaf::Base(0),
    };
    Ok(Kind { dimensions, leaf })
}
