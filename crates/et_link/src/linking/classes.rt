//! The classes of a program, made of what is known of them all.

ghost use Rattle.std.specs.Prelude.{◌≡◌, ℕ, ◌+◌, ◌<◌, ◌++◌, ◌∷◌, [], List, length, All, IfOk, None, false, Option};
ghost use Rattle.std.specs.List.{slice_index_or};
ghost use Rattle.std.specs.Option.{option_to_list};
ghost use Rattle.et_hierarchy.specs.Outline.{outline_at};
ghost use Rattle.et_hierarchy.specs.Links.{LinkEntry, no_links, HasLinksWithin};
ghost use Rattle.et_hierarchy.specs.Ancestry.{Ancestry, ancestry_at, IsBelow};
ghost use Rattle.et_program.specs.Shown.{info_of};
ghost use Rattle.et_program.specs.Entries.{ClassEntry};
ghost use Rattle.et_program.specs.MembersOf.{numbered};
ghost use Rattle.et_program.specs.Classes.{prerequisites_of, set_class, array_class};
ghost use Rattle.et_link.specs.Known.{heads_in, AreSized};

use crate::linking::arrays::array_over;
use crate::members::class_at_place;
use crate::names::heads::FieldList;
use crate::names::{ArrayNames, element_of, kind_of};
use et_base::{ClassId, MethodId, Name, NoMemory};
use et_hierarchy::{ClassList, ClassOutline, Links, Row, interfaces_to_run};
use et_program::{Above, Class, ClassInfo, Element, Kind, Leaf, NameIndex};
use std::alloc::Global;

/// What is known of all classes of the set, each at its place.
#[derive(Drop)]
pub(crate) struct Known {
    pub table: Vec<Links>,
    pub rows: Vec<Row>,
    pub flags: Vec<u16>,
    pub own: Vec<u32>,
    pub above: Vec<u32>,
    pub needs: Vec<bool>,
    /// The order of initialization of each, as of a class that is no interface.
    pub orders: Vec<ClassList>,
    pub initializers: Vec<Option<MethodId>>,
    pub constants: Vec<FieldList>,
    pub places: NameIndex,
    pub arrays: ArrayNames,
}

/// Numbers of classes.
fn class_ids(alloc: Global, places: &[u32]) -> Result<Vec<ClassId>, NoMemory>
    ensures { IfOk result (λ ids. ids.items ≡ places.now) }
{
    let mut ids = Vec::with_capacity(alloc, places.len())?;
    for place in places {
        ids.push(ClassId::new(*place))?;
    }
    Ok(ids)
}

/// What has to be initialized before a class.
fn prerequisites(
    alloc: Global,
    known: &Known,
    class: usize,
    is_interface: bool,
) -> Result<Vec<ClassId>, NoMemory>
    requires class { class < length known.now.table.items }
    requires sized { AreSized known.now }
    ensures { IfOk result
        (λ list. list.items ≡ prerequisites_of (heads_in known.now) class is_interface) }
{
    if is_interface {
        return Ok(Vec::new(alloc));
    }
    let table = known.table.as_slice();
    let rows = known.rows.as_slice();
    let links = &table[class];
    let mut list = Vec::new(alloc);
    match links.above() {
        Some(above) => list.push(above)?,
        None => {}
    }
    let found = interfaces_to_run(alloc, known.needs.as_slice(), rows, links)?;
    list.extend_from_slice(found.as_slice())?;
    class_ids(alloc, list.as_slice())
}

/// The order of initialization of a class of the set: of an interface, itself alone (JVMS 5.5).
fn order_of(
    alloc: Global,
    known: &Known,
    class: ClassId,
    is_interface: bool,
) -> Result<ClassList, NoMemory>
    requires class { class < length known.now.table.items }
    requires sized { AreSized known.now }
    ensures { IfOk result (λ list. list ≡ init_order is_interface
        (heads_in known.now).needs known.now.table.items known.now.rows.items class) }
{
    if !is_interface {
        let shared = known.orders[class.number() as usize].share()?;
        return Ok(shared);
    }
    let alone = ClassList::of(vec![in alloc; class]?)?;
    Ok(alone)
}

/// The classes above a class of the set.
fn above_of(
    alloc: Global,
    known: &Known,
    class: ClassId,
    is_interface: bool,
) -> Result<Above, NoMemory>
    requires class { class < length known.now.table.items }
    requires sized { AreSized known.now }
    ensures supers { IfOk result
        (λ a. a.supers ≡ (ancestry_at known.now.rows.items class).supers) }
    ensures superinterfaces { IfOk result
        (λ a. a.superinterfaces.items ≡ (ancestry_at known.now.rows.items class).superinterfaces) }
    ensures field_order { IfOk result
        (λ a. a.field_order ≡ (ancestry_at known.now.rows.items class).field_order) }
    ensures init_order { IfOk result (λ a. a.init_order ≡ init_order is_interface
        (heads_in known.now).needs known.now.table.items known.now.rows.items class) }
{
    let row = &known.rows[class.number() as usize];
    let supers = row.list_of_supers().share()?;
    let superinterfaces = class_ids(alloc, row.superinterfaces())?;
    let field_order = row.list_of_field_order().share()?;
    let init_order = order_of(alloc, known, class, is_interface)?;
    Ok(Above {
        supers,
        superinterfaces,
        field_order,
        init_order,
    })
}

ghost use Rattle.et_hierarchy.specs.Initialization.{init_order};

/// The class of the arrays over the class of this name.
fn array_of(alloc: Global, known: &Known, name: &[u8]) -> Result<Option<ClassId>, NoMemory>
    ensures { IfOk result (λ c. c ≡ (heads_in known.now).array (array_over name.now)) }
{
    let over = array_over(alloc, name)?;
    match known.arrays.index.find(over.as_slice()) {
        Some(class) => Ok(Some(ClassId::new(class))),
        None => Ok(None),
    }
}

ghost use Rattle.et_program.specs.ArrayTypes.{array_over};

/// What a program tells of a class of the set.
fn info_of_class(
    alloc: Global,
    known: &Known,
    class: usize,
    outline: &ClassOutline,
) -> Result<ClassInfo, NoMemory>
    requires class { class < length known.now.table.items }
    requires sized { AreSized known.now }
    ensures { IfOk result
        (λ i. info_of i ≡ (set_class (heads_in known.now) class outline.now).info) }
{
    let name = Name::of(alloc, outline.name())?;
    let prerequisites = prerequisites(alloc, known, class, outline.is_interface())?;
    let constants = Vec::from_slice(alloc, known.constants[class].as_slice())?;
    let Some(slots) = known.above[class].checked_add(known.own[class]) else {
        return Err(NoMemory);
    };
    Ok(ClassInfo {
        name,
        flags: known.flags[class],
        element: Element::NoArray,
        slots,
        clinit: known.initializers[class],
        prerequisites,
        constants,
    })
}

/// A class of the set.
fn set_class(
    alloc: Global,
    known: &Known,
    class: usize,
    outline: &ClassOutline,
) -> Result<Class, NoMemory>
    requires class { class < length known.now.table.items }
    requires sized { AreSized known.now }
    ensures { IfOk result (λ c. c ≡ set_class (heads_in known.now) class outline.now) }
{
    let info = info_of_class(alloc, known, class, outline)?;
    let id = class_at_place(class)?;
    let above = above_of(alloc, known, id, outline.is_interface())?;
    let array = array_of(alloc, known, outline.name())?;
    let kind = Kind {
        dimensions: 0,
        leaf: Leaf::Class(id),
    };
    Ok(Class::new(info, above, kind, array))
}

/// The classes of the set.
fn set_classes(alloc: Global, known: &Known, set: &[ClassOutline]) -> Result<Vec<Class>, NoMemory>
    requires length { length set.now ≡ length known.now.table.items }
    requires sized { AreSized known.now }
    ensures { IfOk result
        (λ list. list.items ≡ numbered (λ k c. set_class (heads_in known.now) k c ∷ []) 0 set.now) }
{
    let mut list = Vec::new(alloc);
    for (k, outline) in set.iter().enumerate() {
        let class = set_class(alloc, known, k, outline)?;
        list.push(class)?;
    }
    Ok(list)
}

const OBJECT: u32 = 0;

const CLONEABLE: u32 = 2;

const SERIALIZABLE: u32 = 4;

/// Public, final and abstract.
const ARRAY_FLAGS: u16 = 0x0411;

/// The classes above an array class.
fn above_array(alloc: Global, class: ClassId) -> Result<Above, NoMemory>
    ensures supers { IfOk result (λ a. a.supers ≡ object ∷ []) }
    ensures superinterfaces { IfOk result
        (λ a. a.superinterfaces.items ≡ cloneable ∷ serializable ∷ []) }
    ensures field_order { IfOk result
        (λ a. a.field_order ≡ class ∷ cloneable ∷ object ∷ serializable ∷ []) }
    ensures init_order { IfOk result (λ a. a.init_order ≡ class ∷ []) }
{
    let object = ClassId::new(OBJECT);
    let cloneable = ClassId::new(CLONEABLE);
    let serializable = ClassId::new(SERIALIZABLE);
    let supers = ClassList::of(vec![in alloc; object]?)?;
    let superinterfaces = vec![in alloc; cloneable, serializable]?;
    let searched = vec![in alloc; class, cloneable, object, serializable]?;
    let field_order = ClassList::of(searched)?;
    let init_order = ClassList::of(vec![in alloc; class]?)?;
    Ok(Above {
        supers,
        superinterfaces,
        field_order,
        init_order,
    })
}

ghost use Rattle.et_program.specs.Classes.{object, cloneable, serializable};

/// What a program tells of an array class.
fn info_of_array(
    alloc: Global,
    known: &Known,
    class: ClassId,
    name: &[u8],
) -> Result<ClassInfo, NoMemory>
    ensures { IfOk result
        (λ i. info_of i ≡ (array_class (heads_in known.now) class name.now).info) }
{
    let element = element_of(&known.places, &known.arrays.index, name);
    Ok(ClassInfo {
        name: Name::of(alloc, name)?,
        flags: ARRAY_FLAGS,
        element,
        slots: 0,
        clinit: None,
        prerequisites: Vec::new(alloc),
        constants: Vec::new(alloc),
    })
}

/// An array class.
fn array_class(alloc: Global, known: &Known, class: ClassId, name: &[u8]) -> Result<Class, NoMemory>
    ensures { IfOk result (λ c. c ≡ array_class (heads_in known.now) class name.now) }
{
    let info = info_of_array(alloc, known, class, name)?;
    let above = above_array(alloc, class)?;
    let kind = kind_of(&known.places, name)?;
    let array = array_of(alloc, known, name)?;
    Ok(Class::new(info, above, kind, array))
}

/// The classes of the set, and then the array classes.
pub(crate) fn all_classes(
    alloc: Global,
    known: &Known,
    set: &[ClassOutline],
) -> Result<Vec<Class>, NoMemory>
    requires length { length set.now ≡ length known.now.table.items }
    requires sized { AreSized known.now }
    ensures { IfOk result (λ list.
        list.items ≡ classes_by (heads_in known.now) set.now known.now.arrays.names.items) }
{
    let mut list = set_classes(alloc, known, set)?;
    let first = set.len();
    for (i, name) in known.arrays.names.iter().enumerate() {
        let Some(place) = first.checked_add(i) else {
            return Err(NoMemory);
        };
        let id = class_at_place(place)?;
        let class = array_class(alloc, known, id, name.as_slice())?;
        list.push(class)?;
    }
    Ok(list)
}

ghost use Rattle.et_program.specs.ProgramOf.{classes_by};
