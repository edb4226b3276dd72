//! The lists of a class.

ghost use Rattle.std.specs.Prelude.{◌≡◌, drop};
ghost use Rattle.std.specs.Bool.{OnTrue};

use crate::lists::ClassList;
use et_base::ClassId;
use std::marker::Model;

/// The superclasses and superinterfaces of a class, and where it looks for a field, by place.
#[derive(Drop)]
pub struct Row {
    supers: ClassList,
    superinterfaces: Vec<u32>,
    field_order: ClassList,
    /// Whether the class looks for a field in itself and its superclasses alone.
    looks_upward: bool,
}

impl Model for Row {
    ghost use Rattle.std.specs.Prelude.{◌≡◌, drop};
    ghost use Rattle.std.specs.Bool.{OnTrue};
    ghost use Rattle.et_hierarchy.specs.Ancestry.{Ancestry};

    ghost Value = { Ancestry };

    ghost view = { λ r. record {
      supers = r.supers;
      superinterfaces = r.superinterfaces.items;
      field_order = r.field_order;
    } };

    ghost invariant = { λ r. OnTrue r.looks_upward (drop 1 r.field_order ≡ r.supers) };
}

impl Row {
    /// A row of these lists. Where the class looks for a field in itself and its superclasses alone, this may be told.
    pub(crate) fn new(
        supers: ClassList,
        superinterfaces: Vec<u32>,
        field_order: ClassList,
        looks_upward: bool,
    ) -> Self
        requires { OnTrue looks_upward (drop 1 field_order ≡ supers) }
        ensures { result ≡ record {
          supers = supers;
          superinterfaces = superinterfaces.items;
          field_order = field_order;
        } }
    {
        Row {
            supers,
            superinterfaces,
            field_order,
            looks_upward,
        }
    }

    /// Whether it was told that the class looks for a field in itself and its superclasses alone.
    pub(crate) fn looks_upward(&self) -> bool
        ensures { OnTrue result (drop 1 self.now.field_order ≡ self.now.supers) }
    {
        self.looks_upward
    }

    /// The superclasses, nearest first.
    pub fn supers(&self) -> &[ClassId]
        ensures { result.now ≡ self.now.supers }
    {
        self.supers.as_slice()
    }

    /// The list of the superclasses, to be shared.
    pub fn list_of_supers(&self) -> &ClassList
        ensures { result.now ≡ self.now.supers }
    {
        &self.supers
    }

    /// All superinterfaces, each once: those of the superclass first, then by the interface list, each behind its own
    /// superinterfaces.
    pub fn superinterfaces(&self) -> &[u32]
        ensures { result.now ≡ self.now.superinterfaces }
    {
        self.superinterfaces.as_slice()
    }

    /// Where a field is looked for, in order: the class itself, its superinterfaces, its superclasses (JVMS 5.4.3.2).
    pub fn field_order(&self) -> &[ClassId]
        ensures { result.now ≡ self.now.field_order }
    {
        self.field_order.as_slice()
    }

    /// The list of where a field is looked for, to be shared.
    pub fn list_of_field_order(&self) -> &ClassList
        ensures { result.now ≡ self.now.field_order }
    {
        &self.field_order
    }
}
