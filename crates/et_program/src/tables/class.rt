//! What a program keeps of a class.

ghost use Rattle.std.specs.Prelude.{◌≡◌};

use crate::info::ClassInfo;
use crate::kind::Kind;
use et_base::ClassId;
use et_hierarchy::ClassList;
use std::marker::Model;

/// The classes above a class, in the orders in which they are looked at.
#[derive(Drop)]
pub struct Above {
    /// The superclasses, nearest first.
    pub supers: ClassList,
    /// The superinterfaces, each once, in the order of method resolution (JVMS 5.4.3.3).
    pub superinterfaces: Vec<ClassId>,
    /// The class and all that is above it, each once, in the order of field resolution (JVMS 5.4.3.2).
    pub field_order: ClassList,
    /// What is initialized with it, and then itself (JVMS 5.5).
    pub init_order: ClassList,
}

/// A class with what is above it.
#[derive(Drop)]
pub struct Class {
    info: ClassInfo,
    supers: ClassList,
    superinterfaces: Vec<ClassId>,
    field_order: ClassList,
    init_order: ClassList,
    kind: Kind,
    array: Option<ClassId>,
}

impl Model for Class {
    ghost use Rattle.et_program.specs.Entries.{ClassEntry};
    ghost use Rattle.et_program.specs.Shown.{info_of};

    ghost Value = { ClassEntry };

    ghost view = { λ c. record {
      info = info_of c.info;
      supers = c.supers;
      superinterfaces = c.superinterfaces.items;
      field_order = c.field_order;
      init_order = c.init_order;
      kind = c.kind;
      array = c.array;
    } };
}

impl Class {
    ghost use Rattle.et_program.specs.Shown.{info_of};

    /// A class of these parts.
    pub fn new(info: ClassInfo, above: Above, kind: Kind, array: Option<ClassId>) -> Self
        ensures { result ≡ record {
          info = info_of info;
          supers = above.supers;
          superinterfaces = above.superinterfaces.items;
          field_order = above.field_order;
          init_order = above.init_order;
          kind = kind;
          array = array;
        } }
    {
        let Above {
            supers,
            superinterfaces,
            field_order,
            init_order,
        } = above;
        Class {
            info,
            supers,
            superinterfaces,
            field_order,
            init_order,
            kind,
            array,
        }
    }

    pub fn info(&self) -> &ClassInfo
        ensures { info_of result.now ≡ self.now.info }
    {
        &self.info
    }

    pub fn supers(&self) -> &[ClassId]
        ensures { result.now ≡ self.now.supers }
    {
        self.supers.as_slice()
    }

    pub fn superinterfaces(&self) -> &[ClassId]
        ensures { result.now ≡ self.now.superinterfaces }
    {
        self.superinterfaces.as_slice()
    }

    pub fn field_order(&self) -> &[ClassId]
        ensures { result.now ≡ self.now.field_order }
    {
        self.field_order.as_slice()
    }

    pub fn init_order(&self) -> &[ClassId]
        ensures { result.now ≡ self.now.init_order }
    {
        self.init_order.as_slice()
    }

    pub fn kind(&self) -> Kind
        ensures { result ≡ self.now.kind }
    {
        self.kind
    }

    pub fn array(&self) -> Option<ClassId>
        ensures { result ≡ self.now.array }
    {
        self.array
    }
}
