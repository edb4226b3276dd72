//! What linking reads of a class.

ghost use Rattle.std.specs.Prelude.{◌≡◌};

use et_base::Name;
use std::marker::Model;

/// A class of the set: its names and what they are looked at for.
#[derive(Debug, Drop)]
pub struct ClassOutline {
    name: Name,
    super_name: Option<Name>,
    interfaces: Vec<Name>,
    is_interface: bool,
    is_final: bool,
}

impl Model for ClassOutline {
    ghost use Rattle.et_hierarchy.specs.Outline.{Outline};

    ghost Value = { Outline };

    ghost view = { λ c. record {
      name = c.name;
      super_name = c.super_name;
      interfaces = c.interfaces.items;
      is_interface = c.is_interface;
      is_final = c.is_final;
    } };
}

impl ClassOutline {
    ghost use Rattle.std.specs.Option.{option_copied};

    /// The outline of a class with this name, superclass and direct superinterfaces.
    pub fn new(
        name: Name,
        super_name: Option<Name>,
        interfaces: Vec<Name>,
        is_interface: bool,
        is_final: bool,
    ) -> Self
        ensures { result ≡ record {
          name = name;
          super_name = super_name;
          interfaces = interfaces.items;
          is_interface = is_interface;
          is_final = is_final;
        } }
    {
        ClassOutline {
            name,
            super_name,
            interfaces,
            is_interface,
            is_final,
        }
    }

    /// The name.
    pub fn name(&self) -> &[u8]
        ensures { result.now ≡ self.now.name }
    {
        self.name.as_slice()
    }

    /// The name of the superclass, if there is one.
    pub fn super_name(&self) -> Option<&Name>
        ensures { option_copied result ≡ self.now.super_name }
    {
        self.super_name.as_ref()
    }

    /// The names of the direct superinterfaces, in order.
    pub fn interfaces(&self) -> &[Name]
        ensures { result.now ≡ self.now.interfaces }
    {
        self.interfaces.as_slice()
    }

    /// Whether it is an interface.
    pub fn is_interface(&self) -> bool
        ensures { result ≡ self.now.is_interface }
    {
        self.is_interface
    }

    /// Whether it is final.
    pub fn is_final(&self) -> bool
        ensures { result ≡ self.now.is_final }
    {
        self.is_final
    }
}
