//! The classes by name.

ghost use Rattle.std.specs.Prelude.{◌≡◌, ℕ, ◌<◌, ◌^◌, List, length, IfOk, IfSome};
ghost use Rattle.std.specs.Str.{bytes_eq};
ghost use Rattle.std.specs.HashMap.{get_by};
ghost use Rattle.et_hierarchy.specs.Outline.{class_place, outline_at};
ghost use Rattle.et_hierarchy.specs.Faults.{IsFree, IsFirstToShow};
ghost use Rattle.et_hierarchy.specs.declared.fault.FaultKind.TheVariants.{Duplicate};
ghost use Rattle.et_hierarchy.specs.Index.{IsSetIndexed};

use crate::ClassOutline;
use std::alloc::{AllocError, Global};
use std::collections::HashMap;

pub(crate) type Places = HashMap<Vec<u8>, u32>;

/// The places of the classes by name, or the first class whose name an earlier one has.
pub(crate) enum Indexed {
    Places(Places),
    Repeated(u32),
}

/// Finds the places of the classes.
pub(crate) fn index(alloc: Global, set: &[ClassOutline]) -> Result<Indexed, AllocError>
    requires { length set.now < 2 ^ 32 }
    ensures { IfOk result (IsSetIndexed set.now) }
{
    let mut places = HashMap::new(alloc);
    for (i, class) in set.iter().enumerate() {
        let name = class.name();
        if places.contains_key(name) {
            return Ok(Indexed::Repeated(i as u32));
        }
        places.insert(Vec::from_slice(alloc, name)?, i as u32)?;
    }
    Ok(Indexed::Places(places))
}
