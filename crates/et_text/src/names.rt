//! Names that are new.
ghost use Rattle.std.specs.Prelude.{◌≡◌, ◌&&◌, ◌||◌, ◌==◌, not, bytes_eq, IfOk, true, if◌then◌else◌};
ghost use Rattle.et_text.specs.NameSets.{Bytes, MethodKey, has_name, has_key, same_method};

use et_base::{Name, NoMemory};
use std::alloc::Global;
use std::collections::BTreeSet;

/// Puts a name in, and says whether it is new.
pub fn add_name(alloc: Global, names: &mut BTreeSet<Vec<u8>>, name: &Name) -> Result<bool, NoMemory>
    ensures { IfOk result (λ added. (key : Bytes) × (key.items ≡ name.now)
        × (added ≡ not (has_name names.old key)) × ((q : Bytes) → has_name names.new q
        ≡ (if bytes_eq key.items q.items then true else has_name names.old q))) }
{
    let key = Vec::from_slice(alloc, name.as_slice())?;
    let added = names.insert(key)?;
    Ok(added)
}

/// Puts a method's class, name and descriptor in, and says whether they are new.
pub fn add_method(
    alloc: Global,
    names: &mut BTreeSet<(u32, Vec<u8>, Vec<u8>)>,
    class: u32,
    name: &Name,
    descriptor: &Name,
) -> Result<bool, NoMemory>
    ensures { IfOk result (λ added. (key : MethodKey)
        × (key.0 ≡ class) × (key.1.items ≡ name.now) × (key.2.items ≡ descriptor.now)
        × (added ≡ not (has_key names.old key)) × ((q : MethodKey) →
        has_key names.new q ≡ (if same_method key q then true else has_key names.old q))) }
{
    let name = Vec::from_slice(alloc, name.as_slice())?;
    let descriptor = Vec::from_slice(alloc, descriptor.as_slice())?;
    let added = names.insert((class, name, descriptor))?;
    Ok(added)
}
