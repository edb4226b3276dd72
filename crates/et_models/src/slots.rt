//! What stands in the slots of objects.
ghost use Rattle.std.specs.Prelude.{◌≡◌, ◌<◌, [], length, OnOk};
ghost use Rattle.et_models.specs.Generations.{WritesSlot, AreEmpty};

use et_base::NoMemory;
use std::alloc::Global;
use std::collections::BTreeMap;

/// Makes places for the slots of so many objects.
pub fn make_slots(
    alloc: Global,
    slots: &mut Vec<BTreeMap<u32, u32>>,
    count: usize,
) -> Result<(), NoMemory>
    requires { slots.old.items ≡ [] }
    ensures long { OnOk result (length slots.new.items ≡ count) }
    ensures empty { OnOk result (AreEmpty slots.new.items) }
{
    for _index in 0..count {
        slots.push(BTreeMap::new(alloc))?;
    }
    Ok(())
}

/// Puts an object into a slot.
pub fn write_slot(
    slots: &mut [BTreeMap<u32, u32>],
    object: u32,
    slot: u32,
    new: u32,
) -> Result<(), NoMemory>
    requires { object < length slots.old }
    ensures { OnOk result (WritesSlot slots.old slots.new object slot new) }
{
    slots[object as usize].insert(slot, new)?;
    Ok(())
}
