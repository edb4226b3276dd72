//! The references in values, as a list of roots. After `NoMemory` the list has some of what was to be put there.
ghost use Rattle.std.specs.Prelude.{◌≡◌, ◌++◌, OnOk, option_to_list, reverse};
ghost use Rattle.et_heap.specs.Refs.{refs_of};

use et_base::{NoMemory, ObjectId, Value};
use et_heap::RootList;

/// Puts the objects that these values refer to at the end of the list.
pub fn list_values(values: &[Value], room: &mut RootList) -> Result<(), NoMemory>
    ensures { OnOk result (room.new ≡ room.old ++ refs_of values.now) }
{
    for v in values {
        if let Value::Ref(o) = v {
            room.push(*o)?;
        }
    }
    Ok(())
}

/// The same, from the last value to the first.
pub fn list_values_back(values: &[Value], room: &mut RootList) -> Result<(), NoMemory>
    ensures { OnOk result (room.new ≡ room.old ++ refs_of (reverse values.now)) }
{
    for v in values.iter().rev() {
        if let Value::Ref(o) = v {
            room.push(*o)?;
        }
    }
    Ok(())
}

/// Puts an object at the end of the list, if there is one.
pub fn list_option(o: Option<ObjectId>, room: &mut RootList) -> Result<(), NoMemory>
    ensures { OnOk result (room.new ≡ room.old ++ option_to_list o) }
{
    match o {
        Some(o) => room.push(o),
        None => Ok(()),
    }
}
