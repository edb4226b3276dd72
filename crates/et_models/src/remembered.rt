//! The set of objects through which a minor collection searches.
ghost use Rattle.std.specs.Prelude.{◌≡◌, nat_eq, OnOk};
ghost use Rattle.indexmap.specs.IndexSet.{insert_key};

use et_base::NoMemory;
use indexmap::IndexSet;

/// Puts an object into the set, where it isn't yet.
pub fn remember(objects: &mut IndexSet<u32>, object: u32) -> Result<(), NoMemory>
    ensures { OnOk result (objects.new.keys ≡ insert_key nat_eq objects.old.keys object) }
{
    match objects.insert(object) {
        Ok(_is_new) => Ok(()),
        Err(_full) => Err(NoMemory),
    }
}
