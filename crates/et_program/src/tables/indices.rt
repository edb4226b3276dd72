//! The array classes over base types.

ghost use Rattle.std.specs.Prelude.{◌≡◌, ℕ, ◌<◌, ◌^◌, length, IfOk, None};
ghost use Rattle.std.specs.List.{position_from, slice_index_or};
ghost use Rattle.et_program.specs.Entries.{ClassEntry};
ghost use Rattle.et_program.specs.Members.{is_base_array};

use crate::info::Element;
use crate::tables::class::Class;
use et_base::{ClassId, NoMemory};
use std::alloc::Global;

/// The array classes over base types, by the code of the base type; the first of each.
pub(crate) fn index_base_arrays(
    alloc: Global,
    classes: &[Class],
) -> Result<Vec<Option<ClassId>>, NoMemory>
    requires { length classes.now < 2 ^ 32 }
    ensures { IfOk result (λ arrays. (kind : ℕ) → kind < 256 → slice_index_or arrays.items kind None
        ≡ position_from (λ (c : ClassEntry). is_base_array kind c.info.element) 0 classes.now) }
{
    let mut arrays = vec![in alloc; None; 256]?;
    for (i, class) in classes.iter().enumerate() {
        put_base_array(&mut arrays, class.info().element, ClassId::new(i as u32));
    }
    Ok(arrays)
}

/// Puts an array class over a base type in its place, unless there is one.
fn put_base_array(arrays: &mut Vec<Option<ClassId>>, element: Element, class: ClassId)
    requires { length arrays.old.items ≡ 256 }
    ensures length { length arrays.new.items ≡ 256 }
    ensures places { (kind : ℕ) → kind < 256 → slice_index_or arrays.new.items kind None
        ≡ option_or (slice_index_or arrays.old.items kind None)
        (if is_base_array kind element then Some class else None) }
{
    if let Element::Base(kind) = element {
        if arrays[kind as usize].is_none() {
            arrays[kind as usize] = Some(class);
        }
    }
}

ghost use Rattle.std.specs.Prelude.{if◌then◌else◌, Some};
ghost use Rattle.std.specs.Option.{option_or};
