//! What is kept of all objects, by number, and what is read from it.
ghost use Rattle.std.specs.Prelude.{◌≡◌, ◌+◌, ◌<◌, ◌≤◌, ◌^◌, ◌∷◌, [], ◌++◌, not, None, is_some, slice_index_or, length, filter, vec_len, vec_capacity, IfOk, replicate};
ghost use Rattle.std.specs.List.{sum_by};
ghost use Rattle.et_models.specs.Tables.{size_at, flag_at, with_size, with_flag};

use et_base::NoMemory;
use std::alloc::Global;

/// The bytes of the object, where it is made.
pub fn size_at(sizes: &[Option<u32>], object: u32) -> u32
    ensures { result ≡ size_at sizes.now object }
{
    sizes.get(object as usize).copied().flatten().unwrap_or(0)
}

/// Whether the object is made.
pub fn is_sized(sizes: &[Option<u32>], object: u32) -> bool
    ensures { result ≡ is_some (slice_index_or sizes.now object None) }
{
    sizes.get(object as usize).copied().flatten().is_some()
}

/// Whether the object is flagged.
pub fn flag_at(flags: &[bool], object: u32) -> bool
    ensures { result ≡ flag_at flags.now object }
{
    flags.get(object as usize).copied().unwrap_or(false)
}

/// Sets the bytes of the object, where it has a place.
pub fn set_size(sizes: &mut [Option<u32>], object: u32, size: u32)
    ensures { sizes.new ≡ with_size sizes.old object size }
{
    if (object as usize) < sizes.len() {
        sizes[object as usize] = Some(size);
    }
}

/// Flags the object, where it has a place.
pub fn set_flag(flags: &mut [bool], object: u32)
    ensures { flags.new ≡ with_flag flags.old object }
{
    if (object as usize) < flags.len() {
        flags[object as usize] = true;
    }
}

/// The bytes of the objects.
pub fn bytes_of(sizes: &[Option<u32>], objects: &[u32]) -> u64
    requires { sum_by (size_at sizes.now) objects.now < 2 ^ 64 }
    ensures { result ≡ sum_by (size_at sizes.now) objects.now }
{
    let mut bytes = 0;
    for object in objects {
        bytes += u64::from(size_at(sizes, *object));
    }
    bytes
}

/// Keeps the objects that aren't flagged, in their order.
pub fn keep_unflagged(objects: &mut Vec<u32>, flags: &[bool])
    ensures items { objects.new.items
        ≡ filter (λ object. not (flag_at flags.now object)) objects.old.items }
    ensures room { vec_capacity objects.new ≡ vec_capacity objects.old }
{
    objects.retain(|object| !flag_at(flags, *object));
}

/// Puts an object at the end, where there is room.
pub fn push_within(objects: &mut Vec<u32>, object: u32)
    requires room { vec_len objects.old < vec_capacity objects.old }
    ensures items { objects.new.items ≡ objects.old.items ++ object ∷ [] }
    ensures room { vec_capacity objects.old ≤ vec_capacity objects.new }
{
    if objects.push(object).is_err() {
        unreachable!()
    }
}
