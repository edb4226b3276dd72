//! Vectors that grow within the room that was reserved for them.

ghost use Rattle.std.specs.Prelude.{◌≡◌, ◌+◌, ◌<◌, ◌≤◌, ◌-◌, ◌∷◌, ◌++◌, [], vec_len, vec_capacity, length, take, replicate, OnOk};

use std::alloc::AllocError;

/// Reserves room for `count` elements in all.
pub fn reserve<T>(v: &mut Vec<T>, count: usize) -> Result<(), AllocError>
    ensures ok { OnOk result (count ≤ vec_capacity v.new) }
    ensures grows { vec_capacity v.old ≤ vec_capacity v.new }
    ensures items { v.new.items ≡ v.old.items }
{
    v.reserve(count.saturating_sub(v.len()))
}

/// Puts an element at the end.
pub fn push<T: Drop>(v: &mut Vec<T>, element: T)
    requires room { vec_len v.old < vec_capacity v.old }
    ensures items { v.new.items ≡ v.old.items ++ element ∷ [] }
    ensures grows { vec_capacity v.old ≤ vec_capacity v.new }
{
    if v.push(element).is_err() {
        unreachable!()
    }
}

/// Puts copies of the elements at the end.
pub fn extend<T: Copy>(v: &mut Vec<T>, elements: &[T])
    requires room { vec_len v.old + length elements.now ≤ vec_capacity v.old }
    ensures items { v.new.items ≡ v.old.items ++ elements.now }
    ensures grows { vec_capacity v.old ≤ vec_capacity v.new }
{
    if v.extend_from_slice(elements).is_err() {
        unreachable!()
    }
}

/// Makes it `count` elements long, with copies of `value` at the end.
pub fn resize<T: Copy + Drop>(v: &mut Vec<T>, count: usize, value: T)
    requires room { count ≤ vec_capacity v.old }
    ensures items { v.new.items
        ≡ take count v.old.items ++ replicate (count - vec_len v.old) value }
    ensures grows { vec_capacity v.old ≤ vec_capacity v.new }
{
    if v.resize(count, value).is_err() {
        unreachable!()
    }
}
