//! The elements of a table in the order of their names.

ghost use Rattle.std.specs.Prelude.{◌≡◌, ℕ, ◌<◌, ◌≤◌, ◌^◌, nat_lt, true, false, List, length, All, IfOk};
ghost use Rattle.std.specs.List.{position_from};
ghost use Rattle.std.specs.List.Sorted.{IsPartitionedBy, IsPartitionPoint};
ghost use Rattle.et_program.specs.Order.{KeyOf, key_cmp, is_key, keys_of, shown_key, key_at, entry_cmp, is_before, place_of, IsOrder};

use crate::info::{FieldInfo, MethodInfo};
use crate::tables::class::Class;
use et_base::{ClassId, NoMemory};
use std::alloc::Global;
use std::cmp::Ordering;

/// What an element is looked for by.
#[derive(Clone, Copy)]
pub(crate) struct Key<'a> {
    pub name: &'a [u8],
    pub descriptor: &'a [u8],
    pub class: u32,
}

impl<'a> Key<'a> {
    /// The key of a member of a class.
    pub(crate) fn of_member(name: &'a [u8], descriptor: &'a [u8], class: ClassId) -> Self
        ensures { shown_key result ≡ (name.now, descriptor.now, class) }
    {
        Key {
            name,
            descriptor,
            class: class.number(),
        }
    }
}

/// How a key stands to another: by the names, then by the descriptors, and then by the classes.
fn compare<'a>(one: Key<'a>, other: Key<'a>) -> Ordering
    ensures { result ≡ key_cmp (shown_key one.entry) (shown_key other.entry) }
{
    let one = (one.name, one.descriptor, one.class);
    let other = (other.name, other.descriptor, other.class);
    one.cmp(&other)
}

/// A table whose elements are looked for.
#[derive(Clone, Copy)]
pub(crate) enum Table<'a> {
    /// Classes, by name alone.
    Classes(&'a [Class]),
    /// Methods, by name, descriptor and class.
    Methods(&'a [MethodInfo]),
    /// Fields, by name, descriptor and class.
    Fields(&'a [FieldInfo]),
}

impl<'a> Table<'a> {
    /// How many elements it has.
    fn len(self) -> usize
        ensures { result ≡ length (keys_of self.entry) }
    {
        match self {
            Table::Classes(classes) => classes.len(),
            Table::Methods(methods) => methods.len(),
            Table::Fields(fields) => fields.len(),
        }
    }

    /// What the element of this number is looked for by; a key of nothing where there is none.
    fn key(self, number: u32) -> Key<'a>
        ensures { shown_key result ≡ key_at (keys_of self.entry) number }
    {
        let none: &[u8] = &[];
        let (name, descriptor, class) = match self {
            Table::Classes(classes) => match classes.get(number as usize) {
                Some(class) => (class.info().name.as_slice(), none, 0),
                None => (none, none, 0),
            },
            Table::Methods(methods) => match methods.get(number as usize) {
                Some(method) => (
                    method.name.as_slice(),
                    method.descriptor.as_slice(),
                    method.class.number(),
                ),
                None => (none, none, 0),
            },
            Table::Fields(fields) => match fields.get(number as usize) {
                Some(field) => (
                    field.name.as_slice(),
                    field.descriptor.as_slice(),
                    field.class.number(),
                ),
                None => (none, none, 0),
            },
        };
        Key {
            name,
            descriptor,
            class,
        }
    }
}

/// How an element of a table stands to another: by their keys, and of one key by their numbers.
fn compare_entries(table: Table<'_>, one: (u32, u32), other: (u32, u32)) -> Ordering
    ensures { result ≡ entry_cmp (keys_of table.entry) one other }
{
    match compare(table.key(one.1), table.key(other.1)) {
        Ordering::Equal => one.1.cmp(&other.1),
        unequal => unequal,
    }
}

/// Whether an element of a table stands before what is looked for.
fn is_before<'a>(table: Table<'a>, key: Key<'a>, entry: (u32, u32)) -> bool
    ensures { result ≡ is_before (keys_of table.entry) (shown_key key.entry) entry }
{
    compare(table.key(entry.1), key).is_lt()
}

/// How many entries stand before those of a class, among entries in the order of their classes.
fn count_below(entries: &[(u32, u32)], class: u32) -> usize
    ensures bound { result ≤ length entries.now }
    ensures point { IsPartitionedBy (λ e. nat_lt e.0 class) entries.now → IsPartitionPoint
        (λ e. nat_lt e.0 class ≡ true) (λ e. nat_lt e.0 class ≡ false) entries.now result }
{
    entries.partition_point(|entry| entry.0 < class)
}

/// The elements of a table in the order of their names: the class and the number of each. The names themselves stand in the
/// table alone.
#[derive(Drop)]
pub(crate) struct Order {
    entries: Vec<(u32, u32)>,
}

impl Order {
    /// The order of the elements of a table. The only error is want of memory.
    pub fn of(alloc: Global, table: Table<'_>) -> Result<Self, NoMemory>
        requires { length (keys_of table) < 2 ^ 32 }
        ensures { IfOk result (λ x. IsOrder (keys_of table.entry) x.entries.items) }
    {
        let count = table.len() as u32;
        let mut entries = Vec::with_capacity(alloc, count as usize)?;
        for number in 0..count {
            entries.push((table.key(number).class, number))?;
        }
        entries.sort_unstable_by(|one, other| compare_entries(table, *one, *other));
        Ok(Order { entries })
    }

    /// How many elements stand before what is looked for.
    pub fn place<'a>(&self, table: Table<'a>, key: Key<'a>) -> usize
        requires { IsOrder (keys_of table) self.now.entries.items }
        ensures { result ≡ place_of (keys_of table.entry) self.now.entries.items
            (shown_key key.entry) }
    {
        self.entries
            .partition_point(|entry| is_before(table, key, *entry))
    }

    /// The number of the first element that has this key.
    pub fn find<'a>(&self, table: Table<'a>, key: Key<'a>) -> Option<u32>
        requires { IsOrder (keys_of table) self.now.entries.items }
        ensures { result
            ≡ position_from (is_key (shown_key key.entry)) 0 (keys_of table.entry) }
    {
        let (_, number) = *self.entries.get(self.place(table, key))?;
        if compare(table.key(number), key).is_eq() {
            Some(number)
        } else {
            None
        }
    }

    /// The number of the first element of a class among those of one name and descriptor, which stand from `start` to `end`: from
    /// where class 0 would stand to where a class that is above them all would.
    pub fn find_among(&self, start: usize, end: usize, class: u32) -> Option<u32>
        requires start { start ≤ end }
        requires end { end ≤ length self.now.entries.items }
        ensures { (keys : List KeyOf) (name descriptor : List ℕ) (count : ℕ) →
            IsOrder keys self.now.entries.items → All (λ (x : KeyOf). x.2 < count) keys →
            start ≡ place_of keys self.now.entries.items (name, descriptor, 0) →
            end ≡ place_of keys self.now.entries.items (name, descriptor, count) →
            result ≡ position_from (is_key (name, descriptor, class)) 0 keys }
    {
        let among = &self.entries[start..end];
        let (other, number) = *among.get(count_below(among, class))?;
        if other == class { Some(number) } else { None }
    }
}
