//! A pool, what stands at its indices, and the rules between its entries.

ghost use Rattle.std.specs.Prelude.{◌≡◌, ◌<◌, ◌^◌, Option, option_map, length, map, IfOk, IfSome};
ghost use Rattle.et_pool.specs.Entries.{view, item_bytes, view_slots};
ghost use Rattle.et_pool.specs.Looks.{slot_at, tag_at, utf8_at, class_name_at, string_at, integer_at, long_at, name_and_type_at, member_at, tag_of, tag_of_slot, named_by, HasShortText, is_name, is_member_tag, is_fit, is_fit_slot, slot_bytes, ChecksPool};

use crate::descriptor::is_class_name_text;
use crate::entry::Entry;
use crate::fault::PoolFault;
use crate::tags::{
    CLASS, FIELDREF, INTEGER, INTERFACE_METHODREF, INVOKE_DYNAMIC, LONG, METHOD_HANDLE, METHODREF,
    NAME_AND_TYPE, STRING, UTF8,
};
use std::alloc::{AllocError, Global};
use std::marker::Model;

/// A constant pool: what stands at each index (JVMS 4.4). Index 0 and the index behind a Long or
/// Double hold nothing.
#[derive(Debug, Drop)]
pub struct Pool {
    pub(crate) at: usize,
    pub(crate) slots: Vec<Option<Entry>>,
}

impl Model for Pool {
    ghost use Rattle.std.specs.Prelude.{◌<◌, ◌^◌, All};
    ghost use Rattle.et_pool.specs.Entries.{Constants, view_slots};
    ghost use Rattle.et_pool.specs.Looks.{end_of, HasShortText};

    ghost Value = { Constants };

    ghost view = { λ p. record { at = p.at; slots = view_slots p.slots.items } };

    ghost invariant = { λ p. (end_of p.at (view_slots p.slots.items) < 2 ^ 64)
        × All HasShortText (view_slots p.slots.items) };
}

fn tag_of_entry(entry: &Entry) -> u8
    ensures { result ≡ tag_of (view entry.now) }
{
    match entry {
        Entry::Text(_) => UTF8,
        Entry::Word(tag, _) => *tag,
        Entry::Wide(tag, _) => *tag,
        Entry::Name(tag, _) => *tag,
        Entry::Pair(tag, _, _) => *tag,
        Entry::Handle(_, _) => METHOD_HANDLE,
    }
}

fn tag_of_slot_entry(slot: &Option<Entry>) -> u8
    ensures { result ≡ tag_of_slot (option_map view slot.now) }
{
    match slot {
        None => 0,
        Some(entry) => tag_of_entry(entry),
    }
}

fn tags_of(alloc: Global, slots: &[Option<Entry>]) -> Result<Vec<u8>, AllocError>
    ensures { IfOk result (λ tags. tags.items ≡ map tag_of_slot (view_slots slots.now)) }
{
    let mut tags = Vec::new(alloc);
    'entries: for slot in slots {
        tags.push(tag_of_slot_entry(slot))?;
    }
    Ok(tags)
}

/// How many bytes an entry has, its tag among them.
fn size_of_entry(entry: &Entry) -> usize
    ensures { result ≡ length (item_bytes (view entry.now)) }
{
    match entry {
        Entry::Text(bytes) => 3 + bytes.len(),
        Entry::Word(_, _) => 5,
        Entry::Wide(_, _) => 9,
        Entry::Name(_, _) => 3,
        Entry::Pair(_, _, _) => 5,
        Entry::Handle(_, _) => 4,
    }
}

fn names_member(tag: u8) -> bool
    ensures { result ≡ is_member_tag tag }
{
    tag == FIELDREF || tag == METHODREF || tag == INTERFACE_METHODREF
}

impl Pool {
    fn entry(&self, i: usize) -> Option<&Entry>
        ensures value { option_map (λ e. view e.now) result ≡ slot_at self.now.slots i }
        ensures short { HasShortText (slot_at self.now.slots i) }
    {
        if i < self.slots.len() {
            self.slots[i].as_ref()
        } else {
            None
        }
    }

    /// The tag of the entry at an index (JVMS 4.4), or 0 where there is no entry.
    pub fn tag(&self, i: u16) -> u8
        ensures { result ≡ tag_at self.now.slots i }
    {
        match self.entry(i as usize) {
            None => 0,
            Some(entry) => tag_of_entry(entry),
        }
    }

    /// The tag of the entry at each index (JVMS 4.4), and 0 where there is no entry.
    pub fn tags(&self, alloc: Global) -> Result<Vec<u8>, AllocError>
        ensures { IfOk result (λ tags. tags.items ≡ map tag_of_slot self.now.slots) }
    {
        tags_of(alloc, &self.slots)
    }

    /// The bytes of the Utf8 entry at an index (JVMS 4.4.7), or `None` where it isn't one.
    pub fn utf8(&self, i: u16) -> Option<&[u8]>
        ensures value { option_map (λ s. s.now) result ≡ utf8_at self.now.slots i }
        ensures short { IfSome result (λ s. length s.now < 2 ^ 16) }
    {
        match self.entry(i as usize) {
            Some(Entry::Text(bytes)) => Some(bytes.as_slice()),
            _ => None,
        }
    }

    fn named(&self, wanted: u8, i: usize) -> Option<&[u8]>
        ensures value { option_map (λ s. s.now) result
            ≡ named_by self.now.slots wanted (slot_at self.now.slots i) }
        ensures short { IfSome result (λ s. length s.now < 2 ^ 16) }
    {
        match self.entry(i) {
            Some(Entry::Name(tag, index)) if *tag == wanted => self.utf8(*index),
            _ => None,
        }
    }

    /// The name that the Class entry at an index gives (JVMS 4.4.1), or `None` where it isn't one
    /// that names a Utf8.
    pub fn class_name(&self, i: u16) -> Option<&[u8]>
        ensures { option_map (λ s. s.now) result ≡ class_name_at self.now.slots i }
    {
        self.named(CLASS, i as usize)
    }

    /// The same at any place of the pool.
    pub fn class_name_at(&self, place: usize) -> Option<&[u8]>
        ensures { option_map (λ s. s.now) result ≡ class_name_at self.now.slots place }
    {
        self.named(CLASS, place)
    }

    /// How many indices the pool has, index 0 among them.
    pub fn len(&self) -> usize
        ensures { result ≡ length self.now.slots }
    {
        self.slots.len()
    }

    /// The bytes that the String entry at an index gives (JVMS 4.4.3), or `None` where it isn't
    /// one that names a Utf8.
    pub fn string(&self, i: u16) -> Option<&[u8]>
        ensures value { option_map (λ s. s.now) result ≡ string_at self.now.slots i }
        ensures short { IfSome result (λ s. length s.now < 2 ^ 16) }
    {
        self.named(STRING, i as usize)
    }

    /// The number of the Integer entry at an index (JVMS 4.4.4), or `None` where it isn't one.
    pub fn integer(&self, i: u16) -> Option<i32>
        ensures { result ≡ integer_at self.now.slots i }
    {
        match self.entry(i as usize) {
            Some(Entry::Word(tag, bits)) if *tag == INTEGER => Some(bits.cast_signed()),
            _ => None,
        }
    }

    /// The number of the Long entry at an index (JVMS 4.4.5), or `None` where it isn't one.
    pub fn long(&self, i: u16) -> Option<i64>
        ensures { result ≡ long_at self.now.slots i }
    {
        match self.entry(i as usize) {
            Some(Entry::Wide(tag, bits)) if *tag == LONG => Some(bits.cast_signed()),
            _ => None,
        }
    }

    /// The indices of the name and of the descriptor that the NameAndType entry at an index gives
    /// (JVMS 4.4.6), or `None` where it isn't one.
    pub fn name_and_type(&self, i: u16) -> Option<(u16, u16)>
        ensures { result ≡ name_and_type_at self.now.slots i }
    {
        match self.entry(i as usize) {
            Some(Entry::Pair(tag, first, second)) if *tag == NAME_AND_TYPE => Some((
                *first, *second,
            )),
            _ => None,
        }
    }

    /// The indices of the class and of the name and type that the Fieldref, Methodref or
    /// InterfaceMethodref entry at an index gives (JVMS 4.4.2), or `None` where it isn't one.
    pub fn member(&self, i: u16) -> Option<(u16, u16)>
        ensures { result ≡ member_at self.now.slots i }
    {
        match self.entry(i as usize) {
            Some(Entry::Pair(tag, first, second)) if names_member(*tag) => Some((*first, *second)),
            _ => None,
        }
    }

    fn names_class(&self, i: u16) -> bool
        ensures { result ≡ is_name (utf8_at self.now.slots i) }
    {
        match self.utf8(i) {
            None => false,
            Some(name) => is_class_name_text(name),
        }
    }

    fn entry_fits(&self, entry: &Entry) -> bool
        ensures { result ≡ is_fit self.now.slots (view entry.now) }
    {
        match entry {
            Entry::Name(tag, index) => {
                if *tag == CLASS {
                    self.names_class(*index)
                } else {
                    self.tag(*index) == UTF8
                }
            }
            Entry::Pair(tag, first, second) => {
                if *tag == NAME_AND_TYPE {
                    self.tag(*first) == UTF8 && self.tag(*second) == UTF8
                } else if *tag == INVOKE_DYNAMIC {
                    self.tag(*second) == NAME_AND_TYPE
                } else {
                    self.tag(*first) == CLASS && self.tag(*second) == NAME_AND_TYPE
                }
            }
            Entry::Text(_) | Entry::Word(_, _) | Entry::Wide(_, _) | Entry::Handle(_, _) => true,
        }
    }

    fn slot_fits(&self, i: usize) -> bool
        ensures { result ≡ is_fit_slot self.now.slots (slot_at self.now.slots i) }
    {
        match self.entry(i) {
            None => true,
            Some(entry) => self.entry_fits(entry),
        }
    }

    fn slot_size(&self, i: usize) -> usize
        ensures { result ≡ length (slot_bytes (slot_at self.now.slots i)) }
    {
        match self.entry(i) {
            None => 0,
            Some(entry) => size_of_entry(entry),
        }
    }

    /// Whether each entry names entries of the needed form (JVMS 4.4.1 to 4.4.10). `Index` gives
    /// the place of the first that doesn't, in the bytes that the pool was read from; no other
    /// fault comes.
    pub fn check(&self) -> Result<(), PoolFault>
        ensures { ChecksPool self.now.at self.now.slots result }
    {
        let mut place = self.at + 2;
        let mut i = 0;
        'slots: while i < self.slots.len() {
            if !self.slot_fits(i) {
                return Err(PoolFault::Index { offset: place });
            }
            place += self.slot_size(i);
            i += 1;
        }
        Ok(())
    }
}
