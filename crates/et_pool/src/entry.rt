//! The entries of a pool, by the layout of their bodies.

ghost use Rattle.std.specs.Prelude.{◌≡◌};
ghost use Rattle.et_pool.specs.Entries.{tag_layout, indices, slots_taken, view};

use crate::tags::{
    CLASS, DOUBLE, FIELDREF, FLOAT, INTEGER, INTERFACE_METHODREF, INVOKE_DYNAMIC, LONG,
    METHOD_HANDLE, METHOD_TYPE, METHODREF, NAME_AND_TYPE, STRING, UTF8,
};

/// How the body of an entry is laid out.
#[derive(Clone, Copy, Debug, PartialEq, Eq)]
pub enum Layout {
    /// Utf8: two bytes of length, and that many bytes.
    Text,
    /// Integer and Float: four bytes.
    Word,
    /// Long and Double: eight bytes.
    Wide,
    /// Class, String and MethodType: an index.
    Name,
    /// Fieldref, Methodref, InterfaceMethodref, NameAndType and InvokeDynamic: two indices.
    Pair,
    /// MethodHandle: a byte and an index.
    Handle,
}

/// An entry: its tag and its parts.
#[derive(Debug, Drop)]
pub enum Entry {
    Text(Vec<u8>),
    Word(u8, u32),
    Wide(u8, u64),
    Name(u8, u16),
    Pair(u8, u16, u16),
    Handle(u8, u16),
}

/// The layout behind a tag, or `None` where no entry has the tag.
pub fn layout_of_tag(tag: u8) -> Option<Layout>
    ensures { result ≡ tag_layout tag }
{
    match tag {
        UTF8 => Some(Layout::Text),
        INTEGER | FLOAT => Some(Layout::Word),
        LONG | DOUBLE => Some(Layout::Wide),
        CLASS | STRING | METHOD_TYPE => Some(Layout::Name),
        FIELDREF | METHODREF | INTERFACE_METHODREF | NAME_AND_TYPE | INVOKE_DYNAMIC => {
            Some(Layout::Pair)
        }
        METHOD_HANDLE => Some(Layout::Handle),
        _ => None,
    }
}

/// How many indices an entry of this layout takes.
pub fn indices_of(layout: Layout) -> usize
    ensures { result ≡ indices layout }
{
    match layout {
        Layout::Wide => 2,
        Layout::Text | Layout::Word | Layout::Name | Layout::Pair | Layout::Handle => 1,
    }
}

/// How many indices the entry takes.
pub fn room_of_entry(entry: &Entry) -> usize
    ensures { result ≡ slots_taken (view entry.now) }
{
    match entry {
        Entry::Wide(_, _) => 2,
        Entry::Text(_)
        | Entry::Word(_, _)
        | Entry::Name(_, _)
        | Entry::Pair(_, _, _)
        | Entry::Handle(_, _) => 1,
    }
}
