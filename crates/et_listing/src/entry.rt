//! Entries of the constant pool.

ghost use Rattle.std.specs.Prelude.{◌≡◌};

use crate::word::Word;

/// An entry of the constant pool (JVMS 4.4), by what it says in the end and not by indices. Words
/// are spelled as in the listing.
#[derive(Debug, PartialEq, Eq, Hash, Drop)]
pub enum Entry<'a> {
    /// A text.
    Utf8(Word<'a>),
    /// A number of 32 bits.
    Integer(i32),
    /// A number of 64 bits, which takes two indices.
    Long(i64),
    /// A class by its name.
    Class(Word<'a>),
    /// A constant of class `String`.
    Text(Word<'a>),
    /// A name and a descriptor.
    NameAndType(Word<'a>, Word<'a>),
    /// A field, by its class, name and descriptor.
    Field(Word<'a>, Word<'a>, Word<'a>),
    /// A method of a class, by its class, name and descriptor.
    Method(Word<'a>, Word<'a>, Word<'a>),
    /// A method of an interface, by its interface, name and descriptor.
    InterfaceMethod(Word<'a>, Word<'a>, Word<'a>),
}

impl<'a> Entry<'a> {
    /// The same entry.
    pub fn copy(&self) -> Entry<'a>
        ensures { result ≡ self.now }
    {
        match self {
            Entry::Utf8(text) => Entry::Utf8(text.copy()),
            Entry::Integer(value) => Entry::Integer(*value),
            Entry::Long(value) => Entry::Long(*value),
            Entry::Class(name) => Entry::Class(name.copy()),
            Entry::Text(text) => Entry::Text(text.copy()),
            Entry::NameAndType(name, descriptor) => {
                Entry::NameAndType(name.copy(), descriptor.copy())
            }
            Entry::Field(class, name, descriptor) => {
                Entry::Field(class.copy(), name.copy(), descriptor.copy())
            }
            Entry::Method(class, name, descriptor) => {
                Entry::Method(class.copy(), name.copy(), descriptor.copy())
            }
            Entry::InterfaceMethod(class, name, descriptor) => {
                Entry::InterfaceMethod(class.copy(), name.copy(), descriptor.copy())
            }
        }
    }
}
