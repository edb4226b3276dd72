//! Instructions of a listing.

use crate::entry::Entry;
use crate::word::{Word, Words};

/// An instruction of a listing.
#[derive(Debug, Drop)]
pub enum Instruction<'a> {
    /// An opcode alone.
    Plain(u8),
    /// An opcode and a byte.
    Byte(u8, u8),
    /// An opcode and two bytes.
    Short(u8, u16),
    /// A load or a store of a local variable.
    Local(u8, u16),
    /// `iinc`, of a local variable by a constant.
    Increment(u16, i16),
    /// `ldc` or `ldc_w`, as the index of the entry asks.
    Load(Entry<'a>),
    /// An opcode and the index of an entry.
    Pool(u8, Entry<'a>),
    /// `invokeinterface`, of an interface, a name and a descriptor.
    Interface(Word<'a>, Word<'a>, Word<'a>),
    /// `multianewarray`, of a class and a number of dimensions.
    Array(Word<'a>, u8),
    /// A branch to a label.
    Branch(u8, Word<'a>),
    /// `tableswitch`, from the least number on: the labels, and the one behind `default`.
    Table(i32, Words<'a>, Word<'a>),
    /// `lookupswitch`: pairs of a number of 32 bits and a label, and the label behind `default`.
    Lookup(Words<'a>, Word<'a>),
}
