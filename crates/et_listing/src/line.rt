//! Lines of a listing.

use crate::entry::Entry;
use crate::instruction::Instruction;
use crate::word::Word;

/// What is wrong with a line by itself.
#[derive(Clone, Copy, Debug, PartialEq, Eq)]
pub enum LineFault {
    /// The first word is no keyword, no label and no mnemonic.
    Word,
    /// The number or the form of the operands is wrong.
    Operands,
    /// A number doesn't fit its item.
    Number,
}

/// What a line says.
#[derive(Debug, Drop)]
pub enum Line<'a> {
    /// Nothing: there is no word, or the line is a comment, or it is faulty.
    Blank,
    /// The class, its superclass and its flags.
    Class(Word<'a>, Word<'a>, u16),
    /// An interface of the class.
    Interface(Word<'a>),
    /// The name, the descriptor and the flags of a field, and the constant that it has.
    Field(Word<'a>, Word<'a>, u16, Option<Entry<'a>>),
    /// The name, the descriptor and the flags of a method. One with a body has the entries of its
    /// operand stack and of its local variables.
    Method(Word<'a>, Word<'a>, u16, Option<(u16, u16)>),
    /// A label, defined here.
    Label(Word<'a>),
    /// An instruction.
    Instruction(Instruction<'a>),
    /// A handler of exceptions: where its range begins and ends, where it begins itself, and the
    /// class that it catches, or none where it catches all.
    Catch(Word<'a>, Word<'a>, Word<'a>, Option<Word<'a>>),
    /// The end of a body.
    End,
}

/// What a line says, and what is wrong with it by itself. A label line and an `end` with too many
/// words say what they say all the same; any other faulty line says nothing.
#[derive(Debug, Drop)]
pub struct Parsed<'a> {
    /// What the line says.
    pub line: Line<'a>,
    /// What is wrong with it.
    pub fault: Option<LineFault>,
}
