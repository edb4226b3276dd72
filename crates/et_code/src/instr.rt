//! Instructions.

/// Why no instruction stands at a place of the code.
#[derive(Clone, Copy, Debug, PartialEq, Eq)]
pub enum CodeFault {
    /// The byte is no opcode, or no opcode that may stand behind `wide`.
    Opcode = 1,
    /// The code ends within the instruction, a `tableswitch` has a low bound above its high one, or
    /// a `lookupswitch` a negative count.
    Short = 2,
    /// The instruction is one that the profile leaves out: those on `float` and `double`, `jsr`,
    /// `jsr_w`, `ret` and `invokedynamic`.
    Unsupported = 3,
}

/// An instruction, as it stands in the code.
#[derive(Clone, Copy, Debug, PartialEq, Eq)]
pub struct Instr {
    /// The opcode; that of the instruction behind it where the instruction has a `wide`.
    pub opcode: u8,
    /// Whether a `wide` stands before the opcode.
    pub wide: bool,
    /// The first operand, or 0 where there is none or the instruction is a switch.
    pub first: i32,
    /// The second operand, or 0 where there is none.
    pub second: i32,
    /// For a switch the place in the code of its default offset, behind the padding; else 0.
    pub table: usize,
}
