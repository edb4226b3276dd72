//! The rows of the table: what an instruction does, by its shape and its parameters.
use et_class::Operand;

/// The two types of numbers that operands have (JVMS 2.11.1).
#[derive(Clone, Copy, Debug, PartialEq, Eq)]
pub enum Number {
    /// 32 bits.
    Int,
    /// 64 bits.
    Long,
}

/// The local variable that an instruction names (JVMS 2.6.1).
#[derive(Clone, Copy, Debug, PartialEq, Eq)]
pub enum Local {
    /// The one of its first operand.
    Named,
    /// The one that the opcode has in it.
    At(u8),
}

/// A rearrangement of the topmost operands (JVMS 2.11.6).
#[derive(Clone, Copy, Debug, PartialEq, Eq)]
pub enum Rearrangement {
    Nop,
    Pop,
    Pop2,
    Dup,
    DupX1,
    DupX2,
    Dup2,
    Dup2X1,
    Dup2X2,
    Swap,
}

/// An operation on two numbers of one type that always has a result (JVMS 2.11.3).
#[derive(Clone, Copy, Debug, PartialEq, Eq)]
pub enum Arithmetic {
    Add,
    Subtract,
    Multiply,
    And,
    Or,
    Xor,
}

/// A shift (JVMS 2.11.3). The count is an int.
#[derive(Clone, Copy, Debug, PartialEq, Eq)]
pub enum Shift {
    Left,
    Right,
    UnsignedRight,
}

/// A conversion of a number (JVMS 2.11.4).
#[derive(Clone, Copy, Debug, PartialEq, Eq)]
pub enum Conversion {
    IntToLong,
    LongToInt,
    IntToByte,
    IntToChar,
    IntToShort,
}

/// What a division gives (JVMS 2.11.3).
#[derive(Clone, Copy, Debug, PartialEq, Eq)]
pub enum Division {
    Quotient,
    Remainder,
}

/// A comparison of two ints.
#[derive(Clone, Copy, Debug, PartialEq, Eq)]
pub enum Comparison {
    Equal,
    NotEqual,
    Less,
    GreaterOrEqual,
    Greater,
    LessOrEqual,
}

/// When a branch is taken (JVMS 2.11.7).
#[derive(Clone, Copy, Debug, PartialEq, Eq)]
pub enum Condition {
    /// Always.
    Always,
    /// Where the int on top compares so with 0.
    WithZero(Comparison),
    /// Where the second int compares so with the one on top.
    OfInts(Comparison),
    /// Where the two references are the same.
    SameReference,
    /// Where they are not.
    OtherReference,
    /// Where the reference is null.
    Null,
    /// Where it is not.
    NotNull,
}

/// What the elements of an array are to an instruction (JVMS 2.11.5).
#[derive(Clone, Copy, Debug, PartialEq, Eq)]
pub enum Elements {
    Int,
    Long,
    Reference,
    /// Bytes or booleans.
    Byte,
    Char,
    Short,
}

/// An instruction that reads and changes nothing but the topmost frame.
#[derive(Clone, Copy, Debug, PartialEq, Eq)]
pub enum FrameRow {
    /// Null is pushed.
    Null,
    /// An int is pushed.
    Int(i32),
    /// A long is pushed.
    Long(i64),
    /// The int operand of the instruction is pushed.
    Immediate,
    /// A local variable is pushed.
    Load(Operand, Local),
    /// The topmost operand is moved to a local variable.
    Store(Operand, Local),
    /// The second operand of the instruction is added to an int in a local variable.
    Increment,
    /// The topmost operands are rearranged.
    Rearrange(Rearrangement),
    /// Two numbers are combined.
    Arithmetic(Number, Arithmetic),
    /// A number is negated.
    Negate(Number),
    /// A number is shifted.
    Shift(Number, Shift),
    /// A number is converted.
    Convert(Conversion),
    /// Two longs are compared, and an int says how.
    CompareLongs,
    /// The pc goes on behind the instruction, or to its target.
    Branch(Condition),
    /// The pc goes to the target of a key.
    Switch,
}

/// An instruction on fields, arrays and classes.
#[derive(Clone, Copy, Debug, PartialEq, Eq)]
pub enum HeapRow {
    GetStatic,
    PutStatic,
    GetField,
    PutField,
    /// An element of an array is pushed.
    LoadElement(Elements),
    /// An element of an array is written.
    StoreElement(Elements),
    /// An object of a class is made.
    New,
    /// An array over a base type is made.
    NewArray,
    /// An array over a class is made.
    NewReferenceArray,
    /// An array of arrays is made.
    NewMultiArray,
    ArrayLength,
    CheckCast,
    InstanceOf,
}

/// How an instruction calls a method (JVMS 2.11.8).
#[derive(Clone, Copy, Debug, PartialEq, Eq)]
pub enum CallKind {
    Virtual,
    Special,
    Static,
    Interface,
}

/// An instruction that calls a method or returns from one.
#[derive(Clone, Copy, Debug, PartialEq, Eq)]
pub enum CallRow {
    Invoke(CallKind),
    /// A return of an operand, or of none.
    Return(Option<Operand>),
}

/// An instruction on the monitor of an object (JVMS 2.11.10).
#[derive(Clone, Copy, Debug, PartialEq, Eq)]
pub enum MonitorRow {
    Enter,
    Exit,
}

/// What an instruction does.
#[derive(Clone, Copy, Debug, PartialEq, Eq)]
pub enum Row {
    Frame(FrameRow),
    /// A constant of the pool is pushed.
    PoolConstant,
    /// A number is divided by another.
    Divide(Number, Division),
    Heap(HeapRow),
    Call(CallRow),
    /// The exception on top is thrown.
    Throw,
    Monitor(MonitorRow),
}
