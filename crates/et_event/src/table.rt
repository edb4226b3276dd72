//! The row of each opcode.

ghost use Rattle.std.specs.Prelude.{◌≡◌, length, slice_index_or, None as no_row};
ghost use Rattle.std.specs.Option.{option_copied};
ghost use Rattle.et_event.specs.Table.{row_of as row_in_table};

use crate::rows::CallKind::{Interface, Special, Static, Virtual};
use crate::rows::CallRow::{Invoke, Return};
use crate::rows::Comparison::{Equal, Greater, GreaterOrEqual, Less, LessOrEqual, NotEqual};
use crate::rows::Conversion::{IntToByte, IntToChar, IntToLong, IntToShort, LongToInt};
use crate::rows::Division::{Quotient, Remainder};
use crate::rows::FrameRow::{
    Branch, CompareLongs, Convert, Immediate, Increment, Load, Negate, Rearrange, Store, Switch,
};
use crate::rows::HeapRow::{
    ArrayLength, CheckCast, GetField, GetStatic, InstanceOf, LoadElement, New, NewArray,
    NewMultiArray, NewReferenceArray, PutField, PutStatic, StoreElement,
};
use crate::rows::MonitorRow::{Enter, Exit};
use crate::rows::Row::{Call, Divide, Frame, Heap, Monitor, PoolConstant, Throw};
use crate::rows::{
    Arithmetic, Condition, Elements, FrameRow, Local, Number, Rearrangement, Row, Shift,
};
use et_class::Operand;

/// The rows in the order of the opcodes.
static ROWS: [Option<Row>; 256] = [
    Some(Frame(Rearrange(Rearrangement::Nop))), // 0x00
    Some(Frame(FrameRow::Null)), // 0x01
    Some(Frame(FrameRow::Int(-1))), // 0x02
    Some(Frame(FrameRow::Int(0))), // 0x03
    Some(Frame(FrameRow::Int(1))), // 0x04
    Some(Frame(FrameRow::Int(2))), // 0x05
    Some(Frame(FrameRow::Int(3))), // 0x06
    Some(Frame(FrameRow::Int(4))), // 0x07
    Some(Frame(FrameRow::Int(5))), // 0x08
    Some(Frame(FrameRow::Long(0))), // 0x09
    Some(Frame(FrameRow::Long(1))), // 0x0a
    // 0x0b to 0x0f: none
    None,
    None,
    None,
    None,
    None,
    Some(Frame(Immediate)), // 0x10
    Some(Frame(Immediate)), // 0x11
    Some(PoolConstant), // 0x12
    Some(PoolConstant), // 0x13
    Some(PoolConstant), // 0x14
    Some(Frame(Load(Operand::Int, Local::Named))), // 0x15
    Some(Frame(Load(Operand::Long, Local::Named))), // 0x16
    // 0x17 to 0x18: none
    None,
    None,
    Some(Frame(Load(Operand::Reference, Local::Named))), // 0x19
    Some(Frame(Load(Operand::Int, Local::At(0)))), // 0x1a
    Some(Frame(Load(Operand::Int, Local::At(1)))), // 0x1b
    Some(Frame(Load(Operand::Int, Local::At(2)))), // 0x1c
    Some(Frame(Load(Operand::Int, Local::At(3)))), // 0x1d
    Some(Frame(Load(Operand::Long, Local::At(0)))), // 0x1e
    Some(Frame(Load(Operand::Long, Local::At(1)))), // 0x1f
    Some(Frame(Load(Operand::Long, Local::At(2)))), // 0x20
    Some(Frame(Load(Operand::Long, Local::At(3)))), // 0x21
    // 0x22 to 0x29: none
    None,
    None,
    None,
    None,
    None,
    None,
    None,
    None,
    Some(Frame(Load(Operand::Reference, Local::At(0)))), // 0x2a
    Some(Frame(Load(Operand::Reference, Local::At(1)))), // 0x2b
    Some(Frame(Load(Operand::Reference, Local::At(2)))), // 0x2c
    Some(Frame(Load(Operand::Reference, Local::At(3)))), // 0x2d
    Some(Heap(LoadElement(Elements::Int))), // 0x2e
    Some(Heap(LoadElement(Elements::Long))), // 0x2f
    // 0x30 to 0x31: none
    None,
    None,
    Some(Heap(LoadElement(Elements::Reference))), // 0x32
    Some(Heap(LoadElement(Elements::Byte))), // 0x33
    Some(Heap(LoadElement(Elements::Char))), // 0x34
    Some(Heap(LoadElement(Elements::Short))), // 0x35
    Some(Frame(Store(Operand::Int, Local::Named))), // 0x36
    Some(Frame(Store(Operand::Long, Local::Named))), // 0x37
    // 0x38 to 0x39: none
    None,
    None,
    Some(Frame(Store(Operand::Reference, Local::Named))), // 0x3a
    Some(Frame(Store(Operand::Int, Local::At(0)))), // 0x3b
    Some(Frame(Store(Operand::Int, Local::At(1)))), // 0x3c
    Some(Frame(Store(Operand::Int, Local::At(2)))), // 0x3d
    Some(Frame(Store(Operand::Int, Local::At(3)))), // 0x3e
    Some(Frame(Store(Operand::Long, Local::At(0)))), // 0x3f
    Some(Frame(Store(Operand::Long, Local::At(1)))), // 0x40
    Some(Frame(Store(Operand::Long, Local::At(2)))), // 0x41
    Some(Frame(Store(Operand::Long, Local::At(3)))), // 0x42
    // 0x43 to 0x4a: none
    None,
    None,
    None,
    None,
    None,
    None,
    None,
    None,
    Some(Frame(Store(Operand::Reference, Local::At(0)))), // 0x4b
    Some(Frame(Store(Operand::Reference, Local::At(1)))), // 0x4c
    Some(Frame(Store(Operand::Reference, Local::At(2)))), // 0x4d
    Some(Frame(Store(Operand::Reference, Local::At(3)))), // 0x4e
    Some(Heap(StoreElement(Elements::Int))), // 0x4f
    Some(Heap(StoreElement(Elements::Long))), // 0x50
    // 0x51 to 0x52: none
    None,
    None,
    Some(Heap(StoreElement(Elements::Reference))), // 0x53
    Some(Heap(StoreElement(Elements::Byte))), // 0x54
    Some(Heap(StoreElement(Elements::Char))), // 0x55
    Some(Heap(StoreElement(Elements::Short))), // 0x56
    Some(Frame(Rearrange(Rearrangement::Pop))), // 0x57
    Some(Frame(Rearrange(Rearrangement::Pop2))), // 0x58
    Some(Frame(Rearrange(Rearrangement::Dup))), // 0x59
    Some(Frame(Rearrange(Rearrangement::DupX1))), // 0x5a
    Some(Frame(Rearrange(Rearrangement::DupX2))), // 0x5b
    Some(Frame(Rearrange(Rearrangement::Dup2))), // 0x5c
    Some(Frame(Rearrange(Rearrangement::Dup2X1))), // 0x5d
    Some(Frame(Rearrange(Rearrangement::Dup2X2))), // 0x5e
    Some(Frame(Rearrange(Rearrangement::Swap))), // 0x5f
    Some(Frame(FrameRow::Arithmetic(Number::Int, Arithmetic::Add))), // 0x60
    Some(Frame(FrameRow::Arithmetic(Number::Long, Arithmetic::Add))), // 0x61
    // 0x62 to 0x63: none
    None,
    None,
    Some(Frame(FrameRow::Arithmetic(Number::Int, Arithmetic::Subtract))), // 0x64
    Some(Frame(FrameRow::Arithmetic(Number::Long, Arithmetic::Subtract))), // 0x65
    // 0x66 to 0x67: none
    None,
    None,
    Some(Frame(FrameRow::Arithmetic(Number::Int, Arithmetic::Multiply))), // 0x68
    Some(Frame(FrameRow::Arithmetic(Number::Long, Arithmetic::Multiply))), // 0x69
    // 0x6a to 0x6b: none
    None,
    None,
    Some(Divide(Number::Int, Quotient)), // 0x6c
    Some(Divide(Number::Long, Quotient)), // 0x6d
    // 0x6e to 0x6f: none
    None,
    None,
    Some(Divide(Number::Int, Remainder)), // 0x70
    Some(Divide(Number::Long, Remainder)), // 0x71
    // 0x72 to 0x73: none
    None,
    None,
    Some(Frame(Negate(Number::Int))), // 0x74
    Some(Frame(Negate(Number::Long))), // 0x75
    // 0x76 to 0x77: none
    None,
    None,
    Some(Frame(FrameRow::Shift(Number::Int, Shift::Left))), // 0x78
    Some(Frame(FrameRow::Shift(Number::Long, Shift::Left))), // 0x79
    Some(Frame(FrameRow::Shift(Number::Int, Shift::Right))), // 0x7a
    Some(Frame(FrameRow::Shift(Number::Long, Shift::Right))), // 0x7b
    Some(Frame(FrameRow::Shift(Number::Int, Shift::UnsignedRight))), // 0x7c
    Some(Frame(FrameRow::Shift(Number::Long, Shift::UnsignedRight))), // 0x7d
    Some(Frame(FrameRow::Arithmetic(Number::Int, Arithmetic::And))), // 0x7e
    Some(Frame(FrameRow::Arithmetic(Number::Long, Arithmetic::And))), // 0x7f
    Some(Frame(FrameRow::Arithmetic(Number::Int, Arithmetic::Or))), // 0x80
    Some(Frame(FrameRow::Arithmetic(Number::Long, Arithmetic::Or))), // 0x81
    Some(Frame(FrameRow::Arithmetic(Number::Int, Arithmetic::Xor))), // 0x82
    Some(Frame(FrameRow::Arithmetic(Number::Long, Arithmetic::Xor))), // 0x83
    Some(Frame(Increment)), // 0x84
    Some(Frame(Convert(IntToLong))), // 0x85
    // 0x86 to 0x87: none
    None,
    None,
    Some(Frame(Convert(LongToInt))), // 0x88
    // 0x89 to 0x90: none
    None,
    None,
    None,
    None,
    None,
    None,
    None,
    None,
    Some(Frame(Convert(IntToByte))), // 0x91
    Some(Frame(Convert(IntToChar))), // 0x92
    Some(Frame(Convert(IntToShort))), // 0x93
    Some(Frame(CompareLongs)), // 0x94
    // 0x95 to 0x98: none
    None,
    None,
    None,
    None,
    Some(Frame(Branch(Condition::WithZero(Equal)))), // 0x99
    Some(Frame(Branch(Condition::WithZero(NotEqual)))), // 0x9a
    Some(Frame(Branch(Condition::WithZero(Less)))), // 0x9b
    Some(Frame(Branch(Condition::WithZero(GreaterOrEqual)))), // 0x9c
    Some(Frame(Branch(Condition::WithZero(Greater)))), // 0x9d
    Some(Frame(Branch(Condition::WithZero(LessOrEqual)))), // 0x9e
    Some(Frame(Branch(Condition::OfInts(Equal)))), // 0x9f
    Some(Frame(Branch(Condition::OfInts(NotEqual)))), // 0xa0
    Some(Frame(Branch(Condition::OfInts(Less)))), // 0xa1
    Some(Frame(Branch(Condition::OfInts(GreaterOrEqual)))), // 0xa2
    Some(Frame(Branch(Condition::OfInts(Greater)))), // 0xa3
    Some(Frame(Branch(Condition::OfInts(LessOrEqual)))), // 0xa4
    Some(Frame(Branch(Condition::SameReference))), // 0xa5
    Some(Frame(Branch(Condition::OtherReference))), // 0xa6
    Some(Frame(Branch(Condition::Always))), // 0xa7
    // 0xa8 to 0xa9: none
    None,
    None,
    Some(Frame(Switch)), // 0xaa
    Some(Frame(Switch)), // 0xab
    Some(Call(Return(Some(Operand::Int)))), // 0xac
    Some(Call(Return(Some(Operand::Long)))), // 0xad
    // 0xae to 0xaf: none
    None,
    None,
    Some(Call(Return(Some(Operand::Reference)))), // 0xb0
    Some(Call(Return(None))), // 0xb1
    Some(Heap(GetStatic)), // 0xb2
    Some(Heap(PutStatic)), // 0xb3
    Some(Heap(GetField)), // 0xb4
    Some(Heap(PutField)), // 0xb5
    Some(Call(Invoke(Virtual))), // 0xb6
    Some(Call(Invoke(Special))), // 0xb7
    Some(Call(Invoke(Static))), // 0xb8
    Some(Call(Invoke(Interface))), // 0xb9
    // 0xba: none
    None,
    Some(Heap(New)), // 0xbb
    Some(Heap(NewArray)), // 0xbc
    Some(Heap(NewReferenceArray)), // 0xbd
    Some(Heap(ArrayLength)), // 0xbe
    Some(Throw), // 0xbf
    Some(Heap(CheckCast)), // 0xc0
    Some(Heap(InstanceOf)), // 0xc1
    Some(Monitor(Enter)), // 0xc2
    Some(Monitor(Exit)), // 0xc3
    // 0xc4: none
    None,
    Some(Heap(NewMultiArray)), // 0xc5
    Some(Frame(Branch(Condition::Null))), // 0xc6
    Some(Frame(Branch(Condition::NotNull))), // 0xc7
    Some(Frame(Branch(Condition::Always))), // 0xc8
    // 0xc9 to 0xff: none
    None,
    None,
    None,
    None,
    None,
    None,
    None,
    None,
    None,
    None,
    None,
    None,
    None,
    None,
    None,
    None,
    None,
    None,
    None,
    None,
    None,
    None,
    None,
    None,
    None,
    None,
    None,
    None,
    None,
    None,
    None,
    None,
    None,
    None,
    None,
    None,
    None,
    None,
    None,
    None,
    None,
    None,
    None,
    None,
    None,
    None,
    None,
    None,
    None,
    None,
    None,
    None,
    None,
    None,
    None,
];

fn row_in(rows: &[Option<Row>], opcode: u8) -> Option<&Row>
    requires { length rows.now ≡ 256 }
    ensures { option_copied result ≡ slice_index_or rows.now opcode no_row }
{
    rows[opcode as usize].as_ref()
}

/// The row of an opcode, as it stands in the table; `None` where no class file of the profile has that opcode.
#[tactic(auto, using(crate::proofs::AllRows::row_at))]
pub fn row_behind(opcode: u8) -> Option<&'static Row>
    ensures { option_copied result ≡ row_in_table opcode }
{
    row_in(&ROWS, opcode)
}

/// The row of an opcode; `None` where no class file of the profile has that opcode.
pub fn row_of(opcode: u8) -> Option<Row>
    ensures { result ≡ row_in_table opcode }
{
    row_behind(opcode).copied()
}
