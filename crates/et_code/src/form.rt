//! The layout of the operands behind each opcode.

ghost use Rattle.std.specs.Prelude.{◌≡◌, length, slice_index_or};
ghost use Rattle.et_code.specs.Forms.{form_of, wide_form_of};

use self::Form::{
    Dimensions, Increment, Interface, LongIncrement, Lookup, Plain, Refused, S1, S2, S4, Table, U1,
    U2, Unknown, Wide,
};

/// What operands stand behind an opcode. In the words of JVMS 4 a `u1`, `u2` or `u4` is an
/// unsigned number of that many bytes.
#[derive(Clone, Copy, Debug, PartialEq, Eq)]
pub enum Form {
    /// None.
    Plain,
    /// A `u1`: a local variable, an index into the constant pool, or the kind of an array.
    U1,
    /// A `u1` that is read as a signed number.
    S1,
    /// A `u2`: an index into the constant pool, or behind `wide` a local variable.
    U2,
    /// A `u2` that is read as a signed number: a constant or a branch offset.
    S2,
    /// A `u4` that is read as a signed number: a branch offset.
    S4,
    /// A `u1`, the local variable, and a signed `u1`, the constant.
    Increment,
    /// The same in a `u2` each, behind `wide`.
    LongIncrement,
    /// A `u2`, an index into the constant pool; a `u1`, the count; and a `u1` that is passed over.
    Interface,
    /// A `u2`, an index into the constant pool, and a `u1`, the number of dimensions.
    Dimensions,
    /// Another opcode, whose operands are wider than otherwise.
    Wide,
    /// Padding, a default, bounds, and an offset for each number between the bounds.
    Table,
    /// Padding, a default, a count, and so many pairs of a key and an offset.
    Lookup,
    /// This is an instruction of the standard that the profile leaves out.
    Refused,
    /// This is no instruction.
    Unknown,
}

/// The form of each opcode, in the order of the opcodes.
static FORMS: [Form; 256] = [
    // 0x00: nop to lconst_1
    Plain, Plain, Plain, Plain, Plain, Plain, Plain, Plain, Plain, Plain, Plain,
    // 0x0b: fconst_0 to dconst_1
    Refused, Refused, Refused, Refused, Refused,
    // 0x10: bipush
    S1,
    // 0x11: sipush
    S2,
    // 0x12: ldc
    U1,
    // 0x13: ldc_w to ldc2_w
    U2, U2,
    // 0x15: iload to lload
    U1, U1,
    // 0x17: fload to dload
    Refused, Refused,
    // 0x19: aload
    U1,
    // 0x1a: iload_0 to lload_3
    Plain, Plain, Plain, Plain, Plain, Plain, Plain, Plain,
    // 0x22: fload_0 to dload_3
    Refused, Refused, Refused, Refused, Refused, Refused, Refused, Refused,
    // 0x2a: aload_0 to laload
    Plain, Plain, Plain, Plain, Plain, Plain,
    // 0x30: faload to daload
    Refused, Refused,
    // 0x32: aaload to saload
    Plain, Plain, Plain, Plain,
    // 0x36: istore to lstore
    U1, U1,
    // 0x38: fstore to dstore
    Refused, Refused,
    // 0x3a: astore
    U1,
    // 0x3b: istore_0 to lstore_3
    Plain, Plain, Plain, Plain, Plain, Plain, Plain, Plain,
    // 0x43: fstore_0 to dstore_3
    Refused, Refused, Refused, Refused, Refused, Refused, Refused, Refused,
    // 0x4b: astore_0 to lastore
    Plain, Plain, Plain, Plain, Plain, Plain,
    // 0x51: fastore to dastore
    Refused, Refused,
    // 0x53: aastore to ladd
    Plain, Plain, Plain, Plain, Plain, Plain, Plain, Plain, Plain, Plain, Plain, Plain, Plain,
    Plain, Plain,
    // 0x62: fadd to dadd
    Refused, Refused,
    // 0x64: isub to lsub
    Plain, Plain,
    // 0x66: fsub to dsub
    Refused, Refused,
    // 0x68: imul to lmul
    Plain, Plain,
    // 0x6a: fmul to dmul
    Refused, Refused,
    // 0x6c: idiv to ldiv
    Plain, Plain,
    // 0x6e: fdiv to ddiv
    Refused, Refused,
    // 0x70: irem to lrem
    Plain, Plain,
    // 0x72: frem to drem
    Refused, Refused,
    // 0x74: ineg to lneg
    Plain, Plain,
    // 0x76: fneg to dneg
    Refused, Refused,
    // 0x78: ishl to lxor
    Plain, Plain, Plain, Plain, Plain, Plain, Plain, Plain, Plain, Plain, Plain, Plain,
    // 0x84: iinc
    Increment,
    // 0x85: i2l
    Plain,
    // 0x86: i2f to i2d
    Refused, Refused,
    // 0x88: l2i
    Plain,
    // 0x89: l2f to d2f
    Refused, Refused, Refused, Refused, Refused, Refused, Refused, Refused,
    // 0x91: i2b to lcmp
    Plain, Plain, Plain, Plain,
    // 0x95: fcmpl to dcmpg
    Refused, Refused, Refused, Refused,
    // 0x99: ifeq to goto
    S2, S2, S2, S2, S2, S2, S2, S2, S2, S2, S2, S2, S2, S2, S2,
    // 0xa8: jsr to ret
    Refused, Refused,
    // 0xaa: tableswitch
    Table,
    // 0xab: lookupswitch
    Lookup,
    // 0xac: ireturn to lreturn
    Plain, Plain,
    // 0xae: freturn to dreturn
    Refused, Refused,
    // 0xb0: areturn to return
    Plain, Plain,
    // 0xb2: getstatic to invokestatic
    U2, U2, U2, U2, U2, U2, U2,
    // 0xb9: invokeinterface
    Interface,
    // 0xba: invokedynamic
    Refused,
    // 0xbb: new
    U2,
    // 0xbc: newarray
    U1,
    // 0xbd: anewarray
    U2,
    // 0xbe: arraylength to athrow
    Plain, Plain,
    // 0xc0: checkcast to instanceof
    U2, U2,
    // 0xc2: monitorenter to monitorexit
    Plain, Plain,
    // 0xc4: wide
    Wide,
    // 0xc5: multianewarray
    Dimensions,
    // 0xc6: ifnull to ifnonnull
    S2, S2,
    // 0xc8: goto_w
    S4,
    // 0xc9: jsr_w
    Refused,
    // 0xca: no instructions of class files
    Unknown, Unknown, Unknown, Unknown, Unknown, Unknown, Unknown, Unknown, Unknown, Unknown,
    Unknown, Unknown, Unknown, Unknown, Unknown, Unknown, Unknown, Unknown, Unknown, Unknown,
    Unknown, Unknown, Unknown, Unknown, Unknown, Unknown, Unknown, Unknown, Unknown, Unknown,
    Unknown, Unknown, Unknown, Unknown, Unknown, Unknown, Unknown, Unknown, Unknown, Unknown,
    Unknown, Unknown, Unknown, Unknown, Unknown, Unknown, Unknown, Unknown, Unknown, Unknown,
    Unknown, Unknown, Unknown, Unknown,
];

fn form_in(forms: &[Form], opcode: u8) -> Form
    requires { length forms.now ≡ 256 }
    ensures { result ≡ slice_index_or forms.now opcode Form.Unknown }
{
    forms[opcode as usize]
}

/// The form of an opcode.
#[tactic(auto, using(crate::proofs::Table::form_at))]
pub fn form_behind(opcode: u8) -> Form
    ensures { result ≡ form_of opcode }
{
    form_in(&FORMS, opcode)
}

/// The form of an opcode that stands behind a `wide`.
pub fn form_behind_wide(opcode: u8) -> Form
    ensures { result ≡ wide_form_of opcode }
{
    match opcode {
        0x15 | 0x16 | 0x19 | 0x36 | 0x37 | 0x3a => U2,
        0x84 => LongIncrement,
        0x17 | 0x18 | 0x38 | 0x39 | 0xa9 => Refused,
        _ => Unknown,
    }
}
