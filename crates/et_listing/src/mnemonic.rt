//! Mnemonics.

ghost use Rattle.std.specs.Prelude.{◌≡◌, slice_index_or, position, IfOk};
ghost use Rattle.et_listing.specs.Words.{same_word};
ghost use Rattle.et_listing.specs.Mnemonics.{mnemonics, mnemonic_shape};

use self::Shape::{
    Array, BaseArray, Branch, Byte, Direct, Field, Increment, Interface, Load, Local, LongLoad,
    Lookup, Plain, Refused, Short, Table, Type, Virtual,
};
use crate::split::words_of;
use crate::word::Word;
use indexmap::IndexSet;
use std::alloc::{AllocError, Global};

/// What operands stand behind a mnemonic.
#[derive(Clone, Copy, Debug, PartialEq, Eq)]
pub(crate) enum Shape {
    /// None.
    Plain,
    /// A number of 8 bits.
    Byte,
    /// A number of 16 bits.
    Short,
    /// `int` and a number of 32 bits, or `string` and a text.
    Load,
    /// A number of 64 bits.
    LongLoad,
    /// A local variable.
    Local,
    /// A local variable and a number of 16 bits.
    Increment,
    /// A label.
    Branch,
    /// A class, a name and a descriptor of a field.
    Field,
    /// Those of a method.
    Virtual,
    /// Those of a method; behind the word `interface` those of a method of an interface.
    Direct,
    /// Those of a method of an interface.
    Interface,
    /// A class.
    Type,
    /// The word of a base type.
    BaseArray,
    /// A class and a number of dimensions.
    Array,
    /// The least number, labels, `default` and a label.
    Table,
    /// Pairs of a number and a label, `default` and a label.
    Lookup,
    /// This is no mnemonic of a listing.
    Refused,
}

/// The mnemonics of all instructions of JVMS 6.5, in the order of their opcodes.
const NAMES: &[u8] = b"\
    nop aconst_null iconst_m1 iconst_0 iconst_1 iconst_2 iconst_3 iconst_4 iconst_5 \
    lconst_0 lconst_1 fconst_0 fconst_1 fconst_2 dconst_0 dconst_1 bipush sipush ldc \
    ldc_w ldc2_w iload lload fload dload aload iload_0 iload_1 iload_2 iload_3 lload_0 \
    lload_1 lload_2 lload_3 fload_0 fload_1 fload_2 fload_3 dload_0 dload_1 dload_2 \
    dload_3 aload_0 aload_1 aload_2 aload_3 iaload laload faload daload aaload baload \
    caload saload istore lstore fstore dstore astore istore_0 istore_1 istore_2 istore_3 \
    lstore_0 lstore_1 lstore_2 lstore_3 fstore_0 fstore_1 fstore_2 fstore_3 dstore_0 \
    dstore_1 dstore_2 dstore_3 astore_0 astore_1 astore_2 astore_3 iastore lastore \
    fastore dastore aastore bastore castore sastore pop pop2 dup dup_x1 dup_x2 dup2 \
    dup2_x1 dup2_x2 swap iadd ladd fadd dadd isub lsub fsub dsub imul lmul fmul dmul \
    idiv ldiv fdiv ddiv irem lrem frem drem ineg lneg fneg dneg ishl lshl ishr lshr \
    iushr lushr iand land ior lor ixor lxor iinc i2l i2f i2d l2i l2f l2d f2i f2l f2d d2i \
    d2l d2f i2b i2c i2s lcmp fcmpl fcmpg dcmpl dcmpg ifeq ifne iflt ifge ifgt ifle \
    if_icmpeq if_icmpne if_icmplt if_icmpge if_icmpgt if_icmple if_acmpeq if_acmpne goto \
    jsr ret tableswitch lookupswitch ireturn lreturn freturn dreturn areturn return \
    getstatic putstatic getfield putfield invokevirtual invokespecial invokestatic \
    invokeinterface invokedynamic new newarray anewarray arraylength athrow checkcast \
    instanceof monitorenter monitorexit wide multianewarray ifnull ifnonnull goto_w \
    jsr_w";

/// What operands stand behind each mnemonic of a listing. `wide` and `ldc_w` are none: they are put
/// where they are needed.
static SHAPES: [Shape; 202] = [
    // nop to lconst_1
    Plain, Plain, Plain, Plain, Plain, Plain, Plain, Plain, Plain, Plain, Plain,
    // fconst_0 to dconst_1
    Refused, Refused, Refused, Refused, Refused,
    // bipush
    Byte,
    // sipush
    Short,
    // ldc
    Load,
    // ldc_w
    Refused,
    // ldc2_w
    LongLoad,
    // iload to lload
    Local, Local,
    // fload to dload
    Refused, Refused,
    // aload
    Local,
    // iload_0 to lload_3
    Plain, Plain, Plain, Plain, Plain, Plain, Plain, Plain,
    // fload_0 to dload_3
    Refused, Refused, Refused, Refused, Refused, Refused, Refused, Refused,
    // aload_0 to laload
    Plain, Plain, Plain, Plain, Plain, Plain,
    // faload to daload
    Refused, Refused,
    // aaload to saload
    Plain, Plain, Plain, Plain,
    // istore to lstore
    Local, Local,
    // fstore to dstore
    Refused, Refused,
    // astore
    Local,
    // istore_0 to lstore_3
    Plain, Plain, Plain, Plain, Plain, Plain, Plain, Plain,
    // fstore_0 to dstore_3
    Refused, Refused, Refused, Refused, Refused, Refused, Refused, Refused,
    // astore_0 to lastore
    Plain, Plain, Plain, Plain, Plain, Plain,
    // fastore to dastore
    Refused, Refused,
    // aastore to ladd
    Plain, Plain, Plain, Plain, Plain, Plain, Plain, Plain, Plain, Plain, Plain, Plain, Plain,
    Plain, Plain,
    // fadd to dadd
    Refused, Refused,
    // isub to lsub
    Plain, Plain,
    // fsub to dsub
    Refused, Refused,
    // imul to lmul
    Plain, Plain,
    // fmul to dmul
    Refused, Refused,
    // idiv to ldiv
    Plain, Plain,
    // fdiv to ddiv
    Refused, Refused,
    // irem to lrem
    Plain, Plain,
    // frem to drem
    Refused, Refused,
    // ineg to lneg
    Plain, Plain,
    // fneg to dneg
    Refused, Refused,
    // ishl to lxor
    Plain, Plain, Plain, Plain, Plain, Plain, Plain, Plain, Plain, Plain, Plain, Plain,
    // iinc
    Increment,
    // i2l
    Plain,
    // i2f to i2d
    Refused, Refused,
    // l2i
    Plain,
    // l2f to d2f
    Refused, Refused, Refused, Refused, Refused, Refused, Refused, Refused,
    // i2b to lcmp
    Plain, Plain, Plain, Plain,
    // fcmpl to dcmpg
    Refused, Refused, Refused, Refused,
    // ifeq to goto
    Branch, Branch, Branch, Branch, Branch, Branch, Branch, Branch, Branch, Branch, Branch, Branch,
    Branch, Branch, Branch,
    // jsr to ret
    Refused, Refused,
    // tableswitch
    Table,
    // lookupswitch
    Lookup,
    // ireturn to lreturn
    Plain, Plain,
    // freturn to dreturn
    Refused, Refused,
    // areturn to return
    Plain, Plain,
    // getstatic to putfield
    Field, Field, Field, Field,
    // invokevirtual
    Virtual,
    // invokespecial to invokestatic
    Direct, Direct,
    // invokeinterface
    Interface,
    // invokedynamic
    Refused,
    // new
    Type,
    // newarray
    BaseArray,
    // anewarray
    Type,
    // arraylength to athrow
    Plain, Plain,
    // checkcast to instanceof
    Type, Type,
    // monitorenter to monitorexit
    Plain, Plain,
    // wide
    Refused,
    // multianewarray
    Array,
    // ifnull to goto_w
    Branch, Branch, Branch,
    // jsr_w
    Refused,
];

fn shape_in(shapes: &[Shape], opcode: u8) -> Shape
    ensures { result ≡ slice_index_or shapes.now opcode Shape.Refused }
{
    if (opcode as usize) < shapes.len() {
        shapes[opcode as usize]
    } else {
        Refused
    }
}

/// What operands stand behind the mnemonic of an opcode.
#[tactic(auto, unfolding(crate::specs::Mnemonics::mnemonic_shape))]
pub(crate) fn operands_of(opcode: u8) -> Shape
    ensures { result ≡ mnemonic_shape opcode }
{
    shape_in(&SHAPES, opcode)
}

/// The mnemonics, each at its opcode.
#[tactic(auto, using(std::proofs::lemmas::List::Sums::fold_more), unfolding(crate::specs::Mnemonics::mnemonics))]
pub(crate) fn mnemonics<'a>(alloc: Global) -> Result<IndexSet<Word<'a>>, AllocError>
    ensures { IfOk result (λ names. names.keys ≡ mnemonics) }
{
    let words = words_of(alloc, NAMES)?;
    let mut names = IndexSet::new(alloc);
    for word in &words {
        names.insert(word.copy())?;
    }
    Ok(names)
}

/// The opcode of a mnemonic.
pub(crate) fn opcode_of<'a>(names: &IndexSet<Word<'a>>, word: &Word<'a>) -> Option<usize>
    ensures { result ≡ position (λ name. same_word word.now name) names.now.keys }
{
    names.get_index_of(word)
}
