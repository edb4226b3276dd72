//! Opcodes that rules speak of (JVMS 6.5), by their mnemonics.

/// `ldc`.
pub const LDC: u8 = 0x12;
/// `ldc_w`.
pub const LDC_W: u8 = 0x13;
/// `ldc2_w`.
pub const LDC2_W: u8 = 0x14;
/// `iload`.
pub const ILOAD: u8 = 0x15;
/// `lload`.
pub const LLOAD: u8 = 0x16;
/// `aload`.
pub const ALOAD: u8 = 0x19;
/// `iload_0`.
pub const ILOAD_0: u8 = 0x1a;
/// `lload_0`.
pub const LLOAD_0: u8 = 0x1e;
/// `aload_0`.
pub const ALOAD_0: u8 = 0x2a;
/// `istore`.
pub const ISTORE: u8 = 0x36;
/// `lstore`.
pub const LSTORE: u8 = 0x37;
/// `astore`.
pub const ASTORE: u8 = 0x3a;
/// `istore_0`.
pub const ISTORE_0: u8 = 0x3b;
/// `lstore_0`.
pub const LSTORE_0: u8 = 0x3f;
/// `astore_0`.
pub const ASTORE_0: u8 = 0x4b;
/// `iinc`.
pub const IINC: u8 = 0x84;
/// `ifeq`.
pub const IFEQ: u8 = 0x99;
/// `goto`.
pub const GOTO: u8 = 0xa7;
/// `tableswitch`.
pub const TABLESWITCH: u8 = 0xaa;
/// `lookupswitch`.
pub const LOOKUPSWITCH: u8 = 0xab;
/// `getstatic`.
pub const GETSTATIC: u8 = 0xb2;
/// `putstatic`.
pub const PUTSTATIC: u8 = 0xb3;
/// `getfield`.
pub const GETFIELD: u8 = 0xb4;
/// `putfield`.
pub const PUTFIELD: u8 = 0xb5;
/// `invokevirtual`.
pub const INVOKEVIRTUAL: u8 = 0xb6;
/// `invokespecial`.
pub const INVOKESPECIAL: u8 = 0xb7;
/// `invokestatic`.
pub const INVOKESTATIC: u8 = 0xb8;
/// `invokeinterface`.
pub const INVOKEINTERFACE: u8 = 0xb9;
/// `new`.
pub const NEW: u8 = 0xbb;
/// `newarray`.
pub const NEWARRAY: u8 = 0xbc;
/// `anewarray`.
pub const ANEWARRAY: u8 = 0xbd;
/// `checkcast`.
pub const CHECKCAST: u8 = 0xc0;
/// `instanceof`.
pub const INSTANCEOF: u8 = 0xc1;
/// `wide`.
pub const WIDE: u8 = 0xc4;
/// `multianewarray`.
pub const MULTIANEWARRAY: u8 = 0xc5;
/// `ifnull`.
pub const IFNULL: u8 = 0xc6;
/// `ifnonnull`.
pub const IFNONNULL: u8 = 0xc7;
/// `goto_w`.
pub const GOTO_W: u8 = 0xc8;
