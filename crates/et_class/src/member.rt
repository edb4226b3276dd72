//! Attributes, fields and methods.

use et_code::Code;

/// An attribute (JVMS 4.7).
#[derive(Debug, Drop)]
pub struct Attribute {
    /// The index of its name in the pool, a Utf8 entry.
    pub name_index: u16,
    /// The bytes behind its length.
    pub body: Vec<u8>,
}

/// A field or a method (JVMS 4.5, 4.6).
#[derive(Debug, Drop)]
pub struct Member {
    /// The access flags, of [`flags`](crate::flags).
    pub access_flags: u16,
    /// The index of the name in the pool, a Utf8 entry.
    pub name_index: u16,
    /// The index of the descriptor in the pool, a Utf8 entry.
    pub descriptor_index: u16,
    /// All attributes, in the order of the file.
    pub attributes: Vec<Attribute>,
    /// The index of the constant that the `ConstantValue` of a static field gives; 0 where there
    /// is none (JVMS 4.7.2).
    pub constant: u16,
    /// The code of a method, that of its `Code` attribute (JVMS 4.7.3).
    pub code: Option<Code>,
}
