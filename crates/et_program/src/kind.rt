//! Types, by their dimensions.

use et_base::ClassId;

/// What is under all dimensions of a type.
#[derive(Clone, Copy, Debug, PartialEq, Eq)]
pub enum Leaf {
    /// A base type, by its code in `newarray`.
    Base(u8),
    /// A class that is no array class.
    Class(ClassId),
}

/// A type: how many dimensions it has, none where it is no array type, and what is under them.
#[derive(Clone, Copy, Debug, PartialEq, Eq)]
pub struct Kind {
    pub dimensions: u8,
    pub leaf: Leaf,
}
