//! What is looked up in a program: what a name means in a class, which method a call enters, and whether a value has a type.

pub(crate) mod referring;
pub(crate) mod resolution;
pub(crate) mod resolved;
pub(crate) mod selection;
pub(crate) mod types;
