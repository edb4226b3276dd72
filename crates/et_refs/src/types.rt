//! Types, what fields and elements hold of them, and the instructions that ask for the class of an object.

pub(crate) mod casts;
pub(crate) mod instances;
pub(crate) mod kinds;
