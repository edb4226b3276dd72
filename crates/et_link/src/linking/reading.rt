//! What is read of the files.

use et_base::Name;
use et_hierarchy::{ClassOutline, Links, Row};
use et_pool::Pool;
use et_program::{FieldInfo, MethodInfo};

/// How the classes of the set stand above one another, and their access flags.
#[derive(Drop)]
pub(crate) struct Hierarchy {
    pub table: Vec<Links>,
    pub rows: Vec<Row>,
    pub flags: Vec<u16>,
}

/// The members of all classes, and the pools.
#[derive(Drop)]
pub(crate) struct Parts {
    pub methods: Vec<MethodInfo>,
    pub fields: Vec<FieldInfo>,
    pub pools: Vec<Pool>,
}

/// What was read of the files.
#[derive(Drop)]
pub(crate) struct Declared {
    pub set: Vec<ClassOutline>,
    pub hierarchy: Hierarchy,
    pub parts: Parts,
    pub met: Vec<Name>,
}
