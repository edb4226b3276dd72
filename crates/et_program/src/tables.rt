//! The tables of a program; below, what they keep of a class, and the indices by which a name, a method or an array class is
//! found.

pub(crate) mod class;
pub(crate) mod indices;
pub(crate) mod method_index;
pub(crate) mod names;
pub(crate) mod order;

use crate::info::{FieldInfo, MethodInfo};
use crate::tables::class::Class;
use et_base::{FieldId, MethodId};
use et_class::Pool;

/// What a program is made of.
#[derive(Drop)]
pub struct Tables {
    /// The classes, each at its number.
    pub classes: Vec<Class>,
    /// The methods, each at its number.
    pub methods: Vec<MethodInfo>,
    /// The fields, each at its number.
    pub fields: Vec<FieldInfo>,
    /// The static fields, each at its slot.
    pub statics: Vec<FieldId>,
    /// The methods of the files, in their order.
    pub file_methods: Vec<MethodId>,
    /// The method `main` of the first file.
    pub main: MethodId,
    /// The pools of the classes that are no array classes, each at the number of its class.
    pub pools: Vec<Pool>,
}
