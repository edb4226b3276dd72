//! What a program tells of its classes, methods and fields.

use et_base::{ClassId, FieldId, MethodId, Name};
use et_class::Code;

/// What an array class has as its elements.
#[derive(Clone, Copy, Debug, PartialEq, Eq)]
pub enum Element {
    /// The class is no array class.
    NoArray,
    /// A base type, by its code in `newarray` (JVMS 6.5, table newarray).
    Base(u8),
    /// A class, an array class among them.
    Class(ClassId),
}

/// A class.
#[derive(Debug, Drop)]
pub struct ClassInfo {
    /// The name; of an array class, its descriptor (JVMS 4.4.1).
    pub name: Name,
    /// The access flags (JVMS table 4.1-A).
    pub flags: u16,
    /// What it has as its elements where it is an array class.
    pub element: Element,
    /// How many slots an instance has, those of its superclasses among them.
    pub slots: u32,
    /// The method `<clinit> ()V` with code, if it declares one (JVMS 2.9).
    pub clinit: Option<MethodId>,
    /// The classes that have to be initialized before it, in order (JVMS 5.5).
    pub prerequisites: Vec<ClassId>,
    /// The static fields that have a `ConstantValue`, in the order of the file (JVMS 4.7.2).
    pub constants: Vec<FieldId>,
}

/// A method.
#[derive(Debug, Drop)]
pub struct MethodInfo {
    /// The class that declares it.
    pub class: ClassId,
    /// The name.
    pub name: Name,
    /// The method descriptor (JVMS 4.3.3).
    pub descriptor: Name,
    /// The access flags (JVMS table 4.6-A).
    pub flags: u16,
    /// The code; `None` where it is abstract or native, or a built-in that the machine runs itself.
    pub code: Option<Code>,
    /// Whether it is a built-in method without code of Thread, Reference, WeakReference or ReferenceQueue.
    pub deferred: bool,
}

/// A field.
#[derive(Debug, Drop)]
pub struct FieldInfo {
    /// The class that declares it.
    pub class: ClassId,
    /// The name.
    pub name: Name,
    /// The field descriptor (JVMS 4.3.2).
    pub descriptor: Name,
    /// The access flags (JVMS table 4.5-A).
    pub flags: u16,
    /// Its slot: of a static field among all static fields, of another one in an instance.
    pub slot: u32,
    /// The index of its constant in the pool of its class, or 0 where it has none (JVMS 4.7.2).
    pub constant: u16,
}
