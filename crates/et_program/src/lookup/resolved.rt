//! What the entries of the pools refer to, resolved once and kept beside them.

ghost use Rattle.std.specs.Prelude.{◌≡◌, ℕ, ◌<◌, length, IfSome, IfOk};
ghost use Rattle.std.specs.List.{slice_index_or};
ghost use Rattle.et_program.specs.declared.lookup.resolved.Resolved.TheVariants.{Nothing};
ghost use Rattle.et_program.specs.Referring.{class_referred, field_referred, is_field_referred, method_referred};
ghost use Rattle.et_program.specs.Resolved.{IsResolved, IsNamedWithin, AreResolved};

use crate::errors::LinkError;
use crate::lookup::referring::{NamedMethod, Referred};
use crate::program::Program;
use et_base::{ClassId, FieldId, MethodId, NoMemory};
use et_class::tags::{CLASS, FIELDREF, INTERFACE_METHODREF, METHODREF};
use std::alloc::Global;
use std::marker::Model;

/// What is kept of an entry of a pool: what it refers to, or the error that its resolution throws.
#[derive(Clone, Copy)]
pub(crate) enum Resolved {
    /// It refers to no class, field or method.
    Nothing,
    /// The class that a Class entry refers to.
    Class(ClassId),
    /// The error of a Class entry.
    NoClass(LinkError),
    /// The field that a Fieldref entry refers to, whose descriptor is that of a field.
    Field(FieldId),
    /// The error of a Fieldref entry, whose descriptor is that of a field.
    NoField(LinkError),
    /// The class that a Methodref or InterfaceMethodref entry names, and the method that it refers to.
    Method(ClassId, MethodId),
    /// The error of a Methodref or InterfaceMethodref entry.
    NoMethod(LinkError),
}

/// What is kept of the entries of one pool, each at its index.
#[derive(Drop)]
pub(crate) struct ResolvedPool {
    entries: Vec<Resolved>,
}

impl Model for ResolvedPool {
    ghost use Rattle.std.specs.Prelude.{List};
    ghost use Rattle.et_program.specs.declared.lookup.resolved.Resolved.{Resolved};

    ghost Value = { List Resolved };

    ghost view = { λ r. r.entries.items };
}

impl ResolvedPool {
    /// What is kept of the entry at an index.
    pub(crate) fn at(&self, index: u16) -> Resolved
        ensures { result ≡ slice_index_or self.now index Nothing }
    {
        match self.entries.get(index as usize) {
            Some(entry) => *entry,
            None => Resolved::Nothing,
        }
    }
}

impl Program {
    /// What is to be kept of the entry at an index of the pool of a class.
    fn entry_resolved(&self, class: ClassId, index: u16) -> Resolved
        requires { class < length self.now.classes }
        ensures { IsResolved self.now class index result }
    {
        match self.tag_in(class, index) {
            CLASS => match self.class_by_entry(class, index) {
                Some(Ok(found)) => Resolved::Class(found),
                Some(Err(error)) => Resolved::NoClass(error),
                None => Resolved::Nothing,
            },
            FIELDREF if self.is_field_by_entry(class, index) => match self.field_by_entry(
                class, index,
            ) {
                Some(Ok(found)) => Resolved::Field(found),
                Some(Err(error)) => Resolved::NoField(error),
                None => Resolved::Nothing,
            },
            METHODREF | INTERFACE_METHODREF => match self.method_by_entry(class, index) {
                Some(Ok(found)) => Resolved::Method(found.class, found.method),
                Some(Err(error)) => Resolved::NoMethod(error),
                None => Resolved::Nothing,
            },
            _ => Resolved::Nothing,
        }
    }

    /// What is to be kept of the entries of the pool of a class.
    fn pool_resolved(&self, alloc: Global, class: ClassId) -> Result<ResolvedPool, NoMemory>
        requires { class < length self.now.classes }
        ensures { IfOk result
            (λ r. (index : ℕ) → IsResolved self.now class index (slice_index_or r index Nothing)) }
    {
        // An index has 16 bits.
        let count = match self.pool(class) {
            Some(pool) => pool.len().min(65_535) as u16,
            None => 0,
        };
        let mut entries = Vec::with_capacity(alloc, count as usize)?;
        for index in 0..count {
            entries.push(self.entry_resolved(class, index))?;
        }
        Ok(ResolvedPool { entries })
    }

    /// What is to be kept of the entries of all pools. The only error is want of memory.
    pub(crate) fn pools_resolved(&self, alloc: Global) -> Result<Vec<ResolvedPool>, NoMemory>
        ensures { IfOk result (λ r. AreResolved self.now r.items) }
    {
        let count = self.class_count();
        let mut pools = Vec::with_capacity(alloc, count as usize)?;
        for class in 0..count {
            let pool = self.pool_resolved(alloc, ClassId::new(class))?;
            pools.push(pool)?;
        }
        Ok(pools)
    }

    /// The class that the Class entry at an index of the pool of a class refers to (JVMS 5.4.3.1), or `NoClassDefFound`;
    /// `None` where there is no such entry. It was resolved as the program was linked.
    pub fn class_at_index(&self, class: ClassId, index: u16) -> Referred<ClassId>
        requires { class < length self.now.classes }
        ensures value { result ≡ class_referred self.now class index }
        ensures within { IfSome result (λ r. IfOk r (λ c. c < length self.now.classes)) }
    {
        match self.kept_at(class, index) {
            Resolved::Class(found) => Some(Ok(found)),
            Resolved::NoClass(error) => Some(Err(error)),
            _ => self.class_by_entry(class, index),
        }
    }

    /// Whether the Fieldref, Methodref or InterfaceMethodref entry at an index of the pool of a class has the descriptor of a
    /// field (JVMS 4.3.2); `false` where there is no such entry. That of a Fieldref was read as the program was linked.
    pub fn is_field_at_index(&self, class: ClassId, index: u16) -> bool
        requires { class < length self.now.classes }
        ensures { result ≡ is_field_referred self.now class index }
    {
        match self.kept_at(class, index) {
            Resolved::Field(_) | Resolved::NoField(_) => true,
            _ => self.is_field_by_entry(class, index),
        }
    }

    /// The field that the Fieldref, Methodref or InterfaceMethodref entry at an index of the pool of a class gives the names
    /// of (JVMS 5.4.3.2), or the error of its resolution; `None` where there is no such entry. That of a Fieldref was
    /// resolved as the program was linked.
    pub fn field_at_index(&self, class: ClassId, index: u16) -> Referred<FieldId>
        requires { class < length self.now.classes }
        ensures value { result ≡ field_referred self.now class index }
        ensures within { IfSome result (λ r. IfOk r (λ f. f < length self.now.fields)) }
    {
        match self.kept_at(class, index) {
            Resolved::Field(found) => Some(Ok(found)),
            Resolved::NoField(error) => Some(Err(error)),
            _ => self.field_by_entry(class, index),
        }
    }

    /// The method that the Fieldref, Methodref or InterfaceMethodref entry at an index of the pool of a class gives the names
    /// of (JVMS 5.4.3.3, 5.4.3.4), with the class that it names, or the error of its resolution; `None` where there is no such
    /// entry. That of a Methodref or InterfaceMethodref was resolved as the program was linked.
    pub fn method_at_index(&self, class: ClassId, index: u16) -> Referred<NamedMethod>
        requires { class < length self.now.classes }
        ensures value { result ≡ method_referred self.now class index }
        ensures within { IfSome result (λ r. IfOk r (IsNamedWithin self.now)) }
    {
        match self.kept_at(class, index) {
            Resolved::Method(class, method) => Some(Ok(NamedMethod { class, method })),
            Resolved::NoMethod(error) => Some(Err(error)),
            _ => self.method_by_entry(class, index),
        }
    }
}
