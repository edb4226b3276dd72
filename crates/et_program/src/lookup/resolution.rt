//! Resolution: what a name and a descriptor mean in a class (JVMS 5.4.3.2 to 5.4.3.4).

ghost use Rattle.std.specs.Prelude.{◌≡◌, ℕ, ◌<◌, length, IfSome, IfOk, All};
ghost use Rattle.std.specs.List.{filter_map};
ghost use Rattle.et_program.specs.Members.{method_in, field_in, first_in, is_open_method, open_in, is_overridden, specific_in, amount, resolved_above};
ghost use Rattle.et_program.specs.Resolution.{resolve_field, resolve_method};
ghost use Rattle.et_program.specs.Counted.{IsOneBelow};
ghost use Rattle.et_program.specs.Signatures.{sought_name, sought_descriptor, IsSought};

use crate::errors::{LinkError, Specific};
use crate::program::Program;
use crate::signatures::Sought;
use et_base::{ClassId, FieldId, MethodId};
use et_class::flags::{ABSTRACT, INTERFACE, PRIVATE, STATIC, has};

impl Program {
    /// The field that a name and a descriptor mean in a class (JVMS 5.4.3.2): that of the class itself, of its
    /// superinterfaces in order, or of its superclass and what is above that. `NoSuchField` exactly where there is none.
    pub fn resolve_field(
        &self,
        owner: ClassId,
        name: &[u8],
        descriptor: &[u8],
    ) -> Result<FieldId, LinkError>
        requires { owner < length self.now.classes }
        ensures value { result ≡ resolve_field self.now owner name.now descriptor.now }
        ensures within { IfOk result (λ f. f < length self.now.fields) }
    {
        let order = self.entry(owner).field_order();
        for class in order {
            if let Some(field) = self.field_in(name, descriptor, *class) {
                return Ok(field);
            }
        }
        Err(LinkError::NoSuchField)
    }

    /// The method in the first of these classes that has it.
    fn first_method(&self, sought: &Sought<'_>, classes: &[ClassId]) -> Option<MethodId>
        requires { IsSought self.now sought.now }
        ensures value { result ≡ first_in (method_in self.now (sought_name self.now sought.now)
            (sought_descriptor self.now sought.now)) classes.now }
        ensures within { IfSome result (λ m. m < length self.now.methods) }
    {
        for class in classes {
            if let Some(method) = self.method_sought(sought, *class) {
                return Some(method);
            }
        }
        None
    }

    /// Whether a method is neither private nor static.
    fn is_open(&self, method: MethodId) -> bool
        requires { method < length self.now.methods }
        ensures { result ≡ is_open_method self.now method }
    {
        let flags = self.method(method).flags;
        !has(flags, PRIVATE) && !has(flags, STATIC)
    }

    /// The method of a class with this name and descriptor, if it is neither private nor static.
    fn open_in(&self, sought: &Sought<'_>, class: ClassId) -> Option<MethodId>
        requires { IsSought self.now sought.now }
        ensures value { result ≡ open_in self.now (sought_name self.now sought.now)
            (sought_descriptor self.now sought.now) class }
        ensures within { IfSome result (λ m. m < length self.now.methods) }
    {
        match self.method_sought(sought, class) {
            Some(method) => if self.is_open(method) {
                Some(method)
            } else {
                None
            },
            None => None,
        }
    }

    /// The first such method in these classes.
    fn first_open(&self, sought: &Sought<'_>, classes: &[ClassId]) -> Option<MethodId>
        requires { IsSought self.now sought.now }
        ensures value { result ≡ first_in (open_in self.now (sought_name self.now sought.now)
            (sought_descriptor self.now sought.now)) classes.now }
        ensures within { IfSome result (λ m. m < length self.now.methods) }
    {
        for class in classes {
            if let Some(method) = self.open_in(sought, *class) {
                return Some(method);
            }
        }
        None
    }

    /// Whether one of these interfaces has such a method and is below the given one.
    fn is_overridden(&self, sought: &Sought<'_>, all: &[ClassId], interface: ClassId) -> bool
        requires sought { IsSought self.now sought.now }
        requires all { All (λ k. k < length self.now.classes) all.now }
        ensures { result ≡ is_overridden self.now (sought_name self.now sought.now)
            (sought_descriptor self.now sought.now) all.now interface }
    {
        for other in all {
            if self.is_above(interface, *other) && self.open_in(sought, *other).is_some() {
                return true;
            }
        }
        false
    }

    /// The method of an interface, where it is maximally specific among these and isn't abstract.
    fn specific_in(
        &self,
        sought: &Sought<'_>,
        all: &[ClassId],
        interface: ClassId,
    ) -> Option<MethodId>
        requires sought { IsSought self.now sought.now }
        requires all { All (λ k. k < length self.now.classes) all.now }
        ensures value { result ≡ specific_in self.now (sought_name self.now sought.now)
            (sought_descriptor self.now sought.now) all.now interface }
        ensures within { IfSome result (λ m. m < length self.now.methods) }
    {
        if self.is_overridden(sought, all, interface) {
            return None;
        }
        match self.open_in(sought, interface) {
            Some(method) => if has(self.method(method).flags, ABSTRACT) {
                None
            } else {
                Some(method)
            },
            None => None,
        }
    }

    /// The maximally specific methods among these interfaces that aren't abstract.
    #[tactic(auto, using(crate::proofs::Counting::counting_rules))]
    pub(crate) fn specific(&self, sought: &Sought<'_>, all: &[ClassId]) -> Specific
        requires sought { IsSought self.now sought.now }
        requires all { All (λ k. k < length self.now.classes) all.now }
        ensures value { result
            ≡ amount (filter_map (specific_in self.now (sought_name self.now sought.now)
            (sought_descriptor self.now sought.now) all.now) all.now) }
        ensures within { IsOneBelow (length self.now.methods) result }
    {
        let mut found = Specific::Nothing;
        for interface in all {
            let more = self.specific_in(sought, all, *interface);
            found = found.and_more(more);
        }
        found
    }

    /// The method that the last two steps of resolution find.
    fn resolved_above(&self, sought: &Sought<'_>, class: ClassId) -> Option<MethodId>
        requires sought { IsSought self.now sought.now }
        requires class { class < length self.now.classes }
        ensures value { result ≡ resolved_above self.now (sought_name self.now sought.now)
            (sought_descriptor self.now sought.now) class }
        ensures within { IfSome result (λ m. m < length self.now.methods) }
    {
        let all = self.entry(class).superinterfaces();
        match self.specific(sought, all) {
            Specific::One(method) => Some(method),
            _ => self.first_open(sought, all),
        }
    }

    /// The method that a name and a descriptor mean in a class (JVMS 5.4.3.3), or `by_interface` in an interface
    /// (JVMS 5.4.3.4). An array class has the methods of Object. `IncompatibleClassChange` exactly where the owner is of
    /// the other kind, `NoSuchMethod` exactly where it is of the right one and there is no such method.
    pub fn resolve_method(
        &self,
        owner: ClassId,
        by_interface: bool,
        name: &[u8],
        descriptor: &[u8],
    ) -> Result<MethodId, LinkError>
        requires { owner < length self.now.classes }
        ensures value { result
            ≡ resolve_method self.now owner by_interface name.now descriptor.now }
        ensures within { IfOk result (λ m. m < length self.now.methods) }
    {
        let sought = Sought::Named { name, descriptor };
        let class = self.entry(owner);
        if has(class.info().flags, INTERFACE) != by_interface {
            return Err(LinkError::IncompatibleClassChange);
        }
        if let Some(method) = self.method_sought(&sought, owner) {
            return Ok(method);
        }
        if !by_interface {
            if let Some(method) = self.first_method(&sought, class.supers()) {
                return Ok(method);
            }
        }
        self.resolved_above(&sought, owner)
            .ok_or(LinkError::NoSuchMethod)
    }
}
