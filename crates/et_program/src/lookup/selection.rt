//! Selection: which method a call enters (JVMS 6.5, invokevirtual, invokeinterface, invokespecial).

ghost use Rattle.std.specs.Prelude.{◌≡◌, ℕ, ◌<◌, length, IfSome, IfOk, All};
ghost use Rattle.std.specs.List.{filter_map};
ghost use Rattle.et_program.specs.Members.{first_in, lineage};
ghost use Rattle.et_program.specs.Resolution.{select, select_special, select_from, is_selectable, selectable_in, special_start};
ghost use Rattle.et_program.specs.Counted.{IsOneBelow};
ghost use Rattle.et_program.specs.Signatures.{sought_name, sought_descriptor, IsSought};

use crate::errors::{LinkError, Specific};
use crate::program::Program;
use crate::signatures::Sought;
use et_base::{ClassId, MethodId};
use et_class::flags::{ABSTRACT, PRIVATE, STATIC, has};

impl Program {
    /// Whether selection may stop at a method.
    fn is_selectable(&self, special: bool, method: MethodId) -> bool
        requires { method < length self.now.methods }
        ensures { result ≡ is_selectable self.now special method }
    {
        let flags = self.method(method).flags;
        (special || !has(flags, PRIVATE)) && !has(flags, STATIC)
    }

    /// The method of a class with this name and descriptor, if selection may stop there.
    fn selectable_in(&self, special: bool, sought: &Sought<'_>, class: ClassId) -> Option<MethodId>
        requires { IsSought self.now sought.now }
        ensures value { result ≡ selectable_in self.now special (sought_name self.now sought.now)
            (sought_descriptor self.now sought.now) class }
        ensures within { IfSome result (λ m. m < length self.now.methods) }
    {
        match self.method_sought(sought, class) {
            Some(method) => if self.is_selectable(special, method) {
                Some(method)
            } else {
                None
            },
            None => None,
        }
    }

    /// The first such method in these classes.
    fn first_selectable(
        &self,
        special: bool,
        sought: &Sought<'_>,
        classes: &[ClassId],
    ) -> Option<MethodId>
        requires { IsSought self.now sought.now }
        ensures value { result
            ≡ first_in (selectable_in self.now special (sought_name self.now sought.now)
            (sought_descriptor self.now sought.now)) classes.now }
        ensures within { IfSome result (λ m. m < length self.now.methods) }
    {
        for class in classes {
            if let Some(method) = self.selectable_in(special, sought, *class) {
                return Some(method);
            }
        }
        None
    }

    /// The first such method in a class and its superclasses.
    fn selectable_upward(
        &self,
        special: bool,
        sought: &Sought<'_>,
        class: ClassId,
    ) -> Option<MethodId>
        requires sought { IsSought self.now sought.now }
        requires class { class < length self.now.classes }
        ensures value { result ≡ first_in
            (selectable_in self.now special (sought_name self.now sought.now)
            (sought_descriptor self.now sought.now)) (lineage self.now class) }
        ensures within { IfSome result (λ m. m < length self.now.methods) }
    {
        match self.selectable_in(special, sought, class) {
            Some(method) => Some(method),
            None => self.first_selectable(special, sought, self.entry(class).supers()),
        }
    }

    /// The method that is selected from a class upward.
    fn select_from(
        &self,
        special: bool,
        sought: &Sought<'_>,
        class: ClassId,
    ) -> Result<MethodId, LinkError>
        requires sought { IsSought self.now sought.now }
        requires class { class < length self.now.classes }
        ensures value { result ≡ select_from self.now special (sought_name self.now sought.now)
            (sought_descriptor self.now sought.now) class }
        ensures within { IfOk result (λ m. m < length self.now.methods) }
    {
        match self.selectable_upward(special, sought, class) {
            Some(method) => if has(self.method(method).flags, ABSTRACT) {
                Err(LinkError::AbstractMethod)
            } else {
                Ok(method)
            },
            None => match self.specific(sought, self.entry(class).superinterfaces()) {
                Specific::Nothing => Err(LinkError::AbstractMethod),
                Specific::One(method) => Ok(method),
                Specific::Several => Err(LinkError::IncompatibleClassChange),
            },
        }
    }

    /// The method that `invokevirtual`, or `by_interface` `invokeinterface`, of a resolved method enters at a receiver of
    /// this class (JVMS 6.5). `AbstractMethod` where it is abstract or there is none; `IncompatibleClassChange` where
    /// several superinterface methods are maximally specific, and by an interface where the resolved method is private
    /// or the class doesn't implement the interface that declares it.
    pub fn select(
        &self,
        class: ClassId,
        method: MethodId,
        by_interface: bool,
    ) -> Result<MethodId, LinkError>
        requires class { class < length self.now.classes }
        requires method { method < length self.now.methods }
        ensures value { result ≡ select self.now class method by_interface }
        ensures within { IfOk result (λ m. m < length self.now.methods) }
    {
        let resolved = self.method(method);
        let is_private = has(resolved.flags, PRIVATE);
        if by_interface {
            if is_private || !self.is_subclass(class, resolved.class) {
                return Err(LinkError::IncompatibleClassChange);
            }
        } else if is_private {
            return Ok(method);
        }
        self.select_from(false, &Sought::Like(method), class)
    }

    /// Where the search of invokespecial begins.
    fn special_start(&self, current: ClassId, named: ClassId) -> ClassId
        requires current { current < length self.now.classes }
        requires named { named < length self.now.classes }
        ensures value { result ≡ special_start self.now current named }
        ensures within { result < length self.now.classes }
    {
        let supers = self.entry(current).supers();
        if !supers.contains(&named) {
            return named;
        }
        match supers {
            [above, ..] => *above,
            [] => named,
        }
    }

    /// The method that `invokespecial` in a method of the current class enters, by the class that its operand names and
    /// the method that this resolves to (JVMS 6.5). `NoSuchMethod` exactly for an `<init>` that the named class doesn't
    /// itself declare; the other errors as in [`select`](Program::select). For an array class name Object.
    pub fn select_special(
        &self,
        current: ClassId,
        named: ClassId,
        method: MethodId,
    ) -> Result<MethodId, LinkError>
        requires current { current < length self.now.classes }
        requires named { named < length self.now.classes }
        requires method { method < length self.now.methods }
        ensures value { result ≡ select_special self.now current named method }
        ensures within { IfOk result (λ m. m < length self.now.methods) }
    {
        if self.is_constructor(method) {
            return if self.method(method).class == named {
                Ok(method)
            } else {
                Err(LinkError::NoSuchMethod)
            };
        }
        let start = self.special_start(current, named);
        self.select_from(true, &Sought::Like(method), start)
    }
}
