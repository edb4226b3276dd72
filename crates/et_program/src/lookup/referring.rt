//! What the entries of a pool refer to (JVMS 4.4.1, 4.4.2, 5.4.3), by their names.

ghost use Rattle.std.specs.Prelude.{◌≡◌, ◌<◌, length, IfSome, IfOk, option_map};
ghost use Rattle.et_class.specs.Looks.{class_name_at, tag_at};
ghost use Rattle.et_program.specs.Referring.{pool_of_class, member_described, field_of_member, method_of_member, class_referred, field_referred, is_field_referred, method_referred};
ghost use Rattle.et_program.specs.Resolved.{shown_names, IsNamedWithin};

use crate::errors::LinkError;
use crate::program::Program;
use et_base::{ClassId, FieldId, MethodId};
use et_class::Pool;
use et_class::descriptor::is_field_descriptor;
use et_class::tags::INTERFACE_METHODREF;

/// A method that an entry of a pool refers to, as it was resolved (JVMS 5.4.3.3, 5.4.3.4).
#[derive(Clone, Copy, Debug, PartialEq, Eq)]
pub struct NamedMethod {
    /// The class that the entry names, which need not be that which declares the method.
    pub class: ClassId,
    /// The method.
    pub method: MethodId,
}

/// What an entry of a pool refers to, or the error of its resolution; `None` where it is no such entry.
pub type Referred<T> = Option<Result<T, LinkError>>;

/// A member as an entry of a pool gives it: the class, the name and the descriptor, borrowed from the pool.
#[derive(Clone, Copy)]
pub struct MemberAt<'a> {
    pub owner: &'a [u8],
    pub name: &'a [u8],
    pub descriptor: &'a [u8],
}

/// The member that the entry at an index of a pool gives (JVMS 4.4.2); `None` where it is no such entry. The bytes
/// are borrowed from the pool.
pub fn member_at<'a>(pool: &'a Pool, index: u16) -> Option<MemberAt<'a>>
    ensures { option_map shown_names result ≡ member_described pool.now.slots index }
{
    let (owner, name_and_type) = pool.member(index)?;
    let owner = pool.class_name(owner)?;
    let (name, descriptor) = pool.name_and_type(name_and_type)?;
    let name = pool.utf8(name)?;
    let descriptor = pool.utf8(descriptor)?;
    Some(MemberAt {
        owner,
        name,
        descriptor,
    })
}

impl Program {
    /// The name that the Class entry at an index of the pool of a class gives.
    fn class_name_in(&self, class: ClassId, index: u16) -> Option<&[u8]>
        requires { class < length self.now.classes }
        ensures { option_map (λ s. s.now) result
            ≡ class_name_at (pool_of_class self.now class) index }
    {
        match self.pool(class) {
            Some(pool) => pool.class_name(index),
            None => None,
        }
    }

    /// The member that the entry at an index of the pool of a class gives.
    fn member_in(&self, class: ClassId, index: u16) -> Option<MemberAt<'_>>
        requires { class < length self.now.classes }
        ensures { option_map shown_names result
            ≡ member_described (pool_of_class self.now class) index }
    {
        match self.pool(class) {
            Some(pool) => member_at(pool, index),
            None => None,
        }
    }

    /// Whether the entry at an index of the pool of a class gives a member with the descriptor of a field (JVMS 4.3.2).
    pub(crate) fn is_field_by_entry(&self, class: ClassId, index: u16) -> bool
        requires { class < length self.now.classes }
        ensures { result ≡ is_field_referred self.now class index }
    {
        match self.member_in(class, index) {
            Some(member) => is_field_descriptor(member.descriptor),
            None => false,
        }
    }

    /// The tag of the entry at an index of the pool of a class, or 0 where there is none.
    pub(crate) fn tag_in(&self, class: ClassId, index: u16) -> u8
        requires { class < length self.now.classes }
        ensures { result ≡ tag_at (pool_of_class self.now class) index }
    {
        match self.pool(class) {
            Some(pool) => pool.tag(index),
            None => 0,
        }
    }

    /// The field that a member means.
    fn field_meant(&self, member: &MemberAt<'_>) -> Result<FieldId, LinkError>
        ensures value { result ≡ field_of_member self.now (shown_names member.now) }
        ensures within { IfOk result (λ f. f < length self.now.fields) }
    {
        let owner = self.resolve_class(member.owner)?;
        self.resolve_field(owner, member.name, member.descriptor)
    }

    /// The method that a member means.
    fn method_meant(
        &self,
        by_interface: bool,
        member: &MemberAt<'_>,
    ) -> Result<NamedMethod, LinkError>
        ensures value { result ≡ method_of_member self.now by_interface (shown_names member.now) }
        ensures within { IfOk result (IsNamedWithin self.now) }
    {
        let class = self.resolve_class(member.owner)?;
        let method = self.resolve_method(class, by_interface, member.name, member.descriptor)?;
        Ok(NamedMethod { class, method })
    }

    /// The class that the entry at an index of the pool of a class refers to, found by its name.
    pub(crate) fn class_by_entry(&self, class: ClassId, index: u16) -> Referred<ClassId>
        requires { class < length self.now.classes }
        ensures value { result ≡ class_referred self.now class index }
        ensures within { IfSome result (λ r. IfOk r (λ c. c < length self.now.classes)) }
    {
        match self.class_name_in(class, index) {
            Some(name) => Some(self.resolve_class(name)),
            None => None,
        }
    }

    /// The field that the entry at an index of the pool of a class refers to, found by its names.
    pub(crate) fn field_by_entry(&self, class: ClassId, index: u16) -> Referred<FieldId>
        requires { class < length self.now.classes }
        ensures value { result ≡ field_referred self.now class index }
        ensures within { IfSome result (λ r. IfOk r (λ f. f < length self.now.fields)) }
    {
        match self.member_in(class, index) {
            Some(member) => Some(self.field_meant(&member)),
            None => None,
        }
    }

    /// The method that the entry at an index of the pool of a class refers to, found by its names.
    pub(crate) fn method_by_entry(&self, class: ClassId, index: u16) -> Referred<NamedMethod>
        requires { class < length self.now.classes }
        ensures value { result ≡ method_referred self.now class index }
        ensures within { IfSome result (λ r. IfOk r (IsNamedWithin self.now)) }
    {
        let by_interface = self.tag_in(class, index) == INTERFACE_METHODREF;
        match self.member_in(class, index) {
            Some(member) => Some(self.method_meant(by_interface, &member)),
            None => None,
        }
    }
}
