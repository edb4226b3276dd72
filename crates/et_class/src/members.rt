//! The fields, the methods and the attributes of a class.

ghost use Rattle.std.specs.Prelude.{◌≡◌, map};
ghost use Rattle.et_pool.specs.Looks.{tag_of_slot};
ghost use Rattle.et_class.specs.Reading.{counted_at, member_read_at};
ghost use Rattle.et_class.specs.Members.{ReadsFields, ReadsMethods, ReadsMembers};

use crate::fault::{ClassFault, TRAILING};
use crate::fields::{check_field, check_names, constant_index};
use crate::items::u16_item;
use crate::keys::add_member;
use crate::member::{Attribute, Member};
use crate::methods::{Constants, check_method};
use crate::reading::{read_attributes, read_member};
use et_base::marks::First;
use et_pool::Pool;
use std::alloc::Global;
use std::collections::HashSet;

/// What stands behind the header.
#[derive(Debug, Drop)]
pub struct Members {
    pub fields: Vec<Member>,
    pub methods: Vec<Member>,
    pub attributes: Vec<Attribute>,
}

/// As many fields, one after the other, the place after them, and the first broken rule behind
/// those on them.
fn fields_from(
    alloc: Global,
    bytes: &[u8],
    pool: &Pool,
    interface: bool,
    first: First,
    count: u16,
    start: usize,
) -> Result<(Vec<Member>, usize, First), ClassFault>
    ensures { ReadsFields pool.now.slots interface first bytes.now count start result }
{
    let mut keys = HashSet::new(alloc);
    let mut fields = Vec::new(alloc);
    let mut found = first;
    let mut at = start;
    for _ in 0..count {
        let (mut field, after) = read_member(alloc, bytes, at)?;
        let new = add_member(&mut keys, pool, &field)?;
        found = check_field(found, pool, interface, new, at, &field);
        field.constant = constant_index(pool, &field);
        fields.push(field)?;
        at = after;
    }
    Ok((fields, at, found))
}

/// As many methods, one after the other, the place after them, and the first broken rule behind
/// those on them.
fn methods_from(
    alloc: Global,
    bytes: &[u8],
    pool: &Pool,
    tags: &[u8],
    first: First,
    count: u16,
    start: usize,
) -> Result<(Vec<Member>, usize, First), ClassFault>
    requires { tags.now ≡ map tag_of_slot pool.now.slots }
    ensures { ReadsMethods pool.now.slots first bytes.now count start result }
{
    let mut keys = HashSet::new(alloc);
    let mut methods = Vec::new(alloc);
    let constants = Constants { pool, tags };
    let mut found = first;
    let mut at = start;
    for _ in 0..count {
        let (mut method, after) = read_member(alloc, bytes, at)?;
        let new = add_member(&mut keys, pool, &method)?;
        let (next, code) = check_method(alloc, found, &constants, new, at, &method)?;
        found = next;
        method.code = code;
        methods.push(method)?;
        at = after;
    }
    Ok((methods, at, found))
}

/// The fields, methods and attributes that stand at a place, up to the end of the bytes, and the
/// first broken rule behind those on them.
#[tactic(auto, unfolding(crate::specs::Reading::members_at))]
pub fn read_members(
    alloc: Global,
    bytes: &[u8],
    pool: &Pool,
    tags: &[u8],
    interface: bool,
    first: First,
    at: usize,
) -> Result<(Members, First), ClassFault>
    requires { tags.now ≡ map tag_of_slot pool.now.slots }
    ensures { ReadsMembers pool.now.slots interface first bytes.now at result }
{
    let (count, at) = u16_item(bytes, at)?;
    let (fields, at, found) = fields_from(alloc, bytes, pool, interface, first, count, at)?;
    let (count, at) = u16_item(bytes, at)?;
    let (methods, at, found) = methods_from(alloc, bytes, pool, tags, found, count, at)?;
    let (attributes, end) = read_attributes(alloc, bytes, at)?;
    if end < bytes.len() {
        return Err(ClassFault::At {
            kind: TRAILING,
            offset: end,
        });
    }
    let found = check_names(found, pool, at + 2, &attributes);
    let members = Members {
        fields,
        methods,
        attributes,
    };
    Ok((members, found))
}
