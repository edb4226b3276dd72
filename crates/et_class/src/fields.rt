//! The rules on fields (JVMS 4.5, 4.7.2), and on the names of attributes.

ghost use Rattle.std.specs.Prelude.{◌≡◌, ◌+◌, ◌<◌, ◌^◌, [], ◌||◌, ◌==◌, if◌then◌else◌, length, is_some, option_map};
ghost use Rattle.std.specs.Int.{w16, from_be_bytes};
ghost use Rattle.std.specs.List.{flat_map, list_any};
ghost use Rattle.et_base.specs.Marks.{first_from};
ghost use Rattle.et_pool.specs.Looks.{utf8_at};
ghost use Rattle.et_class.specs.Layout.{attribute_of, attributes_of, attribute_bytes, member_of, member_bytes};
ghost use Rattle.et_class.specs.Along.{along};
ghost use Rattle.et_class.specs.Names.{has_member_name, is_member_new};
ghost use Rattle.et_class.specs.Fields.{attribute_marks, is_field_flags, is_type, is_floating_type as is_floating, is_int_type, is_long_type, is_constant_for, is_constant, is_constant_value, is_field_attribute, field_attribute_marks, field_marks_if, index_in, constant_of};

use crate::fault::{ATTRIBUTE, DESCRIPTOR, FLAGS, MEMBER};
use crate::flags::{FINAL, STATIC, VOLATILE, has, has_one_access};
use crate::member::{Attribute, Member};
use crate::names::{CONSTANT_VALUE, STRING_TYPE, first_named, is_utf8, names_some, names_text};
use et_base::marks::{First, mark};
use et_base::numbers::u16_at;
use et_code::UNSUPPORTED;
use et_pool::Pool;
use et_pool::descriptor::{is_field_descriptor, is_floating_type};
use et_pool::tags::{INTEGER, LONG, STRING};

/// The first broken rule behind those on the names of attributes from a place on.
pub fn check_names(first: First, pool: &Pool, start: usize, attributes: &[Attribute]) -> First
    requires { start + length (flat_map attribute_bytes (attributes_of attributes.now)) < 2 ^ 64 }
    ensures { result ≡ first_from first (along attribute_bytes
        (attribute_marks pool.now.slots) [] start (attributes_of attributes.now)) }
{
    let mut found = first;
    let mut place = start;
    'attributes: for a in attributes {
        found = mark(found, place, ATTRIBUTE, is_utf8(pool, a.name_index));
        place += 6 + a.body.len();
    }
    found
}

fn has_field_flags(interface: bool, flags: u16) -> bool
    ensures { result ≡ is_field_flags interface flags }
{
    has_one_access(flags)
        && !(has(flags, FINAL) && has(flags, VOLATILE))
        && (!interface || has(flags, STATIC))
}

fn names_type(pool: &Pool, index: u16) -> bool
    ensures { result ≡ is_type (utf8_at pool.now.slots index) }
{
    match pool.utf8(index) {
        None => false,
        Some(descriptor) => is_field_descriptor(descriptor),
    }
}

fn names_floating_type(pool: &Pool, index: u16) -> bool
    ensures { result ≡ is_floating (utf8_at pool.now.slots index) }
{
    match pool.utf8(index) {
        None => false,
        Some(descriptor) => is_floating_type(descriptor),
    }
}

fn is_int(descriptor: &[u8]) -> bool
    ensures { result ≡ is_int_type descriptor.now }
{
    match descriptor {
        [] => false,
        [a, rest @ ..] => {
            (*a == b'I' || *a == b'S' || *a == b'C' || *a == b'B' || *a == b'Z') && rest.is_empty()
        }
    }
}

fn is_long(descriptor: &[u8]) -> bool
    ensures { result ≡ is_long_type descriptor.now }
{
    match descriptor {
        [] => false,
        [a, rest @ ..] => *a == b'J' && rest.is_empty(),
    }
}

fn fits_type(pool: &Pool, descriptor_index: u16, tag: u8) -> bool
    ensures { result ≡ is_constant_for (utf8_at pool.now.slots descriptor_index) tag }
{
    match pool.utf8(descriptor_index) {
        None => false,
        Some(descriptor) => {
            if tag == INTEGER {
                is_int(descriptor)
            } else if tag == LONG {
                is_long(descriptor)
            } else {
                tag == STRING && descriptor == STRING_TYPE
            }
        }
    }
}

/// Whether the body of a ConstantValue is the index of a constant for a field.
fn is_constant_body(pool: &Pool, field: &Member, body: &[u8]) -> bool
    ensures { result ≡ is_constant pool.now.slots (member_of field.now) body.now }
{
    if body.len() != 2 {
        return false;
    }
    match u16_at(body, 0) {
        None => false,
        Some((index, _)) => fits_type(pool, field.descriptor_index, pool.tag(index)),
    }
}

fn is_value(pool: &Pool, a: &Attribute) -> bool
    ensures { result ≡ is_constant_value pool.now.slots (attribute_of a.now) }
{
    names_text(pool, a.name_index, CONSTANT_VALUE)
}

/// Whether the rules on an attribute of a field hold, where an earlier one was a ConstantValue or
/// none was.
fn is_attribute_well(pool: &Pool, field: &Member, seen: bool, a: &Attribute) -> bool
    ensures { result
        ≡ is_field_attribute pool.now.slots (member_of field.now) seen (attribute_of a.now) }
{
    is_utf8(pool, a.name_index)
        && (!is_value(pool, a)
            || (!seen
                && (!has(field.access_flags, STATIC) || is_constant_body(pool, field, &a.body))))
}

/// The first broken rule behind those on the attributes of a field from a place on.
fn check_field_attributes(
    first: First,
    pool: &Pool,
    field: &Member,
    start: usize,
    attributes: &[Attribute],
) -> First
    requires { start + length (flat_map attribute_bytes (attributes_of attributes.now)) < 2 ^ 64 }
    ensures { result ≡ first_from first (along attribute_bytes (field_attribute_marks pool.now.slots
        (member_of field.now)) [] start (attributes_of attributes.now)) }
{
    let mut found = first;
    let mut place = start;
    let mut seen = false;
    'attributes: for a in attributes {
        found = mark(
            found,
            place,
            ATTRIBUTE,
            is_attribute_well(pool, field, seen, a),
        );
        seen |= is_value(pool, a);
        place += 6 + a.body.len();
    }
    found
}

/// The first broken rule behind those on a field at a place, which is new or shares its name and
/// descriptor with an earlier one.
#[tactic(auto, unfolding(et_base::specs::Marks::first_from))]
pub fn check_field(
    first: First,
    pool: &Pool,
    interface: bool,
    new: bool,
    place: usize,
    field: &Member,
) -> First
    requires { place + length (member_bytes (member_of field.now)) < 2 ^ 64 }
    ensures { result ≡ first_from first
        (field_marks_if pool.now.slots interface new place (member_of field.now)) }
{
    let flags = has_field_flags(interface, field.access_flags);
    let named = names_some(pool, field.name_index);
    let typed = names_type(pool, field.descriptor_index);
    let floating = names_floating_type(pool, field.descriptor_index);
    let found = mark(first, place, FLAGS, flags);
    let found = mark(found, place, MEMBER, named && new);
    let found = mark(found, place + 4, DESCRIPTOR, typed);
    let found = mark(found, place + 4, UNSUPPORTED, !floating);
    check_field_attributes(found, pool, field, place + 8, &field.attributes)
}

fn index_of_body(body: &[u8]) -> u16
    ensures { result ≡ (if length body.now == 2 then from_be_bytes w16 body.now else 0) }
{
    if body.len() != 2 {
        return 0;
    }
    match u16_at(body, 0) {
        None => 0,
        Some((index, _)) => index,
    }
}

/// The index of the constant that the ConstantValue of a static field gives, and 0 of any other.
pub fn constant_index(pool: &Pool, field: &Member) -> u16
    ensures { result ≡ constant_of pool.now.slots (member_of field.now) }
{
    if !has(field.access_flags, STATIC) {
        return 0;
    }
    match first_named(pool, &field.attributes, CONSTANT_VALUE) {
        None => 0,
        Some(a) => index_of_body(&a.body),
    }
}
