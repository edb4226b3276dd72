//! The rules on methods (JVMS 4.6) and on their Code attribute (JVMS 4.7.3).

ghost use Rattle.std.specs.Prelude.{◌≡◌, ◌+◌, ◌<◌, ◌≤◌, ◌^◌, ◌*◌, ℕ, List, [], ◌∷◌, ◌||◌, if◌then◌else◌, length, is_some, IfOk, IfSome, option_map, option_and_then, Ok};
ghost use Rattle.std.specs.List.{flat_map, list_any, find};
ghost use Rattle.et_base.specs.Marks.{first_from, mark as mark_of};
ghost use Rattle.et_pool.specs.Looks.{utf8_at};
ghost use Rattle.et_code.specs.Bodies.{body_of};
ghost use Rattle.et_class.specs.Layout.{attribute_of, attributes_of, attribute_bytes, member_of, member_bytes};
ghost use Rattle.et_class.specs.Reading.{many_at, attribute_at};
ghost use Rattle.et_class.specs.Along.{along};
ghost use Rattle.et_class.specs.Codes.{code_at, body_marks};
ghost use Rattle.et_class.specs.Methods.{HasItsTags, is_method_flags, is_clinit, is_init, shape_at, receiver_words, is_shape_well, is_floating_shape, arguments_fit_locals, is_code, is_code_well, code_attribute_marks, method_attribute_marks, method_attribute_marks_if, method_marks_if};
ghost use Rattle.et_class.specs.Kept.{inner_from, inner_at, name_and_next, kept_body, kept_attribute, kept_in, kept_among, kept_code};

use crate::code::{check_instructions, read_code};
use crate::fault::{ATTRIBUTE, ClassFault, DESCRIPTOR, FLAGS, MEMBER};
use crate::flags::{ABSTRACT, FINAL, NATIVE, PRIVATE, STATIC, SYNCHRONIZED, has, has_one_access};
use crate::member::{Attribute, Member};
use crate::names::{CLINIT, CODE_NAME, INIT, first_named, is_utf8, names_some, names_text};
use et_base::marks::{First, mark};
use et_base::numbers::{run_at, u16_at, u32_at};
use et_code::{CODE, CheckFault, Code, RawCode, UNSUPPORTED, check_code};
use et_pool::Pool;
use et_pool::descriptor::{MethodShape, method_shape};
use std::alloc::{AllocError, Global};

/// A constant pool, with the tag of each of its slots.
#[derive(Clone, Copy)]
pub struct Constants<'a> {
    /// The pool.
    pub pool: &'a Pool,
    /// By index, the tag of the entry that begins there; 0 where none does.
    pub tags: &'a [u8],
}

fn has_method_flags(flags: u16) -> bool
    ensures { result ≡ is_method_flags flags }
{
    let excluded = has(flags, FINAL)
        || has(flags, NATIVE)
        || has(flags, PRIVATE)
        || has(flags, STATIC)
        || has(flags, SYNCHRONIZED);
    has_one_access(flags) && (!has(flags, ABSTRACT) || !excluded)
}

fn is_class_initializer(pool: &Pool, method: &Member) -> bool
    ensures { result ≡ is_clinit pool.now.slots (member_of method.now) }
{
    names_text(pool, method.name_index, CLINIT)
}

fn shape(pool: &Pool, method: &Member) -> Option<MethodShape>
    ensures { result ≡ shape_at pool.now.slots (member_of method.now) }
{
    match pool.utf8(method.descriptor_index) {
        None => None,
        Some(descriptor) => method_shape(descriptor),
    }
}

/// How many entries the receiver takes.
fn receiver_entries(pool: &Pool, method: &Member) -> usize
    ensures { result ≡ receiver_words pool.now.slots (member_of method.now) }
{
    if has(method.access_flags, STATIC) || is_class_initializer(pool, method) {
        0
    } else {
        1
    }
}

fn fits_descriptor(receiver: usize, init: bool, shape: Option<MethodShape>) -> bool
    requires { receiver ≤ 1 }
    ensures { result ≡ is_shape_well receiver init shape }
{
    match shape {
        None => false,
        Some(s) => s.entries <= 255 && s.entries + receiver <= 255 && (!init || s.void),
    }
}

fn arguments_fit(receiver: usize, max_locals: u16, shape: Option<MethodShape>) -> bool
    requires { receiver ≤ 1 }
    ensures { result ≡ arguments_fit_locals receiver max_locals shape }
{
    match shape {
        None => true,
        Some(s) => s.entries <= 65_535 && s.entries + receiver <= max_locals as usize,
    }
}

fn has_floating(shape: Option<MethodShape>) -> bool
    ensures { result ≡ is_floating_shape shape }
{
    match shape {
        None => false,
        Some(s) => s.floating,
    }
}

fn is_code_attribute(pool: &Pool, a: &Attribute) -> bool
    ensures { result ≡ is_code pool.now.slots (attribute_of a.now) }
{
    names_text(pool, a.name_index, CODE_NAME)
}

#[tactic(auto, using(crate::proofs::Found::found_some))]
fn has_code(pool: &Pool, attributes: &[Attribute]) -> bool
    ensures { result ≡ list_any (is_code pool.now.slots) (attributes_of attributes.now) }
{
    match first_named(pool, attributes, CODE_NAME) {
        None => false,
        Some(_) => true,
    }
}

fn fits_code(pool: &Pool, method: &Member) -> bool
    ensures { result ≡ is_code_well pool.now.slots (member_of method.now) }
{
    let code = has_code(pool, &method.attributes);
    if is_class_initializer(pool, method) {
        true
    } else if has(method.access_flags, NATIVE) || has(method.access_flags, ABSTRACT) {
        !code
    } else {
        code
    }
}

/// The index of the name of the attribute at a place of the body of another one, and the place
/// after it; `None` where the body ends before that.
#[tactic(auto, unfolding(crate::specs::Reading::attribute_at))]
fn skip_attribute(bytes: &[u8], at: usize) -> Option<(u16, usize)>
    ensures value { result ≡ name_and_next (attribute_at bytes.now at) }
    ensures within { IfSome result (λ x. at < length bytes.now) }
{
    let (name, at) = u16_at(bytes, at)?;
    let (size, at) = u32_at(bytes, at)?;
    let (_, after) = run_at(bytes, size as usize, at)?;
    Some((name, after))
}

/// As many attributes in a body that begins at `place`: the place after them in the body, and the
/// first broken rule behind those on their names.
fn check_inner_from(
    first: First,
    pool: &Pool,
    place: usize,
    bytes: &[u8],
    count: u16,
    start: usize,
) -> Option<(usize, First)>
    requires { place + length bytes.now < 2 ^ 64 }
    ensures { result ≡ inner_from pool.now.slots first place bytes.now count start }
{
    let mut found = first;
    let mut at = start;
    for _ in 0..count {
        let (name, after) = skip_attribute(bytes, at)?;
        found = mark(found, place + at, ATTRIBUTE, is_utf8(pool, name));
        at = after;
    }
    Some((at, found))
}

/// The same for the attributes whose count stands at `at`.
fn check_inner(
    first: First,
    pool: &Pool,
    place: usize,
    bytes: &[u8],
    at: usize,
) -> Option<(usize, First)>
    requires { place + length bytes.now < 2 ^ 64 }
    ensures { result ≡ inner_at pool.now.slots first place bytes.now at }
{
    let (count, at) = u16_at(bytes, at)?;
    check_inner_from(first, pool, place, bytes, count, at)
}

/// The first broken rule behind those on the items of a Code attribute whose code_length stands
/// at a place, and the code where it keeps its own rules.
fn check_body(
    alloc: Global,
    first: First,
    constants: &Constants<'_>,
    receiver: usize,
    shape: Option<MethodShape>,
    place: usize,
    raw: RawCode,
) -> Result<(First, Option<Code>), AllocError>
    requires tags_are { HasItsTags constants.now }
    requires one { receiver ≤ 1 }
    requires room { place + 6 + length raw.code.items + 8 * length raw.table.items < 2 ^ 64 }
    ensures { IfOk result (λ x.
        (x.0 ≡ first_from first (mark_of place CODE (arguments_fit_locals receiver raw.max_locals
        shape)
        ∷ body_marks constants.now.pool.now.slots place (body_of raw)))
        × (x.1 ≡ kept_body constants.now.pool.now.slots (body_of raw))) }
{
    let fits = arguments_fit(receiver, raw.max_locals, shape);
    let found = mark(first, place, CODE, fits);
    let found = check_instructions(found, constants.pool, place + 4, &raw.code);
    match check_code(alloc, raw, constants.tags) {
        Ok(code) => Ok((found, Some(code))),
        Err(CheckFault::At { kind, place: at }) => {
            Ok((mark(found, place + at, kind, false), None))
        }
        Err(CheckFault::NoMemory) => Err(AllocError),
    }
}

/// The first broken rule behind those on the Code attribute at a place, and its code where that
/// keeps its own rules.
fn check_code_attribute(
    alloc: Global,
    first: First,
    constants: &Constants<'_>,
    receiver: usize,
    shape: Option<MethodShape>,
    place: usize,
    body: &[u8],
) -> Result<(First, Option<Code>), AllocError>
    requires tags_are { HasItsTags constants.now }
    requires one { receiver ≤ 1 }
    requires room { place + 6 + length body.now < 2 ^ 64 }
    ensures { IfOk result (λ x. (x.0 ≡ first_from first
        (code_attribute_marks constants.now.pool.now.slots receiver shape place (code_at body.now)))
        × (x.1 ≡ kept_attribute constants.now.pool.now.slots (code_at body.now))) }
{
    match read_code(alloc, body) {
        Err(ClassFault::NoMemory) => Err(AllocError),
        Err(ClassFault::At { .. }) => Ok((mark(first, place, ATTRIBUTE, false), None)),
        Ok((raw, at)) => match check_inner(first, constants.pool, place + 6, body, at) {
            None => Ok((mark(first, place, ATTRIBUTE, false), None)),
            Some((end, found)) => {
                if end < body.len() {
                    return Ok((mark(first, place, ATTRIBUTE, false), None));
                }
                check_body(alloc, found, constants, receiver, shape, place + 10, raw)
            }
        },
    }
}

/// The first broken rule behind those on an attribute of a method at a place, and the code that it
/// has where it is the first Code and that keeps its own rules.
fn check_method_attribute(
    alloc: Global,
    first: First,
    constants: &Constants<'_>,
    method: &Member,
    seen: bool,
    place: usize,
    a: &Attribute,
) -> Result<(First, Option<Code>), AllocError>
    requires tags_are { HasItsTags constants.now }
    requires room { place + length (attribute_bytes (attribute_of a.now)) < 2 ^ 64 }
    ensures { IfOk result (λ x. (x.0 ≡ first_from first (method_attribute_marks_if
        constants.now.pool.now.slots (member_of method.now) seen place (attribute_of a.now)))
        × (x.1 ≡ kept_in constants.now.pool.now.slots seen (attribute_of a.now))) }
{
    let found = mark(
        first,
        place,
        ATTRIBUTE,
        is_utf8(constants.pool, a.name_index),
    );
    if !is_code_attribute(constants.pool, a) {
        return Ok((found, None));
    }
    if seen {
        return Ok((mark(found, place, ATTRIBUTE, false), None));
    }
    let receiver = receiver_entries(constants.pool, method);
    let shape = shape(constants.pool, method);
    check_code_attribute(alloc, found, constants, receiver, shape, place, &a.body)
}

/// The code of the first Code, of two that follow one another.
fn earlier_code(seen: bool, before: Option<Code>, here: Option<Code>) -> Option<Code>
    ensures { result ≡ (if seen then before else here) }
{
    if seen { before } else { here }
}

/// The first broken rule behind those on the attributes of a method from a place on, and the code
/// of the first Code where that keeps its own rules.
fn check_method_attributes(
    alloc: Global,
    first: First,
    constants: &Constants<'_>,
    method: &Member,
    start: usize,
    attributes: &[Attribute],
) -> Result<(First, Option<Code>), AllocError>
    requires tags_are { HasItsTags constants.now }
    requires room { start + length (flat_map attribute_bytes (attributes_of attributes.now))
        < 2 ^ 64 }
    ensures { IfOk result
        (λ x. (x.0 ≡ first_from first (along attribute_bytes (method_attribute_marks
        constants.now.pool.now.slots (member_of method.now)) [] start
        (attributes_of attributes.now)))
        × (x.1 ≡ kept_among constants.now.pool.now.slots (attributes_of attributes.now))) }
{
    let mut found = first;
    let mut place = start;
    let mut seen = false;
    let mut code = None;
    'attributes: for a in attributes {
        let (next, body) = check_method_attribute(alloc, found, constants, method, seen, place, a)?;
        found = next;
        code = earlier_code(seen, code, body);
        seen |= is_code_attribute(constants.pool, a);
        place += 6 + a.body.len();
    }
    Ok((found, code))
}

/// The first broken rule behind those on a method at a place, which is new or shares its name and
/// descriptor with an earlier one; and its code where that keeps its own rules.
#[tactic(auto, unfolding(et_base::specs::Marks::first_from))]
pub fn check_method(
    alloc: Global,
    first: First,
    constants: &Constants<'_>,
    new: bool,
    place: usize,
    method: &Member,
) -> Result<(First, Option<Code>), AllocError>
    requires tags_are { HasItsTags constants.now }
    requires room { place + length (member_bytes (member_of method.now)) < 2 ^ 64 }
    ensures { IfOk result (λ x. (x.0 ≡ first_from first
        (method_marks_if constants.now.pool.now.slots new place (member_of method.now)))
        × (x.1 ≡ kept_code constants.now.pool.now.slots (member_of method.now))) }
{
    let shape = shape(constants.pool, method);
    let receiver = receiver_entries(constants.pool, method);
    let init = names_text(constants.pool, method.name_index, INIT);
    let flags = is_class_initializer(constants.pool, method)
        || has_method_flags(method.access_flags);
    let named = names_some(constants.pool, method.name_index);
    let found = mark(first, place, FLAGS, flags);
    let found = mark(found, place, MEMBER, named && new);
    let found = mark(found, place, MEMBER, fits_code(constants.pool, method));
    let found = mark(
        found,
        place + 4,
        DESCRIPTOR,
        fits_descriptor(receiver, init, shape),
    );
    let found = mark(found, place + 4, UNSUPPORTED, !has_floating(shape));
    check_method_attributes(
        alloc,
        found,
        constants,
        method,
        place + 8,
        &method.attributes,
    )
}
