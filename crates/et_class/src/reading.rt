//! The items of attributes and of members.

ghost use Rattle.std.specs.Prelude.{◌≡◌, ◌<◌, ◌^◌, None, IfOk};
ghost use Rattle.et_class.specs.Layout.{attribute_of, attributes_of, member_of};
ghost use Rattle.et_class.specs.Reading.{GivesOrBreaks, many_at, counted_at, attribute_at, member_read_at};

use crate::fault::ClassFault;
use crate::items::{short, u16_item, u32_item};
use crate::member::{Attribute, Member};
use et_base::numbers::run_at;
use std::alloc::Global;

#[tactic(auto, unfolding(crate::specs::Reading::attribute_at))]
fn read_attribute(alloc: Global, bytes: &[u8], at: usize) -> Result<(Attribute, usize), ClassFault>
    ensures { GivesOrBreaks (λ x. (attribute_of x.0, x.1)) result (attribute_at bytes.now at) }
{
    let (name_index, at) = u16_item(bytes, at)?;
    let (size, at) = u32_item(bytes, at)?;
    let (body, after) = run_at(bytes, size as usize, at).ok_or(short(at))?;
    let body = Vec::from_slice(alloc, body)?;
    Ok((Attribute { name_index, body }, after))
}

/// As many attributes, one after the other.
fn attributes_from(
    alloc: Global,
    bytes: &[u8],
    count: u16,
    start: usize,
) -> Result<(Vec<Attribute>, usize), ClassFault>
    ensures { GivesOrBreaks (λ x. (attributes_of x.0.items, x.1)) result
        (many_at (attribute_at bytes.now) count start) }
{
    let mut attributes = Vec::new(alloc);
    let mut at = start;
    for _ in 0..count {
        let (attribute, after) = read_attribute(alloc, bytes, at)?;
        attributes.push(attribute)?;
        at = after;
    }
    Ok((attributes, at))
}

/// The attributes whose count stands at a place, and the place after them.
pub fn read_attributes(
    alloc: Global,
    bytes: &[u8],
    at: usize,
) -> Result<(Vec<Attribute>, usize), ClassFault>
    ensures items { GivesOrBreaks (λ x. (attributes_of x.0.items, x.1)) result
        (counted_at bytes.now (attribute_at bytes.now) at) }
    ensures room { IfOk result (λ x. x.1 < 2 ^ 64) }
{
    let (count, at) = u16_item(bytes, at)?;
    attributes_from(alloc, bytes, count, at)
}

/// The field or method at a place, without constant and code, and the place after it.
#[tactic(auto, unfolding(crate::specs::Reading::member_read_at))]
pub fn read_member(alloc: Global, bytes: &[u8], at: usize) -> Result<(Member, usize), ClassFault>
    ensures items { GivesOrBreaks (λ x. (member_of x.0, x.1)) result (member_read_at bytes.now at) }
    ensures rest { IfOk result (λ x. (x.0.constant ≡ 0) × (x.0.code ≡ None)) }
    ensures room { IfOk result (λ x. x.1 < 2 ^ 64) }
{
    let (access_flags, at) = u16_item(bytes, at)?;
    let (name_index, at) = u16_item(bytes, at)?;
    let (descriptor_index, at) = u16_item(bytes, at)?;
    let (attributes, at) = read_attributes(alloc, bytes, at)?;
    let member = Member {
        access_flags,
        name_index,
        descriptor_index,
        attributes,
        constant: 0,
        code: None,
    };
    Ok((member, at))
}
