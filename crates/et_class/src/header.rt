//! The head of a class file, and what stands behind its pool (JVMS 4.1).

ghost use Rattle.std.specs.Prelude.{◌≡◌, ◌+◌, ◌<◌, ◌^◌, [], length};
ghost use Rattle.std.specs.List.{flat_map};
ghost use Rattle.std.specs.Int.{w16};
ghost use Rattle.et_base.specs.Marks.{first_from};
ghost use Rattle.et_class.specs.Layout.{u2};
ghost use Rattle.et_class.specs.Reading.{GivesOrBreaks, number_read, many_at, counted_at, versions_at, head_at, header_at};
ghost use Rattle.et_class.specs.Along.{along};
ghost use Rattle.et_class.specs.Headers.{header_parts};
ghost use Rattle.et_class.specs.Rules.{is_class_flags, interface_marks, header_marks};

use crate::fault::{ClassFault, FLAGS, MAGIC, MEMBER, POOL, VERSION};
use crate::flags::{ABSTRACT, FINAL, INTERFACE, has};
use crate::items::{u16_item, u32_item};
use crate::names::{OBJECT, names_plain_class, names_this_class};
use et_base::marks::{First, mark};
use et_pool::Pool;
use std::alloc::Global;

/// The access flags, and the indices of this class, its superclass and its interfaces.
#[derive(Debug, Drop)]
pub struct Header {
    pub access_flags: u16,
    pub this_class: u16,
    pub super_class: u16,
    pub interfaces: Vec<u16>,
}

fn read_versions(bytes: &[u8], at: usize) -> Result<(u16, u16), ClassFault>
    ensures { GivesOrBreaks (λ x. x) result (versions_at bytes.now at) }
{
    let (minor, at) = u16_item(bytes, at)?;
    let (major, _) = u16_item(bytes, at)?;
    if major < 45 || 52 < major {
        return Err(ClassFault::At {
            kind: VERSION,
            offset: at,
        });
    }
    Ok((minor, major))
}

/// The minor and the major version, behind the magic number.
#[tactic(auto, unfolding(crate::specs::Reading::head_at))]
pub fn read_head(bytes: &[u8]) -> Result<(u16, u16), ClassFault>
    ensures { GivesOrBreaks (λ x. x) result (head_at bytes.now) }
{
    let (magic, at) = u32_item(bytes, 0)?;
    if magic != 0xCAFE_BABE {
        return Err(ClassFault::At {
            kind: MAGIC,
            offset: 0,
        });
    }
    read_versions(bytes, at)
}

fn indices_from(
    alloc: Global,
    bytes: &[u8],
    count: u16,
    start: usize,
) -> Result<(Vec<u16>, usize), ClassFault>
    ensures { GivesOrBreaks (λ x. (x.0.items, x.1)) result
        (many_at (number_read w16 bytes.now) count start) }
{
    let mut indices = Vec::new(alloc);
    let mut at = start;
    for _ in 0..count {
        let (index, after) = u16_item(bytes, at)?;
        indices.push(index)?;
        at = after;
    }
    Ok((indices, at))
}

fn read_indices(alloc: Global, bytes: &[u8], at: usize) -> Result<(Vec<u16>, usize), ClassFault>
    ensures { GivesOrBreaks
        (λ x. (x.0.items, x.1)) result (counted_at bytes.now (number_read w16 bytes.now) at) }
{
    let (count, at) = u16_item(bytes, at)?;
    indices_from(alloc, bytes, count, at)
}

/// The header at a place, and the place after it.
#[tactic(auto, unfolding(crate::specs::Reading::header_at))]
pub fn read_header(alloc: Global, bytes: &[u8], at: usize) -> Result<(Header, usize), ClassFault>
    ensures { GivesOrBreaks (λ x. (header_parts x.0, x.1)) result (header_at bytes.now at) }
{
    let (access_flags, at) = u16_item(bytes, at)?;
    let (this_class, at) = u16_item(bytes, at)?;
    let (super_class, at) = u16_item(bytes, at)?;
    let (interfaces, at) = read_indices(alloc, bytes, at)?;
    let header = Header {
        access_flags,
        this_class,
        super_class,
        interfaces,
    };
    Ok((header, at))
}

fn has_class_flags(flags: u16) -> bool
    ensures { result ≡ is_class_flags flags }
{
    if has(flags, INTERFACE) {
        has(flags, ABSTRACT) && !has(flags, FINAL)
    } else {
        !(has(flags, FINAL) && has(flags, ABSTRACT))
    }
}

/// The first broken rule behind those on interfaces from a place on.
fn check_interfaces(first: First, pool: &Pool, start: usize, interfaces: &[u16]) -> First
    requires { start + length (flat_map u2 interfaces.now) < 2 ^ 64 }
    ensures { result
        ≡ first_from first (along u2 (interface_marks pool.now.slots) [] start interfaces.now) }
{
    let mut found = first;
    let mut place = start;
    'interfaces: for index in interfaces {
        found = mark(found, place, POOL, names_plain_class(pool, *index));
        place += 2;
    }
    found
}

/// The first broken rule behind those on the header at a place.
#[tactic(auto, unfolding(et_base::specs::Marks::first_from))]
pub fn check_header(first: First, pool: &Pool, place: usize, header: &Header) -> First
    requires { place + 8 + length (flat_map u2 header.now.interfaces.items) < 2 ^ 64 }
    ensures { result ≡ first_from first (header_marks pool.now.slots place
        (header_parts header.now)) }
{
    let flags = has_class_flags(header.access_flags);
    let this = names_plain_class(pool, header.this_class);
    let superclass = names_plain_class(pool, header.super_class);
    let interface = has(header.access_flags, INTERFACE);
    let object = names_this_class(pool, header.super_class, OBJECT);
    let found = mark(first, place, FLAGS, flags);
    let found = mark(found, place + 2, POOL, this);
    let found = mark(found, place + 4, POOL, superclass);
    let found = mark(found, place + 4, MEMBER, !interface || object);
    check_interfaces(found, pool, place + 8, &header.interfaces)
}
