//! A whole class file.

ghost use Rattle.std.specs.Prelude.{◌≡◌, None};
ghost use Rattle.et_base.specs.Marks.{first_from};
ghost use Rattle.et_pool.specs.Looks.{tag_of_slot};
ghost use Rattle.et_class.specs.Lifted.{lifted, place_in};
ghost use Rattle.et_class.specs.Rules.{pool_marks};
ghost use Rattle.et_class.specs.Classes.{ReadsClass};

use crate::fault::{ClassFault, POOL, SHORT};
use crate::flags::{INTERFACE, has};
use crate::header::{check_header, read_head, read_header};
use crate::member::{Attribute, Member};
use crate::members::read_members;
use et_base::marks::First;
use et_pool::{Pool, PoolFault, read_pool};
use std::alloc::Global;

/// A class file (JVMS 4.1): its items, and of each field the constant and of each method the code
/// that its attributes give.
#[derive(Debug, Drop)]
pub struct ClassFile {
    /// Any number.
    pub minor_version: u16,
    /// 45 to 52.
    pub major_version: u16,
    /// The access flags, of [`flags`](crate::flags).
    pub access_flags: u16,
    /// The index of the Class entry of the class itself.
    pub this_class: u16,
    /// The index of the Class entry of its superclass.
    pub super_class: u16,
    /// The constant pool.
    pub pool: Pool,
    /// The indices of the Class entries of its interfaces, in the order of the file.
    pub interfaces: Vec<u16>,
    /// The fields, in the order of the file.
    pub fields: Vec<Member>,
    /// The methods, in the order of the file.
    pub methods: Vec<Member>,
    /// The attributes of the class, in the order of the file.
    pub attributes: Vec<Attribute>,
}

fn lift(f: PoolFault) -> ClassFault
    ensures { result ≡ lifted f }
{
    match f {
        PoolFault::Tag { offset } | PoolFault::Utf8 { offset } | PoolFault::Index { offset } => {
            ClassFault::At { kind: POOL, offset }
        }
        PoolFault::Short { offset } => ClassFault::At {
            kind: SHORT,
            offset,
        },
        PoolFault::NoMemory => ClassFault::NoMemory,
    }
}

/// The place of a fault of a pool, and 0 where there was no memory.
fn place_of_fault(f: PoolFault) -> usize
    ensures { result ≡ place_in f }
{
    match f {
        PoolFault::Tag { offset }
        | PoolFault::Utf8 { offset }
        | PoolFault::Index { offset }
        | PoolFault::Short { offset } => offset,
        PoolFault::NoMemory => 0,
    }
}

/// The first broken rule between the entries of the pool.
fn check_pool(pool: &Pool) -> First
    requires { pool.now.at ≡ 8 }
    ensures { result ≡ first_from None (pool_marks pool.now.slots) }
{
    match pool.check() {
        Ok(()) => None,
        Err(f) => Some((place_of_fault(f), POOL)),
    }
}

/// Reads a class file.
///
/// The answer is `Ok` exactly where the bytes are the items of the class, in order and whole, and
/// no rule is broken. Otherwise it is the first fault: the first broken item in the order of the
/// bytes, of a first pass that looks whether the items are whole (JVMS 4.1 to 4.7), or, where that
/// finds nothing, of a second one that looks at what they say; where broken items begin at one
/// place, the one of the least kind. Or there was no memory. The time is linear in the file.
pub fn read_class(alloc: Global, bytes: &[u8]) -> Result<ClassFile, ClassFault>
    ensures { ReadsClass bytes.now result }
{
    let (minor_version, major_version) = read_head(bytes)?;
    match read_pool(alloc, bytes, 8) {
        Err(f) => Err(lift(f)),
        Ok((pool, at)) => {
            let tags = pool.tags(alloc)?;
            let (header, members_at) = read_header(alloc, bytes, at)?;
            let found = check_header(check_pool(&pool), &pool, at, &header);
            let interface = has(header.access_flags, INTERFACE);
            let (members, found) = read_members(
                alloc, bytes, &pool, &tags, interface, found, members_at,
            )?;
            match found {
                Some((offset, kind)) => Err(ClassFault::At { kind, offset }),
                None => Ok(ClassFile {
                    minor_version,
                    major_version,
                    access_flags: header.access_flags,
                    this_class: header.this_class,
                    super_class: header.super_class,
                    pool,
                    interfaces: header.interfaces,
                    fields: members.fields,
                    methods: members.methods,
                    attributes: members.attributes,
                }),
            }
        }
    }
}
