//! The members that were seen: no two fields, and no two methods, share name and descriptor.

ghost use Rattle.std.specs.Prelude.{◌≡◌, ℕ, List, Some, IfOk, not, ◌||◌};
ghost use Rattle.et_class.specs.Layout.{member_of};
ghost use Rattle.et_class.specs.Names.{key_of, share};
ghost use Rattle.et_class.specs.Keys.{has_member_key, has_some_key};

use crate::member::Member;
use et_pool::Pool;
use std::alloc::AllocError;
use std::collections::HashSet;

/// The names and descriptors of members.
pub type Keys<'a> = HashSet<(&'a [u8], &'a [u8])>;

fn add_key<'a>(
    keys: &mut Keys<'a>,
    name: &'a [u8],
    descriptor: &'a [u8],
) -> Result<bool, AllocError>
    ensures added { IfOk result (λ new. new ≡ not (has_member_key keys.old
        (name.now, descriptor.now))) }
    ensures keeps { IfOk result (λ new. (q : List ℕ × List ℕ) → has_member_key keys.new q
        ≡ (share (Some (name.now, descriptor.now)) (Some q) || has_member_key keys.old q)) }
{
    Ok(keys.insert((name, descriptor))?)
}

/// Adds the name and the descriptor of a member, and tells whether they are new. A member whose
/// name or descriptor is no Utf8 entry shares them with none.
pub fn add_member<'a>(
    keys: &mut Keys<'a>,
    pool: &'a Pool,
    member: &Member,
) -> Result<bool, AllocError>
    ensures added { IfOk result
        (λ new. new ≡ not (has_some_key keys.old (key_of pool.now.slots (member_of member.now)))) }
    ensures keeps { IfOk result (λ new. (q : List ℕ × List ℕ) → has_member_key keys.new q
        ≡ (share (key_of pool.now.slots (member_of member.now)) (Some q) || has_member_key keys.old
        q)) }
{
    match pool.utf8(member.name_index) {
        None => Ok(true),
        Some(name) => match pool.utf8(member.descriptor_index) {
            None => Ok(true),
            Some(descriptor) => add_key(keys, name, descriptor),
        },
    }
}
