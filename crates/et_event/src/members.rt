//! What an instruction names in the pool of its class: a member (JVMS 4.4.2) or a class (JVMS 4.4.1).
ghost use Rattle.std.specs.Prelude.{◌≡◌, ◌<◌, ◌^◌, option_map};
ghost use Rattle.et_event.specs.Sites.{natural_of, site_member, class_operand as operand_of};
ghost use Rattle.et_program.specs.Resolved.{shown_names};

use crate::sites::Site;
use et_program::MemberAt;

/// The index into the pool that an instruction has.
pub fn index_of(site: &Site<'_>) -> u16
    requires { natural_of site.now.instr.first < 2 ^ 16 }
    ensures { result ≡ natural_of site.now.instr.first }
{
    if site.instr().first < 0 {
        0
    } else {
        site.instr().first as u16
    }
}

/// The member that an instruction names; `None` where its index is that of no such entry, or its class has no pool. The bytes
/// are borrowed from the pool.
pub fn member_at<'a>(site: &Site<'a>) -> Option<MemberAt<'a>>
    requires { natural_of site.now.instr.first < 2 ^ 16 }
    ensures { option_map shown_names result ≡ site_member site.now }
{
    match site.pool() {
        Some(pool) => et_program::member_at(pool, index_of(site)),
        None => None,
    }
}

/// The name of the class that an instruction has as its operand; `None` where its index is that of no Class entry, or its
/// class has no pool.
pub fn class_operand<'a>(site: &Site<'a>) -> Option<&'a [u8]>
    requires { natural_of site.now.instr.first < 2 ^ 16 }
    ensures { option_map (λ name. name.now) result ≡ operand_of site.now }
{
    match site.pool() {
        Some(pool) => pool.class_name(index_of(site)),
        None => None,
    }
}
