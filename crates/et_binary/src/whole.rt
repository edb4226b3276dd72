//! Reading a whole binary trace, whose lines are handed on as they come.
ghost use Rattle.std.specs.Prelude.{List, [], IfOk, IfErr, IfSome, IfNone};
ghost use Rattle.et_base.specs.declared.line.TraceLine.{TraceLine};
ghost use Rattle.et_text.specs.Followed.{IsFollowed};
ghost use Rattle.et_binary.specs.FollowedPacks.{FollowsFront, LeavesFront, RefusesFrontNext, IsPackFollowed, IsFaultOfPack};

use crate::ranges::{OPENING, may_open};
use crate::records::next_record;
use et_text::{FORM, Follower, Following, TraceFault, UNENDED};
use std::alloc::Global;

/// Hands on the line of the first record where it is whole, and says what stands behind it.
#[inline(always)]
fn take_front<'a, F: Follower>(
    alloc: Global,
    lines: &mut Following<F>,
    bytes: &'a [u8],
) -> Result<Option<&'a [u8]>, TraceFault>
    requires { (past : List TraceLine) × IsFollowed F.follows 2 lines.old past }
    ensures some { (past : List TraceLine) → IsFollowed F.follows 2 lines.old past → IfOk result
        (λ left. IfSome left
        (λ behind. FollowsFront F.follows lines.new past bytes.now behind.now)) }
    ensures none { (past : List TraceLine) → IsFollowed F.follows 2 lines.old past →
        IfOk result (λ left. IfNone left (LeavesFront F.follows lines.new past bytes.now)) }
    ensures err { (past : List TraceLine) → IsFollowed F.follows 2 lines.old past →
        IfErr result (RefusesFrontNext past bytes.now) }
{
    match next_record(alloc, bytes, lines.has_ended(), lines.next_number())? {
        Some((line, behind)) => {
            lines.take(&line)?;
            Ok(Some(behind))
        }
        None => Ok(None),
    }
}

/// Reads a whole binary trace and hands each of its lines to the follower, once it broke no rule; the lines are not kept. `Ok`
/// comes exactly where the bytes are the pack of a good list, and then with what followed its lines; else the fault is that of
/// the bytes. It takes no memory ahead of the bytes.
#[inline(never)]
pub fn follow_pack<F: Follower>(alloc: Global, bytes: &[u8], follower: F) -> Result<F, TraceFault>
    requires new { F.follows follower [] }
    ensures ok { IfOk result (λ follower. IsPackFollowed F.follows follower bytes.now) }
    ensures err { IfErr result (IsFaultOfPack bytes.now) }
{
    if !may_open(bytes) {
        return Err(TraceFault::At {
            kind: FORM,
            line: 1,
        });
    }
    if bytes.len() < OPENING.len() {
        return Err(TraceFault::At {
            kind: UNENDED,
            line: 1,
        });
    }
    let mut lines = Following::begin(alloc, follower);
    let mut rest = &bytes[OPENING.len()..];
    'records: while let Some(behind) = take_front(alloc, &mut lines, rest)? {
        rest = behind;
    }
    lines.finish()
}
