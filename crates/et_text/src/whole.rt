//! Reading a whole text, whose lines are handed on as they come.
ghost use Rattle.std.specs.Prelude.{ℕ, List, [], IfOk, IfErr, IfSome, IfNone, OnOk};
ghost use Rattle.et_base.specs.declared.line.TraceLine.{TraceLine};
ghost use Rattle.et_text.specs.Followed.{IsFollowed, IsFollowedTo, IsTextFollowed, IsFaultOfText, FollowsBytes, RefusesBytesNext, FollowsFirst, LeavesBytes, RefusesFirst};
ghost use Rattle.et_text.specs.Text.{IsOneLine};

use crate::fault::{AFTER, FORM, LineError, TraceFault};
use crate::follower::Follower;
use crate::handing::Following;
use crate::lines::first_line;
use crate::reading::{read_front, read_line};
use std::alloc::Global;

/// Takes the bytes of a whole line, without its LF.
#[inline(never)]
fn take_bytes<F: Follower>(
    alloc: Global,
    lines: &mut Following<F>,
    bytes: &[u8],
) -> Result<(), TraceFault>
    requires { (past : List TraceLine) × IsFollowed F.follows 1 lines.old past }
    ensures ok { (past : List TraceLine) → IsFollowed F.follows 1 lines.old past →
        OnOk result (FollowsBytes F.follows lines.new past bytes.now) }
    ensures err { (past : List TraceLine) → IsFollowed F.follows 1 lines.old past →
        IfErr result (RefusesBytesNext past bytes.now) }
{
    if lines.has_ended() {
        return Err(TraceFault::At {
            kind: AFTER,
            line: lines.next_number(),
        });
    }
    match read_line(alloc, bytes) {
        Ok(line) => lines.take(&line),
        Err(LineError::Form) => Err(TraceFault::At {
            kind: FORM,
            line: lines.next_number(),
        }),
        Err(LineError::Memory) => Err(TraceFault::NoMemory),
    }
}

/// Takes the first line where one is whole, and says what stands behind its LF. Most lines are read in one pass, from which
/// their end follows; the others are cut off first.
#[inline(always)]
fn take_first<'a, F: Follower>(
    alloc: Global,
    lines: &mut Following<F>,
    bytes: &'a [u8],
) -> Result<Option<&'a [u8]>, TraceFault>
    requires { (past : List TraceLine) × IsFollowed F.follows 1 lines.old past }
    ensures some { (past : List TraceLine) → IsFollowed F.follows 1 lines.old past → IfOk result
        (λ left. IfSome left
        (λ behind. FollowsFirst F.follows lines.new past bytes.now behind.now)) }
    ensures none { (past : List TraceLine) → IsFollowed F.follows 1 lines.old past →
        IfOk result (λ left. IfNone left (LeavesBytes F.follows lines.new past bytes.now)) }
    ensures err { (past : List TraceLine) → IsFollowed F.follows 1 lines.old past →
        IfErr result (RefusesFirst past bytes.now) }
{
    match read_front(alloc, bytes) {
        Ok((line, behind)) => {
            lines.take(&line)?;
            Ok(Some(behind))
        }
        Err(LineError::Form) => {
            let Some((line, behind)) = first_line(bytes) else {
                return Ok(None);
            };
            take_bytes(alloc, lines, line)?;
            Ok(Some(behind))
        }
        Err(LineError::Memory) => Err(TraceFault::NoMemory),
    }
}

/// No line comes any more.
fn end_text<F: Follower>(lines: Following<F>, rest: &[u8]) -> Result<F, TraceFault>
    requires one_line { IsOneLine rest.now }
    ensures ok { (bytes : List ℕ) → IsFollowedTo F.follows lines rest.now bytes →
        IfOk result (λ follower. IsTextFollowed F.follows follower bytes) }
    ensures err { (bytes : List ℕ) → IsFollowedTo F.follows lines rest.now bytes →
        IfErr result (IsFaultOfText bytes) }
{
    let number = lines.next_number();
    let follower = lines.finish()?;
    if !rest.is_empty() {
        return Err(TraceFault::At {
            kind: AFTER,
            line: number,
        });
    }
    Ok(follower)
}

/// Reads the whole text of a trace and hands each of its lines to the follower, once it broke no rule; the lines are not kept.
/// `Ok` comes exactly where the bytes are the text of a good list, and then with what followed its lines; else the fault is that
/// of the bytes.
#[inline(never)]
pub fn follow_text<F: Follower>(alloc: Global, bytes: &[u8], follower: F) -> Result<F, TraceFault>
    requires new { F.follows follower [] }
    ensures ok { IfOk result (λ follower. IsTextFollowed F.follows follower bytes.now) }
    ensures err { IfErr result (IsFaultOfText bytes.now) }
{
    let mut lines = Following::begin(alloc, follower);
    let mut rest = bytes;
    'lines: while let Some(behind) = take_first(alloc, &mut lines, rest)? {
        rest = behind;
    }
    end_text(lines, rest)
}
