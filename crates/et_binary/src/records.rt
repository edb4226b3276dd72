//! The records at the front of bytes.
ghost use Rattle.std.specs.Prelude.{◌≡◌, ◌+◌, ◌<◌, List, [], length, slice_index, option_map, reverse, true, false, None, IfSome, IfNone, IfOk, IfErr, IsOk, IsErrOf};
ghost use Rattle.et_base.specs.declared.line.TraceLine.{TraceLine};
ghost use Rattle.et_binary.specs.Fronts.{is_record_letter, record_front};
ghost use Rattle.et_text.specs.Rules.{has_ended, AreFine};
ghost use Rattle.et_binary.specs.FollowedPacks.{RefusesFrontNext};
ghost use Rattle.et_binary.specs.Packs.{IsMalformed, IsUnfinished};
ghost use Rattle.et_binary.specs.Unpacking.{IsFront, TakesRecord, LeavesRecord, RefusesFront, TakesAll, MayGoOn, ShowsIn, unpacked_bytes};

use crate::fronts::{
    alloc_front, class_front, death_front, enter_front, exit_front, finish_front, flush_front,
    header_front, method_front, unwind_front, update_front,
};
use crate::ranges::{OPENING, is_in_range, is_record_letter, may_open};
use et_base::TraceLine;
use et_text::{AFTER, FORM, LineError, Rules, TraceFault};
use std::alloc::Global;

/// What the first record comes to, where this was found in front of what stands behind it.
#[inline(always)]
fn in_range<'a>(
    bytes: &'a [u8],
    found: Option<(TraceLine, &'a [u8])>,
) -> Result<Option<(TraceLine, &'a [u8])>, LineError>
    requires letter { is_record_letter (slice_index bytes.now 0) ≡ true }
    requires some { 0 < length bytes.now }
    requires found { option_map (λ x. (x.0, x.1.now)) found ≡ record_front bytes.now }
    ensures found { IfOk result (λ found. IfSome found (λ x. IsFront x.0 x.1.now bytes.now)) }
    ensures none { IfOk result (λ found. IfNone found (IsUnfinished bytes.now)) }
    ensures form { IsErrOf result LineError.Form → IsMalformed bytes.now }
    ensures early { IsUnfinished bytes.now → IsOk result }
{
    let Some((line, behind)) = found else {
        return Ok(None);
    };
    if !is_in_range(&line) {
        return Err(LineError::Form);
    }
    Ok(Some((line, behind)))
}

/// The line of the first record, and the bytes behind the record. `None` says that no record is whole, and `Form` that the
/// letter is none of the table, or that the record is whole and one of its numbers is out of its range or a name is empty. It
/// takes no memory where no record is whole.
#[tactic(auto, unfolding(crate::specs::Fronts::record_front))]
#[inline(always)]
pub fn read_record(alloc: Global, bytes: &[u8]) -> Result<Option<(TraceLine, &[u8])>, LineError>
    ensures found { IfOk result (λ found. IfSome found (λ x. IsFront x.0 x.1.now bytes.now)) }
    ensures none { IfOk result (λ found. IfNone found (IsUnfinished bytes.now)) }
    ensures form { IsErrOf result LineError.Form → IsMalformed bytes.now }
    ensures early { IsUnfinished bytes.now → IsOk result }
{
    let [letter, rest @ ..] = bytes else {
        return Ok(None);
    };
    if !is_record_letter(*letter) {
        return Err(LineError::Form);
    }
    match *letter {
        b'H' => in_range(bytes, header_front(rest)),
        b'C' => in_range(bytes, class_front(alloc, rest)?),
        b'N' => in_range(bytes, method_front(alloc, rest)?),
        b'A' => in_range(bytes, alloc_front(rest)),
        b'U' => in_range(bytes, update_front(rest)),
        b'M' => in_range(bytes, enter_front(rest)),
        b'E' => in_range(bytes, exit_front(rest)),
        b'X' => in_range(bytes, unwind_front(rest)),
        b'F' => in_range(bytes, flush_front(rest)),
        b'D' => in_range(bytes, death_front(rest)),
        b'Z' => in_range(bytes, finish_front(rest)),
        _ => in_range(bytes, None),
    }
}

/// The line of the first record, which has this number in its trace, and the bytes behind the record. `None` says that no
/// record is whole. Where the trace has ended, nothing may follow.
#[inline(always)]
pub fn next_record(
    alloc: Global,
    bytes: &[u8],
    ended: bool,
    number: u64,
) -> Result<Option<(TraceLine, &[u8])>, TraceFault>
    ensures some { IfOk result (λ found. IfSome found (λ x. IsFront x.0 x.1.now bytes.now)) }
    ensures unfinished { IfOk result (λ found. IfNone found (IsUnfinished bytes.now)) }
    ensures ended { IfOk result
        (λ found. IfNone found (ended ≡ true → bytes.now ≡ [])) }
    ensures goes_on { IfOk result (λ found. IfSome found (λ x. ended ≡ false)) }
    ensures err { (past : List TraceLine) → ended ≡ has_ended past → number ≡ length past + 1 →
        IfErr result (RefusesFrontNext past bytes.now) }
{
    if ended {
        if bytes.is_empty() {
            return Ok(None);
        }
        return Err(TraceFault::At {
            kind: AFTER,
            line: number,
        });
    }
    match read_record(alloc, bytes) {
        Ok(found) => Ok(found),
        Err(LineError::Form) => Err(TraceFault::At {
            kind: FORM,
            line: number,
        }),
        Err(LineError::Memory) => Err(TraceFault::NoMemory),
    }
}

/// Takes the first record where it is whole, and says what stands behind it.
fn take_record<'a>(
    alloc: Global,
    rules: &mut Rules,
    bytes: &'a [u8],
) -> Result<Option<&'a [u8]>, TraceFault>
    requires unharmed { rules.old.fault ≡ None }
    requires fine { AreFine 2 (reverse rules.old.lines) }
    ensures some { IfOk result
        (λ left. IfSome left (λ behind. TakesRecord rules.old rules.new bytes.now behind.now)) }
    ensures none { IfOk result
        (λ left. IfNone left (LeavesRecord rules.old rules.new bytes.now)) }
    ensures err { IfErr result (RefusesFront rules.old bytes.now) }
{
    match next_record(alloc, bytes, rules.has_ended(), rules.next_number())? {
        Some((line, behind)) => {
            rules.take(line)?;
            Ok(Some(behind))
        }
        None => Ok(None),
    }
}

/// Takes all records that are whole, and says what stands behind them.
fn take_records<'a>(
    alloc: Global,
    rules: &mut Rules,
    bytes: &'a [u8],
) -> Result<&'a [u8], TraceFault>
    requires unharmed { rules.old.fault ≡ None }
    requires fine { AreFine 2 (reverse rules.old.lines) }
    ensures ok { IfOk result
        (λ left. TakesAll rules.old rules.new true true bytes.now left.now) }
    ensures err { IfErr result (ShowsIn (unpacked_bytes true rules.old bytes.now)) }
{
    let mut rest = bytes;
    'records: while let Some(behind) = take_record(alloc, rules, rest)? {
        rest = behind;
    }
    Ok(rest)
}

/// Takes the opening where it is still to come, and then all records that are whole. It says whether the opening was taken,
/// and what stands behind.
pub fn take_all<'a>(
    alloc: Global,
    rules: &mut Rules,
    opened: bool,
    bytes: &'a [u8],
) -> Result<(bool, &'a [u8]), TraceFault>
    requires before { MayGoOn rules.old opened }
    ensures ok { IfOk result
        (λ x. TakesAll rules.old rules.new opened x.0 bytes.now x.1.now) }
    ensures err { IfErr result (ShowsIn (unpacked_bytes opened rules.old bytes.now)) }
{
    if opened {
        let left = take_records(alloc, rules, bytes)?;
        return Ok((true, left));
    }
    if !may_open(bytes) {
        return Err(TraceFault::At {
            kind: FORM,
            line: 1,
        });
    }
    if bytes.len() < OPENING.len() {
        return Ok((false, bytes));
    }
    let left = take_records(alloc, rules, &bytes[OPENING.len()..])?;
    Ok((true, left))
}
