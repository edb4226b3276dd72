//! Branches (JVMS 2.11.7).
ghost use Rattle.std.specs.Prelude.{◌≡◌, ◌<◌, ◌^◌, ◌≤◌, Some, if◌then◌else◌, option_map, length, drop, true};
ghost use Rattle.et_state.specs.Running.{most_lost};
ghost use Rattle.et_event.specs.FrameSteps.{StepsRunning};
ghost use Rattle.et_event.specs.Sites.{target as target_of};
ghost use Rattle.et_event.specs.Plain.{compares, same_reference, condition_tested};
ghost use Rattle.et_event.specs.declared.rows.Condition.TheVariants as when;
ghost use Rattle.et_ops.specs.Tops.{jumped};

use crate::operands::{discard, int_at, reference_at, two_ints};
use et_base::ObjectId;
use et_event::{Comparison, Condition};
use et_state::Running;

/// The place so far from pc.
#[inline(always)]
fn target(pc: u32, offset: i32) -> u32
    requires { pc < 2 ^ 31 }
    ensures { result ≡ target_of pc offset }
{
    let place = pc as i64 + offset as i64;
    if place < 0 { 0 } else { place as u32 }
}

#[inline(always)]
fn compare(comparison: Comparison, a: i32, b: i32) -> bool
    ensures { result ≡ compares comparison a b }
{
    match comparison {
        Comparison::Equal => a == b,
        Comparison::NotEqual => a != b,
        Comparison::Less => a < b,
        Comparison::GreaterOrEqual => a >= b,
        Comparison::Greater => a > b,
        Comparison::LessOrEqual => a <= b,
    }
}

/// Whether two references are the same.
#[inline(always)]
fn are_same(a: Option<ObjectId>, b: Option<ObjectId>) -> bool
    ensures { result ≡ same_reference a b }
{
    match (a, b) {
        (None, None) => true,
        (Some(a), Some(b)) => a == b,
        _ => false,
    }
}

/// The instruction by which so many operands are taken, and the pc goes to the target where the condition holds, and else on.
#[inline(always)]
pub(crate) fn jump(running: &mut Running, taken: u32, holds: bool, offset: i32, next: u32)
    requires pc { running.old.frame.pc < 2 ^ 31 }
    requires operands { taken ≤ length running.old.frame.operands }
    requires few { taken ≤ most_lost }
    ensures { StepsRunning (Some
        (jumped offset next running.old.frame (holds, drop taken running.old.frame.operands)))
        true running.old running.new }
{
    let pc = running.pc();
    let place = if holds { target(pc, offset) } else { next };
    discard(running, taken, place);
}

/// `goto` and `goto_w`.
#[inline(always)]
fn go(running: &mut Running, offset: i32, next: u32) -> bool
    requires pc { running.old.frame.pc < 2 ^ 31 }
    ensures { StepsRunning (option_map (jumped offset next running.old.frame)
        (condition_tested when.Always running.old.frame.operands)) result running.old running.new }
{
    let place = target(running.pc(), offset);
    running.begin_instruction();
    running.set_pc(place);
    true
}

/// `ifeq` and its kin.
#[inline(always)]
fn branch_with_zero(running: &mut Running, comparison: Comparison, offset: i32, next: u32) -> bool
    requires pc { running.old.frame.pc < 2 ^ 31 }
    ensures { StepsRunning (option_map (jumped offset next running.old.frame)
        (condition_tested (when.WithZero comparison) running.old.frame.operands))
        result running.old running.new }
{
    let Some(a) = int_at(running, 0) else {
        return false;
    };
    let holds = compare(comparison, a, 0);
    jump(running, 1, holds, offset, next);
    true
}

/// `if_icmpeq` and its kin.
#[inline(always)]
fn branch_of_ints(running: &mut Running, comparison: Comparison, offset: i32, next: u32) -> bool
    requires pc { running.old.frame.pc < 2 ^ 31 }
    ensures { StepsRunning (option_map (jumped offset next running.old.frame)
        (condition_tested (when.OfInts comparison) running.old.frame.operands))
        result running.old running.new }
{
    let Some((a, b)) = two_ints(running) else {
        return false;
    };
    let holds = compare(comparison, a, b);
    jump(running, 2, holds, offset, next);
    true
}

/// `if_acmpeq`, or `if_acmpne` where the references are not to be the same.
#[inline(never)]
fn branch_of_references(running: &mut Running, same: bool, offset: i32, next: u32) -> bool
    requires pc { running.old.frame.pc < 2 ^ 31 }
    ensures { StepsRunning (option_map (jumped offset next running.old.frame) (condition_tested
        (if same then when.SameReference else when.OtherReference)
        running.old.frame.operands)) result running.old running.new }
{
    let Some(b) = reference_at(running, 0) else {
        return false;
    };
    let Some(a) = reference_at(running, 1) else {
        return false;
    };
    let holds = are_same(a, b) == same;
    jump(running, 2, holds, offset, next);
    true
}

/// `ifnull`, or `ifnonnull` where the reference is not to be null.
#[inline(never)]
fn branch_of_null(running: &mut Running, null: bool, offset: i32, next: u32) -> bool
    requires pc { running.old.frame.pc < 2 ^ 31 }
    ensures { StepsRunning (option_map (jumped offset next running.old.frame) (condition_tested
        (if null then when.Null else when.NotNull) running.old.frame.operands))
        result running.old running.new }
{
    let Some(a) = reference_at(running, 0) else {
        return false;
    };
    let holds = a.is_none() == null;
    jump(running, 1, holds, offset, next);
    true
}

/// The pc goes to the target where the condition holds, and else on.
#[inline(always)]
pub(crate) fn branch(running: &mut Running, condition: Condition, offset: i32, next: u32) -> bool
    requires pc { running.old.frame.pc < 2 ^ 31 }
    ensures { StepsRunning (option_map (jumped offset next running.old.frame)
        (condition_tested condition running.old.frame.operands)) result running.old running.new }
{
    match condition {
        Condition::Always => go(running, offset, next),
        Condition::WithZero(comparison) => { branch_with_zero(running, comparison, offset, next) }
        Condition::OfInts(comparison) => branch_of_ints(running, comparison, offset, next),
        Condition::SameReference => branch_of_references(running, true, offset, next),
        Condition::OtherReference => branch_of_references(running, false, offset, next),
        Condition::Null => branch_of_null(running, true, offset, next),
        Condition::NotNull => branch_of_null(running, false, offset, next),
    }
}
