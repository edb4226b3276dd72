//! Rearrangements of the topmost operands (JVMS 2.11.6).
ghost use Rattle.et_event.specs.FrameSteps.{StepsRunning};
ghost use Rattle.et_event.specs.Plain.{rearranged};
ghost use Rattle.et_event.specs.declared.rows.Rearrangement.TheVariants as stack;

use crate::operands::{discard, is_one, is_pair, operand_at, push, replace};
use et_event::Rearrangement;
use et_state::Running;

/// `nop`.
#[inline(never)]
fn nop(running: &mut Running, next: u32) -> bool
    ensures { StepsRunning (rearranged next stack.Nop running.old.frame)
        result running.old running.new }
{
    replace(running, 0, &[], next)
}

/// `pop`.
#[inline(always)]
fn pop(running: &mut Running, next: u32) -> bool
    ensures { StepsRunning (rearranged next stack.Pop running.old.frame)
        result running.old running.new }
{
    if !is_one(running, 0) {
        return false;
    }
    discard(running, 1, next);
    true
}

/// `pop2`.
#[inline(never)]
fn pop2(running: &mut Running, next: u32) -> bool
    ensures { StepsRunning (rearranged next stack.Pop2 running.old.frame)
        result running.old running.new }
{
    if !is_pair(running, 0) {
        return false;
    }
    replace(running, 2, &[], next)
}

/// `dup`.
#[inline(always)]
fn dup(running: &mut Running, next: u32) -> bool
    ensures { StepsRunning (rearranged next stack.Dup running.old.frame)
        result running.old running.new }
{
    if !is_one(running, 0) {
        return false;
    }
    let first = operand_at(running, 0);
    push(running, first, next)
}

/// `dup_x1`.
#[inline(never)]
fn dup_x1(running: &mut Running, next: u32) -> bool
    ensures { StepsRunning (rearranged next stack.DupX1 running.old.frame)
        result running.old running.new }
{
    if !is_one(running, 0) {
        return false;
    }
    if !is_one(running, 1) {
        return false;
    }
    let first = operand_at(running, 0);
    let second = operand_at(running, 1);
    let first_again = operand_at(running, 0);
    replace(running, 2, &[first, second, first_again], next)
}

/// `dup_x2`.
#[inline(never)]
fn dup_x2(running: &mut Running, next: u32) -> bool
    ensures { StepsRunning (rearranged next stack.DupX2 running.old.frame)
        result running.old running.new }
{
    if !is_one(running, 0) {
        return false;
    }
    if !is_pair(running, 1) {
        return false;
    }
    let first = operand_at(running, 0);
    let second = operand_at(running, 1);
    let third = operand_at(running, 2);
    let first_again = operand_at(running, 0);
    replace(running, 3, &[first, second, third, first_again], next)
}

/// `dup2`.
#[inline(never)]
fn dup2(running: &mut Running, next: u32) -> bool
    ensures { StepsRunning (rearranged next stack.Dup2 running.old.frame)
        result running.old running.new }
{
    if !is_pair(running, 0) {
        return false;
    }
    let first = operand_at(running, 0);
    let second = operand_at(running, 1);
    let first_again = operand_at(running, 0);
    let second_again = operand_at(running, 1);
    replace(
        running,
        2,
        &[first, second, first_again, second_again],
        next,
    )
}

/// `dup2_x1`.
#[inline(never)]
fn dup2_x1(running: &mut Running, next: u32) -> bool
    ensures { StepsRunning (rearranged next stack.Dup2X1 running.old.frame)
        result running.old running.new }
{
    if !is_pair(running, 0) {
        return false;
    }
    if !is_one(running, 2) {
        return false;
    }
    let first = operand_at(running, 0);
    let second = operand_at(running, 1);
    let third = operand_at(running, 2);
    let first_again = operand_at(running, 0);
    let second_again = operand_at(running, 1);
    replace(
        running,
        3,
        &[first, second, third, first_again, second_again],
        next,
    )
}

/// `dup2_x2`.
#[inline(never)]
fn dup2_x2(running: &mut Running, next: u32) -> bool
    ensures { StepsRunning (rearranged next stack.Dup2X2 running.old.frame)
        result running.old running.new }
{
    if !is_pair(running, 0) {
        return false;
    }
    if !is_pair(running, 2) {
        return false;
    }
    let first = operand_at(running, 0);
    let second = operand_at(running, 1);
    let third = operand_at(running, 2);
    let fourth = operand_at(running, 3);
    let first_again = operand_at(running, 0);
    let second_again = operand_at(running, 1);
    replace(
        running,
        4,
        &[first, second, third, fourth, first_again, second_again],
        next,
    )
}

/// `swap`.
#[inline(never)]
fn swap(running: &mut Running, next: u32) -> bool
    ensures { StepsRunning (rearranged next stack.Swap running.old.frame)
        result running.old running.new }
{
    if !is_one(running, 0) {
        return false;
    }
    if !is_one(running, 1) {
        return false;
    }
    let a = operand_at(running, 0);
    let b = operand_at(running, 1);
    replace(running, 2, &[b, a], next)
}

/// The topmost operands are rearranged.
#[inline(always)]
pub(crate) fn rearrange(running: &mut Running, rearrangement: Rearrangement, next: u32) -> bool
    ensures { StepsRunning (rearranged next rearrangement running.old.frame)
        result running.old running.new }
{
    match rearrangement {
        Rearrangement::Nop => nop(running, next),
        Rearrangement::Pop => pop(running, next),
        Rearrangement::Pop2 => pop2(running, next),
        Rearrangement::Dup => dup(running, next),
        Rearrangement::DupX1 => dup_x1(running, next),
        Rearrangement::DupX2 => dup_x2(running, next),
        Rearrangement::Dup2 => dup2(running, next),
        Rearrangement::Dup2X1 => dup2_x1(running, next),
        Rearrangement::Dup2X2 => dup2_x2(running, next),
        Rearrangement::Swap => swap(running, next),
    }
}
