//! Local variables, written (JVMS 2.6.1, 2.11.2).
ghost use Rattle.std.specs.Prelude.{◌≡◌, ◌≢◌, ◌+◌, ◌<◌, ◌≤◌, ◌^◌, Some, drop, length, slice_set, true};
ghost use Rattle.et_base.specs.declared.value.Value.TheVariants.{Int, Unset};
ghost use Rattle.et_heap.specs.Refs.{refs_of_value};
ghost use Rattle.et_state.specs.Running.{most_lost, steps_running};
ghost use Rattle.et_state.specs.Threads.{local_of, operand_of, with_local};
ghost use Rattle.et_event.specs.FrameSteps.{StepsRunning};
ghost use Rattle.et_event.specs.Plain.{increased, long_stored, one_stored, stored};
ghost use Rattle.et_event.specs.PoolOperands.Operand.TheVariants as operand;
ghost use Rattle.et_ops.specs.Tops.{half_beside as half, half_of, unset_at, refs_at};

use crate::locals::local_at;
use crate::operands::{is_of, long_at, operand_at, take};
use et_base::{Value, add32};
use et_event::Operand;
use et_state::Running;

/// The local variable of the other half of a long, whose one half is this value of local variable i.
#[inline(always)]
fn half_beside(value: Value, i: u16) -> Option<u16>
    requires { i + 1 < 2 ^ 16 }
    ensures { result ≡ half i value }
{
    match value {
        Value::Long(_) => Some(i + 1),
        Value::LongHigh => Some(i.saturating_sub(1)),
        _ => None,
    }
}

/// Makes a local variable unset.
#[inline(never)]
fn unset(running: &mut Running, i: u16)
    requires local { i < length running.old.frame.locals }
    requires lost { length running.old.lost < most_lost }
    ensures new { running.new ≡ steps_running running.old (with_local i Unset running.old.frame)
        (refs_of_value (local_of running.old.frame i)) }
    ensures few { length running.new.lost ≤ length running.old.lost + 1 }
{
    running.set_local(i, Value::Unset);
}

/// Makes the other half of a long unset whose one half is this local variable.
#[inline(always)]
fn free(running: &mut Running, i: u16)
    requires local { i < length running.old.frame.locals }
    requires lost { length running.old.lost < most_lost }
    ensures new { running.new ≡ steps_running running.old
        (record running.old.frame {
          locals = unset_at (half_of i
              running.old.frame.locals) running.old.frame.locals;
        }) (refs_at
        (half_of i running.old.frame.locals) running.old.frame.locals) }
    ensures few { length running.new.lost ≤ length running.old.lost + 1 }
{
    let locals = running.locals();
    let Some(j) = half_beside(running.local(i), i) else {
        return;
    };
    if (j as usize) < locals {
        unset(running, j);
    }
}

/// The instruction by which the topmost operand is moved to a local variable, and the pc goes on.
#[inline(always)]
fn move_one(running: &mut Running, i: u16, next: u32)
    requires local { i < length running.old.frame.locals }
    requires operand { 0 < length running.old.frame.operands }
    ensures { StepsRunning (Some (record running.old.frame {
      pc = next;
      locals = one_stored i (operand_of running.old.frame 0)
          running.old.frame.locals;
      operands = drop 1 running.old.frame.operands;
    })) true running.old running.new }
{
    running.begin_instruction();
    let value = running.pop();
    free(running, i);
    running.set_local(i, value);
    running.set_pc(next);
}

/// `istore` and `astore`: the topmost operand is moved to a local variable.
#[inline(always)]
fn store_one(running: &mut Running, kind: Operand, i: u32, next: u32) -> bool
    requires { kind ≢ operand.Long }
    ensures { StepsRunning (stored next kind i running.old.frame) result running.old running.new }
{
    let value = operand_at(running, 0);
    if !is_of(kind, &value) {
        return false;
    }
    if running.locals() <= i as usize {
        return false;
    }
    move_one(running, i as u16, next);
    true
}

/// The instruction by which a long on top is moved to two local variables, and the pc goes on.
#[inline(always)]
fn move_long(running: &mut Running, i: u16, n: i64, next: u32)
    requires local { i + 1 < length running.old.frame.locals }
    requires small { i + 1 < 2 ^ 16 }
    requires operands { 2 ≤ length running.old.frame.operands }
    ensures { StepsRunning (Some (record running.old.frame {
      pc = next;
      locals = long_stored i n running.old.frame.locals;
      operands = drop 2 running.old.frame.operands;
    })) true running.old running.new }
{
    running.begin_instruction();
    take(running, 2);
    free(running, i);
    free(running, i + 1);
    running.set_local(i, Value::Long(n));
    running.set_local(i + 1, Value::LongHigh);
    running.set_pc(next);
}

/// `lstore`: the topmost operand, a long, is moved to two local variables.
#[inline(never)]
fn store_long(running: &mut Running, i: u32, next: u32) -> bool
    requires small { i + 1 < 2 ^ 32 }
    ensures { StepsRunning (stored next operand.Long i running.old.frame)
        result running.old running.new }
{
    let Some(n) = long_at(running, 0) else {
        return false;
    };
    if running.locals() <= i as usize + 1 {
        return false;
    }
    move_long(running, i as u16, n, next);
    true
}

/// The topmost operand is moved to a local variable.
#[inline(always)]
pub(crate) fn store(running: &mut Running, kind: Operand, i: u32, next: u32) -> bool
    requires small { i + 1 < 2 ^ 32 }
    ensures { StepsRunning (stored next kind i running.old.frame) result running.old running.new }
{
    match kind {
        Operand::Int | Operand::Reference => store_one(running, kind, i, next),
        Operand::Long => store_long(running, i, next),
    }
}

/// The instruction by which a local variable gets an int, and the pc goes on.
#[inline(always)]
fn set_int(running: &mut Running, i: u16, n: i32, next: u32)
    requires local { i < length running.old.frame.locals }
    ensures { StepsRunning (Some (record running.old.frame {
      pc = next;
      locals = slice_set running.old.frame.locals i (Int n);
    })) true running.old running.new }
{
    running.begin_instruction();
    running.set_local(i, Value::Int(n));
    running.set_pc(next);
}

/// `iinc`: a number is added to an int in a local variable.
#[inline(always)]
pub(crate) fn increment(running: &mut Running, i: u32, by: i32, next: u32) -> bool
    ensures { StepsRunning (increased next i by running.old.frame) result running.old running.new }
{
    let Value::Int(n) = local_at(running, i) else {
        return false;
    };
    if running.locals() <= i as usize {
        return false;
    }
    set_int(running, i as u16, add32(n, by), next);
    true
}
