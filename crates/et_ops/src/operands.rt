//! The operands of the frame that runs: what stands on top, taken and put.
ghost use Rattle.std.specs.Prelude.{◌≡◌, ◌+◌, ◌<◌, ◌≤◌, ◌^◌, ◌++◌, [], ◌∷◌, Some, drop, length, take as first, true};
ghost use Rattle.et_base.specs.declared.value.Value.TheVariants.{Int};
ghost use Rattle.et_heap.specs.Refs.{refs_of};
ghost use Rattle.et_state.specs.Running.{most_lost, steps_running};
ghost use Rattle.et_state.specs.Threads.{operand_of, popped};
ghost use Rattle.et_event.specs.FrameSteps.{StepsRunning};
ghost use Rattle.et_event.specs.Plain.{is_one_value, is_single as single, is_value_pair, put as put_operands};
ghost use Rattle.et_event.specs.Tops.{AreIn, IsIn, entry_reference, int_of, long_of};
ghost use Rattle.et_ops.specs.Tops.{are_pair, ints_of, is_of as is_entry_of, longs_of};

use et_base::{ObjectId, Value};
use et_event::Operand;
use et_state::Running;

/// The operand so far below the topmost one; `Unset` where there is none.
#[tactic(auto, using(et_event::proofs::Groups::unset_is_in))]
#[inline(always)]
pub(crate) fn operand_at(running: &Running, k: u32) -> Value
    ensures value { result ≡ operand_of running.now.frame k }
    ensures there { IsIn running.now.frame result }
    ensures few { length running.now.frame.operands ≤ running.now.frame.room }
{
    if k < running.depth() {
        running.operand(k)
    } else {
        Value::Unset
    }
}

/// The int so far below the top.
#[inline(always)]
pub fn int_at(running: &Running, k: u32) -> Option<i32>
    ensures { result ≡ int_of (operand_of running.now.frame k) }
{
    match operand_at(running, k) {
        Value::Int(n) => Some(n),
        _ => None,
    }
}

/// The two ints on top, the lower one first.
#[inline(always)]
pub(crate) fn two_ints(running: &Running) -> Option<(i32, i32)>
    ensures value { result
        ≡ ints_of (operand_of running.now.frame 0) (operand_of running.now.frame 1) }
    ensures few { length running.now.frame.operands ≤ running.now.frame.room }
{
    match (operand_at(running, 0), operand_at(running, 1)) {
        (Value::Int(b), Value::Int(a)) => Some((a, b)),
        _ => None,
    }
}

/// The long whose upper entry is so far below the top.
#[inline(always)]
pub fn long_at(running: &Running, k: u32) -> Option<i64>
    requires { k + 1 < 2 ^ 32 }
    ensures { result ≡ long_of (operand_of running.now.frame k)
        (operand_of running.now.frame (k + 1)) }
{
    match (operand_at(running, k), operand_at(running, k + 1)) {
        (Value::LongHigh, Value::Long(n)) => Some(n),
        _ => None,
    }
}

/// The two longs on top, the lower one first.
#[inline(always)]
pub(crate) fn two_longs(running: &Running) -> Option<(i64, i64)>
    ensures { result
        ≡ longs_of (operand_of running.now.frame 0) (operand_of running.now.frame 1)
        (operand_of running.now.frame 2) (operand_of running.now.frame 3) }
{
    match (long_at(running, 2), long_at(running, 0)) {
        (Some(a), Some(b)) => Some((a, b)),
        _ => None,
    }
}

/// The reference so far below the top.
#[inline(always)]
pub fn reference_at(running: &Running, k: u32) -> Option<Option<ObjectId>>
    ensures { result ≡ entry_reference (operand_of running.now.frame k) }
{
    match operand_at(running, k) {
        Value::Null => Some(None),
        Value::Ref(o) => Some(Some(o)),
        _ => None,
    }
}

/// Whether an entry is an int or a reference, whichever is asked for.
#[inline(always)]
pub(crate) fn is_of(kind: Operand, value: &Value) -> bool
    ensures { result ≡ is_entry_of kind value.now }
{
    match kind {
        Operand::Int => matches!(*value, Value::Int(_)),
        Operand::Long => false,
        Operand::Reference => matches!(*value, Value::Null | Value::Ref(_)),
    }
}

/// Whether an entry is a value by itself.
#[inline(always)]
fn is_single(value: Value) -> bool
    ensures { result ≡ single value }
{
    matches!(value, Value::Int(_) | Value::Null | Value::Ref(_))
}

/// Whether two entries are a long, or two values.
#[inline(always)]
fn are_together(upper: Value, lower: Value) -> bool
    ensures { result ≡ are_pair upper lower }
{
    match (upper, lower) {
        (Value::LongHigh, Value::Long(_)) => true,
        (upper, lower) => is_single(upper) && is_single(lower),
    }
}

/// Whether the operand so far below the top is there, and a value by itself.
#[tactic(auto, using(crate::proofs::Groups::one_at, crate::proofs::Groups::one_deep))]
#[inline(always)]
pub(crate) fn is_one(running: &Running, k: u32) -> bool
    ensures is { result ≡ is_one_value (drop k running.now.frame.operands) }
    ensures deep { result ≡ true → k < length running.now.frame.operands }
    ensures few { length running.now.frame.operands ≤ running.now.frame.room }
{
    is_single(operand_at(running, k))
}

/// Whether the two operands from there on are there, and a long or two values.
#[tactic(auto, using(crate::proofs::Groups::pair_at, crate::proofs::Groups::pair_deep))]
#[inline(always)]
pub(crate) fn is_pair(running: &Running, k: u32) -> bool
    requires { k + 1 < 2 ^ 32 }
    ensures is { result ≡ is_value_pair (drop k running.now.frame.operands) }
    ensures deep { result ≡ true → k + 1 < length running.now.frame.operands }
{
    are_together(operand_at(running, k), operand_at(running, k + 1))
}

/// Takes so many operands.
#[inline(always)]
pub fn take(running: &mut Running, count: u32)
    requires operands { count ≤ length running.old.frame.operands }
    requires lost { length running.old.lost + count ≤ most_lost }
    ensures { running.new ≡ steps_running running.old (popped count running.old.frame)
        (refs_of (first count running.old.frame.operands)) }
{
    for _ in 0..count {
        running.pop();
    }
}

/// Puts these operands on top, the first of them topmost.
#[inline(always)]
pub fn give(running: &mut Running, values: &[Value])
    requires { length values.now + length running.old.frame.operands ≤ running.old.frame.room }
    ensures { running.new ≡ steps_running running.old (record running.old.frame
        { operands = values.now ++ running.old.frame.operands }) [] }
{
    for k in 0..values.len() {
        running.push(values[values.len() - 1 - k]);
    }
}

/// The instruction by which so many operands are taken, these are put in their place, the first of them topmost, and the pc
/// goes on. The references among them stood in the frame.
#[inline(always)]
pub(crate) fn put(running: &mut Running, taken: u32, values: &[Value], pc: u32)
    requires operands { taken ≤ length running.old.frame.operands }
    requires few { taken ≤ most_lost }
    requires room { length values.now + length (drop taken running.old.frame.operands)
        ≤ running.old.frame.room }
    requires there { AreIn running.old.frame values.now }
    ensures { StepsRunning (Some (record running.old.frame {
      pc = pc;
      operands = values.now ++ drop taken running.old.frame.operands;
    })) true running.old running.new }
{
    running.begin_instruction();
    take(running, taken);
    give(running, values);
    running.set_pc(pc);
}

/// The instruction by which a value that stands in the frame, or is no reference, is pushed, and the pc goes on; `false`, and
/// nothing is done, where there is no room.
#[inline(always)]
pub(crate) fn push(running: &mut Running, value: Value, pc: u32) -> bool
    requires { IsIn running.old.frame value }
    ensures { StepsRunning (put_operands pc (value ∷ running.old.frame.operands) running.old.frame)
        result running.old running.new }
{
    if running.depth() >= running.room() as u32 {
        return false;
    }
    running.begin_instruction();
    running.push(value);
    running.set_pc(pc);
    true
}

/// The instruction by which so many operands are taken, and the pc goes on.
#[inline(always)]
pub(crate) fn discard(running: &mut Running, taken: u32, pc: u32)
    requires operands { taken ≤ length running.old.frame.operands }
    requires few { taken ≤ most_lost }
    ensures { StepsRunning (Some (record running.old.frame {
      pc = pc;
      operands = drop taken running.old.frame.operands;
    })) true running.old running.new }
{
    running.begin_instruction();
    take(running, taken);
    running.set_pc(pc);
}

/// The instruction by which so many operands are taken, an int is put in their place, and the pc goes on.
#[inline(always)]
pub(crate) fn put_int(running: &mut Running, taken: u32, n: i32, pc: u32)
    requires some { 0 < taken }
    requires operands { taken ≤ length running.old.frame.operands }
    requires few { taken ≤ most_lost }
    requires room { length running.old.frame.operands ≤ running.old.frame.room }
    ensures { StepsRunning
        (put_operands pc (Int n ∷ drop taken running.old.frame.operands) running.old.frame)
        true running.old running.new }
{
    running.begin_instruction();
    take(running, taken);
    running.push(Value::Int(n));
    running.set_pc(pc);
}

/// The instruction by which so many operands are taken, these are put in their place, the first of them topmost, and the pc
/// goes on; `false`, and nothing is done, where they don't fit.
#[inline(never)]
pub(crate) fn replace(running: &mut Running, taken: u32, values: &[Value], pc: u32) -> bool
    requires operands { taken ≤ length running.old.frame.operands }
    requires few { taken ≤ most_lost }
    requires small { length values.now ≤ 16 }
    requires there { AreIn running.old.frame values.now }
    ensures { StepsRunning
        (put_operands pc (values.now ++ drop taken running.old.frame.operands) running.old.frame)
        result running.old running.new }
{
    let room = running.room() as u32;
    let left = running.depth() - taken;
    if values.len() as u32 + left > room {
        return false;
    }
    put(running, taken, values, pc);
    true
}
