//! What stands on top of the operands of the topmost frame.
ghost use Rattle.std.specs.Prelude.{◌≡◌, ◌+◌, ◌<◌, ◌^◌};
ghost use Rattle.et_state.specs.Threads.{operand_of};
ghost use Rattle.et_state.specs.Words.{HasFrame, top};
ghost use Rattle.et_event.specs.Tops.{int_of, long_of, entry_reference, IsIn};

use et_base::{ObjectId, ThreadId, Value};
use et_state::Machine;

/// The operand so far below the topmost one; `Unset` where there is none.
#[tactic(auto, using(crate::proofs::Groups::unset_is_in))]
#[inline(always)]
pub fn operand_at(machine: &Machine, thread: ThreadId, k: u32) -> Value
    requires { HasFrame machine.now.guest thread }
    ensures value { result ≡ operand_of (top machine.now.guest thread) k }
    ensures there { IsIn (top machine.now.guest thread) result }
{
    if k < machine.depth(thread) {
        machine.operand(thread, k)
    } else {
        Value::Unset
    }
}

/// The int so far below the top.
#[inline(always)]
pub fn int_at(machine: &Machine, thread: ThreadId, k: u32) -> Option<i32>
    requires { HasFrame machine.now.guest thread }
    ensures { result ≡ int_of (operand_of (top machine.now.guest thread) k) }
{
    match operand_at(machine, thread, k) {
        Value::Int(n) => Some(n),
        _ => None,
    }
}

/// The long whose upper entry is so far below the top.
#[inline(always)]
pub fn long_at(machine: &Machine, thread: ThreadId, k: u32) -> Option<i64>
    requires frame { HasFrame machine.now.guest thread }
    requires small { k + 1 < 2 ^ 32 }
    ensures { result ≡ long_of (operand_of (top machine.now.guest thread) k)
        (operand_of (top machine.now.guest thread) (k + 1)) }
{
    match (
        operand_at(machine, thread, k),
        operand_at(machine, thread, k + 1),
    ) {
        (Value::LongHigh, Value::Long(n)) => Some(n),
        _ => None,
    }
}

/// The reference so far below the top.
#[inline(always)]
pub fn reference_at(machine: &Machine, thread: ThreadId, k: u32) -> Option<Option<ObjectId>>
    requires { HasFrame machine.now.guest thread }
    ensures { result ≡ entry_reference (operand_of (top machine.now.guest thread) k) }
{
    match operand_at(machine, thread, k) {
        Value::Null => Some(None),
        Value::Ref(o) => Some(Some(o)),
        _ => None,
    }
}
