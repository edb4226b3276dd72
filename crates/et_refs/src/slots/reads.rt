//! The instructions that read the heap, and change nothing but their frame.
ghost use Rattle.std.specs.Prelude.{◌≡◌, ◌+◌, ◌≤◌, ◌++◌, [], length, drop, IfSome};
ghost use Rattle.et_event.specs.Checks.{entries_of};
ghost use Rattle.et_event.specs.Sites.{natural_of};
ghost use Rattle.et_refs.specs.Reads.{exchanged};
ghost use Rattle.et_state.specs.Running.{most_lost, steps_running};

use crate::doing::changes::Exchange;
use et_base::Value;
use et_code::Instr;
use et_ops::{give, take};
use et_state::Running;

/// Puts a value on top; a long takes two entries.
#[inline(always)]
fn give_value(running: &mut Running, value: Value)
    requires { length (entries_of value) + length running.old.frame.operands
        ≤ running.old.frame.room }
    ensures { running.new ≡ steps_running running.old (record running.old.frame
        { operands = entries_of value ++ running.old.frame.operands }) [] }
{
    match value {
        Value::Long(_) => give(running, &[Value::LongHigh, value]),
        Value::Unset | Value::Int(_) | Value::LongHigh | Value::Null | Value::Ref(_) => {
            give(running, &[value])
        }
    }
}

/// The instruction by which a value is put in the place of operands, and the pc goes on.
#[inline(always)]
pub(crate) fn exchange(running: &mut Running, x: Exchange, next: u32)
    requires taken { x.taken ≤ length running.old.frame.operands }
    requires few { x.taken ≤ most_lost }
    requires room { length (entries_of x.value) + length (drop x.taken running.old.frame.operands)
        ≤ running.old.frame.room }
    ensures { running.new ≡ exchanged x next running.old }
{
    running.begin_instruction();
    take(running, x.taken);
    give_value(running, x.value);
    running.set_pc(next);
}

/// The index into the pool that an instruction has, if it has 16 bits.
#[inline(always)]
pub fn index_in(instr: &Instr) -> Option<u16>
    ensures { IfSome result (λ index. natural_of instr.now.first ≡ index) }
{
    if instr.first < 0 || instr.first >= 65_536 {
        return None;
    }
    Some(instr.first as u16)
}
