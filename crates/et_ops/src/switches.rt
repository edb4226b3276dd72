//! Switches (JVMS 6.5, tableswitch and lookupswitch).
ghost use Rattle.std.specs.Prelude.{◌<◌, ◌^◌, Some, None};
ghost use Rattle.et_code.specs.Switches.{IsSwitch, target_of};
ghost use Rattle.et_event.specs.FrameSteps.{StepsRunning};
ghost use Rattle.et_event.specs.Checks.{with_int};
ghost use Rattle.et_event.specs.Sites.{target as target_at};

use crate::branches::jump;
use crate::operands::int_at;
use et_code::{Instr, switch_target};
use et_state::Running;

/// The pc goes to the target of the int on top, by the table of a `tableswitch` or a `lookupswitch` in this code.
#[inline(never)]
fn go_by_table(running: &mut Running, code: &[u8], instr: Instr) -> bool
    requires pc { running.old.frame.pc < 2 ^ 31 }
    requires switch { IsSwitch code.now instr }
    ensures { StepsRunning (with_int None running.old.frame.operands
        (λ key below. Some (record running.old.frame {
          pc = target_at
              running.old.frame.pc (target_of code.now instr key);
          operands = below;
        })))
        result running.old running.new }
{
    let Some(key) = int_at(running, 0) else {
        return false;
    };
    let offset = switch_target(code, &instr, key);
    jump(running, 1, true, offset, 0);
    true
}

/// `tableswitch` and `lookupswitch`, in this code. The instruction is handed on by value: one that is lent to a call would be
/// put into memory at each event.
#[inline(always)]
pub(crate) fn switch(running: &mut Running, code: &[u8], instr: &Instr) -> bool
    requires pc { running.old.frame.pc < 2 ^ 31 }
    requires switch { IsSwitch code.now instr.now }
    ensures { StepsRunning (with_int None running.old.frame.operands
        (λ key below. Some (record running.old.frame {
          pc = target_at
              running.old.frame.pc (target_of code.now instr.now key);
          operands = below;
        })))
        result running.old running.new }
{
    go_by_table(running, code, *instr)
}
