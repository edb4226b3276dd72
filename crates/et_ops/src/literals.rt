//! Constants that stand in an instruction itself.
ghost use Rattle.std.specs.Prelude.{◌∷◌};
ghost use Rattle.et_base.specs.declared.value.Value.TheVariants.{Int, Long, LongHigh, Null};
ghost use Rattle.et_event.specs.FrameSteps.{StepsRunning};
ghost use Rattle.et_event.specs.Plain.{put};

use crate::operands::{push, replace};
use et_base::Value;
use et_state::Running;

/// `aconst_null`.
#[inline(always)]
pub(crate) fn push_null(running: &mut Running, next: u32) -> bool
    ensures { StepsRunning (put next (Null ∷ running.old.frame.operands) running.old.frame)
        result running.old running.new }
{
    push(running, Value::Null, next)
}

/// An int is pushed.
#[inline(always)]
pub(crate) fn push_int(running: &mut Running, n: i32, next: u32) -> bool
    ensures { StepsRunning (put next (Int n ∷ running.old.frame.operands) running.old.frame)
        result running.old running.new }
{
    push(running, Value::Int(n), next)
}

/// A long is pushed.
#[inline(never)]
pub(crate) fn push_long(running: &mut Running, n: i64, next: u32) -> bool
    ensures { StepsRunning (put next (LongHigh ∷ Long n ∷ running.old.frame.operands)
        running.old.frame) result running.old running.new }
{
    replace(running, 0, &[Value::LongHigh, Value::Long(n)], next)
}
