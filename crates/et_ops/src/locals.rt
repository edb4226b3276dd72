//! Local variables (JVMS 2.6.1, 2.11.2).
ghost use Rattle.std.specs.Prelude.{◌≡◌, ◌≢◌, ◌+◌, ◌<◌, ◌^◌, ◌++◌, option_map};
ghost use Rattle.et_state.specs.Threads.{local_of};
ghost use Rattle.et_event.specs.FrameSteps.{StepsRunning};
ghost use Rattle.et_event.specs.Plain.{loaded, put_some};
ghost use Rattle.et_event.specs.PoolOperands.Operand.TheVariants as operand;
ghost use Rattle.et_event.specs.Tops.{IsIn};

use crate::operands::{is_of, push, replace};
use et_base::Value;
use et_event::Operand;
use et_state::Running;

/// What a local variable holds; `Unset` where there is none of that index.
#[tactic(auto, using(et_event::proofs::Groups::unset_is_in))]
#[inline(always)]
pub(crate) fn local_at(running: &Running, i: u32) -> Value
    ensures value { result ≡ local_of running.now.frame i }
    ensures there { IsIn running.now.frame result }
{
    if (i as usize) < running.locals() {
        running.local(i as u16)
    } else {
        Value::Unset
    }
}

/// `lload`.
#[inline(never)]
fn load_long(running: &mut Running, i: u32, next: u32) -> bool
    requires small { i + 1 < 2 ^ 32 }
    ensures { StepsRunning (put_some next
        (option_map (λ vs. vs ++ running.old.frame.operands)
        (loaded operand.Long i running.old.frame)) running.old.frame)
        result running.old running.new }
{
    match (local_at(running, i), local_at(running, i + 1)) {
        (Value::Long(n), Value::LongHigh) => {
            replace(running, 0, &[Value::LongHigh, Value::Long(n)], next)
        }
        _ => false,
    }
}

/// `iload` and `aload`.
#[inline(always)]
fn load_one(running: &mut Running, kind: Operand, i: u32, next: u32) -> bool
    requires { kind ≢ operand.Long }
    ensures { StepsRunning (put_some next
        (option_map (λ vs. vs ++ running.old.frame.operands)
        (loaded kind i running.old.frame)) running.old.frame)
        result running.old running.new }
{
    let value = local_at(running, i);
    if !is_of(kind, &value) {
        return false;
    }
    push(running, value, next)
}

/// A local variable that holds the kind is pushed.
#[inline(always)]
pub(crate) fn load(running: &mut Running, kind: Operand, i: u32, next: u32) -> bool
    requires small { i + 1 < 2 ^ 32 }
    ensures { StepsRunning (put_some next
        (option_map (λ vs. vs ++ running.old.frame.operands) (loaded kind i running.old.frame))
        running.old.frame) result running.old running.new }
{
    match kind {
        Operand::Int | Operand::Reference => load_one(running, kind, i, next),
        Operand::Long => load_long(running, i, next),
    }
}
