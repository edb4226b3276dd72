//! What a return hands to the caller, and the checks of it (JVMS 6.5, the returns).
ghost use Rattle.std.specs.Prelude.{◌≡◌, option_map};
ghost use Rattle.et_pool.specs.Operands.{shape_in};
ghost use Rattle.et_state.specs.Words.{HasFrame, top};
ghost use Rattle.et_event.specs.Sites.{running_method};
ghost use Rattle.et_event.specs.Places.{Runs};
ghost use Rattle.et_calls.specs.Returned.{AreValuesIn, IsValueIn, value_in as value_among, returned_value, values_of, returned_values as values};
ghost use Rattle.et_builtins.specs.Types.{returned_in};

use et_base::{MethodId, ThreadId, Value};
use et_event::operand_at;
use et_pool::{Operand, Returned};
use et_program::Program;
use et_state::Machine;

/// What the method that the topmost frame runs returns; `None` where its descriptor is none.
fn returned_by(program: &Program, machine: &Machine, thread: ThreadId) -> Option<Returned>
    requires frame { HasFrame machine.now.guest thread }
    requires runs { Runs program.now (top machine.now.guest thread) }
    ensures { result ≡ option_map (λ s. s.returned) (shape_in (running_method program.now
        (top machine.now.guest thread)).descriptor) }
{
    let method = machine.frame_method(thread).unwrap_or(MethodId::new(0));
    Some(program.method_shape(method)?.returned())
}

/// The value of a kind whose upper entry is this, above another.
fn value_in(kind: Operand, top: Value, below: Value) -> Option<Value>
    ensures { result ≡ value_among kind top below }
{
    match (kind, top, below) {
        (Operand::Int, Value::Int(_), _) => Some(top),
        (Operand::Long, Value::LongHigh, Value::Long(_)) => Some(below),
        (Operand::Reference, Value::Null | Value::Ref(_), _) => Some(top),
        _ => None,
    }
}

/// The value of a kind that stands on top.
#[tactic(auto, using(crate::proofs::Values::value_on_top, crate::proofs::Values::value_is_in))]
fn value_on_top(machine: &Machine, thread: ThreadId, kind: Operand) -> Option<Value>
    requires { HasFrame machine.now.guest thread }
    ensures value { result ≡ returned_value kind (top machine.now.guest thread).operands }
    ensures there { IsValueIn (top machine.now.guest thread) result }
{
    let first = operand_at(machine, thread, 0);
    let second = operand_at(machine, thread, 1);
    value_in(kind, first, second)
}

/// What an instruction returns that returns this kind, or nothing: `None` where it isn't there.
fn values_on_top(
    machine: &Machine,
    thread: ThreadId,
    kind: Option<Operand>,
) -> Option<Option<Value>>
    requires { HasFrame machine.now.guest thread }
    ensures value { result ≡ values_of kind (top machine.now.guest thread).operands }
    ensures there { AreValuesIn (top machine.now.guest thread) result }
{
    let Some(kind) = kind else {
        return Some(None);
    };
    let value = value_on_top(machine, thread, kind)?;
    Some(Some(value))
}

/// What an instruction returns from the method that the topmost frame runs: `None` where it isn't there, or is of another kind
/// than the method returns.
#[tactic(auto, using(crate::proofs::Values::returned_none, crate::proofs::Values::returned_some))]
pub(crate) fn returned_values(
    program: &Program,
    machine: &Machine,
    thread: ThreadId,
    kind: Option<Operand>,
) -> Option<Option<Value>>
    requires frame { HasFrame machine.now.guest thread }
    requires runs { Runs program.now (top machine.now.guest thread) }
    ensures value { result ≡ values kind (returned_in (running_method program.now
        (top machine.now.guest thread)).descriptor) (top machine.now.guest thread).operands }
    ensures there { AreValuesIn (top machine.now.guest thread) result }
{
    let returned = returned_by(program, machine, thread)?;
    if !returned.may_be(kind) {
        return None;
    }
    values_on_top(machine, thread, kind)
}
