//! The operands that a row takes: of a machine here, of the frame that runs below.

pub(crate) mod running;

ghost use Rattle.std.specs.Prelude.{◌≡◌, ℤ, ◌+◌, ◌<◌, ◌≤◌, List, length, drop, true, Some, IfOk};
ghost use Rattle.et_pool.specs.Descriptors.{is_field_descriptor};
ghost use Rattle.et_event.specs.Kinds.{kind_of_field};
ghost use Rattle.et_base.specs.declared.value.Value.{Value as Entry};
ghost use Rattle.et_state.specs.State.{Kept, kept_of};
ghost use Rattle.et_state.specs.Sound.{IsSound};
ghost use Rattle.et_state.specs.Words.{HasFrame, top};
ghost use Rattle.et_state.specs.Outcome.{Outcome};
ghost use Rattle.et_event.specs.Moments.{Moment, ill_typed};
ghost use Rattle.et_event.specs.Checks.{Reference, with_int, with_long, with_reference, with_value};
ghost use Rattle.et_event.specs.Tops.{IsIn};
ghost use Rattle.et_refs.specs.Refusals.{outcome_of};
ghost use Rattle.et_refs.specs.Changes.{IsNamedReference};

use crate::refusals::Refusal;
use crate::types::kinds::kind_of_elements;
use et_base::{ObjectId, ThreadId, Value};
use et_event::{Elements, Operand, int_at, long_at, reference_at};
use et_heap::value_of_reference;
use et_pool::kind_of;
use et_state::Machine;

/// A value on top, and how many entries it takes.
#[derive(Clone, Copy)]
pub struct Taken {
    pub value: Value,
    pub width: u32,
}

/// The int so far below the top.
#[tactic(auto, using(crate::proofs::Below::int_there, crate::proofs::Below::no_int, crate::proofs::Below::int_deep))]
pub fn take_int(machine: &Machine, thread: ThreadId, k: u32) -> Result<i32, Refusal>
    requires { HasFrame machine.now.guest thread }
    ensures is { (e : Moment) (go : ℤ → List Entry → Outcome Kept) →
        with_int (ill_typed e) (drop k (top machine.now.guest thread).operands) go
        ≡ outcome_of e result (λ n. go n (drop (k + 1) (top machine.now.guest thread).operands)) }
    ensures deep { IfOk result (λ n. k < length (top machine.now.guest thread).operands) }
{
    match int_at(machine, thread, k) {
        Some(n) => Ok(n),
        None => Err(Refusal::IllTyped),
    }
}

/// The long on top.
#[tactic(auto, using(crate::proofs::Below::long_there, crate::proofs::Below::no_long, crate::proofs::Below::long_deep))]
fn take_long(machine: &Machine, thread: ThreadId) -> Result<i64, Refusal>
    requires { HasFrame machine.now.guest thread }
    ensures is { (e : Moment) (go : ℤ → List Entry → Outcome Kept) →
        with_long (ill_typed e) (top machine.now.guest thread).operands go
        ≡ outcome_of e result (λ n. go n (drop 2 (top machine.now.guest thread).operands)) }
    ensures deep { IfOk result (λ n. 2 ≤ length (top machine.now.guest thread).operands) }
{
    match long_at(machine, thread, 0) {
        Some(n) => Ok(n),
        None => Err(Refusal::IllTyped),
    }
}

/// The reference so far below the top.
#[tactic(auto, using(crate::proofs::Below::reference_there, crate::proofs::Below::no_reference, crate::proofs::Below::reference_deep, crate::proofs::Below::reference_named))]
pub(crate) fn take_reference(
    machine: &Machine,
    thread: ThreadId,
    k: u32,
) -> Result<Option<ObjectId>, Refusal>
    requires frame { HasFrame machine.now.guest thread }
    requires sound { IsSound (kept_of machine.now) }
    ensures is { (e : Moment) (go : Reference → List Entry → Outcome Kept) →
        with_reference (ill_typed e) (drop k (top machine.now.guest thread).operands) go
        ≡ outcome_of e result (λ r. go r (drop (k + 1) (top machine.now.guest thread).operands)) }
    ensures deep { IfOk result (λ r. k < length (top machine.now.guest thread).operands) }
    ensures named { IfOk result (λ r. IsNamedReference machine.now (top machine.now.guest thread)
        r) }
{
    match reference_at(machine, thread, k) {
        Some(reference) => Ok(reference),
        None => Err(Refusal::IllTyped),
    }
}

/// The value of a kind on top; no value is of no kind.
pub(crate) fn take_value(
    machine: &Machine,
    thread: ThreadId,
    kind: Option<Operand>,
) -> Result<Taken, Refusal>
    requires frame { HasFrame machine.now.guest thread }
    requires sound { IsSound (kept_of machine.now) }
    ensures is { (e : Moment) (go : Entry → List Entry → Outcome Kept) →
        with_value kind (ill_typed e) (top machine.now.guest thread).operands go
        ≡ outcome_of e result
        (λ x. go x.value (drop x.width (top machine.now.guest thread).operands)) }
    ensures deep { IfOk result (λ x. x.width ≤ length (top machine.now.guest thread).operands) }
    ensures few { IfOk result (λ x. x.width ≤ 2) }
    ensures there { IfOk result (λ x. IsIn (top machine.now.guest thread) x.value) }
{
    match kind {
        Some(Operand::Int) => {
            let n = take_int(machine, thread, 0)?;
            Ok(Taken {
                value: Value::Int(n),
                width: 1,
            })
        }
        Some(Operand::Long) => {
            let n = take_long(machine, thread)?;
            Ok(Taken {
                value: Value::Long(n),
                width: 2,
            })
        }
        Some(Operand::Reference) => {
            let reference = take_reference(machine, thread, 0)?;
            Ok(Taken {
                value: value_of_reference(reference),
                width: 1,
            })
        }
        None => Err(Refusal::IllTyped),
    }
}

/// A frame has no more operands than it may.
pub fn operands_fit(machine: &Machine, thread: ThreadId)
    requires { HasFrame machine.now.guest thread }
    ensures { length (top machine.now.guest thread).operands ≤ (top machine.now.guest thread).room }
{
    let _depth = machine.depth(thread);
}

/// The value of a type on top.
pub fn take_typed(machine: &Machine, thread: ThreadId, descriptor: &[u8]) -> Result<Taken, Refusal>
    requires frame { HasFrame machine.now.guest thread }
    requires sound { IsSound (kept_of machine.now) }
    requires field { is_field_descriptor descriptor.now ≡ true }
    ensures is { (e : Moment) (go : Entry → List Entry → Outcome Kept) →
        with_value (kind_of_field descriptor.now)
        (ill_typed e) (top machine.now.guest thread).operands go ≡ outcome_of e result
        (λ x. go x.value (drop x.width (top machine.now.guest thread).operands)) }
    ensures deep { IfOk result (λ x. x.width ≤ length (top machine.now.guest thread).operands) }
    ensures few { IfOk result (λ x. x.width ≤ 2) }
    ensures there { IfOk result (λ x. IsIn (top machine.now.guest thread) x.value) }
{
    take_value(machine, thread, kind_of(descriptor))
}
