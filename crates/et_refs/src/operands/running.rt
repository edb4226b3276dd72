//! The operands that a row takes of the frame that runs.
ghost use Rattle.std.specs.Prelude.{◌≡◌, ℕ, ℤ, ◌+◌, ◌<◌, ◌≤◌, List, length, drop, nat_le, true, Some, Contains, IfOk, OnOk};
ghost use Rattle.et_base.specs.declared.value.Value.{Value as Entry};
ghost use Rattle.et_pool.specs.Descriptors.{is_field_descriptor, width_of as descriptor_width};
ghost use Rattle.et_event.specs.Kinds.{kind_of_field, kind_of_elements as elements_kind};
ghost use Rattle.et_event.specs.Operands.{operand_kind as descriptor_kind};
ghost use Rattle.et_event.specs.Sound.{is_of_kind};
ghost use Rattle.et_event.specs.Tops.{IsIn};
ghost use Rattle.et_event.specs.Checks.{Reference, with_int, with_long, with_reference, with_value, ill_typed_unless as ill_unless};
ghost use Rattle.et_event.specs.Moments.{Moment, ill_typed};
ghost use Rattle.et_refs.specs.Refusals.{outcome_of};
ghost use Rattle.et_state.specs.Outcome.{Outcome};
ghost use Rattle.et_state.specs.State.{Kept};
ghost use Rattle.et_state.specs.ThreadRoots.{frame_roots};

use crate::checks::ill_typed_unless;
use crate::operands::Taken;
use crate::refusals::Refusal;
use crate::types::kinds::{kind_of_elements, width_of};
use et_base::{ObjectId, Value};
use et_event::{Elements, Operand};
use et_heap::value_of_reference;
use et_ops::{int_at, long_at, reference_at};
use et_pool::kind_of;
use et_state::Running;

/// The int so far below the top.
#[tactic(auto, using(crate::proofs::Below::int_there, crate::proofs::Below::no_int, crate::proofs::Below::int_deep))]
#[inline(always)]
pub(crate) fn running_int(running: &Running, k: u32) -> Result<i32, Refusal>
    ensures is { (e : Moment) (go : ℤ → List Entry → Outcome Kept) →
        with_int (ill_typed e) (drop k running.now.frame.operands) go
        ≡ outcome_of e result (λ n. go n (drop (k + 1) running.now.frame.operands)) }
    ensures deep { IfOk result (λ n. k < length running.now.frame.operands) }
{
    match int_at(running, k) {
        Some(n) => Ok(n),
        None => Err(Refusal::IllTyped),
    }
}

/// The reference so far below the top.
#[tactic(auto, using(crate::proofs::Below::reference_there, crate::proofs::Below::no_reference, crate::proofs::Below::reference_deep))]
#[inline(always)]
pub(crate) fn running_reference(running: &Running, k: u32) -> Result<Option<ObjectId>, Refusal>
    ensures is { (e : Moment) (go : Reference → List Entry → Outcome Kept) →
        with_reference (ill_typed e) (drop k running.now.frame.operands) go
        ≡ outcome_of e result (λ r. go r (drop (k + 1) running.now.frame.operands)) }
    ensures deep { IfOk result (λ r. k < length running.now.frame.operands) }
    ensures there { IfOk result
        (λ r. (o : ℕ) → r ≡ Some o → Contains (frame_roots running.now.frame) o) }
{
    match reference_at(running, k) {
        Some(reference) => Ok(reference),
        None => Err(Refusal::IllTyped),
    }
}

/// The long on top.
#[tactic(auto, using(crate::proofs::Below::long_there, crate::proofs::Below::no_long, crate::proofs::Below::long_deep))]
#[inline(always)]
fn running_long(running: &Running) -> Result<i64, Refusal>
    ensures is { (e : Moment) (go : ℤ → List Entry → Outcome Kept) →
        with_long (ill_typed e) running.now.frame.operands go
        ≡ outcome_of e result (λ n. go n (drop 2 running.now.frame.operands)) }
    ensures deep { IfOk result (λ n. 2 ≤ length running.now.frame.operands) }
{
    match long_at(running, 0) {
        Some(n) => Ok(n),
        None => Err(Refusal::IllTyped),
    }
}

/// The value of a kind on top; no value is of no kind.
#[inline(always)]
fn running_value(running: &Running, kind: Option<Operand>) -> Result<Taken, Refusal>
    ensures is { (e : Moment) (go : Entry → List Entry → Outcome Kept) →
        with_value kind (ill_typed e) running.now.frame.operands go
        ≡ outcome_of e result (λ x. go x.value (drop x.width running.now.frame.operands)) }
    ensures deep { IfOk result (λ x. x.width ≤ length running.now.frame.operands) }
    ensures few { IfOk result (λ x. x.width ≤ 2) }
    ensures there { IfOk result (λ x. IsIn running.now.frame x.value) }
    ensures kind { IfOk result (λ x. is_of_kind kind x.value ≡ true) }
{
    match kind {
        Some(Operand::Int) => {
            let n = running_int(running, 0)?;
            Ok(Taken {
                value: Value::Int(n),
                width: 1,
            })
        }
        Some(Operand::Long) => {
            let n = running_long(running)?;
            Ok(Taken {
                value: Value::Long(n),
                width: 2,
            })
        }
        Some(Operand::Reference) => {
            let reference = running_reference(running, 0)?;
            Ok(Taken {
                value: value_of_reference(reference),
                width: 1,
            })
        }
        None => Err(Refusal::IllTyped),
    }
}

/// The value of a type on top.
#[inline(always)]
pub(crate) fn running_typed(running: &Running, descriptor: &[u8]) -> Result<Taken, Refusal>
    requires { is_field_descriptor descriptor.now ≡ true }
    ensures is { (e : Moment) (go : Entry → List Entry → Outcome Kept) →
        with_value (kind_of_field descriptor.now) (ill_typed e) running.now.frame.operands go
        ≡ outcome_of e result (λ x. go x.value (drop x.width running.now.frame.operands)) }
    ensures deep { IfOk result (λ x. x.width ≤ length running.now.frame.operands) }
    ensures few { IfOk result (λ x. x.width ≤ 2) }
    ensures there { IfOk result (λ x. IsIn running.now.frame x.value) }
    ensures kind { IfOk result (λ x. is_of_kind (descriptor_kind descriptor.now) x.value ≡ true) }
{
    running_value(running, kind_of(descriptor))
}

/// The value on top that may be an element.
#[inline(always)]
pub(crate) fn running_element(running: &Running, elements: Elements) -> Result<Taken, Refusal>
    ensures is { (e : Moment) (go : Entry → List Entry → Outcome Kept) →
        with_value (Some (elements_kind elements)) (ill_typed e) running.now.frame.operands go
        ≡ outcome_of e result (λ x. go x.value (drop x.width running.now.frame.operands)) }
    ensures deep { IfOk result (λ x. x.width ≤ length running.now.frame.operands) }
    ensures few { IfOk result (λ x. x.width ≤ 2) }
    ensures there { IfOk result (λ x. IsIn running.now.frame x.value) }
    ensures kind { IfOk result (λ x. is_of_kind (Some (elements_kind elements)) x.value ≡ true) }
{
    running_value(running, Some(kind_of_elements(elements)))
}

/// A frame has no more operands than it may.
#[inline(always)]
pub(crate) fn running_operands_fit(running: &Running)
    ensures { length running.now.frame.operands ≤ running.now.frame.room }
{
    let _depth = running.depth();
}

/// Whether so many entries fit in the place of the topmost operand.
#[inline(always)]
fn fits(running: &Running, width: u32) -> bool
    requires operands { 0 < length running.now.frame.operands }
    requires small { width ≤ 2 }
    ensures { result ≡ nat_le (width + length (drop 1 running.now.frame.operands))
        running.now.frame.room }
{
    let room = running.room() as u32;
    let left = running.depth() - 1;
    width + left <= room
}

/// The event has no meaning unless a value of a type fits in the place of the topmost operand.
#[inline(always)]
pub(crate) fn type_fits(running: &Running, descriptor: &[u8]) -> Result<(), Refusal>
    requires operands { 0 < length running.now.frame.operands }
    ensures is { (e : Moment) (go : Outcome Kept) → ill_unless e
        (nat_le (descriptor_width descriptor.now + length (drop 1 running.now.frame.operands))
        running.now.frame.room) go ≡ outcome_of e result (λ u. go) }
    ensures fits { OnOk result (descriptor_width descriptor.now + length
        (drop 1 running.now.frame.operands) ≤ running.now.frame.room) }
{
    ill_typed_unless(fits(running, width_of(descriptor)))
}
