//! The lengths of the dimensions.
ghost use Rattle.std.specs.Prelude.{◌≡◌, ℕ, ℤ, ◌+◌, ◌<◌, ◌≤◌, [], List, length, drop, pos, int_le, IfOk};
ghost use Rattle.std.specs.List.{list_all};
ghost use Rattle.et_base.specs.declared.value.Value.{Value as Entry};
ghost use Rattle.et_state.specs.State.{Kept};
ghost use Rattle.et_state.specs.Words.{HasFrame, top};
ghost use Rattle.et_state.specs.Outcome.{Outcome};
ghost use Rattle.et_event.specs.Heap.{with_lengths};
ghost use Rattle.et_event.specs.Moments.{Moment, ill_typed};
ghost use Rattle.et_refs.specs.Refusals.{outcome_of};

use crate::operands::take_int;
use crate::refusals::Refusal;
use crate::types::kinds::is_length;
use et_base::{NoMemory, ThreadId};
use et_state::Machine;
use std::alloc::Global;

/// The lengths of so many dimensions, which stand on top, the first dimension first.
pub fn take_lengths(
    alloc: Global,
    machine: &Machine,
    thread: ThreadId,
    count: u32,
) -> Result<Result<Vec<i32>, Refusal>, NoMemory>
    requires { HasFrame machine.now.guest thread }
    ensures is { IfOk result (λ answer. (e : Moment) (go : List ℤ → List Entry → Outcome Kept) →
        with_lengths count [] (ill_typed e) (top machine.now.guest thread).operands go
        ≡ outcome_of e answer
        (λ lengths. go lengths.items (drop count (top machine.now.guest thread).operands))) }
    ensures count { IfOk result (λ answer. IfOk answer (λ lengths. length lengths.items ≡ count)) }
    ensures deep { IfOk result (λ answer.
        IfOk answer (λ lengths. count ≤ length (top machine.now.guest thread).operands)) }
{
    let mut lengths = Vec::new(alloc);
    for k in 0..count {
        match take_int(machine, thread, k) {
            Ok(n) => lengths.push(n)?,
            Err(refusal) => return Ok(Err(refusal)),
        }
    }
    lengths.reverse();
    Ok(Ok(lengths))
}

/// Whether arrays may have these lengths.
pub fn are_lengths(lengths: &[i32]) -> bool
    ensures { result ≡ list_all (int_le (pos 0)) lengths.now }
{
    for k in 0..lengths.len() {
        if !is_length(lengths[k]) {
            return false;
        }
    }
    true
}
