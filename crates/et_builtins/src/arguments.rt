//! The arguments of a call, read where they stand among the operands, and whether the call may be done with them (JVMS 6.5,
//! the invokes).
ghost use Rattle.std.specs.Prelude.{◌≡◌, ◌+◌, ◌<◌, ◌≤◌, ◌^◌, nat_le, if◌then◌else◌, Some, None, IfSome, Contains, length, drop, slice_index_or};
ghost use Rattle.et_base.specs.declared.value.Value.TheVariants.{Unset};
ghost use Rattle.et_pool.specs.Descriptors.{MethodType};
ghost use Rattle.et_pool.specs.Operands.{entries_returned, shape_of};
ghost use Rattle.et_heap.specs.Objects.{IsHeld};
ghost use Rattle.et_state.specs.ThreadRoots.{frame_roots};
ghost use Rattle.et_state.specs.State.{kept_of};
ghost use Rattle.et_state.specs.Sound.{IsSound};
ghost use Rattle.et_state.specs.Words.{HasFrame, top};
ghost use Rattle.et_program.specs.Entries.{Linked};
ghost use Rattle.et_event.specs.Tops.{IsIn};
ghost use Rattle.et_event.specs.Frames.{first_reference};
ghost use Rattle.et_event.specs.Moments.{moment};
ghost use Rattle.et_event.specs.Calls.{are_of as are_of_kinds, are_passed};
ghost use Rattle.et_builtins.specs.Arguments.{arguments_in, entries_in as entries_among, fitting, is_passing};

use et_base::{ObjectId, ThreadId, Value};
use et_event::operand_at;
use et_pool::{CallShape, Operand};
use et_state::Machine;

/// The entry of the arguments that stands so far behind the first of them; `Unset` behind the last.
#[tactic(auto, using(crate::proofs::Standing::argument_there, crate::proofs::Standing::argument_past, et_event::proofs::Groups::unset_is_in))]
#[inline(always)]
pub fn argument_at(machine: &Machine, thread: ThreadId, count: u16, j: u32) -> Value
    requires frame { HasFrame machine.now.guest thread }
    requires operands { count ≤ length (top machine.now.guest thread).operands }
    ensures there { IsIn (top machine.now.guest thread) result }
    ensures value { result
        ≡ slice_index_or (arguments_in (top machine.now.guest thread) count) j Unset }
{
    if j < count as u32 {
        operand_at(machine, thread, count as u32 - 1 - j)
    } else {
        Value::Unset
    }
}

/// The object on which a method is called: the first argument (JVMS 2.6.1).
#[tactic(auto, using(crate::proofs::Standing::first_is, crate::proofs::Standing::reference_held, crate::proofs::Standing::reference_there))]
pub fn receiver(machine: &Machine, thread: ThreadId, count: u16) -> Option<ObjectId>
    requires frame { HasFrame machine.now.guest thread }
    requires operands { count ≤ length (top machine.now.guest thread).operands }
    requires sound { IsSound (kept_of machine.now) }
    ensures value { result ≡ first_reference (arguments_in (top machine.now.guest thread) count) }
    ensures held { IfSome result (λ o. IsHeld machine.now.heap o) }
    ensures there { IfSome result (λ o. Contains (frame_roots (top machine.now.guest thread)) o) }
{
    match argument_at(machine, thread, count, 0) {
        Value::Ref(o) => Some(o),
        _ => None,
    }
}

/// How many entries the argument of a kind takes that begins so far behind the first.
#[inline(always)]
fn entries_at(
    machine: &Machine,
    thread: ThreadId,
    kind: Option<Operand>,
    count: u16,
    at: u32,
) -> Option<u32>
    requires frame { HasFrame machine.now.guest thread }
    requires operands { count ≤ length (top machine.now.guest thread).operands }
    requires small { at < 2 ^ 16 }
    ensures { result ≡ entries_among kind
        (slice_index_or (arguments_in (top machine.now.guest thread) count) at Unset)
        (slice_index_or (arguments_in (top machine.now.guest thread) count) (at + 1) Unset) }
{
    match (kind, argument_at(machine, thread, count, at)) {
        (Some(Operand::Int), Value::Int(_)) => Some(1),
        (Some(Operand::Reference), Value::Null | Value::Ref(_)) => Some(1),
        (Some(Operand::Long), Value::Long(_)) => {
            match argument_at(machine, thread, count, at + 1) {
                Value::LongHigh => Some(2),
                _ => None,
            }
        }
        _ => None,
    }
}

/// Whether the arguments from one on are values of these kinds, and no others.
fn are_of(
    machine: &Machine,
    thread: ThreadId,
    kinds: &[Option<Operand>],
    count: u16,
    from: u32,
) -> bool
    requires frame { HasFrame machine.now.guest thread }
    requires operands { count ≤ length (top machine.now.guest thread).operands }
    requires from { from ≤ count }
    ensures { result
        ≡ are_of_kinds kinds.now (drop from (arguments_in (top machine.now.guest thread) count)) }
{
    let mut at = from;
    for kind in kinds {
        let Some(entries) = entries_at(machine, thread, *kind, count, at) else {
            return false;
        };
        at += entries;
    }
    at == count as u32
}

/// Whether the arguments are values of these kinds, behind a receiver where the method isn't static, and no others.
#[tactic(auto, using(crate::proofs::Passing::received, crate::proofs::Passing::receiver_deep))]
fn are_arguments(
    machine: &Machine,
    thread: ThreadId,
    is_static: bool,
    kinds: &[Option<Operand>],
    count: u16,
) -> bool
    requires frame { HasFrame machine.now.guest thread }
    requires operands { count ≤ length (top machine.now.guest thread).operands }
    ensures { result
        ≡ are_passed is_static kinds.now (arguments_in (top machine.now.guest thread) count) }
{
    if is_static {
        return are_of(machine, thread, kinds, count, 0);
    }
    let Some(entries) = entries_at(machine, thread, Some(Operand::Reference), count, 0) else {
        return false;
    };
    are_of(machine, thread, kinds, count, entries)
}

/// How many entries a call takes whose parameters take so many, if there are as many operands.
fn count_within(entries: usize, is_static: bool, depth: u16) -> Option<u16>
    ensures { result ≡ (if nat_le (entries + (if is_static then 0 else 1)) depth then Some
        (entries + (if is_static then 0 else 1)) else None) }
{
    if entries > depth as usize {
        return None;
    }
    let count = if is_static {
        entries as u32
    } else {
        entries as u32 + 1
    };
    if count <= depth as u32 {
        Some(count as u16)
    } else {
        None
    }
}

/// Whether a call of this shape may be done with the topmost entries as arguments: they are of its kinds, and what is
/// returned will fit.
fn passes(
    machine: &Machine,
    thread: ThreadId,
    is_static: bool,
    shape: &CallShape,
    count: u16,
    room: u16,
) -> bool
    requires frame { HasFrame machine.now.guest thread }
    requires operands { count ≤ length (top machine.now.guest thread).operands }
    requires room { room ≡ (top machine.now.guest thread).room }
    ensures { result ≡ is_passing (top machine.now.guest thread) is_static shape.now count }
{
    let left = machine.depth(thread) - count as u32;
    let fits = left + shape.returned().entries() as u32 <= room as u32;
    are_arguments(machine, thread, is_static, shape.kinds(), count) && fits
}

/// How many entries a call of this shape takes, if it may be done: the arguments are there, and what is returned will fit.
pub(crate) fn fitting_call(
    machine: &Machine,
    thread: ThreadId,
    is_static: bool,
    shape: &CallShape,
) -> Option<u16>
    requires frame { HasFrame machine.now.guest thread }
    ensures value { (p : Linked) (type : MethodType) → shape.now ≡ shape_of type →
        result ≡ fitting (moment p machine.now thread) is_static (Some type) }
    ensures operands { IfSome result
        (λ count. count ≤ length (top machine.now.guest thread).operands) }
    ensures room { IfSome result
        (λ count. length (drop count (top machine.now.guest thread).operands)
        + entries_returned shape.now.returned ≤ (top machine.now.guest thread).room) }
{
    let room = machine.room(thread);
    let depth = machine.depth(thread) as u16;
    let count = count_within(shape.entries(), is_static, depth)?;
    if passes(machine, thread, is_static, shape, count, room) {
        Some(count)
    } else {
        None
    }
}
