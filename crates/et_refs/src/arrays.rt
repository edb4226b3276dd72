//! Arrays that are made (JVMS 6.5, newarray, anewarray, multianewarray): those of one dimension here, what making takes and the
//! arrays of several dimensions below.

pub(crate) mod counts;
pub(crate) mod dimensions;
pub(crate) mod filling;
pub(crate) mod lengths;

ghost use Rattle.std.specs.Prelude.{◌≡◌, ℕ, ◌+◌, ◌<◌, ◌≤◌, drop, length, unwrap_or, IfOk};
ghost use Rattle.et_state.specs.State.{Kept, kept_of};
ghost use Rattle.et_state.specs.Words.{HasFrame, top};
ghost use Rattle.et_program.specs.Entries.{class_at};
ghost use Rattle.et_event.specs.Heap.{new_array_of, new_array as base_type_array, new_reference_array as reference_array};
ghost use Rattle.et_event.specs.Moments.{Moment, moment, current_frame};
ghost use Rattle.et_event.specs.Sites.{Site};
ghost use Rattle.et_event.specs.Sound.{IsSoundFor};
ghost use Rattle.et_refs.specs.Changes.{MayMake, new_array_outcome};
ghost use Rattle.et_program.specs.Members.{base_array};
ghost use Rattle.et_refs.specs.Asked.{MayRefer};
ghost use Rattle.et_refs.specs.Refusals.{ComesTo, outcome_of};
ghost use Rattle.et_event.specs.Programs.{AreElementsWithin};

use crate::checks::{resolve_named, throws_unless};
use crate::doing::changes::NewArray;
use crate::operands::{operands_fit, take_int};
use crate::refusals::Refusal;
use crate::types::casts::class_named;
use crate::types::kinds::{is_length, natural};
use et_base::{ClassId, ThreadId};
use et_event::{GuestError, Place};
use et_program::Program;
use et_state::Machine;

/// An array of a class of so many elements; a NegativeArraySizeException where they are less than 0.
fn sized(class: ClassId, elements: i32) -> Result<NewArray, Refusal>
    ensures { (e : Moment) (at : Site) → new_array_of e at class elements
        (drop 1 (current_frame e).operands) ≡ outcome_of e result (new_array_outcome e at) }
{
    throws_unless(GuestError::NegativeArraySizeException, is_length(elements))?;
    Ok(NewArray {
        class,
        elements: natural(elements),
    })
}

/// The class of the arrays over a class; the program has one for each class over which an instruction makes arrays.
fn array_over(program: &Program, class: ClassId) -> ClassId
    requires { class < length program.now.classes }
    ensures { result ≡ unwrap_or (class_at program.now class).array 0 }
{
    program.array_over(class).unwrap_or(ClassId::new(0))
}

/// The class of the arrays over a base type, by its code, where the program has one.
fn base_array_of(program: &Program, kind: u32) -> Option<ClassId>
    requires { AreElementsWithin program.now }
    ensures { result ≡ base_array program.now kind }
{
    if kind < 256 {
        program.base_array(kind as u8)
    } else {
        None
    }
}

/// .. and the program has one for each base type over which an instruction makes arrays.
fn array_of_base(program: &Program, kind: u32) -> ClassId
    requires { AreElementsWithin program.now }
    ensures { result ≡ unwrap_or (base_array program.now kind) 0 }
{
    base_array_of(program, kind).unwrap_or(ClassId::new(0))
}

/// The array that `newarray` makes.
pub(crate) fn new_array(
    program: &Program,
    machine: &Machine,
    thread: ThreadId,
    place: &Place<'_>,
) -> Result<NewArray, Refusal>
    requires frame { HasFrame machine.now.guest thread }
    requires elements { AreElementsWithin program.now }
    ensures is { ComesTo base_type_array
        (moment program.now machine.now thread) place.now.site result new_array_outcome }
    ensures may { IfOk result (λ x. MayMake (top machine.now.guest thread)) }
{
    operands_fit(machine, thread);
    let elements = take_int(machine, thread, 0)?;
    let array = array_of_base(program, natural(place.site.instr().first));
    sized(array, elements)
}

/// The array that `anewarray` makes.
pub(crate) fn new_reference_array(
    program: &Program,
    machine: &Machine,
    thread: ThreadId,
    place: &Place<'_>,
) -> Result<NewArray, Refusal>
    requires refers { MayRefer program.now machine.now thread place.now }
    requires sound { IsSoundFor program.now (kept_of machine.now) }
    ensures is { ComesTo reference_array
        (moment program.now machine.now thread) place.now.site result new_array_outcome }
    ensures may { IfOk result (λ x. MayMake (top machine.now.guest thread)) }
{
    operands_fit(machine, thread);
    let named = match class_named(place) {
        Ok(named) => named,
        Err(refusal) => return Err(refusal),
    };
    let elements = take_int(machine, thread, 0)?;
    let class = resolve_named(program, &named)?;
    let array = array_over(program, class);
    sized(array, elements)
}
