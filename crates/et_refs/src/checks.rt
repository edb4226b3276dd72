//! The checks of an event that need no machine.
ghost use Rattle.std.specs.Prelude.{◌≡◌, ℕ, ◌<◌, true, length, Some, IfOk};
ghost use Rattle.et_state.specs.State.{Kept};
ghost use Rattle.et_state.specs.Outcome.{Outcome};
ghost use Rattle.et_event.specs.Moments.{Moment, begins};
ghost use Rattle.et_event.specs.Checks.{ill_typed_unless as ill_unless, throws_unless as throwing_unless, not_null as object_of};
ghost use Rattle.et_event.specs.Heap.{resolved_class};
ghost use Rattle.et_refs.specs.NamedClasses.{IsNamedAt};
ghost use Rattle.et_refs.specs.Refusals.{outcome_of};

use crate::refusals::Refusal;
use crate::types::casts::NamedClass;
use et_base::{ClassId, ObjectId};
use et_event::GuestError;
use et_program::Program;

/// The event has no meaning unless this holds.
pub fn ill_typed_unless(holds: bool) -> Result<(), Refusal>
    ensures is { (e : Moment) (go : Outcome Kept) →
        ill_unless e holds go ≡ outcome_of e result (λ (u : Unit {0}). go) }
    ensures holds { IfOk result (λ (u : Unit {0}). holds ≡ true) }
{
    if holds {
        Ok(())
    } else {
        Err(Refusal::IllTyped)
    }
}

/// The machine throws this error unless this holds.
pub fn throws_unless(error: GuestError, holds: bool) -> Result<(), Refusal>
    ensures is { (e : Moment) (go : Outcome Kept) →
        throwing_unless e (begins e) error holds go ≡ outcome_of e result (λ (u : Unit {0}). go) }
    ensures holds { IfOk result (λ (u : Unit {0}). holds ≡ true) }
{
    if holds {
        Ok(())
    } else {
        Err(Refusal::Throws(error))
    }
}

/// The object that a reference names; a NullPointerException where it is null.
pub(crate) fn not_null(reference: Option<ObjectId>) -> Result<ObjectId, Refusal>
    ensures is { (e : Moment) (go : ℕ → Outcome Kept) →
        object_of e (begins e) reference go ≡ outcome_of e result go }
    ensures object { IfOk result (λ o. reference ≡ Some o) }
{
    match reference {
        Some(o) => Ok(o),
        None => Err(Refusal::Throws(GuestError::NullPointerException)),
    }
}

/// The class that an instruction names, as it was resolved when the program was linked (JVMS 5.4.3.1).
pub(crate) fn resolve_named(program: &Program, named: &NamedClass<'_>) -> Result<ClassId, Refusal>
    requires { IsNamedAt program.now named.now }
    ensures is { (s : Kept) (t : ℕ) (go : ℕ → Outcome Kept) →
        resolved_class (record { program = program.now; before = s; thread = t })
        (begins (record { program = program.now; before = s; thread = t })) named.now.name.now go
        ≡ outcome_of (record { program = program.now; before = s; thread = t }) result go }
    ensures within { IfOk result (λ c. c < length program.now.classes) }
{
    match program.class_at_index(named.class, named.index) {
        Some(Ok(class)) => Ok(class),
        Some(Err(error)) => Err(Refusal::Throws(GuestError::of(error))),
        None => unreachable!(),
    }
}
