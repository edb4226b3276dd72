//! Instances (JVMS 6.5, new).
ghost use Rattle.std.specs.Prelude.{◌≡◌, ◌<◌, length, IfOk};
ghost use Rattle.et_state.specs.Words.{top};
ghost use Rattle.et_event.specs.Heap.{may_be_made as may_make, new_instance};
ghost use Rattle.et_event.specs.Moments.{moment};
ghost use Rattle.et_refs.specs.Asked.{MayRefer};
ghost use Rattle.et_refs.specs.Refusals.{ComesTo};
ghost use Rattle.et_refs.specs.Accesses.{MayWant, wanted_outcome};

use crate::checks::{resolve_named, throws_unless};
use crate::doing::accesses::{Access, Wanted};
use crate::refusals::Refusal;
use crate::slots::static_fields::width_fits;
use crate::types::casts::class_named;
use et_base::{ClassId, ThreadId};
use et_class::flags::{ABSTRACT, INTERFACE, has};
use et_event::{GuestError, Place};
use et_program::Program;
use et_state::Machine;

/// Whether a class is neither an interface nor abstract.
fn may_be_made(program: &Program, class: ClassId) -> bool
    requires { class < length program.now.classes }
    ensures { result ≡ may_make program.now class }
{
    let flags = program.class(class).flags;
    !(has(flags, INTERFACE) || has(flags, ABSTRACT))
}

/// What `new` wants.
pub(crate) fn new_object(
    program: &Program,
    machine: &Machine,
    thread: ThreadId,
    place: &Place<'_>,
) -> Result<Wanted, Refusal>
    requires refers { MayRefer program.now machine.now thread place.now }
    ensures is { ComesTo new_instance
        (moment program.now machine.now thread) place.now.site result wanted_outcome }
    ensures may { IfOk result (λ x. MayWant program.now (top machine.now.guest thread) x) }
{
    let named = match class_named(place) {
        Ok(named) => named,
        Err(refusal) => return Err(refusal),
    };
    width_fits(machine, thread, 1)?;
    let class = resolve_named(program, &named)?;
    throws_unless(GuestError::InstantiationError, may_be_made(program, class))?;
    Ok(Wanted {
        class,
        access: Access::Make,
    })
}
