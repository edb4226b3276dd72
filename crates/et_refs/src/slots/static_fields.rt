//! Static fields (JVMS 6.5, getstatic, putstatic).
ghost use Rattle.std.specs.Prelude.{◌≡◌, ℕ, ◌+◌, ◌<◌, ◌≤◌, true, length, nat_le, IfOk, OnOk};
ghost use Rattle.et_state.specs.State.{Kept, kept_of};
ghost use Rattle.et_state.specs.Words.{HasFrame, top};
ghost use Rattle.et_state.specs.Outcome.{Outcome};
ghost use Rattle.et_event.specs.Checks.{ill_typed_unless as ill_unless};
ghost use Rattle.et_event.specs.Heap.{is_out as is_field_out, put_static, with_static_field};
ghost use Rattle.et_event.specs.Moments.{Moment, moment};
ghost use Rattle.et_event.specs.Sound.{IsSoundFor};
ghost use Rattle.et_refs.specs.Asked.{MayRefer};
ghost use Rattle.et_refs.specs.NamedFields.{IsAnswered, IsFieldOf, MeansField};
ghost use Rattle.et_refs.specs.Refusals.{ComesTo, outcome_of};
ghost use Rattle.et_event.specs.Programs.{HasSlots};
ghost use Rattle.et_refs.specs.Accesses.{MayWant, wanted_outcome};
ghost use Rattle.et_refs.specs.StaticReads.{unless_out, is_out_class as is_class_of_out, read_of, wanted_by};
ghost use Rattle.et_refs.specs.declared.slots.static_fields.StaticRead.{StaticRead as StaticReadOf};

use crate::checks::{ill_typed_unless, throws_unless};
use crate::doing::accesses::{Access, Read, Wanted, Write};
use crate::operands::take_typed;
use crate::refusals::Refusal;
use crate::slots::fields::{NamedField, field_meant, field_named};
use crate::types::kinds::{narrowed, width_of};
use et_base::{ClassId, FieldId, ThreadId};
use et_event::{GuestError, Place, class_called, index_of};
use et_pool::kind_of;
use et_program::{BuiltInClass, Program};
use et_state::{ClassState, Machine};

/// Whether so many entries fit on top.
fn fits(machine: &Machine, thread: ThreadId, width: u32) -> bool
    requires frame { HasFrame machine.now.guest thread }
    requires small { width ≤ 2 }
    ensures { result ≡ nat_le (width + length (top machine.now.guest thread).operands)
        (top machine.now.guest thread).room }
{
    let room = machine.room(thread) as u32;
    width + machine.depth(thread) <= room
}

/// The event has no meaning unless so many entries fit on top.
pub(crate) fn width_fits(machine: &Machine, thread: ThreadId, width: u32) -> Result<(), Refusal>
    requires frame { HasFrame machine.now.guest thread }
    requires small { width ≤ 2 }
    ensures is { (e : Moment) (go : Outcome Kept) →
        ill_unless e (nat_le (width + length (top machine.now.guest thread).operands)
        (top machine.now.guest thread).room) go ≡ outcome_of e result (λ u. go) }
    ensures fits { OnOk result (width + length (top machine.now.guest thread).operands
        ≤ (top machine.now.guest thread).room) }
{
    ill_typed_unless(fits(machine, thread, width))
}

/// Whether a field is System.out, the one static field of a built-in class.
fn is_out(program: &Program, field: FieldId) -> bool
    requires { field < length program.now.fields }
    ensures { result ≡ is_field_out program.now field }
{
    program.field(field).class == class_called(program, BuiltInClass::System)
}

/// The static field that `putstatic` names. No instruction writes System.out.
fn written_field(program: &Program, named: &NamedField<'_>) -> Result<FieldId, Refusal>
    requires { IsAnswered program.now named.now }
    ensures is { MeansField program.now named.now true unless_out result }
    ensures field { IfOk result (λ f. IsFieldOf program.now true named.now.descriptor.now f) }
{
    let field = field_meant(program, named, true)?;
    throws_unless(GuestError::NoSuchFieldError, !is_out(program, field))?;
    Ok(field)
}

/// A static field that is read.
#[derive(Clone, Copy)]
pub struct StaticRead {
    /// The class that declares it.
    pub class: ClassId,
    /// Its value is put on top.
    pub read: Read,
}

impl StaticRead {
    /// The class, which is initialized first, and the value.
    pub(crate) fn wanted(self) -> Wanted
        ensures { result ≡ wanted_by self }
    {
        Wanted {
            class: self.class,
            access: Access::Read(self.read),
        }
    }
}

/// The static field that `getstatic` reads.
#[inline(always)]
pub(crate) fn read_field(
    program: &Program,
    machine: &Machine,
    thread: ThreadId,
    place: &Place<'_>,
) -> Result<StaticRead, Refusal>
    requires program { HasSlots program.now }
    requires refers { MayRefer program.now machine.now thread place.now }
    ensures is { (go : StaticReadOf → Outcome Kept) →
        with_static_field (moment program.now machine.now thread) place.now.site
        (λ m f. go (read_of program.now m.descriptor f))
        ≡ outcome_of (moment program.now machine.now thread) result go }
    ensures may { IfOk result
        (λ x. MayWant program.now (top machine.now.guest thread) (wanted_by x)) }
{
    let named = match field_named(program, place.site.class(), index_of(&place.site)) {
        Ok(named) => named,
        Err(refusal) => return Err(refusal),
    };
    width_fits(machine, thread, width_of(named.descriptor))?;
    let field = field_meant(program, &named, true)?;
    let info = program.field(field);
    Ok(StaticRead {
        class: info.class,
        read: Read {
            slot: info.slot,
            kind: kind_of(named.descriptor),
        },
    })
}

/// Whether the static field of a class is System.out, which may be read.
pub(crate) fn is_out_class(program: &Program, machine: &Machine, class: ClassId) -> bool
    requires classes { length machine.now.guest.classes ≡ length program.now.classes }
    ensures { (t : ℕ) → result ≡ is_class_of_out (moment program.now machine.now t) class }
{
    class == class_called(program, BuiltInClass::System)
        && matches!(machine.class_state(class), ClassState::Done)
}

/// What `putstatic` wants.
pub(crate) fn write_field(
    program: &Program,
    machine: &Machine,
    thread: ThreadId,
    place: &Place<'_>,
) -> Result<Wanted, Refusal>
    requires program { HasSlots program.now }
    requires refers { MayRefer program.now machine.now thread place.now }
    requires sound { IsSoundFor program.now (kept_of machine.now) }
    ensures is { ComesTo put_static
        (moment program.now machine.now thread) place.now.site result wanted_outcome }
    ensures may { IfOk result (λ x. MayWant program.now (top machine.now.guest thread) x) }
{
    let named = match field_named(program, place.site.class(), index_of(&place.site)) {
        Ok(named) => named,
        Err(refusal) => return Err(refusal),
    };
    let taken = take_typed(machine, thread, named.descriptor)?;
    let field = written_field(program, &named)?;
    let info = program.field(field);
    Ok(Wanted {
        class: info.class,
        access: Access::Write(Write {
            slot: info.slot,
            taken: taken.width,
            value: narrowed(named.descriptor, taken.value),
        }),
    })
}
