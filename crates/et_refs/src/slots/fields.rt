//! Instance fields (JVMS 6.5, getfield, putfield).
ghost use Rattle.std.specs.Prelude.{◌≡◌, ℕ, ◌+◌, ◌<◌, ◌≤◌, true, false, length, option_map, Some, IfOk, IsSome};
ghost use Rattle.et_class.specs.Names.{has as has_flag};
ghost use Rattle.et_class.specs.declared.flags.TheConstants.{STATIC as STATIC_FLAG};
ghost use Rattle.et_pool.specs.Descriptors.{is_field_descriptor as is_of_field, width_of as descriptor_width};
ghost use Rattle.et_program.specs.Entries.{Linked, field_at as field_of};
ghost use Rattle.et_program.specs.Referring.{member_described, pool_of_class};
ghost use Rattle.et_program.specs.Resolved.{shown_names};
ghost use Rattle.et_heap.specs.Objects.{IsHeld, object_at, slot_of};
ghost use Rattle.et_state.specs.State.{GuestState, Kept};
ghost use Rattle.et_heap.specs.Refs.{refs_of_value};
ghost use Rattle.et_state.specs.Outcome.{Outcome};
ghost use Rattle.et_event.specs.Checks.{entries_of};
ghost use Rattle.et_event.specs.Heap.{with_field, with_holder, get_field, put_field};
ghost use Rattle.et_event.specs.Kinds.{or_zero as zero_or};
ghost use Rattle.et_event.specs.Operands.{operand_kind as descriptor_kind};
ghost use Rattle.et_event.specs.Moments.{Moment, begins};
ghost use Rattle.et_event.specs.Sites.{Member, Site, site_member, pool_index};
ghost use Rattle.et_event.specs.Sound.{HasField};
ghost use Rattle.et_refs.specs.Changes.{MayExchange, MayStore, exchange_outcome, store_outcome};
ghost use Rattle.et_refs.specs.NamedFields.{IsAnswered, IsFieldOf, IsNamedBy, MeansField, as_wanted, named_as, with_meant};
ghost use Rattle.et_refs.specs.Reads.{AreHeld, ComesToInPool, IsReadable, IsSoundHeap, moment_over};
ghost use Rattle.et_refs.specs.Refusals.{outcome_of};
ghost use Rattle.et_refs.specs.Slots.{IsSlotAt};

use crate::checks::{ill_typed_unless, not_null, throws_unless};
use crate::doing::changes::{Exchange, Store};
use crate::operands::running::{running_reference, running_typed, type_fits};
use crate::refusals::Refusal;
use crate::slots::{SlotAt, read_slot};
use crate::types::kinds::narrowed;
use et_base::{ClassId, FieldId, ObjectId, Steps, Value};
use et_class::flags::{STATIC, has};
use et_event::GuestError;
use et_heap::Heap;
use et_pool::kind_of;
use et_program::{LinkError, MemberAt, Program, member_at};
use et_state::Running;
use std::sync::ledger::Ledger;

/// A field as an instruction names it, with what it was resolved to when the program was linked.
#[derive(Clone, Copy)]
pub struct NamedField<'a> {
    pub descriptor: &'a [u8],
    /// The field that is meant, or the error of its resolution (JVMS 5.4.3.2).
    pub answer: Result<FieldId, LinkError>,
}

/// The member that the entry at an index of the pool of a class gives.
fn member_named(program: &Program, class: ClassId, index: u16) -> Option<MemberAt<'_>>
    requires { class < length program.now.classes }
    ensures { option_map shown_names result
        ≡ member_described (pool_of_class program.now class) index }
{
    match program.pool(class) {
        Some(pool) => member_at(pool, index),
        None => None,
    }
}

/// The descriptor of that member.
fn descriptor_named(program: &Program, class: ClassId, index: u16) -> &[u8]
    requires class { class < length program.now.classes }
    requires member { IsSome (member_described (pool_of_class program.now class) index) }
    ensures { (m : Member) → member_described (pool_of_class program.now class) index ≡ Some m →
        result.now ≡ m.descriptor }
{
    match member_named(program, class, index) {
        Some(member) => member.descriptor,
        None => unreachable!(),
    }
}

/// What the entry at an index of the pool of a class names, where that is a field. Of one that was resolved nothing is read in
/// the pool.
#[inline(always)]
pub(crate) fn field_named(
    program: &Program,
    class: ClassId,
    index: u16,
) -> Result<NamedField<'_>, Refusal>
    requires { class < length program.now.classes }
    ensures is { (e : Moment) (at : Site) (go : Member → Outcome Kept) →
        at.pool ≡ pool_of_class program.now class → pool_index at ≡ index → with_field e
        (site_member at) go ≡ outcome_of e result (λ x. go (named_as program.now class index x)) }
    ensures field { IfOk result (λ x. is_of_field x.descriptor.now ≡ true) }
    ensures named { IfOk result
        (λ x. IsNamedBy program.now (named_as program.now class index x) x) }
{
    if !program.is_field_at_index(class, index) {
        return Err(Refusal::IllTyped);
    }
    match program.field_at_index(class, index) {
        Some(Ok(field)) => Ok(NamedField {
            descriptor: program.field(field).descriptor.as_slice(),
            answer: Ok(field),
        }),
        Some(Err(error)) => Ok(NamedField {
            descriptor: descriptor_named(program, class, index),
            answer: Err(error),
        }),
        None => unreachable!(),
    }
}

/// Whether a field is static where that is wanted, and isn't where it isn't.
#[inline(always)]
fn is_wanted(wants_static: bool, is_static: bool) -> bool
    ensures { result ≡ as_wanted wants_static is_static }
{
    if wants_static { is_static } else { !is_static }
}

/// The field that an instruction names, which has to be static or not to be.
#[inline(always)]
pub(crate) fn field_meant(
    program: &Program,
    named: &NamedField<'_>,
    wants_static: bool,
) -> Result<FieldId, Refusal>
    requires { IsAnswered program.now named.now }
    ensures is { MeansField program.now named.now wants_static (λ e go. go) result }
    ensures field { IfOk result
        (λ f. IsFieldOf program.now wants_static named.now.descriptor.now f) }
{
    let field = match named.answer {
        Ok(field) => field,
        Err(error) => return Err(Refusal::Throws(GuestError::of(error))),
    };
    let is_static = has(program.field(field).flags, STATIC);
    let wanted = is_wanted(wants_static, is_static);
    throws_unless(GuestError::IncompatibleClassChangeError, wanted)?;
    Ok(field)
}

/// The object that a reference names, where its class has an instance field.
#[inline(always)]
fn holder<L: Ledger>(
    program: &Program,
    heap: &Heap,
    field: FieldId,
    reference: Option<ObjectId>,
    visits: &mut Steps<L>,
) -> Result<ObjectId, Refusal>
    requires sound { IsSoundHeap program.now heap.now }
    requires within { field < length program.now.fields }
    requires instance { has_flag (field_of program.now field).flags STATIC_FLAG ≡ false }
    requires held { (o : ℕ) → reference ≡ Some o → IsHeld heap.now o }
    ensures is { (g : GuestState) (t : ℕ) (go : ℕ → Outcome Kept) →
        with_holder (moment_over program.now heap.now g t)
        (begins (moment_over program.now heap.now g t)) field reference go
        ≡ outcome_of (moment_over program.now heap.now g t) result go }
    ensures object { IfOk result (λ o. reference ≡ Some o) }
    ensures has { IfOk result (λ o. HasField program.now (object_at heap.now o) field) }
    ensures visits { visits.new ≤ visits.old + 1 }
{
    let object = not_null(reference)?;
    let class = heap.class_of(object, visits);
    let declarer = program.field(field).class;
    ill_typed_unless(program.is_subclass(class, declarer))?;
    Ok(object)
}

/// The slot of an instance field that an instruction names, in the object that a reference names.
#[inline(always)]
fn field_slot<L: Ledger>(
    program: &Program,
    heap: &Heap,
    named: &NamedField<'_>,
    reference: Option<ObjectId>,
    visits: &mut Steps<L>,
) -> Result<SlotAt, Refusal>
    requires sound { IsSoundHeap program.now heap.now }
    requires answered { IsAnswered program.now named.now }
    requires held { (o : ℕ) → reference ≡ Some o → IsHeld heap.now o }
    ensures is { (m : Member) (g : GuestState) (t : ℕ) (go : ℕ → ℕ → Outcome Kept) →
        IsNamedBy program.now m named.now →
        with_meant (moment_over program.now heap.now g t) m false
        (λ f. with_holder (moment_over program.now heap.now g t)
        (begins (moment_over program.now heap.now g t)) f reference
        (λ o. go o (field_of program.now f).slot))
        ≡ outcome_of (moment_over program.now heap.now g t) result (λ x. go x.object x.slot) }
    ensures object { IfOk result (λ x. reference ≡ Some x.object) }
    ensures at { IfOk result
        (λ x. IsSlotAt heap.now (descriptor_kind named.now.descriptor.now) x) }
    ensures visits { visits.new ≤ visits.old + 1 }
{
    let field = field_meant(program, named, false)?;
    let object = holder(program, heap, field, reference, visits)?;
    let info = program.field(field);
    Ok(SlotAt {
        object,
        slot: info.slot,
    })
}

/// What a field of a type gives.
#[inline(always)]
fn field_value<L: Ledger>(
    heap: &Heap,
    descriptor: &[u8],
    at: &SlotAt,
    visits: &mut Steps<L>,
) -> Value
    requires at { IsSlotAt heap.now (descriptor_kind descriptor.now) at.now }
    ensures value { result ≡ zero_or (descriptor_kind descriptor.now)
        (slot_of (object_at heap.now at.now.object) at.now.slot) }
    ensures few { length (entries_of result) ≤ descriptor_width descriptor.now }
    ensures held { (p : Linked) → IsSoundHeap p heap.now →
        AreHeld heap.now (refs_of_value result) }
    ensures visits { visits.new ≡ visits.old + 1 }
{
    read_slot(heap, kind_of(descriptor), at, visits)
}

/// What `getfield` puts in the place of the reference.
#[inline(always)]
pub(crate) fn read_field<L: Ledger>(
    program: &Program,
    heap: &Heap,
    running: &Running,
    class: ClassId,
    index: u16,
    visits: &mut Steps<L>,
) -> Result<Exchange, Refusal>
    requires sound { IsReadable program.now heap.now running.now.frame }
    requires class { class < length program.now.classes }
    ensures is { ComesToInPool program.now heap.now running.now.frame class index
        get_field result exchange_outcome }
    ensures may { IfOk result (λ x. MayExchange heap.now running.now.frame x) }
    ensures visits { visits.new ≤ visits.old + 2 }
{
    let named = match field_named(program, class, index) {
        Ok(named) => named,
        Err(refusal) => return Err(refusal),
    };
    let reference = running_reference(running, 0)?;
    type_fits(running, named.descriptor)?;
    let at = field_slot(program, heap, &named, reference, visits)?;
    let value = field_value(heap, named.descriptor, &at, visits);
    Ok(Exchange { taken: 1, value })
}

/// What `putfield` writes.
#[inline(always)]
pub(crate) fn write_field<L: Ledger>(
    program: &Program,
    heap: &Heap,
    running: &Running,
    class: ClassId,
    index: u16,
    visits: &mut Steps<L>,
) -> Result<Store, Refusal>
    requires sound { IsReadable program.now heap.now running.now.frame }
    requires class { class < length program.now.classes }
    ensures is { ComesToInPool program.now heap.now running.now.frame class index
        put_field result store_outcome }
    ensures may { IfOk result (λ x. MayStore heap.now running.now.frame x) }
    ensures visits { visits.new ≤ visits.old + 1 }
{
    let named = match field_named(program, class, index) {
        Ok(named) => named,
        Err(refusal) => return Err(refusal),
    };
    let taken = running_typed(running, named.descriptor)?;
    let reference = running_reference(running, taken.width)?;
    let at = field_slot(program, heap, &named, reference, visits)?;
    Ok(Store {
        taken: taken.width + 1,
        object: at.object,
        slot: at.slot,
        value: narrowed(named.descriptor, taken.value),
    })
}
