//! What an invoke comes to (JVMS 6.5, the invokes; 5.4.3), found out without a change.
ghost use Rattle.std.specs.Prelude.{◌≡◌, ℕ, ◌+◌, ◌<◌, ◌≤◌, ◌^◌, ◌⊎◌, true, Option, Some, None, IfOk, IfSome, IsSome, length, option_and_then};
ghost use Rattle.std.specs.Result.{result_ok};
ghost use Rattle.et_state.specs.Words.{HasFrame, top};
ghost use Rattle.et_event.specs.declared.rows.CallKind.TheVariants as kinds;
ghost use Rattle.et_state.specs.State.{Kept, kept_of};
ghost use Rattle.et_event.specs.Places.{IsPlace};
ghost use Rattle.et_program.specs.BuiltIns.{is_deferred as is_deferred_in};
ghost use Rattle.et_program.specs.Entries.{is_static, method_at};
ghost use Rattle.et_program.specs.Members.{kept};
ghost use Rattle.et_program.specs.Referring.{method_of_member, pool_of_class};
ghost use Rattle.et_program.specs.Resolution.{resolve_class, resolve_method};
ghost use Rattle.et_program.specs.Resolved.{IsNamedWithin};
ghost use Rattle.et_state.specs.Outcome.{Outcome};
ghost use Rattle.et_event.specs.declared.errors.GuestError.TheVariants as errors;
ghost use Rattle.et_event.specs.Calls.{arguments_of, dispatched, enters_method, invoke, is_as, is_static_call as calls_static, special_class as class_of_special};
ghost use Rattle.et_event.specs.Checks.{resolved, after_selection as selected_in, throws_unless};
ghost use Rattle.et_event.specs.Moments.{Moment, begins, current_frame, moment, object_class};
ghost use Rattle.et_event.specs.Sites.{Member, Site, natural_of, site_member, names_interface as is_of_interface};
ghost use Rattle.et_event.specs.Initialization.{state_of};
ghost use Rattle.et_event.specs.Sound.{IsSoundFor};
ghost use Rattle.et_event.specs.Selected.{selected_from, selected_method, with_resolved};
ghost use Rattle.et_builtins.specs.Calling.{IsCallable, IsCallee};
ghost use Rattle.et_builtins.specs.Plans.{method_entered, call_planned, HasCallRoom, HasCount, IsCallPlan, IsPassing, IsPlanOf, resolving, entered_by, fits_in_kind, is_interface_call as calls_interface, selection_in};

use crate::arguments::{fitting_call, receiver};
use crate::classes::fits_resolved;
use et_base::{ClassId, MethodId, Steps, ThreadId};
use et_class::flags::{STATIC, has};
use et_event::{CallKind, GuestError, Place, Site, class_called, index_of};
use et_program::{BuiltInClass, Element, LinkError, NamedMethod, Program};
use et_state::{ClassState, Machine};
use std::sync::ledger::Ledger;

/// What an invoke comes to.
#[derive(Clone, Copy, Debug, PartialEq, Eq)]
pub enum CallPlan {
    /// It has no meaning.
    IllTyped,
    /// An error is thrown.
    Throws(GuestError),
    /// Another thread initializes the class of the static method, and the thread waits.
    Waits,
    /// The class of the static method is untouched, and is initialized first.
    Initializes { method: MethodId, count: u16 },
    /// The selected method is entered, or done where it is built in, with so many entries as arguments.
    Enters { method: MethodId, count: u16 },
}

/// A method that is called.
#[derive(Clone, Copy)]
pub struct Call {
    /// The method, as it was selected.
    pub method: MethodId,
    /// So many entries on top of the operands are its arguments.
    pub count: u16,
    /// The pc behind the call.
    pub next: u32,
}

/// A method that an invoke names, as it was resolved (JVMS 5.4.3.3, 5.4.3.4), and how many entries are its arguments.
#[derive(Clone, Copy)]
struct Callee {
    /// The class of the method that calls.
    current: ClassId,
    /// The class that the invoke names.
    named: ClassId,
    method: MethodId,
    count: u16,
}

/// The selected method is entered, or the error of the selection is thrown.
fn selected(answer: Result<MethodId, LinkError>, count: u16) -> CallPlan
    ensures within { (e : Moment) → IfOk answer (λ m. m < length e.program.methods) → IfOk answer
        (λ m. HasCallRoom e m count) → count ≤ length (current_frame e).operands → IsCallPlan e
        result }
    ensures plan { (e : Moment) (at : Site) → selected_in e (begins e) answer
        (enters_method e at (begins e) (arguments_of e count)) ≡ call_planned e at result }
    ensures entered { method_entered result ≡ result_ok answer }
    ensures passes { HasCount count result }
{
    match answer {
        Ok(method) => CallPlan::Enters { method, count },
        Err(error) => CallPlan::Throws(GuestError::of(error)),
    }
}

/// The class from which `invokespecial` selects: the one that it names, or Object for an array class.
fn special_class(program: &Program, named: ClassId) -> ClassId
    requires { named < length program.now.classes }
    ensures value { result ≡ class_of_special program.now named }
    ensures within { result < length program.now.classes }
{
    match program.class(named).element {
        Element::NoArray => named,
        Element::Base(_) | Element::Class(_) => class_called(program, BuiltInClass::Object),
    }
}

/// Whether an invoke calls by an interface.
fn is_interface_call(kind: CallKind) -> bool
    ensures { result ≡ calls_interface kind }
{
    matches!(kind, CallKind::Interface)
}

/// Whether an invoke of a kind may call a resolved method on a receiver of this class: by an interface it is seen as the method
/// is selected.
fn fits_kind<L: Ledger>(
    program: &Program,
    machine: &Machine,
    thread: ThreadId,
    kind: CallKind,
    callee: &Callee,
    class: ClassId,
    visits: &mut Steps<L>,
) -> bool
    requires callee { IsCallee program.now machine.now thread callee.now }
    requires class { class < length program.now.classes }
    ensures value { (o : ℕ) →
        class ≡ object_class (begins (moment program.now machine.now thread)) o →
        result ≡ fits_in_kind (moment program.now machine.now thread) kind
        (arguments_of (moment program.now machine.now thread) callee.now.count)
        callee.now.method o }
    ensures visits { visits.new ≤ visits.old + 1 }
{
    if is_interface_call(kind) {
        return true;
    }
    let Callee { method, count, .. } = *callee;
    fits_resolved(program, machine, thread, class, method, count, visits)
}

/// What an invoke of a kind selects for a receiver of this class (JVMS 5.4.6; 6.5 invokespecial).
fn selection(
    program: &Program,
    kind: CallKind,
    callee: &Callee,
    class: ClassId,
) -> Result<MethodId, LinkError>
    requires method { callee.now.method < length program.now.methods }
    requires current { callee.now.current < length program.now.classes }
    requires named { callee.now.named < length program.now.classes }
    requires class { class < length program.now.classes }
    ensures value { result ≡ selection_in program.now kind
        callee.now.current callee.now.named callee.now.method class }
    ensures within { IfOk result (λ m. m < length program.now.methods) }
{
    match kind {
        CallKind::Special => {
            let from = special_class(program, callee.named);
            program.select_special(callee.current, from, callee.method)
        }
        _ => program.select(class, callee.method, is_interface_call(kind)),
    }
}

/// The plan of an invoke of a kind on a receiver, in a method of the current class, of a method that was resolved in a named
/// one.
#[tactic(auto, using(crate::proofs::Planning::class_within))]
fn receiver_plan<L: Ledger>(
    program: &Program,
    machine: &Machine,
    thread: ThreadId,
    kind: CallKind,
    callee: &Callee,
    visits: &mut Steps<L>,
) -> CallPlan
    requires callee { IsCallee program.now machine.now thread callee.now }
    requires receives { kind ≡ kinds.Static → ⊥ }
    ensures plan { (at : Site) → at.class ≡ callee.now.current →
        IsPlanOf (moment program.now machine.now thread) at kind
        callee.now.named callee.now.method callee.now.count result }
    ensures entered { (at : Site) → at.class ≡ callee.now.current →
        method_entered result ≡ entered_by (moment program.now machine.now thread) at kind
        callee.now.named callee.now.method callee.now.count }
    ensures within { IsCallPlan (moment program.now machine.now thread) result }
    ensures passes { HasCount callee.now.count result }
    ensures visits { visits.new ≤ visits.old + 2 }
{
    let Some(receiver) = receiver(machine, thread, callee.count) else {
        return CallPlan::Throws(GuestError::NullPointerException);
    };
    let class = machine.heap.class_of(receiver, visits);
    if !fits_kind(program, machine, thread, kind, callee, class, visits) {
        return CallPlan::IllTyped;
    }
    let answer = selection(program, kind, callee, class);
    selected(answer, callee.count)
}

/// The plan of `invokestatic` of a resolved method, by how far its class is with its initialization (JVMS 5.5).
fn static_plan(
    program: &Program,
    machine: &Machine,
    thread: ThreadId,
    method: MethodId,
    count: u16,
) -> CallPlan
    requires call { IsCallable program.now machine.now thread method count }
    requires is_static { is_static program.now method ≡ true }
    ensures plan { (at : Site) (named : ℕ) → IsPlanOf
        (moment program.now machine.now thread) at kinds.Static named method count result }
    ensures entered { (method_entered result ≡ None) ⊎ (method_entered result ≡ Some method) }
    ensures within { IsCallPlan (moment program.now machine.now thread) result }
    ensures passes { HasCount count result }
{
    let class = program.method(method).class;
    state_plan(machine.class_state(class), thread, method, count)
}

/// The plan of `invokestatic` where the class of the method is in this state.
fn state_plan(state: ClassState, thread: ThreadId, method: MethodId, count: u16) -> CallPlan
    ensures plan { (e : Moment) (at : Site) (class named : ℕ) → e.thread ≡ thread →
        (method_at e.program method).class ≡ class → state_of (begins e) class ≡ state →
        IsPlanOf e at kinds.Static named method count result }
    ensures entered { (method_entered result ≡ None) ⊎ (method_entered result ≡ Some method) }
    ensures within { (e : Moment) → method < length e.program.methods →
        HasCallRoom e method count → count ≤ length (current_frame e).operands →
        state_of (begins e) (method_at e.program method).class ≡ state →
        is_static e.program method ≡ true → IsCallPlan e result }
    ensures passes { HasCount count result }
{
    match state {
        ClassState::Done => CallPlan::Enters { method, count },
        ClassState::Begun(owner) => if owner == thread {
            CallPlan::Enters { method, count }
        } else {
            CallPlan::Waits
        },
        ClassState::Failed => CallPlan::Throws(GuestError::NoClassDefFoundError),
        ClassState::Untouched => CallPlan::Initializes { method, count },
    }
}

/// Whether an invoke calls static methods.
fn is_static_call(kind: CallKind) -> bool
    ensures { result ≡ calls_static kind }
{
    matches!(kind, CallKind::Static)
}

/// The plan of an invoke of a kind in a method of the current class, of a method that was resolved in a named one.
fn resolved_plan<L: Ledger>(
    program: &Program,
    machine: &Machine,
    thread: ThreadId,
    kind: CallKind,
    callee: Callee,
    visits: &mut Steps<L>,
) -> CallPlan
    requires callee { IsCallee program.now machine.now thread callee }
    ensures plan { (at : Site) →
        at.class ≡ callee.current → throws_unless (moment program.now machine.now thread)
        (begins (moment program.now machine.now thread)) errors.IncompatibleClassChangeError
        (is_as (calls_static kind) (is_static program.now callee.method))
        (dispatched (moment program.now machine.now thread) at kind (arguments_of
        (moment program.now machine.now thread) callee.count) callee.named callee.method)
        ≡ call_planned (moment program.now machine.now thread) at result }
    ensures deferred { (at : Site) → at.class ≡ callee.current →
        kept (is_deferred_in program.now) (method_entered result) ≡ kept
        (is_deferred_in program.now)
        (selected_from (moment program.now machine.now thread) at kind (arguments_of
        (moment program.now machine.now thread) callee.count) callee.named callee.method) }
    ensures within { IsCallPlan (moment program.now machine.now thread) result }
    ensures passes { HasCount callee.count result }
    ensures visits { visits.new ≤ visits.old + 2 }
{
    let is_static = has(program.method(callee.method).flags, STATIC);
    if is_static != is_static_call(kind) {
        return CallPlan::Throws(GuestError::IncompatibleClassChangeError);
    }
    match kind {
        CallKind::Static => static_plan(program, machine, thread, callee.method, callee.count),
        _ => receiver_plan(program, machine, thread, kind, &callee, visits),
    }
}

/// The method that an instruction names, as it was resolved when the program was linked (JVMS 5.4.3.3, 5.4.3.4).
fn method_named(program: &Program, site: &Site<'_>) -> Result<NamedMethod, LinkError>
    requires class { site.now.class < length program.now.classes }
    requires index { natural_of site.now.instr.first < 2 ^ 16 }
    requires pool { site.now.pool ≡ pool_of_class program.now site.now.class }
    requires member { IsSome (site_member site.now) }
    ensures value { (m : Member) → site_member site.now ≡ Some m → result
        ≡ method_of_member program.now (is_of_interface site.now) m }
    ensures within { IfOk result (IsNamedWithin program.now) }
{
    match program.method_at_index(site.class(), index_of(site)) {
        Some(answer) => answer,
        None => unreachable!(),
    }
}

/// The class and the method that an instruction names, as they were resolved when the program was linked, or the error that
/// is thrown.
fn resolve(program: &Program, site: &Site<'_>) -> Result<(ClassId, MethodId), GuestError>
    requires class { site.now.class < length program.now.classes }
    requires index { natural_of site.now.instr.first < 2 ^ 16 }
    requires pool { site.now.pool ≡ pool_of_class program.now site.now.class }
    requires member { IsSome (site_member site.now) }
    ensures value { (e : Moment) (m : Member) (go : ℕ → ℕ → Outcome Kept) →
        e.program ≡ program.now → site_member site.now ≡ Some m →
        resolved e (begins e) (resolve_class e.program m.owner) (λ owner. resolved e (begins e)
        (resolve_method e.program owner (is_of_interface site.now) m.name m.descriptor)
        (go owner)) ≡ resolving e result go }
    ensures found { (m : Member) (go : ℕ → ℕ → Option ℕ) → site_member site.now
        ≡ Some m →
        with_resolved program.now (is_of_interface site.now) m go
        ≡ option_and_then (λ x. go x.0 x.1) (result_ok result) }
    ensures within { IfOk result
        (λ x. (x.0 < length program.now.classes) × (x.1 < length program.now.methods)) }
    ensures same { (m : Member) → site_member site.now ≡ Some m →
        IfOk result (λ x. (method_at program.now x.1).descriptor ≡ m.descriptor) }
{
    match method_named(program, site) {
        Ok(found) => Ok((found.class, found.method)),
        Err(error) => Err(GuestError::of(error)),
    }
}

/// What an invoke comes to at a place: the table of events says of the invoke what it says of the plan.
pub fn invoke_plan<L: Ledger>(
    program: &Program,
    machine: &Machine,
    thread: ThreadId,
    place: &Place<'_>,
    kind: CallKind,
    visits: &mut Steps<L>,
) -> CallPlan
    requires frame { HasFrame machine.now.guest thread }
    requires sound { IsSoundFor program.now (kept_of machine.now) }
    requires class { place.now.site.class < length program.now.classes }
    requires index { natural_of place.now.site.instr.first < 2 ^ 16 }
    requires place { IsPlace program.now (top machine.now.guest thread) place.now }
    ensures plan { invoke (moment program.now machine.now thread) place.now.site kind
        ≡ call_planned (moment program.now machine.now thread) place.now.site result }
    ensures deferred { kept (is_deferred_in program.now) (method_entered result)
        ≡ kept (is_deferred_in program.now)
        (selected_method (moment program.now machine.now thread) place.now.site kind) }
    ensures within { IsCallPlan (moment program.now machine.now thread) result }
    ensures passes { IsPassing (moment program.now machine.now thread) place.now.site kind
        result }
    ensures visits { visits.new ≤ visits.old + 2 }
{
    let class = place.site.class();
    let Some(shape) = program.call_shape(class, index_of(&place.site)) else {
        return CallPlan::IllTyped;
    };
    let Some(count) = fitting_call(machine, thread, is_static_call(kind), shape) else {
        return CallPlan::IllTyped;
    };
    match resolve(program, &place.site) {
        Ok(found) => {
            let callee = Callee {
                current: class,
                named: found.0,
                method: found.1,
                count,
            };
            resolved_plan(program, machine, thread, kind, callee, visits)
        }
        Err(error) => CallPlan::Throws(error),
    }
}

/// The method that a plan enters, where it is a built-in one without code of threads, of weak references or of their queues.
pub fn deferred_method(program: &Program, plan: CallPlan) -> Option<MethodId>
    requires { IfSome (method_entered plan) (λ method. method < length program.now.methods) }
    ensures { result ≡ kept (is_deferred_in program.now) (method_entered plan) }
{
    match plan {
        CallPlan::Enters { method, .. } => if program.is_deferred(method) {
            Some(method)
        } else {
            None
        },
        CallPlan::IllTyped | CallPlan::Throws(_) | CallPlan::Waits | CallPlan::Initializes { .. } =>
            None,
    }
}
