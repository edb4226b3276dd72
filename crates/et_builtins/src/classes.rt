//! The classes of objects that a call takes: of its receiver, and of the arguments that a built-in method takes of one class
//! alone. They are tested by the method that was resolved, before another one is selected.
ghost use Rattle.std.specs.Prelude.{◌≡◌, ℕ, ◌<◌, ◌≤◌, ◌+◌, Contains, length, option_map};
ghost use Rattle.et_heap.specs.Objects.{IsHeld};
ghost use Rattle.et_heap.specs.Refs.{refs_of_value};
ghost use Rattle.et_state.specs.State.{kept_of};
ghost use Rattle.et_program.specs.BootNames.{built_in_class_name};
ghost use Rattle.et_event.specs.BuiltIns.{class_argument as argument_in_table, class_argument_of as argument_of_method, is_null_or_of_class, is_object_of_class as is_of_class, is_of_its_class as is_of_class_wanted, text_argument as text_in_table};
ghost use Rattle.et_event.specs.Calls.{arguments_of, fits_resolved as fits_in};
ghost use Rattle.et_event.specs.Moments.{begins, moment, object_class};
ghost use Rattle.et_event.specs.Sound.{IsSoundFor};
ghost use Rattle.et_builtins.specs.Calling.{HasArguments};
ghost use Rattle.et_builtins.specs.Classes.{named};

use crate::arguments::argument_at;
use et_base::{ClassId, MethodId, ObjectId, Steps, ThreadId, Value};
use et_event::class_called;
use et_program::{BuiltIn, BuiltInClass, Program, Shown, TextMethod};
use et_state::Machine;
use std::sync::ledger::Ledger;

/// Whether an object is of this built-in class, or of one below it.
#[tactic(auto, using(crate::proofs::Planning::class_within))]
pub fn is_of<L: Ledger>(
    program: &Program,
    machine: &Machine,
    object: ObjectId,
    class: BuiltInClass,
    visits: &mut Steps<L>,
) -> bool
    requires sound { IsSoundFor program.now (kept_of machine.now) }
    requires held { IsHeld machine.now.heap object }
    ensures value { (t : ℕ) → result ≡ is_of_class (moment program.now machine.now t)
        (begins (moment program.now machine.now t)) object (built_in_class_name class) }
    ensures visits { visits.new ≡ visits.old + 1 }
{
    let own = machine.heap.class_of(object, visits);
    program.is_subclass(own, class_called(program, class))
}

/// Whether an argument is null, or an object of this built-in class or of one below it.
fn is_null_or_of<L: Ledger>(
    program: &Program,
    machine: &Machine,
    value: Value,
    class: BuiltInClass,
    visits: &mut Steps<L>,
) -> bool
    requires sound { IsSoundFor program.now (kept_of machine.now) }
    requires held { (o : ℕ) → Contains (refs_of_value value) o → IsHeld machine.now.heap o }
    ensures value { (t : ℕ) → result ≡ is_null_or_of_class (moment program.now machine.now t)
        (begins (moment program.now machine.now t)) value (built_in_class_name class) }
    ensures visits { visits.new ≤ visits.old + 1 }
{
    match value {
        Value::Ref(object) => is_of(program, machine, object, class, visits),
        Value::Unset | Value::Int(_) | Value::Long(_) | Value::LongHigh | Value::Null => true,
    }
}

/// An argument that is null, or an object of one class or of one below it. So many entries stand before it, the receiver
/// among them.
#[derive(Clone, Copy)]
struct ClassArgument {
    place: u32,
    class: BuiltInClass,
}

/// The argument of one class that a built-in method takes.
#[inline(always)]
fn class_argument(built_in: BuiltIn) -> Option<ClassArgument>
    ensures { option_map named result ≡ argument_in_table built_in }
{
    match built_in {
        BuiltIn::SetReferentAndQueue => Some(ClassArgument {
            place: 2,
            class: BuiltInClass::ReferenceQueue,
        }),
        BuiltIn::Nothing
        | BuiltIn::SetMessage
        | BuiltIn::SetMessageAndCause
        | BuiltIn::GetMessage
        | BuiltIn::GetCause
        | BuiltIn::SetTarget
        | BuiltIn::Start
        | BuiltIn::Join
        | BuiltIn::SetReferent
        | BuiltIn::GetReferent
        | BuiltIn::ClearReferent
        | BuiltIn::Poll => None,
    }
}

/// The string that a method of texts takes.
#[inline(always)]
fn text_argument(method: TextMethod) -> Option<ClassArgument>
    ensures { option_map named result ≡ text_in_table method }
{
    match method {
        TextMethod::BeginWith
        | TextMethod::Append(Shown::Text)
        | TextMethod::Print(Shown::Text)
        | TextMethod::PrintLine(Shown::Text) => Some(ClassArgument {
            place: 1,
            class: BuiltInClass::String,
        }),
        TextMethod::Append(_)
        | TextMethod::Print(_)
        | TextMethod::PrintLine(_)
        | TextMethod::Length
        | TextMethod::CharAt
        | TextMethod::Equals
        | TextMethod::Begin
        | TextMethod::ToString
        | TextMethod::EndLine => None,
    }
}

/// The argument of one class that a method takes; one with code takes none.
#[inline(always)]
fn class_argument_of(program: &Program, method: MethodId) -> Option<ClassArgument>
    requires { method < length program.now.methods }
    ensures { option_map named result ≡ argument_of_method program.now method }
{
    if !program.is_deferred(method) {
        return None;
    }
    match program.text_method(method) {
        Some(text_method) => text_argument(text_method),
        None => class_argument(program.built_in(method)?),
    }
}

/// Whether the argument of one class, if there is one, is of that class or null.
#[inline(always)]
fn is_of_its_class<L: Ledger>(
    program: &Program,
    machine: &Machine,
    thread: ThreadId,
    argument: Option<ClassArgument>,
    count: u16,
    visits: &mut Steps<L>,
) -> bool
    requires call { HasArguments program.now machine.now thread count }
    ensures value { result ≡ is_of_class_wanted (moment program.now machine.now thread)
        (begins (moment program.now machine.now thread))
        (arguments_of (moment program.now machine.now thread) count)
        (option_map named argument) }
    ensures visits { visits.new ≤ visits.old + 1 }
{
    let Some(argument) = argument else {
        return true;
    };
    let value = argument_at(machine, thread, count, argument.place);
    is_null_or_of(program, machine, value, argument.class, visits)
}

/// Whether a method of texts takes the arguments of a call, by their classes: what is to be a string is null or one.
pub fn takes_text<L: Ledger>(
    program: &Program,
    machine: &Machine,
    thread: ThreadId,
    method: TextMethod,
    count: u16,
    visits: &mut Steps<L>,
) -> bool
    requires call { HasArguments program.now machine.now thread count }
    ensures value { result ≡ is_of_class_wanted (moment program.now machine.now thread)
        (begins (moment program.now machine.now thread))
        (arguments_of (moment program.now machine.now thread) count) (text_in_table method) }
    ensures visits { visits.new ≤ visits.old + 1 }
{
    let argument = text_argument(method);
    is_of_its_class(program, machine, thread, argument, count, visits)
}

/// Whether a receiver of this class may be called by a method that was resolved, with the topmost entries as arguments: it is
/// of the class that declares the method, and the method takes the arguments.
#[inline(always)]
pub(crate) fn fits_resolved<L: Ledger>(
    program: &Program,
    machine: &Machine,
    thread: ThreadId,
    class: ClassId,
    method: MethodId,
    count: u16,
    visits: &mut Steps<L>,
) -> bool
    requires call { HasArguments program.now machine.now thread count }
    requires class { class < length program.now.classes }
    requires method { method < length program.now.methods }
    ensures value { (o : ℕ) →
        class ≡ object_class (begins (moment program.now machine.now thread)) o →
        result ≡ fits_in (moment program.now machine.now thread)
        (begins (moment program.now machine.now thread))
        (arguments_of (moment program.now machine.now thread) count) method o }
    ensures visits { visits.new ≤ visits.old + 1 }
{
    if !program.is_subclass(class, program.method(method).class) {
        return false;
    }
    let argument = class_argument_of(program, method);
    is_of_its_class(program, machine, thread, argument, count, visits)
}
