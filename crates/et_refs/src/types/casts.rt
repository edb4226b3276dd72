//! Type tests (JVMS 6.5, checkcast, instanceof).
ghost use Rattle.std.specs.Prelude.{◌≡◌, ◌+◌, ◌<◌, ◌≤◌, ◌^◌, List, ℕ, length, Some, IfOk};
ghost use Rattle.et_base.specs.declared.value.Value.{Value as Entry};
ghost use Rattle.et_heap.specs.Objects.{IsHeld, Objects, object_at};
ghost use Rattle.et_heap.specs.Refs.{refs_of_value};
ghost use Rattle.et_state.specs.State.{Kept, kept_of};
ghost use Rattle.et_state.specs.Words.{top};
ghost use Rattle.et_state.specs.Moves.{AreInHeap};
ghost use Rattle.et_state.specs.Outcome.{Outcome};
ghost use Rattle.et_program.specs.Entries.{Linked};
ghost use Rattle.et_program.specs.Referring.{pool_of_class};
ghost use Rattle.et_program.specs.Types.{passes as passing};
ghost use Rattle.et_event.specs.Checks.{entries_of};
ghost use Rattle.et_event.specs.Heap.{with_class, truth as truth_of};
ghost use Rattle.et_event.specs.Moments.{Moment, moment};
ghost use Rattle.et_event.specs.Sites.{Site, class_operand as operand_class, natural_of};
ghost use Rattle.et_event.specs.Sound.{IsSoundFor};
ghost use Rattle.et_refs.specs.Asked.{MayRefer};
ghost use Rattle.et_refs.specs.Changes.{IsNamedReference, MayExchange, exchange_outcome, put_outcome};
ghost use Rattle.et_refs.specs.NamedClasses.{IsNamedAt};
ghost use Rattle.et_refs.specs.Reads.{AreHeld, IsSoundHeap};
ghost use Rattle.et_refs.specs.Refusals.{ComesTo, outcome_of};
ghost use Rattle.et_refs.specs.TypeTests.{left_by, left_by_null, tested as testing, type_test as type_testing};

use crate::checks::{resolve_named, throws_unless};
use crate::doing::changes::Exchange;
use crate::operands::{operands_fit, take_reference};
use crate::refusals::Refusal;
use et_base::{ClassId, ObjectId, Steps, ThreadId, Value};
use et_event::{GuestError, Place, class_operand, index_of};
use et_heap::Heap;
use et_program::Program;
use et_state::Machine;
use std::sync::ledger::Ledger;

/// An instruction that tests the class of a reference.
#[derive(Clone, Copy)]
pub(crate) enum TypeTest {
    /// It leaves the reference, or throws ClassCastException.
    CheckCast,
    /// It leaves an int that says whether there is such an object.
    InstanceOf,
}

/// A class as an instruction names it.
#[derive(Clone, Copy)]
pub(crate) struct NamedClass<'a> {
    /// The name.
    pub name: &'a [u8],
    /// The class in whose pool the name stands.
    pub class: ClassId,
    /// The index of the Class entry that gives the name.
    pub index: u16,
}

/// The class that an instruction has as its operand.
pub(crate) fn class_named<'a>(place: &Place<'a>) -> Result<NamedClass<'a>, Refusal>
    requires { natural_of place.now.site.instr.first < 2 ^ 16 }
    ensures is { (e : Moment) (go : List ℕ → Outcome Kept) → with_class e
        (operand_class place.now.site) go ≡ outcome_of e result (λ x. go x.name.now) }
    ensures named { (p : Linked) → place.now.site.class < length p.classes →
        place.now.site.pool ≡ pool_of_class p place.now.site.class →
        IfOk result (λ x. IsNamedAt p x) }
    ensures operand { IfOk result (λ x. Some x.name.now ≡ operand_class place.now.site) }
{
    match class_operand(&place.site) {
        Some(name) => Ok(NamedClass {
            name,
            class: place.site.class(),
            index: index_of(&place.site),
        }),
        None => Err(Refusal::IllTyped),
    }
}

/// Whether an object passes for one of a class.
pub(crate) fn passes<L: Ledger>(
    program: &Program,
    heap: &Heap,
    object: ObjectId,
    class: ClassId,
    visits: &mut Steps<L>,
) -> bool
    requires sound { IsSoundHeap program.now heap.now }
    requires held { IsHeld heap.now object }
    requires class { class < length program.now.classes }
    ensures value { result ≡ passing program.now (object_at heap.now object).class class }
    ensures visits { visits.new ≡ visits.old + 1 }
{
    let low = heap.class_of(object, visits);
    program.passes(low, class)
}

/// A truth as an int.
fn truth(holds: bool) -> Value
    ensures { result ≡ truth_of holds }
{
    Value::Int(i32::from(holds))
}

/// What a test leaves for null.
fn tested_null(test: TypeTest) -> Value
    ensures { result ≡ left_by_null test }
{
    match test {
        TypeTest::CheckCast => Value::Null,
        TypeTest::InstanceOf => truth(false),
    }
}

/// What a test leaves for an object that passes for one of the class or doesn't.
fn tested_object(test: TypeTest, object: ObjectId, holds: bool) -> Result<Value, Refusal>
    ensures is { (e : Moment) (at : Site) (below : List Entry) →
        left_by test e at below object holds ≡ outcome_of e result (put_outcome e at below) }
    ensures few { IfOk result (λ v. length (entries_of v) ≤ 1) }
    ensures held { IfOk result (λ v. (heap : Objects) →
        IsHeld heap object → AreHeld heap (refs_of_value v)) }
{
    match test {
        TypeTest::CheckCast => {
            throws_unless(GuestError::ClassCastException, holds)?;
            Ok(Value::Ref(object))
        }
        TypeTest::InstanceOf => Ok(truth(holds)),
    }
}

/// What a test leaves for a reference. Null passes as each class, and is of none; then nothing is resolved.
fn tested<L: Ledger>(
    program: &Program,
    machine: &Machine,
    thread: ThreadId,
    named: &NamedClass<'_>,
    test: TypeTest,
    reference: Option<ObjectId>,
    visits: &mut Steps<L>,
) -> Result<Value, Refusal>
    requires sound { IsSoundFor program.now (kept_of machine.now) }
    requires known { IsNamedAt program.now named.now }
    requires named { IsNamedReference machine.now (top machine.now.guest thread) reference }
    ensures is { (at : Site) (below : List Entry) →
        testing test (moment program.now machine.now thread) at named.now.name.now below reference
        ≡ outcome_of (moment program.now machine.now thread) result
        (put_outcome (moment program.now machine.now thread) at below) }
    ensures few { IfOk result (λ v. length (entries_of v) ≤ 1) }
    ensures held { IfOk result (λ v. AreInHeap machine.now (refs_of_value v)) }
    ensures visits { visits.new ≤ visits.old + 1 }
{
    match reference {
        Some(object) => {
            let class = resolve_named(program, named)?;
            let holds = passes(program, &machine.heap, object, class, visits);
            tested_object(test, object, holds)
        }
        None => Ok(tested_null(test)),
    }
}

/// What `checkcast` or `instanceof` puts in the place of the reference.
pub(crate) fn type_test<L: Ledger>(
    program: &Program,
    machine: &Machine,
    thread: ThreadId,
    place: &Place<'_>,
    test: TypeTest,
    visits: &mut Steps<L>,
) -> Result<Exchange, Refusal>
    requires refers { MayRefer program.now machine.now thread place.now }
    requires sound { IsSoundFor program.now (kept_of machine.now) }
    ensures is { ComesTo (type_testing test)
        (moment program.now machine.now thread) place.now.site result exchange_outcome }
    ensures may { IfOk result
        (λ x. MayExchange machine.now.heap (top machine.now.guest thread) x) }
    ensures visits { visits.new ≤ visits.old + 1 }
{
    operands_fit(machine, thread);
    let named = match class_named(place) {
        Ok(named) => named,
        Err(refusal) => return Err(refusal),
    };
    let reference = take_reference(machine, thread, 0)?;
    let value = tested(program, machine, thread, &named, test, reference, visits)?;
    Ok(Exchange { taken: 1, value })
}
