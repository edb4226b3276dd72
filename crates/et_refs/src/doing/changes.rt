//! What an event does once no check refused.
ghost use Rattle.std.specs.Prelude.{◌≡◌, ◌+◌, ◌<◌, ◌≤◌, ◌++◌, [], length, drop, take as first, IfOk, OnErr};
ghost use Rattle.et_base.specs.declared.value.Value.TheVariants.{Ref};
ghost use Rattle.et_heap.specs.Refs.{refs_of};
ghost use Rattle.et_state.specs.Threads.{lost_room};
ghost use Rattle.et_heap.specs.Objects.{object_at, with_slot, with_object_at};
ghost use Rattle.et_state.specs.State.{kept_of};
ghost use Rattle.et_state.specs.Words.{HasFrame, top, with_top, ticked, steps_top};
ghost use Rattle.et_refs.specs.Asked.{MayStep};
ghost use Rattle.et_state.specs.Moves.{Led};
ghost use Rattle.et_event.specs.Answered.{EventAnswers};
ghost use Rattle.et_event.specs.Checks.{entries_of};
ghost use Rattle.et_event.specs.Moments.{moment};
ghost use Rattle.et_refs.specs.Changes.{change_outcome, store_outcome, MayExchange, MayStore, MayChange};

use crate::slots::{SlotAt, slot_value};
use et_base::{ClassId, NoMemory, ObjectId, Steps, ThreadId, Value};
use et_event::{Place, give, make_array, take, tell_update};
use et_program::Program;
use et_state::{EventEnd, Lines, Machine};
use std::sync::ledger::Ledger;

/// So many operands are taken, and a value is put in their place.
#[derive(Clone, Copy)]
pub struct Exchange {
    pub taken: u32,
    pub value: Value,
}

/// So many operands are taken, and a value is written to a slot of an object.
#[derive(Clone, Copy)]
pub struct Store {
    pub taken: u32,
    pub object: ObjectId,
    pub slot: u32,
    pub value: Value,
}

/// The length is taken, and an array of a class is put in its place.
#[derive(Clone, Copy)]
pub struct NewArray {
    pub class: ClassId,
    pub elements: u32,
}

/// What an event does.
#[derive(Clone, Copy)]
pub enum Change {
    Put(Exchange),
    Make(NewArray),
}

/// Puts a value on top; a long takes two entries.
fn give_value(machine: &mut Machine, thread: ThreadId, value: Value)
    requires frame { HasFrame machine.old.guest thread }
    requires room { length (entries_of value) + length (top machine.old.guest thread).operands
        ≤ (top machine.old.guest thread).room }
    ensures { machine.new ≡ steps_top machine.old thread (record (top machine.old.guest thread)
        { operands = entries_of value ++ (top machine.old.guest thread).operands }) [] }
{
    match value {
        Value::Long(_) => give(machine, thread, &[Value::LongHigh, value]),
        Value::Unset | Value::Int(_) | Value::LongHigh | Value::Null | Value::Ref(_) => {
            give(machine, thread, &[value])
        }
    }
}

/// Takes so many operands, puts a value in their place, and sets the pc.
#[inline(always)]
pub fn replace_top(machine: &mut Machine, thread: ThreadId, taken: u32, value: Value, next: u32)
    requires frame { HasFrame machine.old.guest thread }
    requires operands { taken ≤ length (top machine.old.guest thread).operands }
    requires lost { length machine.old.lost + taken ≤ lost_room }
    requires room { length (entries_of value) + length
        (drop taken (top machine.old.guest thread).operands) ≤ (top machine.old.guest thread).room }
    ensures { machine.new
        ≡ steps_top machine.old thread (record (top machine.old.guest thread) {
          pc = next;
          operands = entries_of value ++ drop taken (top machine.old.guest thread).operands;
        })
        (refs_of (first taken (top machine.old.guest thread).operands)) }
{
    take(machine, thread, taken);
    give_value(machine, thread, value);
    machine.set_pc(thread, next);
}

/// The event in which a value is put in the place of operands.
fn put_value(machine: &mut Machine, thread: ThreadId, next: u32, x: Exchange)
    requires step { MayStep machine.old thread }
    requires may { MayExchange machine.old.heap (top machine.old.guest thread) x }
    ensures { Led (kept_of machine.old)
        (record {
          heap = machine.old.heap;
          guest = with_top (ticked machine.old.guest) thread
              (record (top machine.old.guest thread) {
                pc = next;
                operands = entries_of x.value
                    ++ drop x.taken (top machine.old.guest thread).operands;
              });
        }) machine.new }
{
    machine.begin_event();
    replace_top(machine, thread, x.taken, x.value, next);
}

/// The event in which operands are taken and a slot is written, which stood there before.
fn set_slot<L: Ledger>(
    machine: &mut Machine,
    thread: ThreadId,
    next: u32,
    x: Store,
    visits: &mut Steps<L>,
)
    requires step { MayStep machine.old thread }
    requires may { MayStore machine.old.heap (top machine.old.guest thread) x }
    ensures led { Led (kept_of machine.old) (record {
      heap = with_object_at machine.old.heap
          x.object (with_slot x.slot x.value (object_at machine.old.heap x.object));
      guest = with_top
          (ticked machine.old.guest) thread (record (top machine.old.guest thread) {
            pc = next;
            operands = drop x.taken (top machine.old.guest thread).operands;
          });
    }) machine.new }
    ensures visits { visits.new ≡ visits.old + 1 }
{
    machine.begin_event();
    let _old = machine.set_slot(x.object, x.slot, x.value, visits);
    take(machine, thread, x.taken);
    machine.set_pc(thread, next);
}

/// The event in which operands are taken and a slot is written. After `NoMemory` all is as before.
pub(crate) fn write_slot<L: Ledger>(
    program: &Program,
    machine: &mut Machine,
    thread: ThreadId,
    place: &Place<'_>,
    x: Store,
    out: &mut Lines,
    visits: &mut Steps<L>,
) -> Result<EventEnd, NoMemory>
    requires step { MayStep machine.old thread }
    requires may { MayStore machine.old.heap (top machine.old.guest thread) x }
    ensures ok { IfOk result (λ end. EventAnswers
        (store_outcome (moment program.now machine.old thread) place.now.site x)
        end machine.old machine.new out.old out.new) }
    ensures err { OnErr result (machine.new ≡ machine.old) }
    ensures visits { visits.new ≤ visits.old + 2 }
{
    let at = SlotAt {
        object: x.object,
        slot: x.slot,
    };
    let old = slot_value(&machine.heap, &at, visits);
    let event = machine.clock() + 1;
    tell_update(out, event, thread, Some(x.object), x.slot, old, x.value)?;
    set_slot(machine, thread, place.site.next(), x, visits);
    Ok(EventEnd::Done)
}

/// The event that does this change at a place. After `NoMemory` the machine may have one object more, to which nothing
/// refers, and there may be its record; all else is as before.
pub(crate) fn carry_out(
    program: &Program,
    machine: &mut Machine,
    thread: ThreadId,
    place: &Place<'_>,
    change: Change,
    out: &mut Lines,
) -> Result<EventEnd, NoMemory>
    requires step { MayStep machine.old thread }
    requires may { MayChange machine.old.heap (top machine.old.guest thread) change }
    ensures ok { IfOk result (λ end. EventAnswers
        (change_outcome (moment program.now machine.old thread) place.now.site change)
        end machine.old machine.new out.old out.new) }
    ensures err { OnErr result (machine.new.guest ≡ machine.old.guest) }
{
    match change {
        Change::Put(x) => {
            put_value(machine, thread, place.site.next(), x);
            Ok(EventEnd::Done)
        }
        Change::Make(x) => {
            let Some(array) = make_array(program, machine, thread, x.class, x.elements, out)? else {
                return Ok(EventEnd::ObjectLimit);
            };
            machine.begin_event();
            replace_top(machine, thread, 1, Value::Ref(array), place.site.next());
            Ok(EventEnd::Done)
        }
    }
}
