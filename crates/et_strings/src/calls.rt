//! The calls of methods of texts.
ghost use Rattle.std.specs.Prelude.{◌≡◌, ◌+◌, ◌≤◌, Some, IsSome};
ghost use Rattle.et_event.specs.Beginning.{BeginsEvent};
ghost use Rattle.et_event.specs.Calls.{arguments_of};
ghost use Rattle.et_event.specs.Frames.{first_reference};
ghost use Rattle.et_event.specs.Moments.{moment};
ghost use Rattle.et_event.specs.Selected.{text_call_at};
ghost use Rattle.et_event.specs.declared.rows.CallRow.TheVariants as calls;
ghost use Rattle.et_event.specs.declared.rows.Row.TheVariants as rows;
ghost use Rattle.et_event.specs.Places.{IsPlace};
ghost use Rattle.et_state.specs.Words.{HasFrame, top};
ghost use Rattle.et_builtins.specs.Calling.{HasRoomFor};
ghost use Rattle.et_strings.specs.Calls.{IsCalled, entries_given};

use et_base::{ObjectId, Steps, ThreadId, Value};
use et_builtins::{CallPlan, Called, argument_at, invoke_plan, receiver};
use et_event::{CallKind, Place};
use et_program::{Program, TextMethod};
use et_state::Machine;
use std::sync::ledger::Ledger;

/// A method of texts that a thread calls on an object, and the argument behind that; `Unset` where there is none.
#[derive(Clone, Copy)]
pub(crate) struct TextCalled {
    pub method: TextMethod,
    pub called: Called,
    pub object: ObjectId,
    pub argument: Value,
}

/// The call of a method of texts that an invoke at a place makes.
pub(crate) fn text_called<L: Ledger>(
    program: &Program,
    machine: &Machine,
    thread: ThreadId,
    place: &Place<'_>,
    kind: CallKind,
    visits: &mut Steps<L>,
) -> TextCalled
    requires begins { BeginsEvent program.now machine.now thread }
    requires frame { HasFrame machine.now.guest thread }
    requires place { IsPlace program.now (top machine.now.guest thread) place.now }
    requires row { place.now.row ≡ rows.Call (calls.Invoke kind) }
    requires call { IsSome (text_call_at (moment program.now machine.now thread)
        place.now.site (rows.Call (calls.Invoke kind))) }
    ensures call { text_call_at (moment program.now machine.now thread) place.now.site
        (rows.Call (calls.Invoke kind)) ≡ Some (record {
          at = place.now.site;
          arguments = arguments_of (moment program.now machine.now thread) result.called.count;
          method = result.method;
        }) }
    ensures receiver { first_reference (arguments_of (moment program.now machine.now thread)
        result.called.count) ≡ Some result.object }
    ensures called { IsCalled machine.now result }
    ensures room { HasRoomFor (entries_given result.method) machine.now result.called }
    ensures thread { result.called.thread ≡ thread }
    ensures next { result.called.next ≡ place.now.site.next }
    ensures visits { visits.new ≤ visits.old + 2 }
{
    let CallPlan::Enters { method, count } = invoke_plan(
        program, machine, thread, place, kind, visits,
    ) else {
        unreachable!()
    };
    let Some(text_method) = program.text_method(method) else {
        unreachable!()
    };
    let Some(object) = receiver(machine, thread, count) else {
        unreachable!()
    };
    TextCalled {
        method: text_method,
        called: Called {
            thread,
            count,
            next: place.site.next(),
        },
        object,
        argument: argument_at(machine, thread, count, 1),
    }
}
