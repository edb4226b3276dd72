//! The first method of a thread.
ghost use Rattle.std.specs.Prelude.{◌+◌, ◌≤◌, IfOk};
ghost use Rattle.et_event.specs.Answered.{EventAnswers};
ghost use Rattle.et_event.specs.Calls.{enters_first, entry_arguments};
ghost use Rattle.et_event.specs.Initialization.{prepared};
ghost use Rattle.et_event.specs.Moments.{begins, moment};
ghost use Rattle.et_calls.specs.Asked.{IsFirst, MayBegin};

use crate::called::codeless_error;
use crate::entering::enter_code;
use crate::entry::throws::throw_first;
use crate::new_frames::{Entered, Passed};
use et_base::{ClassId, MethodId, NoMemory, ObjectId, Steps, ThreadId};
use et_program::Program;
use et_state::{EventEnd, Lines, Machine};
use std::alloc::Global;
use std::sync::ledger::Ledger;

/// A method that a thread enters first.
#[derive(Clone, Copy)]
pub(crate) struct First<'a> {
    pub method: MethodId,
    /// The object on which it is called, or its argument; none where there is neither.
    pub argument: Option<ObjectId>,
    /// The quiet ones among these classes become done first, in the same event.
    pub classes: &'a [ClassId],
}

/// The event in which a thread without a frame enters its first method; where the method has no code an error is thrown.
pub(crate) fn enter_first<L: Ledger>(
    alloc: Global,
    program: &Program,
    machine: &mut Machine,
    thread: ThreadId,
    first: &First<'_>,
    out: &mut Lines,
    visits: &mut Steps<L>,
) -> Result<EventEnd, NoMemory>
    requires begins { MayBegin program.now machine.old thread }
    requires first { IsFirst program.now machine.old thread first.now }
    ensures ok { IfOk result (λ end. EventAnswers
        (enters_first (moment program.now machine.old thread) (prepared (moment program.now
        machine.old thread) first.now.classes.now (begins (moment program.now machine.old thread)))
        (entry_arguments first.now.argument) first.now.method)
        end machine.old machine.new out.old out.new) }
    ensures visits { visits.new ≤ visits.old + 3 }
{
    let info = program.method(first.method);
    match &info.code {
        Some(code) => {
            let entered = Entered {
                method: first.method,
                info,
                code,
                passed: Passed::Object(first.argument),
                classes: first.classes,
            };
            enter_code(alloc, program, machine, thread, &entered, out, visits)
        }
        None => throw_first(program, machine, thread, codeless_error(info), out),
    }
}
