//! The event of a built-in method without code.
ghost use Rattle.std.specs.Prelude.{◌≡◌, ◌+◌, ◌<◌, ◌≤◌, IfOk};
ghost use Rattle.et_program.specs.Entries.{method_at};
ghost use Rattle.et_event.specs.Answered.{EventAnswers};
ghost use Rattle.et_event.specs.BuiltIns.{built_in_event};
ghost use Rattle.et_event.specs.Calls.{arguments_of};
ghost use Rattle.et_event.specs.Moments.{begins, moment};
ghost use Rattle.et_event.specs.Sites.{Site};
ghost use Rattle.et_builtins.specs.Calling.{MayCall};

use crate::arguments::receiver;
use crate::changes::Called;
use crate::kinds::built_in_of;
use crate::plans::Call;
use crate::rows::row_event;
use et_base::{NoMemory, Steps, ThreadId};
use et_event::{GuestError, throw_error};
use et_program::Program;
use et_state::{EventEnd, Lines, Machine};
use std::sync::ledger::Ledger;

/// The event of a selected method without code: a built-in method is done in this one event and without a frame, and another
/// one throws AbstractMethodError (JVMS 6.5 invokevirtual). After `NoMemory` the event may be half done, and machine and
/// records may only be dropped.
pub fn built_in_method_event<L: Ledger>(
    program: &Program,
    machine: &mut Machine,
    thread: ThreadId,
    call: Call,
    out: &mut Lines,
    visits: &mut Steps<L>,
) -> Result<EventEnd, NoMemory>
    requires call { MayCall program.now machine.old thread call }
    ensures ok { IfOk result (λ end. (at : Site) → at.next ≡ call.next →
        EventAnswers (built_in_event (moment program.now machine.old thread) at
        (begins (moment program.now machine.old thread))
        (arguments_of (moment program.now machine.old thread) call.count)
        (method_at program.now call.method)) end machine.old machine.new out.old out.new) }
    ensures visits { visits.new ≤ visits.old + 3 }
{
    let receiver = receiver(machine, thread, call.count);
    match (receiver, built_in_of(program, call.method)) {
        (Some(object), Some(built_in)) => {
            let called = Called {
                thread,
                count: call.count,
                next: call.next,
            };
            row_event(program, machine, &called, object, built_in, out, visits)
        }
        (_, _) => {
            let error = GuestError::AbstractMethodError;
            throw_error(program, machine, thread, error, out)
        }
    }
}
