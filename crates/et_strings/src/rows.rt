//! The rows of the methods of strings, of string builders and of print streams.
ghost use Rattle.std.specs.Prelude.{◌≡◌, ◌+◌, ◌≤◌, IfOk};
ghost use Rattle.et_event.specs.Calls.{arguments_of};
ghost use Rattle.et_event.specs.Moments.{begins, moment};
ghost use Rattle.et_event.specs.Sound.{IsSoundFor};
ghost use Rattle.et_event.specs.TextRows.{is_fit_text, writes_text as is_writing};
ghost use Rattle.et_state.specs.State.{kept_of};
ghost use Rattle.et_builtins.specs.Calling.{HasRoomFor};
ghost use Rattle.et_strings.specs.Calls.{AnswersText, IsCalled, MayAnswer, SaysRow, entries_given};

use crate::calls::TextCalled;
use crate::reading::{char_event, equals_event, length_event};
use crate::rewriting::{append_event, begin_event, begin_with_event, to_string_event};
use crate::texts::Texts;
use crate::writing::{end_line_event, print_event};
use et_base::{NoMemory, Steps};
use et_builtins::{Called, is_of, takes_text};
use et_program::{BuiltInClass, Program, TextMethod};
use et_state::{EventEnd, Machine, Output};
use std::alloc::Global;
use std::sync::ledger::Ledger;

/// Whether a method gives its receiver a text, which is a string builder then.
fn writes_text(method: TextMethod) -> bool
    ensures { result ≡ is_writing method }
{
    matches!(
        method,
        TextMethod::Begin | TextMethod::BeginWith | TextMethod::Append(_)
    )
}

/// Whether a method may be done: what is to be a string is null or one, and what is to be a string builder is one.
pub(crate) fn is_fit<L: Ledger>(
    program: &Program,
    machine: &Machine,
    call: &TextCalled,
    visits: &mut Steps<L>,
) -> bool
    requires sound { IsSoundFor program.now (kept_of machine.now) }
    requires call { IsCalled machine.now call.now }
    ensures value { result ≡ is_fit_text (moment program.now machine.now call.now.called.thread)
        (begins (moment program.now machine.now call.now.called.thread))
        (arguments_of (moment program.now machine.now call.now.called.thread) call.now.called.count)
        call.now.object call.now.method }
    ensures visits { visits.new ≤ visits.old + 2 }
{
    let Called { thread, count, .. } = call.called;
    if !takes_text(program, machine, thread, call.method, count, visits) {
        return false;
    }
    !writes_text(call.method)
        || is_of(
            program,
            machine,
            call.object,
            BuiltInClass::StringBuilder,
            visits,
        )
}

/// The event of a call of a method that may be done.
pub(crate) fn row_event<L: Ledger>(
    alloc: Global,
    program: &Program,
    machine: &mut Machine,
    texts: &mut Texts,
    call: &TextCalled,
    out: &mut Output,
    visits: &mut Steps<L>,
) -> Result<EventEnd, NoMemory>
    requires answers { MayAnswer machine.old texts.old call.now }
    requires room { HasRoomFor (entries_given call.now.method) machine.old call.now.called }
    ensures event { IfOk result (λ end. AnswersText call.now.method program.now call.now end
        machine.old machine.new texts.old texts.new out.old.records out.new.records) }
    ensures said { IfOk result (λ end. SaysRow program.now call.now end machine.old texts.old
        out.old.said.items out.new.said.items) }
    ensures visits { visits.new ≤ visits.old + 1 }
{
    let records = &mut out.records;
    match call.method {
        TextMethod::Length => Ok(length_event(machine, texts, call)),
        TextMethod::CharAt => char_event(program, machine, texts, call, records),
        TextMethod::Equals => Ok(equals_event(program, machine, texts, call, visits)),
        TextMethod::Begin => begin_event(alloc, machine, texts, call),
        TextMethod::BeginWith => begin_with_event(alloc, program, machine, texts, call, records),
        TextMethod::ToString => to_string_event(alloc, program, machine, texts, call, records),
        TextMethod::Append(kind) => {
            append_event(alloc, program, machine, texts, call, kind, records)
        }
        TextMethod::Print(kind) => {
            print_event(alloc, machine, texts, call, kind, b"", &mut out.said)
        }
        TextMethod::PrintLine(kind) => {
            print_event(alloc, machine, texts, call, kind, b"\n", &mut out.said)
        }
        TextMethod::EndLine => end_line_event(machine, call, &mut out.said),
    }
}
