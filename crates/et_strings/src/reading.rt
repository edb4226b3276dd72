//! The methods that read a text: its length, a unit, and whether another has the same ones.
ghost use Rattle.std.specs.Prelude.{◌≡◌, ◌+◌, ◌≤◌, IfOk, List};
ghost use Rattle.et_event.specs.TextRows.{is_text_like as is_text_like_in};
ghost use Rattle.et_program.specs.BootTexts.TextMethod.TheVariants as methods;
ghost use Rattle.et_program.specs.Entries.{Linked};
ghost use Rattle.et_state.specs.declared.records.Record.{Record};
ghost use Rattle.et_builtins.specs.Calling.{HasRoomFor};
ghost use Rattle.et_strings.specs.Calls.{AnswersText, MayAnswer, text_moment};

use crate::calls::TextCalled;
use crate::text::{are_same, text_at, text_length, text_unit};
use crate::texts::Texts;
use et_base::{NoMemory, Steps, Value};
use et_builtins::give;
use et_event::{GuestError, class_called, ill_typed, throw_error};
use et_program::{BuiltInClass, Program};
use et_state::{EventEnd, Lines, Machine};
use std::sync::ledger::Ledger;

/// The event in which a method gives the length of a text.
pub(crate) fn length_event(machine: &mut Machine, texts: &Texts, call: &TextCalled) -> EventEnd
    requires answers { MayAnswer machine.old texts.now call.now }
    requires room { HasRoomFor 1 machine.old call.now.called }
    ensures { (p : Linked) (out : List Record) → AnswersText methods.Length p call.now result
        machine.old machine.new texts.now texts.now out out }
{
    let length = text_length(text_at(machine, texts, call.object));
    give(machine, &call.called, Value::Int(length as i32))
}

/// The event in which a method gives the unit of a number; a StringIndexOutOfBoundsException where there is none.
pub(crate) fn char_event(
    program: &Program,
    machine: &mut Machine,
    texts: &Texts,
    call: &TextCalled,
    out: &mut Lines,
) -> Result<EventEnd, NoMemory>
    requires answers { MayAnswer machine.old texts.now call.now }
    requires room { HasRoomFor 1 machine.old call.now.called }
    ensures { IfOk result (λ end. AnswersText methods.CharAt program.now call.now end
        machine.old machine.new texts.now texts.now out.old out.new) }
{
    let Value::Int(index) = call.argument else {
        return Ok(ill_typed(machine, call.called.thread));
    };
    match text_unit(text_at(machine, texts, call.object), index) {
        Some(unit) => Ok(give(machine, &call.called, Value::Int(unit as i32))),
        None => {
            let error = GuestError::StringIndexOutOfBoundsException;
            throw_error(program, machine, call.called.thread, error, out)
        }
    }
}

/// Whether the argument is a string of the same units as the text of the object.
fn is_text_like<L: Ledger>(
    program: &Program,
    machine: &Machine,
    texts: &Texts,
    call: &TextCalled,
    visits: &mut Steps<L>,
) -> bool
    requires answers { MayAnswer machine.now texts.now call.now }
    ensures value { result
        ≡ is_text_like_in (text_moment program.now machine.now texts.now call.now.called.thread)
        call.now.object call.now.argument }
    ensures visits { visits.new ≤ visits.old + 1 }
{
    let Value::Ref(other) = call.argument else {
        return false;
    };
    let class = machine.heap.class_of(other, visits);
    class == class_called(program, BuiltInClass::String)
        && are_same(
            text_at(machine, texts, call.object),
            text_at(machine, texts, other),
        )
}

/// The event in which a method gives whether its argument is a string of the same units.
pub(crate) fn equals_event<L: Ledger>(
    program: &Program,
    machine: &mut Machine,
    texts: &Texts,
    call: &TextCalled,
    visits: &mut Steps<L>,
) -> EventEnd
    requires answers { MayAnswer machine.old texts.now call.now }
    requires room { HasRoomFor 1 machine.old call.now.called }
    ensures event { (out : List Record) → AnswersText methods.Equals program.now call.now result
        machine.old machine.new texts.now texts.now out out }
    ensures visits { visits.new ≤ visits.old + 1 }
{
    let is_same = is_text_like(program, machine, texts, call, visits);
    give(machine, &call.called, Value::Int(is_same as i32))
}
