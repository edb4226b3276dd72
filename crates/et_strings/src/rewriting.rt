//! The methods that give an object a text: the constructors of a string builder, `append` and `toString`.
ghost use Rattle.std.specs.Prelude.{◌≡◌, ℕ, ◌+◌, ◌<◌, ◌≤◌, ◌^◌, ◌∷◌, ◌++◌, [], All, IfOk, List, Some, drop, length};
ghost use Rattle.std.specs.Map.{values_of};
ghost use Rattle.et_event.specs.TextRows.{shown};
ghost use Rattle.et_program.specs.BootTexts.TextMethod.TheVariants as methods;
ghost use Rattle.et_program.specs.Entries.{Linked};
ghost use Rattle.et_base.specs.declared.value.Value.TheVariants.{Ref};
ghost use Rattle.et_heap.specs.Objects.{new_object};
ghost use Rattle.et_state.specs.Moves.{Led};
ghost use Rattle.et_state.specs.Sound.{IsSound};
ghost use Rattle.et_state.specs.Spoken.{spoken, text_of};
ghost use Rattle.et_state.specs.State.{MachineState, kept_of};
ghost use Rattle.et_state.specs.Words.{HasFrame, ticked, top, with_new_object, with_top};
ghost use Rattle.et_state.specs.Texts.{longest_text, text_units, with_text};
ghost use Rattle.et_state.specs.declared.records.Record.{Record};
ghost use Rattle.et_builtins.specs.Calling.{HasRoomFor};
ghost use Rattle.et_strings.specs.Calls.{AnswersText, MayAnswer};
ghost use Rattle.et_strings.specs.TextUnits.{units_in};

use crate::calls::TextCalled;
use crate::shown::{Piece, piece_of};
use crate::text::{Text, copied, push_text, text_at, text_length};
use crate::texts::Texts;
use et_base::{NoMemory, ObjectId, Value};
use et_builtins::{Called, give, give_nothing};
use et_event::{GuestError, class_called, make_instance, take, throw_error};
use et_program::{BuiltInClass, Program, Shown};
use et_state::{EventEnd, Lines, Machine};
use itoa::Buffer;
use std::alloc::Global;

/// A text has at most so many units.
const LONGEST: usize = 65_535;

/// All texts together have at most so many units.
const MOST: u64 = 67_108_864;

/// How many units all texts have together where an object is given a text of so many.
fn units_with(texts: &Texts, object: ObjectId, count: usize) -> u64
    requires short { count ≤ 2 ^ 40 }
    requires few { text_units texts.now ≤ 2 ^ 40 }
    ensures { (text : List ℕ) → length text ≡ count →
        result ≡ text_units (with_text object text texts.now) }
{
    texts.units() + count as u64 - texts.get(object).len() as u64
}

/// The event of a constructor of a string builder with nothing.
pub(crate) fn begin_event(
    alloc: Global,
    machine: &mut Machine,
    texts: &mut Texts,
    call: &TextCalled,
) -> Result<EventEnd, NoMemory>
    requires answers { MayAnswer machine.old texts.old call.now }
    ensures { IfOk result (λ end. (p : Linked) (out : List Record) →
        AnswersText methods.Begin p call.now end machine.old machine.new texts.old texts.new
        out out) }
{
    texts.set(call.object, Vec::new(alloc))?;
    Ok(give_nothing(machine, &call.called))
}

/// The event of a constructor of a string builder with a string.
pub(crate) fn begin_with_event(
    alloc: Global,
    program: &Program,
    machine: &mut Machine,
    texts: &mut Texts,
    call: &TextCalled,
    out: &mut Lines,
) -> Result<EventEnd, NoMemory>
    requires answers { MayAnswer machine.old texts.old call.now }
    ensures { IfOk result (λ end. AnswersText methods.BeginWith program.now call.now end
        machine.old machine.new texts.old texts.new out.old out.new) }
{
    let Value::Ref(string) = call.argument else {
        let error = GuestError::NullPointerException;
        return throw_error(program, machine, call.called.thread, error, out);
    };
    let units = copied(alloc, text_at(machine, texts, string))?;
    if units_with(texts, call.object, units.len()) > MOST {
        return Ok(EventEnd::ObjectLimit);
    }
    texts.set(call.object, units)?;
    Ok(give_nothing(machine, &call.called))
}

/// The event in which a method gives an object that was made for it, as the newest.
fn give_made(machine: &mut Machine, call: &Called, object: ObjectId)
    requires frame { HasFrame machine.old.guest call.now.thread }
    requires clock { machine.old.guest.clock < 2 ^ 40 }
    requires operands { call.now.count ≤ length (top machine.old.guest call.now.thread).operands }
    requires room { HasRoomFor 1 machine.old call.now }
    ensures { (m : MachineState) (class slots : ℕ) → IsSound (kept_of m) →
        machine.old ≡ with_new_object m (new_object class 0 slots) → object ≡ length m.heap →
        Led (kept_of m) (record {
          heap = m.heap ++ Some (new_object class 0 slots) ∷ [];
          guest = with_top (ticked m.guest) call.now.thread (record (top m.guest call.now.thread) {
            pc = call.now.next;
            operands = Ref object ∷ drop call.now.count (top m.guest call.now.thread).operands;
          });
        }) machine.new }
{
    machine.begin_event();
    take(machine, call.thread, call.count as u32);
    machine.set_pc(call.thread, call.next);
    machine.push(call.thread, Value::Ref(object));
}

/// The event in which a string is made of the units of a string builder.
pub(crate) fn to_string_event(
    alloc: Global,
    program: &Program,
    machine: &mut Machine,
    texts: &mut Texts,
    call: &TextCalled,
    out: &mut Lines,
) -> Result<EventEnd, NoMemory>
    requires answers { MayAnswer machine.old texts.old call.now }
    requires room { HasRoomFor 1 machine.old call.now.called }
    ensures { IfOk result (λ end. AnswersText methods.ToString program.now call.now end
        machine.old machine.new texts.old texts.new out.old out.new) }
{
    let units = copied(alloc, text_at(machine, texts, call.object))?;
    if texts.units() + units.len() as u64 > MOST {
        return Ok(EventEnd::ObjectLimit);
    }
    let class = class_called(program, BuiltInClass::String);
    let Some(string) = make_instance(program, machine, call.called.thread, class, out)? else {
        return Ok(EventEnd::ObjectLimit);
    };
    texts.set(string, units)?;
    give_made(machine, &call.called, string);
    Ok(EventEnd::Done)
}

/// The units of a string builder, to be given back with more. Those that were made are taken out of the texts, and not copied.
fn taken(
    alloc: Global,
    machine: &Machine,
    texts: &mut Texts,
    object: ObjectId,
) -> Result<Vec<u16>, NoMemory>
    requires { All (λ units. length units ≤ longest_text) (values_of texts.old) }
    ensures value { IfOk result (λ units. units.items
        ≡ text_of (spoken texts.old (kept_of machine.now)) object) }
    ensures given { (text : List ℕ) →
        with_text object text texts.new ≡ with_text object text texts.old }
    ensures units { text_units texts.new ≤ text_units texts.old }
{
    match machine.text_of(object) {
        Some(_) => copied(alloc, text_at(machine, texts, object)),
        None => Ok(texts.take(object).unwrap_or(Vec::new(alloc))),
    }
}

/// The event in which units are put behind those of a string builder, which is the answer.
fn append_text(
    alloc: Global,
    program: &Program,
    machine: &mut Machine,
    texts: &mut Texts,
    call: &TextCalled,
    more: Text<'_>,
    out: &mut Lines,
) -> Result<EventEnd, NoMemory>
    requires answers { MayAnswer machine.old texts.old call.now }
    requires room { HasRoomFor 1 machine.old call.now.called }
    requires short { length (units_in more) ≤ longest_text }
    ensures { IfOk result (λ end. (kind : Shown) → units_in more.entry ≡ shown
        (spoken texts.old (kept_of machine.old)) kind call.now.argument →
        AnswersText (methods.Append kind) program.now call.now end machine.old machine.new
        texts.old texts.new out.old out.new) }
{
    let length = text_length(text_at(machine, texts, call.object)) + text_length(more);
    if length > LONGEST {
        let error = GuestError::OutOfMemoryError;
        return throw_error(program, machine, call.called.thread, error, out);
    }
    if units_with(texts, call.object, length) > MOST {
        return Ok(EventEnd::ObjectLimit);
    }
    let mut units = taken(alloc, machine, texts, call.object)?;
    push_text(more, &mut units)?;
    texts.set(call.object, units)?;
    Ok(give(machine, &call.called, Value::Ref(call.object)))
}

/// The event in which what an argument is shown as (JLS 5.1.11) is put behind the units of a string builder.
pub(crate) fn append_event(
    alloc: Global,
    program: &Program,
    machine: &mut Machine,
    texts: &mut Texts,
    call: &TextCalled,
    kind: Shown,
    out: &mut Lines,
) -> Result<EventEnd, NoMemory>
    requires answers { MayAnswer machine.old texts.old call.now }
    requires room { HasRoomFor 1 machine.old call.now.called }
    ensures { IfOk result (λ end. AnswersText (methods.Append kind) program.now call.now end
        machine.old machine.new texts.old texts.new out.old out.new) }
{
    match piece_of(kind, call.argument) {
        Piece::Text(string) => {
            let more = copied(alloc, text_at(machine, texts, string))?;
            append_text(
                alloc,
                program,
                machine,
                texts,
                call,
                Text::Made(more.as_slice()),
                out,
            )
        }
        Piece::Number(n) => {
            let mut digits = Buffer::new();
            let more = Text::Constant(digits.format(n).as_bytes());
            append_text(alloc, program, machine, texts, call, more, out)
        }
        Piece::Single(unit) => {
            append_text(
                alloc,
                program,
                machine,
                texts,
                call,
                Text::Made(&[unit]),
                out,
            )
        }
        Piece::Word(word) => {
            append_text(
                alloc,
                program,
                machine,
                texts,
                call,
                Text::Constant(word),
                out,
            )
        }
    }
}
