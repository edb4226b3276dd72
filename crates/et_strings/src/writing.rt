//! The methods that print: an argument, and the end of a line.
ghost use Rattle.std.specs.Prelude.{◌≡◌, ◌∷◌, ◌≤◌, ◌++◌, [], All, IfOk, List, OnOk, length};
ghost use Rattle.std.specs.Map.{values_of};
ghost use Rattle.et_event.specs.TextRows.{shown, written_units};
ghost use Rattle.et_program.specs.BootTexts.TextMethod.TheVariants as methods;
ghost use Rattle.et_program.specs.Entries.{Linked};
ghost use Rattle.et_state.specs.Spoken.{spoken};
ghost use Rattle.et_state.specs.State.{kept_of};
ghost use Rattle.et_state.specs.Texts.{Texts as TextList, longest_text};
ghost use Rattle.et_state.specs.declared.records.Record.{Record};
ghost use Rattle.et_strings.specs.Calls.{AnswersText, IsCalled, IsReady, MayAnswer};

use crate::calls::TextCalled;
use crate::printing::push_written;
use crate::shown::{Piece, piece_of};
use crate::text::{say_text, text_at};
use crate::texts::Texts;
use et_base::{NoMemory, Value};
use et_builtins::give_nothing;
use et_program::Shown;
use et_state::{EventEnd, Machine};
use itoa::Buffer;
use std::alloc::Global;

/// Writes what an argument is shown as (JLS 5.1.11).
fn say(
    alloc: Global,
    machine: &Machine,
    texts: &Texts,
    kind: Shown,
    value: Value,
    said: &mut Vec<u8>,
) -> Result<(), NoMemory>
    requires { All (λ units. length units ≤ longest_text) (values_of texts.now) }
    ensures { OnOk result (said.new.items ≡ said.old.items
        ++ written_units (shown (spoken texts.now (kept_of machine.now)) kind value)) }
{
    match piece_of(kind, value) {
        Piece::Text(o) => say_text(alloc, text_at(machine, texts, o), said)?,
        Piece::Number(n) => said.extend_from_slice(Buffer::new().format(n).as_bytes())?,
        Piece::Single(unit) => push_written(&[unit], said)?,
        Piece::Word(word) => said.extend_from_slice(word)?,
    }
    Ok(())
}

/// The event in which an argument is printed, and these bytes behind it: none, or the end of the line.
pub(crate) fn print_event(
    alloc: Global,
    machine: &mut Machine,
    texts: &Texts,
    call: &TextCalled,
    kind: Shown,
    behind: &[u8],
    said: &mut Vec<u8>,
) -> Result<EventEnd, NoMemory>
    requires answers { MayAnswer machine.old texts.now call.now }
    ensures event { IfOk result (λ end. (p : Linked) (out : List Record) →
        AnswersText (methods.Print kind) p call.now end machine.old machine.new
        texts.now texts.now out out) }
    ensures said { OnOk result (said.new.items ≡ said.old.items ++ (written_units
        (shown (spoken texts.now (kept_of machine.old)) kind call.now.argument) ++ behind.now)) }
{
    say(alloc, machine, texts, kind, call.argument, said)?;
    said.extend_from_slice(behind)?;
    Ok(give_nothing(machine, &call.called))
}

/// The event in which the end of a line is printed.
pub(crate) fn end_line_event(
    machine: &mut Machine,
    call: &TextCalled,
    said: &mut Vec<u8>,
) -> Result<EventEnd, NoMemory>
    requires machine { IsReady machine.old }
    requires call { IsCalled machine.old call.now }
    ensures event { IfOk result (λ end. (p : Linked) (x : TextList) (out : List Record) →
        AnswersText methods.EndLine p call.now end machine.old machine.new x x out out) }
    ensures said { OnOk result (said.new.items ≡ said.old.items ++ 10 ∷ []) }
{
    said.push(b'\n')?;
    Ok(give_nothing(machine, &call.called))
}
