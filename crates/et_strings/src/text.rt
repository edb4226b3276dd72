//! The text of an object.
ghost use Rattle.std.specs.Prelude.{◌≡◌, ◌≤◌, ◌++◌, All, IfOk, OnOk, length};
ghost use Rattle.std.specs.Map.{values_of};
ghost use Rattle.std.specs.Str.{bytes_eq};
ghost use Rattle.et_event.specs.TextRows.{written_units};
ghost use Rattle.et_state.specs.Spoken.{spoken, text_of};
ghost use Rattle.et_state.specs.State.{kept_of};
ghost use Rattle.et_state.specs.Texts.{longest_text};
ghost use Rattle.et_strings.specs.TextUnits.{unit_numbered, units_in};

use crate::decoding::{count_units, push_units, spell_the_same, spells, unit_at};
use crate::printing::{is_plain, push_written};
use crate::texts::Texts;
use et_base::{NoMemory, ObjectId};
use et_state::Machine;
use std::alloc::Global;

/// A text: that of a constant, as the bytes of modified UTF-8 that it was made of, or one that was made, in units of UTF-16.
#[derive(Clone, Copy)]
pub(crate) enum Text<'a> {
    Constant(&'a [u8]),
    Made(&'a [u16]),
}

/// The text of an object.
pub(crate) fn text_at<'a>(machine: &'a Machine, texts: &'a Texts, o: ObjectId) -> Text<'a>
    requires { All (λ units. length units ≤ longest_text) (values_of texts.now) }
    ensures value { units_in result ≡ text_of (spoken texts.now (kept_of machine.now)) o }
    ensures short { length (units_in result) ≤ longest_text }
{
    match machine.text_of(o) {
        Some(bytes) => Text::Constant(bytes),
        None => Text::Made(texts.get(o)),
    }
}

/// How many units a text has.
pub(crate) fn text_length(text: Text<'_>) -> usize
    ensures { result ≡ length (units_in text.entry) }
{
    match text {
        Text::Constant(bytes) => count_units(bytes),
        Text::Made(units) => units.len(),
    }
}

/// The unit of this number, from 0, of a text; `None` where there is none, behind the last and below 0.
pub(crate) fn text_unit(text: Text<'_>, number: i32) -> Option<u16>
    ensures { result ≡ unit_numbered (units_in text.entry) number }
{
    let index = usize::try_from(number).ok()?;
    match text {
        Text::Constant(bytes) => unit_at(bytes, index),
        Text::Made(units) => units.get(index).copied(),
    }
}

/// Puts the units of a text at the end of a vector.
pub(crate) fn push_text(text: Text<'_>, units: &mut Vec<u16>) -> Result<(), NoMemory>
    ensures { OnOk result (units.new.items ≡ units.old.items ++ units_in text.entry) }
{
    match text {
        Text::Constant(bytes) => push_units(bytes, units)?,
        Text::Made(own) => units.extend_from_slice(own)?,
    }
    Ok(())
}

/// The units of a text, in a vector of their own.
pub(crate) fn copied(alloc: Global, text: Text<'_>) -> Result<Vec<u16>, NoMemory>
    ensures { IfOk result (λ units. units.items ≡ units_in text.entry) }
{
    let mut units = Vec::new(alloc);
    push_text(text, &mut units)?;
    Ok(units)
}

/// Whether two texts have the same units.
pub(crate) fn are_same(a: Text<'_>, b: Text<'_>) -> bool
    ensures { result ≡ bytes_eq (units_in a.entry) (units_in b.entry) }
{
    match (a, b) {
        (Text::Made(a), Text::Made(b)) => a == b,
        (Text::Constant(a), Text::Made(b)) => spells(a, b),
        (Text::Made(a), Text::Constant(b)) => spells(b, a),
        (Text::Constant(a), Text::Constant(b)) => spell_the_same(a, b),
    }
}

/// Writes a text at the end of bytes. A constant of ASCII is written as it stands.
pub(crate) fn say_text(alloc: Global, text: Text<'_>, said: &mut Vec<u8>) -> Result<(), NoMemory>
    ensures { OnOk result (said.new.items ≡ said.old.items ++ written_units (units_in text.entry)) }
{
    match text {
        Text::Constant(bytes) if is_plain(bytes) => said.extend_from_slice(bytes)?,
        Text::Constant(_) => push_written(copied(alloc, text)?.as_slice(), said)?,
        Text::Made(units) => push_written(units, said)?,
    }
    Ok(())
}
