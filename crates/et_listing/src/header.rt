//! Lines outside of bodies, and handlers.

ghost use Rattle.std.specs.Prelude.{◌≡◌, ◌<◌};
ghost use Rattle.et_listing.specs.Lines.{class_line_of, interface_of, four_or_six, constant_form, constant_entry, field_form, field_constant, field_of, method_form, method_limits, method_of, caught_class, catch_of, word_at};

use crate::entry::Entry;
use crate::line::{Line, LineFault};
use crate::place::{
    counted, flags, int32, int64, is_word, label, natural, needs, numeral, spelled, word_at,
};
use crate::spelling::is_spelling;
use crate::word::Word;

#[tactic(auto, unfolding(crate::specs::Lines::class_line_of))]
pub(crate) fn class_of<'a>(words: &[Word<'a>]) -> Result<Line<'a>, LineFault>
    ensures { result ≡ class_line_of words.now }
{
    counted(words, 4)?;
    let name = spelled(words, 1)?;
    let super_name = spelled(words, 2)?;
    let flags = flags(words, 3)?;
    Ok(Line::Class(name, super_name, flags))
}

#[tactic(auto, unfolding(crate::specs::Lines::interface_of))]
pub(crate) fn interface_of<'a>(words: &[Word<'a>]) -> Result<Line<'a>, LineFault>
    ensures { result ≡ interface_of words.now }
{
    counted(words, 2)?;
    let name = spelled(words, 1)?;
    Ok(Line::Interface(name))
}

/// The form of a constant at a place: its kind, and a number or a text.
pub(crate) fn constant_form(words: &[Word], i: usize) -> Result<(), LineFault>
    requires { i < 8 }
    ensures { result ≡ constant_form words.now i }
{
    if is_word(words, i, b"int") || is_word(words, i, b"long") {
        return numeral(words, i + 1);
    }
    if is_word(words, i, b"string") {
        return needs(
            is_spelling(word_at(words, i + 1).bytes()),
            LineFault::Operands,
        );
    }
    Err(LineFault::Operands)
}

/// The constant at a place.
pub(crate) fn constant_entry<'a>(words: &[Word<'a>], i: usize) -> Result<Entry<'a>, LineFault>
    requires { i < 8 }
    ensures { result ≡ constant_entry words.now i }
{
    if is_word(words, i, b"int") {
        let value = int32(words, i + 1)?;
        return Ok(Entry::Integer(value));
    }
    if is_word(words, i, b"long") {
        let value = int64(words, i + 1)?;
        return Ok(Entry::Long(value));
    }
    Ok(Entry::Text(word_at(words, i + 1)))
}

fn four_or_six(words: &[Word]) -> Result<(), LineFault>
    ensures { result ≡ four_or_six words.now }
{
    needs(words.len() == 4 || words.len() == 6, LineFault::Operands)
}

fn field_form(words: &[Word]) -> Result<(), LineFault>
    ensures { result ≡ field_form words.now }
{
    if words.len() == 4 {
        return Ok(());
    }
    constant_form(words, 4)
}

fn field_constant<'a>(words: &[Word<'a>]) -> Result<Option<Entry<'a>>, LineFault>
    ensures { result ≡ field_constant words.now }
{
    if words.len() == 4 {
        return Ok(None);
    }
    let entry = constant_entry(words, 4)?;
    Ok(Some(entry))
}

#[tactic(auto, unfolding(crate::specs::Lines::field_of))]
pub(crate) fn field_of<'a>(words: &[Word<'a>]) -> Result<Line<'a>, LineFault>
    ensures { result ≡ field_of words.now }
{
    four_or_six(words)?;
    let name = spelled(words, 1)?;
    let descriptor = spelled(words, 2)?;
    let flags = flags(words, 3)?;
    field_form(words)?;
    let constant = field_constant(words)?;
    Ok(Line::Field(name, descriptor, flags, constant))
}

fn method_form(words: &[Word]) -> Result<(), LineFault>
    ensures { result ≡ method_form words.now }
{
    if words.len() == 4 {
        return Ok(());
    }
    numeral(words, 4)?;
    numeral(words, 5)
}

fn method_limits(words: &[Word]) -> Result<Option<(u16, u16)>, LineFault>
    ensures { result ≡ method_limits words.now }
{
    if words.len() == 4 {
        return Ok(None);
    }
    let stack = natural(words, 4, 0xffff)?;
    let locals = natural(words, 5, 0xffff)?;
    Ok(Some((stack, locals)))
}

#[tactic(auto, unfolding(crate::specs::Lines::method_of))]
pub(crate) fn method_of<'a>(words: &[Word<'a>]) -> Result<Line<'a>, LineFault>
    ensures { result ≡ method_of words.now }
{
    four_or_six(words)?;
    let name = spelled(words, 1)?;
    let descriptor = spelled(words, 2)?;
    let flags = flags(words, 3)?;
    method_form(words)?;
    let limits = method_limits(words)?;
    Ok(Line::Method(name, descriptor, flags, limits))
}

/// The class that a handler catches.
fn caught<'a>(words: &[Word<'a>]) -> Result<Option<Word<'a>>, LineFault>
    ensures { result ≡ caught_class words.now }
{
    if is_word(words, 4, b"*") {
        return Ok(None);
    }
    let name = spelled(words, 4)?;
    Ok(Some(name))
}

#[tactic(auto, unfolding(crate::specs::Lines::catch_of))]
pub(crate) fn catch_of<'a>(words: &[Word<'a>]) -> Result<Line<'a>, LineFault>
    ensures { result ≡ catch_of words.now }
{
    counted(words, 5)?;
    let from = label(words, 1)?;
    let to = label(words, 2)?;
    let handler = label(words, 3)?;
    let class = caught(words)?;
    Ok(Line::Catch(from, to, handler, class))
}
