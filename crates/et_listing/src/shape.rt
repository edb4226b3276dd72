//! Instructions by the shapes of their operands.

ghost use Rattle.std.specs.Prelude.{◌≡◌, ◌<◌, ◌≤◌, ◌-◌, length, take, drop};
ghost use Rattle.std.specs.List.{list_all};
ghost use Rattle.et_listing.specs.Words.{is_label, is_int32};
ghost use Rattle.et_listing.specs.Lines.{word_at, bipush_of, sipush_of, load_of, long_load_of, local_word, increment_of, branch_of, member, field_access_of, virtual_call_of, direct_interface_call_of, direct_call_of, interface_call_of, type_of, base_type, base_array_of, array_of, default_label, ends_default, table_labels, table_fits, table_of, lookup_words, pairs, is_word_pair, lookup_of, shaped};

use crate::entry::Entry;
use crate::header::{constant_entry, constant_form};
use crate::instruction::Instruction;
use crate::line::LineFault;
use crate::mnemonic::Shape;
use crate::operand;
use crate::place::{
    counted, int32, int64, integer, is_word, label, natural, needs, numeral, spelled, word_at,
};
use crate::word::{Word, Words};

fn bipush_of<'a>(words: &[Word<'a>], opcode: u8) -> Result<Instruction<'a>, LineFault>
    ensures { result ≡ bipush_of words.now opcode }
{
    counted(words, 2)?;
    numeral(words, 1)?;
    let value = integer(words, 1, -128, 127)?;
    Ok(Instruction::Byte(opcode, (value as i8).cast_unsigned()))
}

fn sipush_of<'a>(words: &[Word<'a>], opcode: u8) -> Result<Instruction<'a>, LineFault>
    ensures { result ≡ sipush_of words.now opcode }
{
    counted(words, 2)?;
    numeral(words, 1)?;
    let value = integer(words, 1, -32768, 32767)?;
    Ok(Instruction::Short(opcode, (value as i16).cast_unsigned()))
}

fn load_of<'a>(words: &[Word<'a>]) -> Result<Instruction<'a>, LineFault>
    ensures { result ≡ load_of words.now }
{
    counted(words, 3)?;
    needs(!is_word(words, 1, b"long"), LineFault::Operands)?;
    constant_form(words, 1)?;
    let entry = constant_entry(words, 1)?;
    Ok(Instruction::Load(entry))
}

fn long_load_of<'a>(words: &[Word<'a>], opcode: u8) -> Result<Instruction<'a>, LineFault>
    ensures { result ≡ long_load_of words.now opcode }
{
    counted(words, 2)?;
    numeral(words, 1)?;
    let value = int64(words, 1)?;
    Ok(Instruction::Pool(opcode, Entry::Long(value)))
}

fn local_of<'a>(words: &[Word<'a>], opcode: u8) -> Result<Instruction<'a>, LineFault>
    ensures { result ≡ local_word words.now opcode }
{
    counted(words, 2)?;
    numeral(words, 1)?;
    let local = natural(words, 1, 0xffff)?;
    Ok(Instruction::Local(opcode, local))
}

fn increment_of<'a>(words: &[Word<'a>]) -> Result<Instruction<'a>, LineFault>
    ensures { result ≡ increment_of words.now }
{
    counted(words, 3)?;
    numeral(words, 1)?;
    numeral(words, 2)?;
    let local = natural(words, 1, 0xffff)?;
    let constant = integer(words, 2, -32768, 32767)?;
    Ok(Instruction::Increment(local, constant as i16))
}

fn branch_of<'a>(words: &[Word<'a>], opcode: u8) -> Result<Instruction<'a>, LineFault>
    ensures { result ≡ branch_of words.now opcode }
{
    counted(words, 2)?;
    let target = label(words, 1)?;
    Ok(Instruction::Branch(opcode, target))
}

/// A class, a name and a descriptor from a place on.
fn member<'a>(words: &[Word<'a>], i: usize) -> Result<(Word<'a>, Word<'a>, Word<'a>), LineFault>
    requires { i < 8 }
    ensures { result ≡ member words.now i }
{
    let class = spelled(words, i)?;
    let name = spelled(words, i + 1)?;
    let descriptor = spelled(words, i + 2)?;
    Ok((class, name, descriptor))
}

fn field_access_of<'a>(words: &[Word<'a>], opcode: u8) -> Result<Instruction<'a>, LineFault>
    ensures { result ≡ field_access_of words.now opcode }
{
    counted(words, 4)?;
    let (class, name, descriptor) = member(words, 1)?;
    Ok(Instruction::Pool(opcode, Entry::Field(class, name, descriptor)))
}

fn virtual_call_of<'a>(words: &[Word<'a>], opcode: u8) -> Result<Instruction<'a>, LineFault>
    ensures { result ≡ virtual_call_of words.now opcode }
{
    counted(words, 4)?;
    let (class, name, descriptor) = member(words, 1)?;
    Ok(Instruction::Pool(opcode, Entry::Method(class, name, descriptor)))
}

/// A call of a method of an interface, behind the word `interface`.
fn direct_interface_call_of<'a>(
    words: &[Word<'a>],
    opcode: u8,
) -> Result<Instruction<'a>, LineFault>
    ensures { result ≡ direct_interface_call_of words.now opcode }
{
    let (class, name, descriptor) = member(words, 2)?;
    Ok(Instruction::Pool(opcode, Entry::InterfaceMethod(class, name, descriptor)))
}

fn direct_call_of<'a>(words: &[Word<'a>], opcode: u8) -> Result<Instruction<'a>, LineFault>
    ensures { result ≡ direct_call_of words.now opcode }
{
    if words.len() == 5 && is_word(words, 1, b"interface") {
        return direct_interface_call_of(words, opcode);
    }
    virtual_call_of(words, opcode)
}

fn interface_call_of<'a>(words: &[Word<'a>]) -> Result<Instruction<'a>, LineFault>
    ensures { result ≡ interface_call_of words.now }
{
    counted(words, 4)?;
    let (class, name, descriptor) = member(words, 1)?;
    Ok(Instruction::Interface(class, name, descriptor))
}

fn type_of<'a>(words: &[Word<'a>], opcode: u8) -> Result<Instruction<'a>, LineFault>
    ensures { result ≡ type_of words.now opcode }
{
    counted(words, 2)?;
    let class = spelled(words, 1)?;
    Ok(Instruction::Pool(opcode, Entry::Class(class)))
}

/// The kind of an array of a base type.
fn base_type(words: &[Word]) -> Option<u8>
    ensures { result ≡ base_type (word_at words.now 1) }
{
    if is_word(words, 1, b"boolean") {
        return Some(4);
    }
    if is_word(words, 1, b"char") {
        return Some(5);
    }
    if is_word(words, 1, b"float") {
        return Some(6);
    }
    if is_word(words, 1, b"double") {
        return Some(7);
    }
    if is_word(words, 1, b"byte") {
        return Some(8);
    }
    if is_word(words, 1, b"short") {
        return Some(9);
    }
    if is_word(words, 1, b"int") {
        return Some(10);
    }
    if is_word(words, 1, b"long") {
        return Some(11);
    }
    None
}

fn base_array_of<'a>(words: &[Word<'a>], opcode: u8) -> Result<Instruction<'a>, LineFault>
    ensures { result ≡ base_array_of words.now opcode }
{
    counted(words, 2)?;
    match base_type(words) {
        None => Err(LineFault::Operands),
        Some(kind) => Ok(Instruction::Byte(opcode, kind)),
    }
}

fn array_of<'a>(words: &[Word<'a>]) -> Result<Instruction<'a>, LineFault>
    ensures { result ≡ array_of words.now }
{
    counted(words, 3)?;
    let class = spelled(words, 1)?;
    numeral(words, 2)?;
    let dimensions = natural(words, 2, 0xff)?;
    Ok(Instruction::Array(class, dimensions as u8))
}

/// The label behind `default`.
fn default_label<'a>(words: &[Word<'a>]) -> Word<'a>
    ensures { result ≡ default_label words.now }
{
    word_at(words, words.len().saturating_sub(1))
}

/// Whether the operands of a switch end with `default` and a label, behind one or more.
fn ends_default(words: &[Word]) -> bool
    ensures { result ≡ ends_default words.now }
{
    5 <= words.len()
        && is_word(words, words.len() - 2, b"default")
        && operand::is_label(default_label(words).bytes())
}

/// The labels of a `tableswitch`.
fn table_labels<'b, 'a>(words: &'b [Word<'a>]) -> &'b [Word<'a>]
    requires { 4 ≤ length words.now }
    ensures { result.now ≡ table_labels words.now }
{
    &words[2..words.len() - 2]
}

fn are_labels(words: &[Word]) -> bool
    ensures { result ≡ list_all is_label words.now }
{
    words.iter().all(|word| operand::is_label(word.bytes()))
}

fn table_fits<'a>(words: &'a [Word<'a>], low: i32) -> Result<Instruction<'a>, LineFault>
    requires { 4 ≤ length words.now }
    ensures { result ≡ table_fits words.now low }
{
    if low as i64 + words.len().saturating_sub(5) as i64 > i32::MAX as i64 {
        return Err(LineFault::Number);
    }
    let labels = Words::new(table_labels(words));
    Ok(Instruction::Table(low, labels, default_label(words)))
}

fn table_of<'a>(words: &'a [Word<'a>]) -> Result<Instruction<'a>, LineFault>
    ensures { result ≡ table_of words.now }
{
    if !ends_default(words) {
        return Err(LineFault::Operands);
    }
    needs(are_labels(table_labels(words)), LineFault::Operands)?;
    numeral(words, 1)?;
    let low = int32(words, 1)?;
    table_fits(words, low)
}

/// The operands of a `lookupswitch` before `default`.
fn lookup_words<'b, 'a>(words: &'b [Word<'a>]) -> &'b [Word<'a>]
    requires { 3 ≤ length words.now }
    ensures { result.now ≡ lookup_words words.now }
{
    &words[1..words.len() - 2]
}

fn is_pair(number: &Word, target: &Word) -> bool
    ensures { result ≡ is_word_pair (number.now, target.now) }
{
    operand::is_numeral(number.bytes()) && operand::is_label(target.bytes())
}

/// Whether words two by two are numbers and labels.
fn are_pairs(words: &[Word]) -> bool
    ensures { result ≡ list_all is_word_pair (pairs words.now) }
{
    let mut rest = words;
    while let [number, target, more @ ..] = rest {
        if !is_pair(number, target) {
            return false;
        }
        rest = more;
    }
    true
}

fn is_int32(word: &Word) -> bool
    ensures { result ≡ is_int32 word.now }
{
    operand::int32_of(word.bytes()).is_some()
}

/// Whether of words two by two the numbers fit 32 bits.
fn keys_fit(words: &[Word]) -> bool
    ensures { result ≡ list_all (λ p. is_int32 p.0) (pairs words.now) }
{
    let mut rest = words;
    while let [number, _, more @ ..] = rest {
        if !is_int32(number) {
            return false;
        }
        rest = more;
    }
    true
}

fn lookup_of<'a>(words: &'a [Word<'a>]) -> Result<Instruction<'a>, LineFault>
    ensures { result ≡ lookup_of words.now }
{
    if !ends_default(words) || words.len() % 2 != 1 {
        return Err(LineFault::Operands);
    }
    let operands = lookup_words(words);
    needs(are_pairs(operands), LineFault::Operands)?;
    needs(keys_fit(operands), LineFault::Number)?;
    Ok(Instruction::Lookup(Words::new(operands), default_label(words)))
}

fn plain_of<'a>(words: &[Word<'a>], opcode: u8) -> Result<Instruction<'a>, LineFault>
    ensures { result ≡ shaped words.now opcode Shape.Plain }
{
    counted(words, 1)?;
    Ok(Instruction::Plain(opcode))
}

/// The instruction of an opcode, whose operands have this shape.
pub(crate) fn shaped<'a>(
    words: &'a [Word<'a>],
    opcode: u8,
    shape: Shape,
) -> Result<Instruction<'a>, LineFault>
    ensures { result ≡ shaped words.now opcode shape }
{
    match shape {
        Shape::Plain => plain_of(words, opcode),
        Shape::Byte => bipush_of(words, opcode),
        Shape::Short => sipush_of(words, opcode),
        Shape::Load => load_of(words),
        Shape::LongLoad => long_load_of(words, opcode),
        Shape::Local => local_of(words, opcode),
        Shape::Increment => increment_of(words),
        Shape::Branch => branch_of(words, opcode),
        Shape::Field => field_access_of(words, opcode),
        Shape::Virtual => virtual_call_of(words, opcode),
        Shape::Direct => direct_call_of(words, opcode),
        Shape::Interface => interface_call_of(words),
        Shape::Type => type_of(words, opcode),
        Shape::BaseArray => base_array_of(words, opcode),
        Shape::Array => array_of(words),
        Shape::Table => table_of(words),
        Shape::Lookup => lookup_of(words),
        Shape::Refused => Err(LineFault::Word),
    }
}
