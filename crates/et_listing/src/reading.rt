//! What lines say.

ghost use Rattle.std.specs.Prelude.{◌≡◌, ◌-◌, ◌==◌, map, length, take, position, IfOk, Some, None, if◌then◌else◌};
ghost use Rattle.et_listing.specs.Words.{is_label_line, same_word};
ghost use Rattle.et_listing.specs.Mnemonics.{mnemonics};
ghost use Rattle.et_listing.specs.Lines.{word_at, with_mnemonic, said, is_silent, parsed_of};

use crate::header::{catch_of, class_of, field_of, interface_of, method_of};
use crate::line::{Line, LineFault, Parsed};
use crate::mnemonic::{mnemonics, opcode_of, operands_of};
use crate::operand;
use crate::place::{is_word, word_at};
use crate::shape::shaped;
use crate::word::{LineWords, Word};
use indexmap::IndexSet;
use std::alloc::{AllocError, Global};

/// The instruction of an opcode.
#[tactic(auto, using(crate::proofs::Shapes::shape_past))]
fn with_opcode<'a>(words: &'a [Word<'a>], opcode: usize) -> Result<Line<'a>, LineFault>
    ensures { result ≡ with_mnemonic words.now (Some opcode) }
{
    let Ok(opcode) = u8::try_from(opcode) else {
        return Err(LineFault::Word);
    };
    let instruction = shaped(words, opcode, operands_of(opcode))?;
    Ok(Line::Instruction(instruction))
}

/// The instruction of a mnemonic.
fn instruction_of<'a>(
    names: &IndexSet<Word<'a>>,
    words: &'a [Word<'a>],
) -> Result<Line<'a>, LineFault>
    requires { names.now.keys ≡ mnemonics }
    ensures { result
        ≡ with_mnemonic words.now (position (λ name. same_word (word_at words.now 0) name)
        mnemonics) }
{
    match opcode_of(names, &word_at(words, 0)) {
        None => Err(LineFault::Word),
        Some(opcode) => with_opcode(words, opcode),
    }
}

#[tactic(auto, unfolding(crate::specs::Lines::said))]
fn said<'a>(names: &IndexSet<Word<'a>>, words: &'a [Word<'a>]) -> Result<Line<'a>, LineFault>
    requires { names.now.keys ≡ mnemonics }
    ensures { result ≡ said words.now }
{
    if is_word(words, 0, b"class") {
        return class_of(words);
    }
    if is_word(words, 0, b"interface") {
        return interface_of(words);
    }
    if is_word(words, 0, b"field") {
        return field_of(words);
    }
    if is_word(words, 0, b"method") {
        return method_of(words);
    }
    if is_word(words, 0, b"catch") {
        return catch_of(words);
    }
    instruction_of(names, words)
}

/// Whether a line says nothing.
fn is_silent(words: &[Word]) -> bool
    ensures { result ≡ is_silent words.now }
{
    if words.is_empty() {
        return true;
    }
    let first = word_at(words, 0);
    first.bytes().first().copied() == Some(b'#')
}

/// The label of a label line.
fn label_of<'a>(words: &[Word<'a>]) -> Option<Word<'a>>
    ensures { result ≡ (if is_label_line (word_at words.now 0) then Some
        (take (length (word_at words.now 0) - 1) (word_at words.now 0)) else None) }
{
    let bytes = word_at(words, 0).bytes();
    if bytes.is_empty() || bytes[bytes.len() - 1] != b':' {
        return None;
    }
    let name = &bytes[..bytes.len() - 1];
    if operand::is_label(name) {
        Some(Word::new(name))
    } else {
        None
    }
}

/// The fault of a line that should have one word.
fn alone(words: &[Word]) -> Option<LineFault>
    ensures { result ≡ (if length words.now == 1 then None else Some LineFault.Operands) }
{
    if words.len() == 1 {
        None
    } else {
        Some(LineFault::Operands)
    }
}

/// What the words of a line say, and what is wrong with it.
#[tactic(auto, unfolding(crate::specs::Lines::parsed_of))]
fn parsed<'a>(names: &IndexSet<Word<'a>>, words: &'a [Word<'a>]) -> Parsed<'a>
    requires { names.now.keys ≡ mnemonics }
    ensures { result ≡ parsed_of words.now }
{
    if is_silent(words) {
        return Parsed {
            line: Line::Blank,
            fault: None,
        };
    }
    if is_word(words, 0, b"end") {
        return Parsed {
            line: Line::End,
            fault: alone(words),
        };
    }
    if let Some(name) = label_of(words) {
        return Parsed {
            line: Line::Label(name),
            fault: alone(words),
        };
    }
    match said(names, words) {
        Ok(line) => Parsed { line, fault: None },
        Err(fault) => Parsed {
            line: Line::Blank,
            fault: Some(fault),
        },
    }
}

/// What each line of a listing says, by its words, and what is wrong with it by itself.
pub fn parsed_lines<'b, 'a: 'b>(
    alloc: Global,
    lines: &'b [LineWords<'a>],
) -> Result<Vec<Parsed<'b>>, AllocError>
    ensures { IfOk result (λ found. found.items ≡ map parsed_of lines.now) }
{
    let names = mnemonics(alloc)?;
    let mut found = Vec::new(alloc);
    for words in lines {
        found.push(parsed(&names, words.as_slice()))?;
    }
    Ok(found)
}
