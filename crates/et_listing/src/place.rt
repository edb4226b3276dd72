//! Words of a line by their places.

ghost use Rattle.std.specs.Prelude.{◌≡◌, ◌≤◌, IfOk, ◌≤ℤ◌};
ghost use Rattle.et_listing.specs.Words.{same_word};
ghost use Rattle.et_listing.specs.Lines.{word_at, needs, counted_words, spelled_word, label, flags, numeral, natural_word, integer, int32, int64};

use crate::line::LineFault;
use crate::operand;
use crate::spelling::is_spelling;
use crate::word::Word;

/// The word at a place, or an empty one behind the last.
pub(crate) fn word_at<'a>(words: &[Word<'a>], i: usize) -> Word<'a>
    ensures { result ≡ word_at words.now i }
{
    if i < words.len() {
        words[i].copy()
    } else {
        Word::new(&[])
    }
}

pub(crate) fn is_word(words: &[Word], i: usize, text: &[u8]) -> bool
    ensures { result ≡ same_word (word_at words.now i) text.now }
{
    word_at(words, i).bytes() == text
}

pub(crate) fn needs(holds: bool, fault: LineFault) -> Result<(), LineFault>
    ensures { result ≡ needs holds fault }
{
    if holds { Ok(()) } else { Err(fault) }
}

pub(crate) fn counted(words: &[Word], n: usize) -> Result<(), LineFault>
    ensures { result ≡ counted_words words.now n }
{
    needs(words.len() == n, LineFault::Operands)
}

pub(crate) fn spelled<'a>(words: &[Word<'a>], i: usize) -> Result<Word<'a>, LineFault>
    ensures { result ≡ spelled_word words.now i }
{
    let word = word_at(words, i);
    if is_spelling(word.bytes()) {
        Ok(word)
    } else {
        Err(LineFault::Operands)
    }
}

pub(crate) fn label<'a>(words: &[Word<'a>], i: usize) -> Result<Word<'a>, LineFault>
    ensures { result ≡ label words.now i }
{
    let word = word_at(words, i);
    if operand::is_label(word.bytes()) {
        Ok(word)
    } else {
        Err(LineFault::Operands)
    }
}

pub(crate) fn flags(words: &[Word], i: usize) -> Result<u16, LineFault>
    ensures { result ≡ flags words.now i }
{
    let word = word_at(words, i);
    if operand::is_flags(word.bytes()) {
        Ok(operand::flags_of(word.bytes()))
    } else {
        Err(LineFault::Operands)
    }
}

pub(crate) fn numeral(words: &[Word], i: usize) -> Result<(), LineFault>
    ensures { result ≡ numeral words.now i }
{
    needs(
        operand::is_numeral(word_at(words, i).bytes()),
        LineFault::Operands,
    )
}

pub(crate) fn natural(words: &[Word], i: usize, high: u16) -> Result<u16, LineFault>
    ensures value { result ≡ natural_word words.now i high }
    ensures bound { IfOk result (λ n. n ≤ high) }
{
    operand::natural(word_at(words, i).bytes(), high).ok_or(LineFault::Number)
}

pub(crate) fn integer(words: &[Word], i: usize, low: i64, high: i64) -> Result<i64, LineFault>
    ensures value { result ≡ integer words.now i low high }
    ensures bounds { IfOk result (λ n. (low ≤ℤ n) × (n ≤ℤ high)) }
{
    operand::integer(word_at(words, i).bytes(), low, high).ok_or(LineFault::Number)
}

pub(crate) fn int32(words: &[Word], i: usize) -> Result<i32, LineFault>
    ensures { result ≡ int32 words.now i }
{
    let value = integer(words, i, i32::MIN as i64, i32::MAX as i64)?;
    Ok(value as i32)
}

pub(crate) fn int64(words: &[Word], i: usize) -> Result<i64, LineFault>
    ensures { result ≡ int64 words.now i }
{
    integer(words, i, i64::MIN, i64::MAX)
}
