//! Numbers on the command line.
ghost use Rattle.std.specs.Prelude.{◌≡◌, ◌≤◌, ◌<◌, ◌==◌, true, nat_le, length, map, All, IfSome, IfOk, Some, None, if◌then◌else◌};
ghost use Rattle.et_command.specs.Numbers.{is_number, spelled_number, number_within, each, numbers};
ghost use Rattle.et_base.specs.Digits.{is_digit};
ghost use Rattle.std.specs.List.{list_all, slice_split};

use et_base::{NoMemory, WordList};
use std::alloc::{AllocError, Global};

/// A number has at most so many digits.
const MOST_DIGITS: usize = 20;

/// A schedule has at most so many words.
const MOST_WORDS: usize = 1_024;

/// The greatest word of a schedule.
const GREATEST_WORD: u64 = 63;

fn is_digit(byte: u8) -> bool
    ensures { result ≡ is_digit byte }
{
    b'0' <= byte && byte <= b'9'
}

/// Whether each byte is a digit.
fn are_digits(text: &[u8]) -> bool
    ensures { result ≡ list_all is_digit text.now }
{
    text.iter().all(|byte| is_digit(*byte))
}

/// Whether the text is 1 to 20 decimal digits.
fn is_number(text: &[u8]) -> bool
    ensures { result ≡ is_number text.now }
{
    if text.is_empty() || text.len() > MOST_DIGITS {
        return false;
    }
    are_digits(text)
}

/// The number that the digits spell, unless it is above this one.
#[tactic(auto, using(crate::proofs::NumberLemmas::too_big))]
fn spelled(digits: &[u8], high: u64) -> Option<u64>
    requires { list_all is_digit digits.now ≡ true }
    ensures { result
        ≡ (if nat_le (spelled_number digits.now) high then Some (spelled_number digits.now) else
        None) }
{
    let mut number: u128 = 0;
    'digits: for digit in digits {
        number = number * 10 + u128::from(*digit - b'0');
        if number > u128::from(high) {
            return None;
        }
    }
    Some(number as u64)
}

/// The number that the text spells, where it is in the range.
pub fn number(text: &[u8], low: u64, high: u64) -> Option<u64>
    ensures number { result ≡ number_within low high text.now }
    ensures range { IfSome result (λ n. (low ≤ n) × (n ≤ high)) }
{
    if !is_number(text) {
        return None;
    }
    match spelled(text, high) {
        Some(number) if number >= low => Some(number),
        _ => None,
    }
}

/// The pieces of a text between commas.
fn pieces(alloc: Global, text: &[u8]) -> Result<Vec<&[u8]>, AllocError>
    ensures { IfOk result (λ pieces.
        map (λ piece. piece.now) pieces.items ≡ slice_split (λ byte. byte == 44) text.now) }
{
    text.split(|byte| *byte == b',').collect(alloc)
}

/// The numbers of at most 63 that the pieces spell.
#[tactic(auto, using(crate::proofs::NumberLemmas::each_next))]
fn each_number(alloc: Global, pieces: &[&[u8]]) -> Result<Option<WordList>, NoMemory>
    ensures numbers { IfOk result
        (λ words. words ≡ each (map (λ piece. number_within 0 63 piece.now) pieces.now)) }
    ensures count { IfOk result (λ words. IfSome words (λ list. length list ≡ length pieces.now)) }
    ensures range { IfOk result (λ words. IfSome words (λ list. All (λ word. word < 64) list)) }
{
    let mut words = WordList::begin(alloc);
    'pieces: for piece in pieces {
        match number(piece, 0, GREATEST_WORD) {
            Some(word) => words.push(word as u8)?,
            None => return Ok(None),
        }
    }
    Ok(Some(words))
}

/// The words of a schedule: 1 to 1,024 numbers of at most 63, with commas between.
#[tactic(auto, using(crate::proofs::NumberLemmas::shown, crate::proofs::NumberLemmas::shown_length, crate::proofs::NumberLemmas::some_pieces))]
pub fn numbers(alloc: Global, text: &[u8]) -> Result<Option<WordList>, NoMemory>
    ensures numbers { IfOk result (λ words. words ≡ numbers text.now) }
    ensures range { IfOk result (λ words. IfSome words
        (λ list. (1 ≤ length list) × (length list ≤ 1024) × All (λ word. word < 64) list)) }
{
    let pieces = pieces(alloc, text)?;
    if pieces.len() > MOST_WORDS {
        return Ok(None);
    }
    each_number(alloc, &pieces)
}
