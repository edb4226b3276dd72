//! Lines and words of a listing.

ghost use Rattle.std.specs.Prelude.{◌≡◌, ◌++◌, [], ◌∷◌, filter, map, IfOk, OnOk};
ghost use Rattle.et_listing.specs.Words.{words, lines, is_some_text};

use crate::word::{LineWords, Word};
use std::alloc::{AllocError, Global};

/// Appends a word that isn't empty.
fn push_some<'a>(words: &mut Vec<Word<'a>>, word: Word<'a>) -> Result<(), AllocError>
    ensures { OnOk result
        (words.new.items ≡ words.old.items ++ filter is_some_text (word.entry ∷ [])) }
{
    if !word.bytes().is_empty() {
        words.push(word)?;
    }
    Ok(())
}

/// The words of a line: what stands between spaces.
pub(crate) fn words_of<'a>(alloc: Global, line: &'a [u8]) -> Result<Vec<Word<'a>>, AllocError>
    ensures { IfOk result (λ found. found.items ≡ words line.now) }
{
    let mut words = Vec::new(alloc);
    let mut start = 0;
    for i in 0..line.len() {
        if line[i] != b' ' {
            continue;
        }
        push_some(&mut words, Word::new(&line[start..i]))?;
        start = i + 1;
    }
    push_some(&mut words, Word::new(&line[start..]))?;
    Ok(words)
}

/// The lines of a text.
fn lines_of<'a>(alloc: Global, text: &'a [u8]) -> Result<Vec<Word<'a>>, AllocError>
    ensures { IfOk result (λ found. found.items ≡ lines text.now) }
{
    let mut lines = Vec::new(alloc);
    let mut start = 0;
    for i in 0..text.len() {
        if text[i] != b'\n' {
            continue;
        }
        lines.push(Word::new(&text[start..i]))?;
        start = i + 1;
    }
    push_some(&mut lines, Word::new(&text[start..]))?;
    Ok(lines)
}

/// The words of each line of a text.
pub fn words_of_lines<'a>(alloc: Global, text: &'a [u8]) -> Result<Vec<LineWords<'a>>, AllocError>
    ensures { IfOk result (λ found. found.items ≡ map words (lines text.now)) }
{
    let lines = lines_of(alloc, text)?;
    let mut found = Vec::new(alloc);
    for line in &lines {
        found.push(LineWords::new(words_of(alloc, line.bytes())?))?;
    }
    Ok(found)
}
