//! Spellings of names, descriptors and texts.

ghost use Rattle.std.specs.Prelude.{◌≡◌, ◌++◌, [], ◌∷◌, ◌<◌, ◌≤◌, ◌+◌, length, drop, OnOk};
ghost use Rattle.et_listing.specs.Words.{is_spelled_out, is_escape, spelled_len, is_spelling, unescaped};

use crate::operand::{hex, is_upper_hex};
use std::alloc::AllocError;

/// Whether a byte has a spelling of three bytes.
fn is_spelled_out(b: u8) -> bool
    ensures { result ≡ is_spelled_out b }
{
    b <= 32 || b == b'%' || 127 <= b
}

/// Whether a `%` and these digits spell a byte.
fn is_escape(d: u8, e: u8) -> bool
    ensures { result ≡ is_escape d e }
{
    is_upper_hex(d) && is_upper_hex(e) && is_spelled_out(hex(d) * 16 + hex(e))
}

/// How many bytes spell the byte whose spelling begins at a place, or 0 where none does.
fn spelled_at(word: &[u8], i: usize) -> usize
    requires { i < length word.now }
    ensures { result ≡ spelled_len (drop i word.now) }
{
    if word[i] != b'%' {
        return if is_spelled_out(word[i]) { 0 } else { 1 };
    }
    if word.len() - i < 3 || !is_escape(word[i + 1], word[i + 2]) {
        return 0;
    }
    3
}

/// Whether a word spells a name, a descriptor or a text.
pub(crate) fn is_spelling(word: &[u8]) -> bool
    ensures { result ≡ is_spelling word.now }
{
    let mut i = 0;
    while i < word.len() {
        let size = spelled_at(word, i);
        if size == 0 {
            return false;
        }
        i += size;
    }
    true
}

/// The byte whose spelling begins at a place, and how many bytes spell it.
fn byte_at(word: &[u8], i: usize) -> (u8, usize)
    requires { i < length word.now }
    ensures byte { unescaped (drop i word.now)
        ≡ result.0 ∷ unescaped (drop (i + result.1) word.now) }
    ensures some { 0 < result.1 }
    ensures within { i + result.1 ≤ length word.now }
{
    if word[i] == b'%' && 3 <= word.len() - i {
        return (hex(word[i + 1]) * 16 + hex(word[i + 2]), 3);
    }
    (word[i], 1)
}

/// Appends the bytes that a word spells.
pub fn put_text(out: &mut Vec<u8>, word: &[u8]) -> Result<(), AllocError>
    ensures { OnOk result (out.new.items ≡ out.old.items ++ unescaped word.now) }
{
    let mut i = 0;
    while i < word.len() {
        let (byte, size) = byte_at(word, i);
        out.push(byte)?;
        i += size;
    }
    Ok(())
}

/// How many bytes a word spells.
pub fn text_len(word: &[u8]) -> usize
    ensures { result ≡ length (unescaped word.now) }
{
    let mut count = 0;
    let mut i = 0;
    while i < word.len() {
        let (_, size) = byte_at(word, i);
        i += size;
        count += 1;
    }
    count
}
