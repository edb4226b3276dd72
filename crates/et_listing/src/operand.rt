//! Words that are operands.

ghost use Rattle.std.specs.Prelude.{◌≡◌, ℕ, ◌+◌, ◌-◌, ◌*◌, ◌<◌, ◌≤◌, ◌^◌, min, true, length, drop, neg_ℤ, pos, nat_le, if◌then◌else◌, Some, None, unsigned_abs};
ghost use Rattle.std.specs.List.{list_all};
ghost use Rattle.et_listing.specs.Words.{is_some_text, is_upper_hex, is_lower_hex, hex, is_letter, is_label_byte, is_label, is_label_line, is_negative, digits, is_numeral, magnitude, is_hex, is_flags, flags_of_words, value, is_natural_in, is_integer_in, is_int32, signed};
ghost use Rattle.et_base.specs.Digits.{is_digit};

pub(crate) fn is_digit(c: u8) -> bool
    ensures { result ≡ is_digit c }
{
    48 <= c && c <= 57
}

pub(crate) fn is_upper_hex(c: u8) -> bool
    ensures { result ≡ is_upper_hex c }
{
    is_digit(c) || (65 <= c && c <= 70)
}

fn is_hex(c: u8) -> bool
    ensures { result ≡ is_hex c }
{
    is_upper_hex(c) || (97 <= c && c <= 102)
}

/// The value of a hexadecimal digit, and 0 of other bytes.
pub(crate) fn hex(c: u8) -> u8
    ensures value { result ≡ hex c }
    ensures small { result < 16 }
{
    match c {
        97..=102 => c - 87,
        65..=70 => c - 55,
        48..=57 => c - 48,
        _ => 0,
    }
}

fn is_label_byte(c: u8) -> bool
    ensures { result ≡ is_label_byte c }
{
    (65 <= c && c <= 90) || (97 <= c && c <= 122) || is_digit(c)
}

fn are_label_bytes(word: &[u8]) -> bool
    ensures { result ≡ list_all is_label_byte word.now }
{
    word.iter().all(|c| is_label_byte(*c))
}

/// Whether a word is a label.
pub(crate) fn is_label(word: &[u8]) -> bool
    ensures { result ≡ is_label word.now }
{
    !word.is_empty() && are_label_bytes(word)
}

fn are_digits(word: &[u8]) -> bool
    ensures { result ≡ list_all is_digit word.now }
{
    word.iter().all(|c| is_digit(*c))
}

fn are_hex(word: &[u8]) -> bool
    ensures { result ≡ list_all is_hex word.now }
{
    word.iter().all(|c| is_hex(*c))
}

/// Whether a word is a number.
pub(crate) fn is_numeral(word: &[u8]) -> bool
    ensures { result ≡ is_numeral word.now }
{
    let digits = digits(word);
    !digits.is_empty() && are_digits(digits)
}

fn is_negative(word: &[u8]) -> bool
    ensures { result ≡ is_negative word.now }
{
    !word.is_empty() && word[0] == b'-'
}

/// The digits of a number.
fn digits(word: &[u8]) -> &[u8]
    ensures { result.now ≡ digits word.now }
{
    if is_negative(word) { &word[1..] } else { word }
}

/// The value of digits, or the greatest number of 64 bits where it is above that.
fn magnitude(digits: &[u8]) -> u64
    ensures { result ≡ min (magnitude digits.now) (2 ^ 64 - 1) }
{
    let mut value: u64 = 0;
    for digit in digits {
        value = value
            .saturating_mul(10)
            .saturating_add(digit.saturating_sub(48) as u64);
    }
    value
}

/// Whether a word is the flags of a class, a field or a method.
pub(crate) fn is_flags(word: &[u8]) -> bool
    ensures { result ≡ is_flags word.now }
{
    word.len() == 4 && are_hex(word)
}

/// The value of four hexadecimal digits.
pub(crate) fn flags_of(word: &[u8]) -> u16
    requires { is_flags word.now ≡ true }
    ensures { result ≡ flags_of_words word.now }
{
    hex(word[0]) as u16 * 4096
        + hex(word[1]) as u16 * 256
        + hex(word[2]) as u16 * 16
        + hex(word[3]) as u16
}

/// The value of a number, where it isn't negative and at most `high`.
pub(crate) fn natural(word: &[u8], high: u16) -> Option<u16>
    ensures { result
        ≡ (if is_natural_in high word.now then Some (unsigned_abs (value word.now)) else None) }
{
    let size = magnitude(digits(word));
    if (high as u64) < size || (is_negative(word) && size != 0) {
        return None;
    }
    Some(size as u16)
}

/// The value of a number of 64 bits, by its sign and its size.
fn signed(negative: bool, size: u64) -> Option<i64>
    ensures { result ≡ signed negative size }
{
    if !negative {
        return i64::try_from(size).ok();
    }
    if size == 0x8000_0000_0000_0000 {
        return Some(i64::MIN);
    }
    match i64::try_from(size) {
        Ok(size) => Some(-size),
        Err(_) => None,
    }
}

/// The value of a number, where it is between two bounds.
pub(crate) fn integer(word: &[u8], low: i64, high: i64) -> Option<i64>
    ensures { result ≡ (if is_integer_in low high word.now then Some (value word.now) else None) }
{
    match signed(is_negative(word), magnitude(digits(word))) {
        Some(value) if low <= value && value <= high => Some(value),
        _ => None,
    }
}

/// The value of a number of 32 bits.
pub fn int32_of(word: &[u8]) -> Option<i32>
    ensures { result ≡ (if is_int32 word.now then Some (value word.now) else None) }
{
    match integer(word, i32::MIN as i64, i32::MAX as i64) {
        Some(value) => Some(value as i32),
        None => None,
    }
}
