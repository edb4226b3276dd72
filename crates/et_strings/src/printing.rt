//! Units of UTF-16 written as UTF-8.
ghost use Rattle.std.specs.Prelude.{◌≡◌, ◌<◌, ◌≤◌, ◌++◌, ◌∷◌, OnOk, length, drop};
ghost use Rattle.std.specs.Char.Utf16.{utf16_chars};
ghost use Rattle.std.specs.List.{list_all};
ghost use Rattle.et_pool.specs.Text.{is_one_byte};
ghost use Rattle.et_event.specs.TextRows.{written_units};

use std::alloc::AllocError;

/// The character whose units begin at a place, unless that unit is a surrogate without a partner, and where the next begins.
fn char_at(units: &[u16], at: usize) -> (Option<char>, usize)
    requires { at < length units.now }
    ensures bound { (at < result.1) × (result.1 ≤ length units.now) }
    ensures first { utf16_chars (drop at units.now)
        ≡ result.0 ∷ utf16_chars (drop result.1 units.now) }
{
    let high = units[at] as u32;
    if high < 0xD800 || 0xE000 <= high {
        return (char::from_u32(high), at + 1);
    }
    if 0xDC00 <= high || units.len() - at < 2 {
        return (None, at + 1);
    }
    let low = units[at + 1] as u32;
    if low < 0xDC00 || 0xE000 <= low {
        return (None, at + 1);
    }
    let code = 0x1_0000 + (high - 0xD800) * 0x400 + (low - 0xDC00);
    (char::from_u32(code), at + 2)
}

/// Whether bytes are ASCII without a 0: each stands for its own unit, and is written as it is.
pub(crate) fn is_plain(bytes: &[u8]) -> bool
    ensures { result ≡ list_all is_one_byte bytes.now }
{
    bytes.iter().all(|byte| 1 <= *byte && *byte <= 127)
}

/// Writes units at the end of bytes: UTF-8, and `?` for a surrogate without a partner.
pub(crate) fn push_written(units: &[u16], out: &mut Vec<u8>) -> Result<(), AllocError>
    ensures { OnOk result (out.new.items ≡ out.old.items ++ written_units units.now) }
{
    let mut at = 0;
    'chars: while at < units.len() {
        let (found, next) = char_at(units, at);
        let mut room = [0; 4];
        out.extend_from_slice(found.unwrap_or('?').encode_utf8(&mut room).as_bytes())?;
        at = next;
    }
    Ok(())
}
