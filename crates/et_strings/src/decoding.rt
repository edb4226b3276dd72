//! The units of UTF-16 that the bytes of a constant stand for (JVMS 4.4.7).
ghost use Rattle.std.specs.Prelude.{◌≡◌, ◌≤◌, ◌++◌, OnOk, length, slice_get};
ghost use Rattle.std.specs.Str.{bytes_eq};
ghost use Rattle.et_pool.specs.Text.{units_of};

use et_pool::next_unit;
use std::alloc::AllocError;

/// How many units bytes stand for.
pub(crate) fn count_units(s: &[u8]) -> usize
    ensures value { result ≡ length (units_of s.now) }
    ensures few { result ≤ length s.now }
{
    let mut count = 0;
    let mut at = 0;
    'units: while at < s.len() {
        match next_unit(&s[at..]) {
            Some(unit) => {
                at += unit.bytes;
                count += 1;
            }
            None => return count,
        }
    }
    count
}

/// Puts the units of bytes at the end of a vector.
pub(crate) fn push_units(s: &[u8], units: &mut Vec<u16>) -> Result<(), AllocError>
    ensures { OnOk result (units.new.items ≡ units.old.items ++ units_of s.now) }
{
    let mut at = 0;
    'units: while at < s.len() {
        match next_unit(&s[at..]) {
            Some(unit) => {
                at += unit.bytes;
                units.push(unit.value)?;
            }
            None => return Ok(()),
        }
    }
    Ok(())
}

/// The unit of this number, from 0, of bytes.
pub(crate) fn unit_at(s: &[u8], index: usize) -> Option<u16>
    ensures { result ≡ slice_get (units_of s.now) index }
{
    let mut left = index;
    let mut at = 0;
    'units: while at < s.len() {
        match next_unit(&s[at..]) {
            Some(unit) => {
                if left == 0 {
                    return Some(unit.value);
                }
                at += unit.bytes;
                left -= 1;
            }
            None => return None,
        }
    }
    None
}

/// Whether bytes stand for these units, and for no more.
pub(crate) fn spells(s: &[u8], units: &[u16]) -> bool
    ensures { result ≡ bytes_eq (units_of s.now) units.now }
{
    let mut at = 0;
    'units: for unit in units {
        match next_unit(&s[at..]) {
            Some(next) if next.value == *unit => at += next.bytes,
            _ => return false,
        }
    }
    next_unit(&s[at..]).is_none()
}

/// Whether two runs of bytes stand for the same units.
pub(crate) fn spell_the_same(a: &[u8], b: &[u8]) -> bool
    ensures { result ≡ bytes_eq (units_of a.now) (units_of b.now) }
{
    let mut at = 0;
    let mut there = 0;
    'units: while let Some(unit) = next_unit(&a[at..]) {
        match next_unit(&b[there..]) {
            Some(other) if other.value == unit.value => {
                at += unit.bytes;
                there += other.bytes;
            }
            _ => return false,
        }
    }
    next_unit(&b[there..]).is_none()
}
