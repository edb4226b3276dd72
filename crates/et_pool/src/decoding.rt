//! The units of UTF-16 that modified UTF-8 stands for (JVMS 4.4.7).

ghost use Rattle.std.specs.Prelude.{◌≡◌, ◌<◌, ◌≤◌, ◌∷◌, [], IfSome, IfNone, drop, length, true};
ghost use Rattle.et_pool.specs.Text.{is_one_byte, is_two, is_three, unit_of_two, unit_of_three, units_of};

use crate::text::{one, three, two};

/// A unit of UTF-16, and how many bytes of modified UTF-8 it takes.
#[derive(Clone, Copy, Debug, PartialEq, Eq)]
pub struct Unit {
    pub value: u16,
    pub bytes: usize,
}

fn unit_of_one_byte(a: u8) -> Unit
    ensures value { result.value ≡ a }
    ensures bytes { result.bytes ≡ 1 }
{
    Unit {
        value: a as u16,
        bytes: 1,
    }
}

fn unit_of_two_bytes(a: u8, b: u8) -> Unit
    requires { is_two a b ≡ true }
    ensures value { result.value ≡ unit_of_two a b }
    ensures bytes { result.bytes ≡ 2 }
{
    Unit {
        value: (a as u16 - 192) * 64 + (b as u16 - 128),
        bytes: 2,
    }
}

fn unit_of_three_bytes(a: u8, b: u8, c: u8) -> Unit
    requires { is_three a b c ≡ true }
    ensures value { result.value ≡ unit_of_three a b c }
    ensures bytes { result.bytes ≡ 3 }
{
    Unit {
        value: (a as u16 - 224) * 4096 + (b as u16 - 128) * 64 + (c as u16 - 128),
        bytes: 3,
    }
}

/// The unit at the front of modified UTF-8; `None` where no unit begins there.
#[tactic(auto, unfolding(crate::specs::Text::units_of))]
pub fn next_unit(bytes: &[u8]) -> Option<Unit>
    ensures bound { IfSome result (λ u. (0 < u.bytes) × (u.bytes ≤ length bytes.now)) }
    ensures some { IfSome result (λ u.
        units_of bytes.now ≡ u.value ∷ units_of (drop u.bytes bytes.now)) }
    ensures none { IfNone result (units_of bytes.now ≡ []) }
{
    match bytes {
        [] => None,
        [a] => {
            if one(*a) {
                Some(unit_of_one_byte(*a))
            } else {
                None
            }
        }
        [a, b] => {
            if one(*a) {
                Some(unit_of_one_byte(*a))
            } else if two(*a, *b) {
                Some(unit_of_two_bytes(*a, *b))
            } else {
                None
            }
        }
        [a, b, c, ..] => {
            if one(*a) {
                Some(unit_of_one_byte(*a))
            } else if two(*a, *b) {
                Some(unit_of_two_bytes(*a, *b))
            } else if three(*a, *b, *c) {
                Some(unit_of_three_bytes(*a, *b, *c))
            } else {
                None
            }
        }
    }
}
