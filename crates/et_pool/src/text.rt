//! Modified UTF-8 (JVMS 4.4.7).

ghost use Rattle.std.specs.Prelude.{◌≡◌};
ghost use Rattle.et_pool.specs.Text.{is_one_byte, is_two, is_three, is_more, unit_len, is_modified};

pub(crate) fn one(a: u8) -> bool
    ensures { result ≡ is_one_byte a }
{
    1 <= a && a <= 127
}

fn more(b: u8) -> bool
    ensures { result ≡ is_more b }
{
    128 <= b && b <= 191
}

pub(crate) fn two(a: u8, b: u8) -> bool
    ensures { result ≡ is_two a b }
{
    more(b) && ((194 <= a && a <= 223) || (a == 192 && b == 128))
}

pub(crate) fn three(a: u8, b: u8, c: u8) -> bool
    ensures { result ≡ is_three a b c }
{
    more(b) && more(c) && ((225 <= a && a <= 239) || (a == 224 && 160 <= b))
}

#[tactic(auto, unfolding(crate::specs::Text::unit_len))]
fn unit(s: &[u8]) -> usize
    ensures { result ≡ unit_len s.now }
{
    match s {
        [] => 0,
        [a] => { if one(*a) { 1 } else { 0 } }
        [a, b] => {
            if one(*a) {
                1
            } else if two(*a, *b) {
                2
            } else {
                0
            }
        }
        [a, b, c, ..] => {
            if one(*a) {
                1
            } else if two(*a, *b) {
                2
            } else if three(*a, *b, *c) {
                3
            } else {
                0
            }
        }
    }
}

/// Whether the bytes are modified UTF-8.
pub fn is_text(s: &[u8]) -> bool
    ensures { result ≡ is_modified s.now }
{
    let mut i = 0;
    'units: while i < s.len() {
        let n = unit(&s[i..]);
        if n == 0 {
            return false;
        }
        i += n;
    }
    true
}
