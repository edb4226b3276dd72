//! Numbers and names at the front of bytes.
ghost use Rattle.std.specs.Prelude.{◌≡◌, option_map};
ghost use Rattle.std.specs.Int.{w8, w32, w64};
ghost use Rattle.et_binary.specs.Fronts.{number_front, name_front, turn_front};

use byteorder::{BigEndian, ByteOrder};

/// A byte, and the bytes behind it.
#[tactic(auto, unfolding(crate::specs::Fronts::number_front))]
pub fn u8_front(bytes: &[u8]) -> Option<(u8, &[u8])>
    ensures { option_map (λ x. (x.0, x.1.now)) result ≡ number_front w8 bytes.now }
{
    if bytes.len() < 1 {
        return None;
    }
    let (front, rest) = bytes.split_at(1);
    Some((front[0], rest))
}

/// A number of four bytes, and the bytes behind it.
#[tactic(auto, unfolding(crate::specs::Fronts::number_front))]
pub fn u32_front(bytes: &[u8]) -> Option<(u32, &[u8])>
    ensures { option_map (λ x. (x.0, x.1.now)) result ≡ number_front w32 bytes.now }
{
    if bytes.len() < 4 {
        return None;
    }
    let (front, rest) = bytes.split_at(4);
    Some((BigEndian::read_u32(front), rest))
}

/// A number of eight bytes, and the bytes behind it.
#[tactic(auto, unfolding(crate::specs::Fronts::number_front))]
pub fn u64_front(bytes: &[u8]) -> Option<(u64, &[u8])>
    ensures { option_map (λ x. (x.0, x.1.now)) result ≡ number_front w64 bytes.now }
{
    if bytes.len() < 8 {
        return None;
    }
    let (front, rest) = bytes.split_at(8);
    Some((BigEndian::read_u64(front), rest))
}

/// The bytes behind their length, and those behind them.
#[tactic(auto, unfolding(crate::specs::Fronts::name_front))]
pub fn name_front(bytes: &[u8]) -> Option<(&[u8], &[u8])>
    ensures { option_map (λ x. (x.0.now, x.1.now)) result ≡ name_front bytes.now }
{
    let (size, rest) = u32_front(bytes)?;
    let size = size as usize;
    if rest.len() < size {
        return None;
    }
    Some(rest.split_at(size))
}

/// An event and a thread, and the bytes behind them.
#[tactic(auto, unfolding(crate::specs::Fronts::turn_front))]
pub fn turn_front(bytes: &[u8]) -> Option<((u64, u8), &[u8])>
    ensures { option_map (λ x. (x.0, x.1.now)) result ≡ turn_front bytes.now }
{
    let (event, rest) = u64_front(bytes)?;
    let (thread, rest) = u8_front(rest)?;
    Some(((event, thread), rest))
}
