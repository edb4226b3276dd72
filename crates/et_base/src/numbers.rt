//! Big-endian numbers, and runs of bytes, at a place of a list of bytes (JVMS 4).
//!
//! Every reader takes all the bytes and an absolute place, and gives what stands there and the
//! place after it, or `None` where the bytes end before it does.

ghost use Rattle.std.specs.Prelude.{◌≡◌, option_map};
ghost use Rattle.std.specs.Int.{w8, w16, w32, w64};
ghost use Rattle.et_base.specs.Numbers.{number_at, bytes_at};

use byteorder::{BigEndian, ByteOrder};

/// The byte at a place, and the place after it (a `u1` of JVMS 4).
pub fn u8_at(bytes: &[u8], at: usize) -> Option<(u8, usize)>
    ensures { result ≡ number_at w8 bytes.now at }
{
    if bytes.len() < 1 || bytes.len() - 1 < at {
        return None;
    }
    let rest = &bytes[at..];
    Some((rest[0], at + 1))
}

/// The number in the two bytes at a place, and the place after it (a `u2` of JVMS 4).
pub fn u16_at(bytes: &[u8], at: usize) -> Option<(u16, usize)>
    ensures { result ≡ number_at w16 bytes.now at }
{
    if bytes.len() < 2 || bytes.len() - 2 < at {
        return None;
    }
    Some((BigEndian::read_u16(&bytes[at..]), at + 2))
}

/// The number in the four bytes at a place, and the place after it (a `u4` of JVMS 4).
pub fn u32_at(bytes: &[u8], at: usize) -> Option<(u32, usize)>
    ensures { result ≡ number_at w32 bytes.now at }
{
    if bytes.len() < 4 || bytes.len() - 4 < at {
        return None;
    }
    Some((BigEndian::read_u32(&bytes[at..]), at + 4))
}

/// The number in the eight bytes at a place, and the place after it.
pub fn u64_at(bytes: &[u8], at: usize) -> Option<(u64, usize)>
    ensures { result ≡ number_at w64 bytes.now at }
{
    if bytes.len() < 8 || bytes.len() - 8 < at {
        return None;
    }
    Some((BigEndian::read_u64(&bytes[at..]), at + 8))
}

/// The run of `size` bytes at a place, and the place after it.
pub fn run_at(bytes: &[u8], size: usize, at: usize) -> Option<(&[u8], usize)>
    ensures { option_map (λ x. (x.0.now, x.1)) result ≡ bytes_at bytes.now size at }
{
    if bytes.len() < size || bytes.len() - size < at {
        return None;
    }
    Some((&bytes[at..at + size], at + size))
}
