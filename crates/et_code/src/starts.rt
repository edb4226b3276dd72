//! The places of the code at which instructions begin.

ghost use Rattle.std.specs.Prelude.{◌≡◌, ℕ, ℤ, pos, ◌+ℤ◌, ◌<◌, ◌^◌, length, IfOk};
ghost use Rattle.et_code.specs.Starts.{is_start};
ghost use Rattle.et_code.specs.Rules.{flag, passes_test};

use crate::decoding::decode;
use std::alloc::{AllocError, Global};

/// A flag for each place of the code: whether an instruction begins there.
pub fn start_flags(alloc: Global, code: &[u8]) -> Result<Vec<bool>, AllocError>
    ensures { IfOk result
        (λ flags. (place : ℕ) → flag flags.items place ≡ is_start code.now place) }
{
    let mut flags = vec![in alloc; false; code.len()]?;
    let mut pc = 0;
    while pc < code.len() {
        flags[pc] = true;
        match decode(code, pc) {
            Ok((_, next)) => pc = next,
            Err(_) => return Ok(flags),
        }
    }
    Ok(flags)
}

/// Whether the place that is so far from `pc` is flagged.
pub(crate) fn is_flagged(flags: &[bool], pc: usize, offset: i32) -> bool
    requires { pc < 2 ^ 62 }
    ensures { result ≡ passes_test (flag flags.now) (pos pc +ℤ offset) }
{
    match usize::try_from(pc as i64 + offset as i64) {
        Ok(place) => place < flags.len() && flags[place],
        Err(_) => false,
    }
}
