//! Numbers in a class file: one that the file is too short for is a fault at its own place.

ghost use Rattle.std.specs.Prelude.{◌≡◌};
ghost use Rattle.std.specs.Int.{w16, w32};
ghost use Rattle.et_class.specs.declared.fault.ClassFault.TheVariants.{At};
ghost use Rattle.et_class.specs.Reading.{GivesOrBreaks, number_read};

use crate::fault::{ClassFault, SHORT};
use et_base::numbers;

/// The fault of an item that the file ends before.
pub fn short(offset: usize) -> ClassFault
    ensures { result ≡ At SHORT offset }
{
    ClassFault::At {
        kind: SHORT,
        offset,
    }
}

pub fn u16_item(bytes: &[u8], at: usize) -> Result<(u16, usize), ClassFault>
    ensures { GivesOrBreaks (λ x. x) result (number_read w16 bytes.now at) }
{
    numbers::u16_at(bytes, at).ok_or(short(at))
}

pub fn u32_item(bytes: &[u8], at: usize) -> Result<(u32, usize), ClassFault>
    ensures { GivesOrBreaks (λ x. x) result (number_read w32 bytes.now at) }
{
    numbers::u32_at(bytes, at).ok_or(short(at))
}
