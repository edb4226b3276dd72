//! From a listing to a class file.

ghost use Rattle.et_asm.specs.Listings.{Assembles};
ghost use Rattle.et_asm.specs.Accepted.{AcceptedAre};

use crate::check::check_lines;
use crate::class::class_bytes;
use crate::fault::AsmFault;
use crate::symbols::symbols_of;
use et_listing::{parsed_lines, words_of_lines};
use std::alloc::Global;

/// The bytes of the class file of a listing (docs/listings.md), or its first faulty line and the
/// least kind of what is wrong with it. The rules of class files are not checked; where the bytes
/// keep them, the class that they are has the listing's names, descriptors, flags, constants and
/// code. The time is linear in the text.
pub fn assemble(alloc: Global, text: &[u8]) -> Result<Vec<u8>, AsmFault>
    ensures bytes { Assembles text.now result }
    ensures class { AcceptedAre text.now result }
{
    let words = words_of_lines(alloc, text)?;
    let lines = parsed_lines(alloc, &words)?;
    let symbols = symbols_of(alloc, &lines)?;
    match check_lines(alloc, &symbols, &lines)? {
        Some((line, kind)) => Err(AsmFault::At {
            line: line as u64,
            kind,
        }),
        None => Ok(class_bytes(alloc, &symbols, &lines)?),
    }
}
