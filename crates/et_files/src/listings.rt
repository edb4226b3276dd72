//! The class file of the listing that a command names.
ghost use Rattle.std.specs.Prelude.{ℕ, List, Result, Ok, IfErr};
ghost use Rattle.et_files.specs.Answered.{Loads};
ghost use Rattle.et_files.specs.Faults.{Fault};
ghost use Rattle.et_files.specs.Loaded.{most_of_class, IsListingOf};
ghost use Rattle.et_files.specs.Told.{Tells, IsOfBytes, Names, cause_of};

use crate::files::read_file;
use crate::refusal::Refusal;
use et_asm::{AsmFault, assemble};
use et_base::laws::exactly_one;
use et_io::Files;
use std::alloc::Global;

/// The longest listing that is read, in bytes.
const MOST_LISTING_BYTES: u64 = 1_048_576;

/// The class file of this listing, which the file at the path holds.
pub fn listing_in<'a>(alloc: Global, path: &'a str, text: &[u8]) -> Result<Vec<u8>, Refusal<'a>>
    ensures tells { (class : Result (List ℕ) Fault) →
        IsListingOf (Ok text.now) class → Tells ⊥ (λ bytes. bytes.items) class result }
    ensures bytes { IfErr result (λ refusal. IsOfBytes (cause_of refusal)) }
    ensures names { IfErr result (Names path.now) }
{
    // Laws: they tell the prover, and do nothing.
    exactly_one();
    match assemble(alloc, text) {
        Ok(bytes) => Ok(bytes),
        Err(AsmFault::At { line, kind }) => Err(Refusal::BadText { path, kind, line }),
        Err(AsmFault::NoMemory) => Err(Refusal::NoMemory),
    }
}

/// The class file of the listing at the path.
pub fn load_listing<'a, F: Files>(
    alloc: Global,
    path: &'a str,
    files: &mut F,
) -> Result<Vec<u8>, Refusal<'a>>
    ensures { Loads F.Files files.old files.new path.now most_of_class IsListingOf
        (λ read. Tells read (λ bytes. bytes.items)) result }
{
    let text = read_file(alloc, path, MOST_LISTING_BYTES, files)?;
    listing_in(alloc, path, &text)
}
