//! Reading a file.
ghost use Rattle.std.specs.Prelude.{◌≡◌, ◌≤◌, true, List, length, IfOk, IfErr};
ghost use Rattle.et_io.specs.Faults.{Rose};
ghost use Rattle.et_io.specs.Files.{Held, Reading};
ghost use Rattle.et_files.specs.Answered.{ReadsOne};
ghost use Rattle.et_files.specs.Loaded.{file_bytes};
ghost use Rattle.et_files.specs.Reads.{is_early};
ghost use Rattle.et_files.specs.Refusals.{status_of};
ghost use Rattle.et_files.specs.Told.{Tells, TellsFound, Names};

use crate::refusal::Refusal;
use et_io::{Files, Found};
use std::alloc::Global;

/// The bytes that a read found, or why there are none.
fn bytes_found<'a>(path: &'a str, found: Found) -> Result<Vec<u8>, Refusal<'a>>
    ensures tells { TellsFound found result }
    ensures names { IfErr result (Names path.now) }
{
    match found {
        Found::Bytes(bytes) => Ok(bytes),
        Found::Absent => Err(Refusal::Absent(path)),
        Found::TooLong => Err(Refusal::TooLong(path)),
        Found::Failed => Err(Refusal::ReadFault(path)),
    }
}

/// The bytes of the file at the path, at most so many, by one read.
pub fn read_file<'a, F: Files>(
    alloc: Global,
    path: &'a str,
    most: u64,
    files: &mut F,
) -> Result<Vec<u8>, Refusal<'a>>
    ensures tells { (first : List Reading) (held : Held) →
        length first ≤ length (F.asked files.old) → F.agrees files.new first held →
        Tells (Rose (F.faults files.old) (F.faults files.new))
        (λ bytes. bytes.items) (file_bytes most (held path.now)) result }
    ensures read { ReadsOne F.Files files.old files.new path.now most result }
    ensures within { IfOk result (λ bytes. length bytes.items ≤ most) }
    ensures early { IfErr result (λ refusal. is_early (status_of refusal) ≡ true) }
    ensures kept { (first : List Reading) (held : Held) → F.agrees files.new first held →
        F.agrees files.old first held }
{
    match files.read(alloc, path, most) {
        Ok(found) => bytes_found(path, found),
        Err(_) => Err(Refusal::NoMemory),
    }
}
