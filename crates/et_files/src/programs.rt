//! The program of the classes that a command names, or of a listing.
ghost use Rattle.std.specs.Prelude.{◌≡◌, ◌<◌, None, Ok, Result, All, IfErr, length, map, string_bytes};
ghost use Rattle.et_io.specs.Faults.{Rose};
ghost use Rattle.et_io.specs.Files.{Held};
ghost use Rattle.et_class.specs.Classes.{class_of, HasItsParts};
ghost use Rattle.et_program.specs.Entries.{Linked};
ghost use Rattle.et_files.specs.Answered.{ReadsEach};
ghost use Rattle.et_files.specs.Faults.{Fault};
ghost use Rattle.et_link.specs.Declaring.{HasItsFile};
ghost use Rattle.et_files.specs.Loaded.{IsLinkedOf, IsListingProgram, IsProgramOfFiles};
ghost use Rattle.et_files.specs.Told.{Tells, IsOfBytes, Names, cause_of, named_path};

use crate::classes::{class_in, load_classes, push};
use crate::listings::listing_in;
use crate::refusal::Refusal;
use et_class::ClassFile;
use et_io::Files;
use et_link::laws::{answers_are_one, files_are_classes};
use et_link::{LinkFault, Program, link};
use std::alloc::Global;

/// The program of the classes, where they link (JVMS 5.3, 5.4).
fn program<'a>(alloc: Global, classes: Vec<ClassFile>) -> Result<Program, Refusal<'a>>
    requires some { 0 < length classes.items }
    requires parts { All HasItsParts classes.items }
    requires of_files { All HasItsFile classes.items }
    ensures tells { (program : Result Linked Fault) →
        IsLinkedOf (Ok (map class_of classes.items)) program → Tells ⊥ (λ p. p) program result }
    ensures bytes { IfErr result (λ refusal. IsOfBytes (cause_of refusal)) }
    ensures names { IfErr result (λ refusal. named_path refusal ≡ None) }
{
    // Laws: they tell the prover, and do nothing.
    files_are_classes();
    answers_are_one();
    match link(alloc, classes) {
        Ok(program) => Ok(program),
        Err(LinkFault::At { kind, class }) => Err(Refusal::LinkFault { kind, class }),
        Err(LinkFault::NoMemory) => Err(Refusal::NoMemory),
    }
}

/// The program of the files at these paths: their classes, linked.
pub fn load_program<'a, F: Files>(
    alloc: Global,
    paths: &'a [String],
    files: &mut F,
) -> Result<Program, Refusal<'a>>
    requires some { 0 < length paths.now }
    ensures tells { (held : Held) → F.agrees files.new (F.asked files.old) held →
        (program : Result Linked Fault) → IsProgramOfFiles (map held (map string_bytes paths.now))
        program → Tells (Rose (F.faults files.old) (F.faults files.new)) (λ p. p) program result }
    ensures reads { ReadsEach F.Files files.old files.new (map string_bytes paths.now) result }
{
    let classes = load_classes(alloc, paths, files)?;
    program(alloc, classes)
}

/// The program of a listing: its class, linked alone. A refusal names the path.
pub fn program_of_listing<'a>(
    alloc: Global,
    path: &'a str,
    listing: &[u8],
) -> Result<Program, Refusal<'a>>
    ensures tells { (p : Result Linked Fault) →
        IsListingProgram listing.now p → Tells ⊥ (λ program. program) p result }
    ensures bytes { IfErr result (λ refusal. IsOfBytes (cause_of refusal)) }
    ensures names { IfErr result (Names path.now) }
{
    let bytes = listing_in(alloc, path, listing)?;
    let class = class_in(alloc, path, &bytes)?;
    let mut classes = Vec::new(alloc);
    push(&mut classes, class)?;
    program(alloc, classes)
}
