//! The classes of the files that a command names.
ghost use Rattle.std.specs.Prelude.{◌≡◌, ◌≤◌, ◌++◌, ◌∷◌, [], true, List, Result, Ok, All, IfOk, IfErr, OnOk, length, map, string_bytes};
ghost use Rattle.et_io.specs.Faults.{Rose};
ghost use Rattle.et_io.specs.Files.{Held, Reading};
ghost use Rattle.et_class.specs.Layout.{ClassOf};
ghost use Rattle.et_class.specs.Classes.{IsClassFile, class_of, HasItsParts};
ghost use Rattle.et_files.specs.Answered.{ReadsOne, ReadsEach};
ghost use Rattle.et_files.specs.Faults.{Fault};
ghost use Rattle.et_link.specs.Declaring.{HasItsFile};
ghost use Rattle.et_files.specs.Loaded.{file_bytes, most_of_class, IsClassOf, AreClassesOf};
ghost use Rattle.et_files.specs.Reads.{HoldsClass, is_early};
ghost use Rattle.et_files.specs.Refusals.{status_of};
ghost use Rattle.et_files.specs.Told.{Tells, IsOfBytes, Names, cause_of, classes_read};

use crate::files::read_file;
use crate::refusal::Refusal;
use et_class::laws::exactly_one;
use et_class::{ClassFault, ClassFile, read_class};
use et_io::Files;
use std::alloc::Global;

/// The longest class file that is read, in bytes.
const MOST_CLASS_BYTES: u64 = 1_048_576;

/// The class file of these bytes, which the file at the path holds.
pub fn class_in<'a>(alloc: Global, path: &'a str, bytes: &[u8]) -> Result<ClassFile, Refusal<'a>>
    ensures tells { (class : Result ClassOf Fault) →
        IsClassOf (Ok bytes.now) class → Tells ⊥ class_of class result }
    ensures parts { IfOk result HasItsParts }
    ensures of_file { IfOk result HasItsFile }
    ensures class { IfOk result (λ class. IsClassFile bytes.now (class_of class)) }
    ensures bytes { IfErr result (λ refusal. IsOfBytes (cause_of refusal)) }
    ensures early { IfErr result (λ refusal. is_early (status_of refusal) ≡ true) }
    ensures names { IfErr result (Names path.now) }
{
    // Laws: they tell the prover, and do nothing.
    exactly_one();
    match read_class(alloc, bytes) {
        Ok(class) => Ok(class),
        Err(ClassFault::At { kind, offset }) => Err(Refusal::BadClass { path, kind, offset }),
        Err(ClassFault::NoMemory) => Err(Refusal::NoMemory),
    }
}

/// The class file at the path.
fn load_class<'a, F: Files>(
    alloc: Global,
    path: &'a str,
    files: &mut F,
) -> Result<ClassFile, Refusal<'a>>
    ensures tells { (first : List Reading) (held : Held) →
        length first ≤ length (F.asked files.old) → F.agrees files.new first held →
        (class : Result ClassOf Fault) → IsClassOf (file_bytes most_of_class (held path.now))
        class → Tells (Rose (F.faults files.old) (F.faults files.new)) class_of class result }
    ensures parts { IfOk result HasItsParts }
    ensures of_file { IfOk result HasItsFile }
    ensures read { ReadsOne F.Files files.old files.new path.now most_of_class result }
    ensures early { IfErr result (λ refusal. is_early (status_of refusal) ≡ true) }
    ensures good { (first : List Reading) (held : Held) →
        length first ≤ length (F.asked files.old) → F.agrees files.new first held →
        OnOk result (HoldsClass held path.now) }
    ensures kept { (first : List Reading) (held : Held) → F.agrees files.new first held →
        F.agrees files.old first held }
{
    let bytes = read_file(alloc, path, MOST_CLASS_BYTES, files)?;
    class_in(alloc, path, &bytes)
}

/// The class files at the paths, in order: each is read when the one before it was found to be a class file.
pub fn load_classes<'a, F: Files>(
    alloc: Global,
    paths: &'a [String],
    files: &mut F,
) -> Result<Vec<ClassFile>, Refusal<'a>>
    ensures tells { (held : Held) → F.agrees files.new (F.asked files.old) held →
        (classes : Result (List ClassOf) Fault) → AreClassesOf
        (map held (map string_bytes paths.now)) classes → Tells
        (Rose (F.faults files.old) (F.faults files.new)) classes_read classes result }
    ensures parts { IfOk result (λ classes. All HasItsParts classes.items) }
    ensures of_files { IfOk result (λ classes. All HasItsFile classes.items) }
    ensures count { IfOk result (λ classes. length classes.items ≡ length paths.now) }
    ensures reads { ReadsEach F.Files files.old files.new (map string_bytes paths.now) result }
{
    let mut classes = Vec::new(alloc);
    'paths: for path in paths {
        match load_class(alloc, path.as_str(), files) {
            Ok(class) => push(&mut classes, class)?,
            Err(refusal) => return Err(refusal),
        }
    }
    Ok(classes)
}

/// Puts a class at the end.
pub fn push<'a>(classes: &mut Vec<ClassFile>, class: ClassFile) -> Result<(), Refusal<'a>>
    ensures ok { OnOk result (classes.new.items ≡ classes.old.items ++ class ∷ []) }
    ensures err { IfErr result (λ refusal. refusal ≡ Refusal.NoMemory) }
{
    match classes.push(class) {
        Ok(()) => Ok(()),
        Err(_) => Err(Refusal::NoMemory),
    }
}
