//! What linking looks at of the built-in classes and of the files.

ghost use Rattle.std.specs.Prelude.{◌≡◌, ◌++◌, IfOk, OnOk, map, Some};
ghost use Rattle.et_pool.specs.Looks.{class_name_at};
ghost use Rattle.et_boot.specs.Classes.{BootClassOf};
ghost use Rattle.et_boot.specs.Shown.{shown};
ghost use Rattle.et_program.specs.Loaded.{loaded_file};
ghost use Rattle.et_program.specs.Files.{boots, name_of, boot_outline, file_outline, set_of, file_flags};

use crate::names::boots::{boot, boots};
use et_base::{Name, NoMemory};
use et_boot::BootClass;
use et_class::ClassFile;
use et_class::flags::{FINAL, INTERFACE, has};
use et_hierarchy::ClassOutline;
use et_pool::Pool;
use std::alloc::Global;

/// The name that the Class entry at an index gives, or the empty name where it isn't one.
fn name_at(alloc: Global, pool: &Pool, index: u16) -> Result<Name, NoMemory>
    ensures { IfOk result (λ n. n ≡ name_of pool.now.slots index) }
{
    match pool.class_name(index) {
        Some(name) => Name::of(alloc, name),
        None => Ok(Name::begin(alloc)),
    }
}

/// The name that the Class entry at an index gives, if it is one.
fn name_if_any(alloc: Global, pool: &Pool, index: u16) -> Result<Option<Name>, NoMemory>
    ensures { IfOk result (λ n. n ≡ class_name_at pool.now.slots index) }
{
    match pool.class_name(index) {
        Some(name) => Ok(Some(Name::of(alloc, name)?)),
        None => Ok(None),
    }
}

/// The names that the Class entries at these indices give.
fn names_at(alloc: Global, pool: &Pool, indices: &[u16]) -> Result<Vec<Name>, NoMemory>
    ensures { IfOk result (λ names. names.items ≡ map (name_of pool.now.slots) indices.now) }
{
    let mut names = Vec::new(alloc);
    for index in indices {
        let name = name_at(alloc, pool, *index)?;
        names.push(name)?;
    }
    Ok(names)
}

/// The outline of a class of a file.
fn outline_of_file(alloc: Global, file: &ClassFile) -> Result<ClassOutline, NoMemory>
    ensures { IfOk result (λ o. o ≡ file_outline (loaded_file file.now)) }
{
    let name = name_at(alloc, &file.pool, file.this_class)?;
    let super_name = name_if_any(alloc, &file.pool, file.super_class)?;
    let interfaces = names_at(alloc, &file.pool, file.interfaces.as_slice())?;
    Ok(ClassOutline::new(
        name,
        super_name,
        interfaces,
        has(file.access_flags, INTERFACE),
        has(file.access_flags, FINAL),
    ))
}

/// Names of these bytes.
fn names_of(alloc: Global, texts: &[&[u8]]) -> Result<Vec<Name>, NoMemory>
    ensures { IfOk result (λ names. names.items ≡ map (λ t. t.now) texts.now) }
{
    let mut names = Vec::new(alloc);
    for text in texts {
        let name = Name::of(alloc, text)?;
        names.push(name)?;
    }
    Ok(names)
}

/// The outline of a built-in class.
fn outline_of_boot(alloc: Global, class: BootClass) -> Result<ClassOutline, NoMemory>
    ensures { IfOk result (λ o. o ≡ boot_outline (shown class)) }
{
    let name = Name::of(alloc, class.name)?;
    let super_name = match class.super_name {
        Some(above) => Some(Name::of(alloc, above)?),
        None => None,
    };
    let interfaces = names_of(alloc, class.interfaces)?;
    Ok(ClassOutline::new(
        name,
        super_name,
        interfaces,
        has(class.flags, INTERFACE),
        has(class.flags, FINAL),
    ))
}

/// The outlines of the built-in classes.
fn boot_outlines(alloc: Global) -> Result<Vec<ClassOutline>, NoMemory>
    ensures { IfOk result (λ set. set.items ≡ map boot_outline boots) }
{
    let mut set = Vec::new(alloc);
    'classes: for i in 0..boots() {
        let outline = outline_of_boot(alloc, boot(i))?;
        set.push(outline)?;
    }
    Ok(set)
}

/// The outlines of the built-in classes, and then those of the files.
pub(crate) fn outlines(alloc: Global, files: &[ClassFile]) -> Result<Vec<ClassOutline>, NoMemory>
    ensures { IfOk result (λ set. set.items ≡ set_of (map loaded_file files.now)) }
{
    let mut set = boot_outlines(alloc)?;
    for file in files {
        let outline = outline_of_file(alloc, file)?;
        set.push(outline)?;
    }
    Ok(set)
}

/// The access flags of the built-in classes, and then those of the files.
pub(crate) fn class_flags(alloc: Global, files: &[ClassFile]) -> Result<Vec<u16>, NoMemory>
    ensures { IfOk result (λ flags. flags.items ≡ file_flags (map loaded_file files.now)) }
{
    let mut flags = boot_flags(alloc)?;
    for file in files {
        flags.push(file.access_flags)?;
    }
    Ok(flags)
}

/// The access flags of the built-in classes.
fn boot_flags(alloc: Global) -> Result<Vec<u16>, NoMemory>
    ensures { IfOk result (λ flags. flags.items ≡ map (λ (c : BootClassOf). c.flags) boots) }
{
    let mut flags = Vec::new(alloc);
    'classes: for i in 0..boots() {
        let class = boot(i);
        flags.push(class.flags)?;
    }
    Ok(flags)
}
