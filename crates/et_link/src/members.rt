//! The members that the classes declare, and the pools; below, what linking looks at of the classes, the slots of fields, and
//! methods that cross packages.

pub(crate) mod crossing;
pub(crate) mod outlines;
pub(crate) mod slots;

ghost use Rattle.std.specs.Prelude.{◌≡◌, ◌++◌, length, IfOk, OnOk, map, option_map};
ghost use Rattle.et_pool.specs.Pools.{IsPool};
ghost use Rattle.et_boot.specs.Shown.{shown, shown_method, shown_code, shown_field};
ghost use Rattle.et_program.specs.Loaded.{loaded_member, loaded_file};
ghost use Rattle.et_program.specs.Files.{boots};
ghost use Rattle.et_program.specs.MembersOf.{numbered, pool_text, boot_body, boot_method, file_method, boot_methods, file_methods, boot_field, file_field, boot_fields, file_fields, fields_of, is_boot_static};

use crate::names::boots::{boot, boots};
use et_base::{ClassId, Name, NoMemory};
use et_boot::{BootClass, BootCode, BootField, BootMethod};
use et_class::flags::{STATIC, has};
use et_class::{ClassFile, Member};
use et_code::{CheckFault, Code, RawCode, check_code};
use et_pool::{Pool, PoolFault, read_pool};
use et_program::{FieldInfo, MethodInfo};
use std::alloc::Global;

/// The number of the class at a place.
pub(crate) fn class_at_place(place: usize) -> Result<ClassId, NoMemory>
    ensures { IfOk result (λ c. c ≡ place) }
{
    match u32::try_from(place) {
        Ok(number) => Ok(ClassId::new(number)),
        Err(_) => Err(NoMemory),
    }
}

/// The text of the Utf8 entry at an index, or the empty text where it isn't one.
fn text_at(alloc: Global, pool: &Pool, index: u16) -> Result<Name, NoMemory>
    ensures { IfOk result (λ n. n ≡ pool_text pool.now.slots index) }
{
    match pool.utf8(index) {
        Some(text) => Name::of(alloc, text),
        None => Ok(Name::begin(alloc)),
    }
}

/// A field of a file.
fn field_of_file(
    alloc: Global,
    class: ClassId,
    pool: &Pool,
    field: &Member,
) -> Result<FieldInfo, NoMemory>
    ensures { IfOk result (λ f. f ≡ file_field pool.now.slots class (loaded_member field.now)) }
{
    let name = text_at(alloc, pool, field.name_index)?;
    let descriptor = text_at(alloc, pool, field.descriptor_index)?;
    Ok(FieldInfo {
        class,
        name,
        descriptor,
        flags: field.access_flags,
        slot: 0,
        constant: field.constant,
    })
}

/// Puts the fields of a file behind a list.
fn add_file_fields(
    alloc: Global,
    list: &mut Vec<FieldInfo>,
    class: ClassId,
    file: &ClassFile,
) -> Result<(), NoMemory>
    ensures { OnOk result
        (list.new.items ≡ list.old.items ++ file_fields class (loaded_file file.now)) }
{
    for field in &file.fields {
        let info = field_of_file(alloc, class, &file.pool, field)?;
        list.push(info)?;
    }
    Ok(())
}

/// A field of a built-in class.
fn field_of_boot(alloc: Global, class: ClassId, field: &BootField) -> Result<FieldInfo, NoMemory>
    ensures { IfOk result (λ f. f ≡ boot_field class (shown_field field.now)) }
{
    let name = Name::of(alloc, field.name)?;
    let descriptor = Name::of(alloc, field.descriptor)?;
    Ok(FieldInfo {
        class,
        name,
        descriptor,
        flags: field.flags,
        slot: 0,
        constant: 0,
    })
}

/// Whether a field of a built-in class is static, where the static ones are asked for, or isn't.
fn is_wanted(field: &BootField, statics: bool) -> bool
    ensures { result ≡ is_boot_static statics (shown_field field.now) }
{
    if statics {
        has(field.flags, STATIC)
    } else {
        !has(field.flags, STATIC)
    }
}

/// Puts the fields of a built-in class that are static, or those that aren't, behind a list.
fn add_boot_fields(
    alloc: Global,
    list: &mut Vec<FieldInfo>,
    class: ClassId,
    boot: BootClass,
    statics: bool,
) -> Result<(), NoMemory>
    ensures { OnOk result
        (list.new.items ≡ list.old.items ++ boot_fields statics class (shown boot)) }
{
    for field in boot.fields {
        if is_wanted(field, statics) {
            let info = field_of_boot(alloc, class, field)?;
            list.push(info)?;
        }
    }
    Ok(())
}

/// Puts the fields of the built-in classes that are static, or those that aren't, behind a list.
fn add_all_boot_fields(
    alloc: Global,
    list: &mut Vec<FieldInfo>,
    statics: bool,
) -> Result<(), NoMemory>
    ensures { OnOk result
        (list.new.items ≡ list.old.items ++ numbered (boot_fields statics) 0 boots) }
{
    'classes: for i in 0..boots() {
        let class = class_at_place(i)?;
        add_boot_fields(alloc, list, class, boot(i), statics)?;
    }
    Ok(())
}

/// The fields of all classes, without slots yet.
pub(crate) fn all_fields(alloc: Global, files: &[ClassFile]) -> Result<Vec<FieldInfo>, NoMemory>
    ensures { IfOk result (λ fields. fields.items ≡ fields_of (map loaded_file files.now)) }
{
    let mut list = Vec::new(alloc);
    add_all_boot_fields(alloc, &mut list, false)?;
    let first = boots();
    for (i, file) in files.iter().enumerate() {
        let Some(place) = first.checked_add(i) else {
            return Err(NoMemory);
        };
        let class = class_at_place(place)?;
        add_file_fields(alloc, &mut list, class, file)?;
    }
    add_all_boot_fields(alloc, &mut list, true)?;
    Ok(list)
}

ghost use Rattle.std.specs.Prelude.{List, [], length, All, IfSome};
ghost use Rattle.et_pool.specs.Entries.{Constants};
ghost use Rattle.et_boot.specs.Pools.{HasPool};
ghost use Rattle.et_program.specs.MembersOf.{methods_of, IsBootPool, AreBootPools, HasPools, file_pool};
ghost use Rattle.et_link.specs.BuiltIn.{IsKeptBy, HasKeptCode};

/// The methods of the classes, and the pools.
#[derive(Drop)]
pub(crate) struct Members {
    pub methods: Vec<MethodInfo>,
    pub pools: Vec<Pool>,
}

/// A method of a file.
fn method_of_file(
    alloc: Global,
    class: ClassId,
    pool: &Pool,
    method: Member,
) -> Result<MethodInfo, NoMemory>
    ensures { IfOk result (λ m. m ≡ file_method pool.now.slots class (loaded_member method)) }
{
    let name = text_at(alloc, pool, method.name_index)?;
    let descriptor = text_at(alloc, pool, method.descriptor_index)?;
    Ok(MethodInfo {
        class,
        name,
        descriptor,
        flags: method.access_flags,
        code: method.code,
        deferred: false,
    })
}

/// Puts the methods of a file behind a list.
fn add_file_methods(
    alloc: Global,
    list: &mut Vec<MethodInfo>,
    class: ClassId,
    pool: &Pool,
    methods: Vec<Member>,
) -> Result<(), NoMemory>
    ensures { OnOk result (list.new.items ≡ list.old.items
        ++ map (file_method pool.now.slots class) (map loaded_member methods.items)) }
{
    for method in methods {
        let info = method_of_file(alloc, class, pool, method)?;
        list.push(info)?;
    }
    Ok(())
}

/// The code of a built-in method.
fn code_of_boot(alloc: Global, code: BootCode, tags: &[u8]) -> Result<Code, NoMemory>
    requires { IsKeptBy tags.now (shown_code code) }
    ensures { IfOk result (λ c. c ≡ boot_body (shown_code code)) }
{
    let raw = RawCode {
        max_stack: code.max_stack,
        max_locals: code.max_locals,
        code: Vec::from_slice(alloc, code.code)?,
        table: Vec::new(alloc),
    };
    match check_code(alloc, raw, tags) {
        Ok(code) => Ok(code),
        Err(CheckFault::At { .. }) => unreachable!(),
        Err(CheckFault::NoMemory) => Err(NoMemory),
    }
}

/// The code of a built-in method that has some.
fn code_if_any(alloc: Global, code: Option<BootCode>, tags: &[u8]) -> Result<Option<Code>, NoMemory>
    requires { IfSome (option_map shown_code code) (IsKeptBy tags.now) }
    ensures { IfOk result (λ c. c ≡ option_map boot_body (option_map shown_code code)) }
{
    match code {
        Some(code) => {
            let checked = code_of_boot(alloc, code, tags)?;
            Ok(Some(checked))
        }
        None => Ok(None),
    }
}

/// A method of a built-in class.
fn method_of_boot(
    alloc: Global,
    class: ClassId,
    method: &BootMethod,
    tags: &[u8],
) -> Result<MethodInfo, NoMemory>
    requires { HasKeptCode tags.now (shown_method method.now) }
    ensures { IfOk result (λ m. m ≡ boot_method class (shown_method method.now)) }
{
    let name = Name::of(alloc, method.name)?;
    let descriptor = Name::of(alloc, method.descriptor)?;
    let code = code_if_any(alloc, method.code, tags)?;
    Ok(MethodInfo {
        class,
        name,
        descriptor,
        flags: method.flags,
        code,
        deferred: method.deferred,
    })
}

/// Puts the methods of a built-in class behind a list.
fn add_boot_methods(
    alloc: Global,
    list: &mut Vec<MethodInfo>,
    class: ClassId,
    boot: BootClass,
    tags: &[u8],
) -> Result<(), NoMemory>
    requires { All (HasKeptCode tags.now) (shown boot).methods }
    ensures { OnOk result (list.new.items ≡ list.old.items ++ boot_methods class (shown boot)) }
{
    for method in boot.methods {
        let info = method_of_boot(alloc, class, method, tags)?;
        list.push(info)?;
    }
    Ok(())
}

/// The pool of a built-in class.
fn pool_of_boot(alloc: Global, boot: BootClass) -> Result<Pool, NoMemory>
    requires { HasPool (shown boot) }
    ensures { IfOk result (IsBootPool (shown boot)) }
{
    match read_pool(alloc, boot.pool, 0) {
        Ok((pool, _)) => Ok(pool),
        Err(fault) => match fault {
            PoolFault::NoMemory => Err(NoMemory),
            _ => unreachable!(),
        },
    }
}

/// The methods and the pools of the built-in classes.
fn boot_members(alloc: Global) -> Result<Members, NoMemory>
    ensures methods { IfOk result (λ m. m.methods.items ≡ numbered boot_methods 0 boots) }
    ensures pools { IfOk result (λ m. AreBootPools boots m.pools.items) }
{
    let mut methods = Vec::new(alloc);
    let mut pools = Vec::new(alloc);
    'classes: for i in 0..boots() {
        let class = class_at_place(i)?;
        let boot = boot(i);
        let pool = pool_of_boot(alloc, boot)?;
        let tags = pool.tags(alloc)?;
        add_boot_methods(alloc, &mut methods, class, boot, tags.as_slice())?;
        pools.push(pool)?;
    }
    Ok(Members { methods, pools })
}

/// The methods of all classes, and the pools.
pub(crate) fn all_members(alloc: Global, files: Vec<ClassFile>) -> Result<Members, NoMemory>
    ensures methods { IfOk result
        (λ m. m.methods.items ≡ methods_of (map loaded_file files.items)) }
    ensures pools { IfOk result (λ m. HasPools (map loaded_file files.items) m.pools.items) }
{
    let boot = boot_members(alloc)?;
    let Members {
        mut methods,
        mut pools,
    } = boot;
    let mut place = boots();
    for file in files {
        let class = class_at_place(place)?;
        let ClassFile {
            minor_version: _,
            major_version: _,
            access_flags: _,
            this_class: _,
            super_class: _,
            pool,
            interfaces: _,
            fields: _,
            methods: own,
            attributes: _,
        } = file;
        add_file_methods(alloc, &mut methods, class, &pool, own)?;
        pools.push(pool)?;
        let Some(next) = place.checked_add(1) else {
            return Err(NoMemory);
        };
        place = next;
    }
    Ok(Members { methods, pools })
}
