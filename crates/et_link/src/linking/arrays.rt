//! The array classes of a program.

ghost use Rattle.std.specs.Prelude.{◌≡◌, ℕ, ◌<◌, ◌++◌, ◌∷◌, [], List, length, filter, IfOk, OnOk, option_map, codes, map};
ghost use Rattle.std.specs.List.{flat_map};
ghost use Rattle.std.specs.Option.{option_to_list};
ghost use Rattle.et_pool.specs.Looks.{named_by};
ghost use Rattle.et_program.specs.Indices.{number_of_name};
ghost use Rattle.et_class.specs.Codes.{index_of};
ghost use Rattle.et_program.specs.Loaded.{loaded_file};
ghost use Rattle.et_program.specs.ArrayTypes.{base_letter, base_kind, array_over, named_arrays, made_by, made_in, made_in_method, file_arrays, arrays_met, leaf_at, leaf_of, is_type_known, with_element_types, name_added, names_added, element_of, kind_of};
ghost use Rattle.et_link.specs.Naming.{IsIndexFrom};

use et_base::{ClassId, Name, NoMemory};
use et_class::ClassFile;
use et_code::opcode::{ANEWARRAY, NEWARRAY};
use et_code::{Code, Instr, decode, start_flags};
use et_pool::Pool;
use et_pool::descriptor::{dimensions, is_array_name};
use et_program::{Element, Kind, Leaf, NameIndex};
use std::alloc::Global;

/// The letter of a base type, by its code in `newarray`.
fn base_letter(kind: u16) -> u8
    ensures { result ≡ base_letter kind }
{
    let place = (kind as usize).saturating_sub(4);
    match b"ZCFDBSIJ".get(place) {
        Some(letter) => *letter,
        None => 0,
    }
}

/// The code of a base type in `newarray`, by its letter.
fn base_kind(letter: u8) -> Option<u8>
    ensures { result ≡ base_kind letter }
{
    match letter {
        b'Z' => Some(4),
        b'C' => Some(5),
        b'F' => Some(6),
        b'D' => Some(7),
        b'B' => Some(8),
        b'S' => Some(9),
        b'I' => Some(10),
        b'J' => Some(11),
        _ => None,
    }
}

/// The pool index that an operand is.
fn pool_index(operand: i32) -> u16
    ensures { result ≡ index_of operand }
{
    u16::try_from(operand).unwrap_or(0)
}

/// The name of the class of the arrays over the class of this name.
pub(crate) fn array_over(alloc: Global, name: &[u8]) -> Result<Name, NoMemory>
    ensures { IfOk result (λ n. n ≡ array_over name.now) }
{
    let mut text = Vec::new(alloc);
    text.push(b'[')?;
    if is_array_name(name) {
        text.extend_from_slice(name)?;
    } else {
        text.push(b'L')?;
        text.extend_from_slice(name)?;
        text.push(b';')?;
    }
    Name::of(alloc, text.as_slice())
}

/// Puts the array type that an instruction makes behind a list, if it makes one.
fn add_made(alloc: Global, list: &mut Vec<Name>, pool: &Pool, instr: &Instr) -> Result<(), NoMemory>
    ensures { OnOk result (list.new.items ≡ list.old.items ++ made_by pool.now.slots instr.now) }
{
    let index = pool_index(instr.first);
    if instr.opcode == NEWARRAY {
        let mut name = Name::begin(alloc);
        name.push(b'[')?;
        name.push(base_letter(index))?;
        list.push(name)?;
        return Ok(());
    }
    if instr.opcode == ANEWARRAY {
        if let Some(class) = pool.class_name(index) {
            let name = array_over(alloc, class)?;
            list.push(name)?;
        }
    }
    Ok(())
}

/// Puts the array types that code makes behind a list.
fn add_made_in(
    alloc: Global,
    list: &mut Vec<Name>,
    pool: &Pool,
    code: &[u8],
) -> Result<(), NoMemory>
    ensures { OnOk result (list.new.items ≡ list.old.items ++ made_in pool.now.slots code.now) }
{
    let flags = start_flags(alloc, code)?;
    for pc in 0..code.len() {
        let is_start = is_flagged(flags.as_slice(), pc);
        add_made_at(alloc, list, pool, code, pc, is_start)?;
    }
    Ok(())
}

/// Puts the array type that the instruction at a place makes behind a list, if one begins there.
fn add_made_at(
    alloc: Global,
    list: &mut Vec<Name>,
    pool: &Pool,
    code: &[u8],
    pc: usize,
    is_start: bool,
) -> Result<(), NoMemory>
    requires { pc < length code.now }
    ensures { OnOk result (list.new.items ≡ list.old.items
        ++ (if is_start then made_if pool.now.slots (instruction_at code.now pc) else [])) }
{
    if !is_start {
        return Ok(());
    }
    match decode(code, pc) {
        Ok((instr, _)) => add_made(alloc, list, pool, &instr),
        Err(_) => Ok(()),
    }
}

ghost use Rattle.std.specs.Prelude.{if◌then◌else◌};
ghost use Rattle.et_code.specs.Decoding.{instruction_at};
ghost use Rattle.et_program.specs.ArrayTypes.{made_if, if_array};

/// Whether a place is flagged.
fn is_flagged(flags: &[bool], place: usize) -> bool
    ensures { result ≡ flag flags.now place }
{
    place < flags.len() && flags[place]
}

ghost use Rattle.et_code.specs.Rules.{flag};

/// Puts the array types that the Class entries of a pool name behind a list.
fn add_named(alloc: Global, list: &mut Vec<Name>, pool: &Pool) -> Result<(), NoMemory>
    ensures { OnOk result (list.new.items ≡ list.old.items ++ named_arrays pool.now.slots) }
{
    for place in 0..pool.len() {
        add_if_array(alloc, list, pool.class_name_at(place))?;
    }
    Ok(())
}

/// Puts a name behind a list, if there is one and it is that of an array type.
fn add_if_array(alloc: Global, list: &mut Vec<Name>, name: Option<&[u8]>) -> Result<(), NoMemory>
    ensures { OnOk result (list.new.items
        ≡ list.old.items ++ option_to_list (if_array (option_map (λ s. s.now) name.entry))) }
{
    let Some(name) = name else {
        return Ok(());
    };
    if is_array_name(name) {
        let copy = Name::of(alloc, name)?;
        list.push(copy)?;
    }
    Ok(())
}

/// Puts the array types that the code of a method makes behind a list.
fn add_made_in_method(
    alloc: Global,
    list: &mut Vec<Name>,
    pool: &Pool,
    code: &Option<Code>,
) -> Result<(), NoMemory>
    ensures { OnOk result
        (list.new.items ≡ list.old.items ++ made_in_method pool.now.slots code.now) }
{
    match code {
        Some(code) => add_made_in(alloc, list, pool, code.raw().code.as_slice()),
        None => Ok(()),
    }
}

/// Puts the array types that a file names or makes behind a list.
fn add_file_arrays(alloc: Global, list: &mut Vec<Name>, file: &ClassFile) -> Result<(), NoMemory>
    ensures { OnOk result (list.new.items ≡ list.old.items ++ file_arrays (loaded_file file.now)) }
{
    add_named(alloc, list, &file.pool)?;
    for method in &file.methods {
        add_made_in_method(alloc, list, &file.pool, &method.code)?;
    }
    Ok(())
}

/// The array types that the files name or make, behind that of the arguments of `main`.
pub(crate) fn arrays_met(alloc: Global, files: &[ClassFile]) -> Result<Vec<Name>, NoMemory>
    ensures { IfOk result (λ met. met.items ≡ arrays_met (map loaded_file files.now)) }
{
    let mut met = Vec::new(alloc);
    let first = Name::of(alloc, b"[Ljava/lang/String;")?;
    met.push(first)?;
    for file in files {
        add_file_arrays(alloc, &mut met, file)?;
    }
    Ok(met)
}

/// The type that a descriptor without dimensions stands for, if it is a base type or of the set.
fn leaf_at(places: &NameIndex, text: &[u8]) -> Option<Leaf>
    ensures { result ≡ leaf_at (number_of_name places.now) text.now }
{
    match text {
        [] => None,
        [b'L', rest @ ..] => {
            let end = rest.len().saturating_sub(1);
            match places.find(&rest[..end]) {
                Some(class) => Some(Leaf::Class(ClassId::new(class))),
                None => None,
            }
        }
        [letter, ..] => match base_kind(*letter) {
            Some(kind) => Some(Leaf::Base(kind)),
            None => None,
        },
    }
}

/// The type under the dimensions of an array type.
pub(crate) fn leaf_of(places: &NameIndex, name: &[u8]) -> Option<Leaf>
    ensures { result ≡ leaf_of (number_of_name places.now) name.now }
{
    let from = dimensions(name);
    leaf_at(places, &name[from..])
}
