//! The making of a program; below, what is read of the files, the classes, and the array classes.

pub(crate) mod arrays;
pub(crate) mod classes;
pub(crate) mod reading;

ghost use Rattle.std.specs.Prelude.{◌≡◌, ℕ, ◌+◌, ◌<◌, ◌≤◌, ◌^◌, List, length, map, All, IfOk};
ghost use Rattle.std.specs.List.{slice_index_or};
ghost use Rattle.et_program.specs.Indices.{number_of_name};
ghost use Rattle.et_hierarchy.specs.Outline.{class_place};
ghost use Rattle.et_hierarchy.specs.Links.{IsAcyclic, HasLinksWithin};
ghost use Rattle.et_hierarchy.specs.Ancestry.{ancestry_at, IsAncestry, IsBelow};
ghost use Rattle.et_program.specs.declared.info.MethodInfo.{MethodInfo as MethodOf};
ghost use Rattle.et_program.specs.declared.info.FieldInfo.{FieldInfo as FieldOf};
ghost use Rattle.et_program.specs.Tables.{IsTabled};
ghost use Rattle.et_program.specs.Linking.{IsLinked};
ghost use Rattle.et_program.specs.Loaded.{LoadedClass, loaded_file};
ghost use Rattle.et_program.specs.Slots.{own_slots, slots_above, places_from};
ghost use Rattle.et_program.specs.Heads.{has_to_run, initializer_of, constants_of};
ghost use Rattle.et_program.specs.ArrayTypes.{array_names};
ghost use Rattle.et_link.specs.Naming.{IsIndexFrom};
ghost use Rattle.et_program.specs.ProgramOf.{is_of_file};
ghost use Rattle.et_link.specs.Known.{heads_in, AreSized};
ghost use Rattle.et_program.specs.MembersOf.{methods_of};
ghost use Rattle.et_link.specs.Refusals.{linked_by};

use crate::fault::LinkFault;
use crate::linking::arrays::arrays_met;
use crate::linking::classes::{Known, all_classes};
use crate::linking::reading::{Declared, Hierarchy, Parts};
use crate::members::outlines::{class_flags, outlines};
use crate::members::slots::{own_slots, place_fields, slots_above, static_fields};
use crate::members::{Members, all_fields, all_members};
use crate::names::boots::boots;
use crate::names::heads::{classes_to_run, constants, initializers};
use crate::names::{array_names, index_set};
use crate::refusal::{check_methods, check_names, refusal};
use et_base::{MethodId, Name, NoMemory};
use et_class::ClassFile;
use et_hierarchy::{ClassOutline, ancestries, class_orders};
use et_program::{FieldInfo, MethodIndex, MethodInfo, Program, Tables};
use std::alloc::Global;

/// Whether a count is below 2^32, so that each place below it has a number.
fn check_count(count: usize) -> Result<(), NoMemory>
    ensures { IfOk result (λ u. count < 2 ^ 32) }
{
    if count <= u32::MAX as usize {
        Ok(())
    } else {
        Err(NoMemory)
    }
}

/// What is known of all classes of the set.
fn know(
    alloc: Global,
    set: &[ClassOutline],
    hierarchy: Hierarchy,
    methods: &[MethodInfo],
    fields: &[FieldInfo],
    met: &[Name],
) -> Result<Known, NoMemory>
    requires table { length hierarchy.table.items ≡ length set.now }
    requires rows { length hierarchy.rows.items ≡ length set.now }
    requires flags { length hierarchy.flags.items ≡ length set.now }
    requires within { HasLinksWithin (length set.now) hierarchy.table.items }
    requires below { (k : ℕ) →
        k < length set.now → IsBelow (length set.now) (ancestry_at hierarchy.rows.items k) }
    requires few { length set.now < 2 ^ 32 }
    requires acyclic { IsAcyclic hierarchy.table.items }
    requires ancestry { IsAncestry hierarchy.table.items hierarchy.rows.items }
    requires methods { All (λ (m : MethodOf). m.class < length set.now) methods.now }
    requires fields { All (λ (f : FieldOf). f.class < length set.now) fields.now }
    requires few_methods { length methods.now < 2 ^ 32 }
    requires few_fields { length fields.now < 2 ^ 32 }
    ensures table { IfOk result (λ x. x.table.items ≡ hierarchy.table.items) }
    ensures rows { IfOk result (λ x. x.rows.items ≡ hierarchy.rows.items) }
    ensures flags { IfOk result (λ x. x.flags.items ≡ hierarchy.flags.items) }
    ensures own { IfOk result (λ x. (k : ℕ) →
        k < length set.now → slice_index_or x.own.items k 0 ≡ own_slots fields.now k) }
    ensures above { IfOk result (λ x. (k : ℕ) → k < length set.now →
        slice_index_or x.above.items k 0 ≡ slots_above fields.now hierarchy.rows.items k) }
    ensures needs { IfOk result
        (λ x. (k : ℕ) → slice_index_or x.needs.items k false ≡ has_to_run methods.now k) }
    ensures clinit { IfOk result (λ x. (k : ℕ) → k < length set.now →
        slice_index_or x.initializers.items k None ≡ initializer_of methods.now k) }
    ensures constants { IfOk result (λ x. (k : ℕ) →
        k < length set.now → slice_index_or x.constants.items k [] ≡ constants_of fields.now k) }
    ensures place { IfOk result
        (λ x. (name : List ℕ) → number_of_name x.places name ≡ class_place set.now name) }
    ensures names { IfOk result
        (λ x. x.arrays.names.items ≡ array_names (number_of_name x.places) met.now) }
    ensures index { IfOk result
        (λ x. IsIndexFrom (length set.now) x.arrays.names.items x.arrays.index) }
    ensures sized { IfOk result AreSized }
{
    let count = set.len();
    let Hierarchy { table, rows, flags } = hierarchy;
    let own = own_slots(alloc, fields, count)?;
    let above = slots_above(alloc, own.as_slice(), rows.as_slice())?;
    let needs = classes_to_run(alloc, methods, count)?;
    let orders = class_orders(alloc, needs.as_slice(), table.as_slice(), rows.as_slice())?;
    let initializers = initializers(alloc, methods, count)?;
    let constants = constants(alloc, fields, count)?;
    let places = index_set(alloc, set)?;
    let arrays = array_names(alloc, &places, count, met)?;
    Ok(Known {
        table,
        rows,
        flags,
        own,
        above,
        needs,
        orders,
        initializers,
        constants,
        places,
        arrays,
    })
}

ghost use Rattle.std.specs.Prelude.{false, None, []};

/// The methods of the files.
fn file_methods(alloc: Global, methods: &[MethodInfo]) -> Result<Vec<MethodId>, NoMemory>
    requires { length methods.now < 2 ^ 32 }
    ensures { IfOk result (λ list. list.items ≡ places_from is_of_file 0 methods.now) }
{
    let mut list = Vec::new(alloc);
    let first = boots();
    for (i, method) in methods.iter().enumerate() {
        if method.class.number() as usize >= first {
            list.push(MethodId::new(i as u32))?;
        }
    }
    Ok(list)
}

/// A program of what is known.
fn assemble(
    alloc: Global,
    set: &[ClassOutline],
    known: &Known,
    parts: Parts,
    main: MethodId,
) -> Result<Program, NoMemory>
    requires set { length set.now ≡ length known.now.table.items }
    requires sized { AreSized known.now }
    requires fields { All (λ (f : FieldOf). f.class < length set.now) parts.fields.items }
    requires few_methods { length parts.methods.items < 2 ^ 32 }
    requires few_fields { length parts.fields.items < 2 ^ 32 }
    requires tabled { IsTabled
        (linked_by (heads_in known.now) set.now known.now.arrays.names.items parts.methods.items
        (λ k. slice_index_or known.now.above.items k 0) parts.fields.items main parts.pools.items) }
    requires linked { IsLinked
        (linked_by (heads_in known.now) set.now known.now.arrays.names.items parts.methods.items
        (λ k. slice_index_or known.now.above.items k 0) parts.fields.items main parts.pools.items) }
    ensures { IfOk result (λ p.
        p ≡ linked_by (heads_in known.now) set.now known.now.arrays.names.items parts.methods.items
        (λ k. slice_index_or known.now.above.items k 0) parts.fields.items main parts.pools.items) }
{
    let Parts {
        methods,
        fields,
        pools,
    } = parts;
    let classes = all_classes(alloc, known, set)?;
    let statics = static_fields(alloc, fields.as_slice())?;
    let fields = place_fields(alloc, fields, known.above.as_slice())?;
    let file_methods = file_methods(alloc, methods.as_slice())?;
    let program = Program::of(
        alloc,
        Tables {
            classes,
            methods,
            fields,
            statics,
            file_methods,
            main,
            pools,
        },
    )?;
    Ok(program)
}

ghost use Rattle.et_class.specs.Classes.{HasItsParts};
ghost use Rattle.et_class.specs.Layout.{ClassOf};
ghost use Rattle.et_link.specs.Declaring.{IsDeclared, IsDeclaredOf, Declares, HasItsFile};
ghost use Rattle.et_program.specs.ProgramOf.{main_of, IsProgramOf};
ghost use Rattle.et_link.specs.Refusals.{Links};
ghost use Rattle.std.specs.Prelude.{Some};

/// What the files declare, or the fault of the names of their classes.
fn declare(alloc: Global, files: Vec<ClassFile>) -> Result<Declared, LinkFault>
    ensures { Declares (map loaded_file files.items) result }
{
    let read = files.as_slice();
    let set = outlines(alloc, read)?;
    check_count(set.len())?;
    let classes = set.as_slice();
    let table = match check_names(alloc, classes) {
        Ok(table) => table,
        Err(fault) => return Err(fault),
    };
    let links = table.as_slice();
    let rows = ancestries(alloc, links)?;
    let flags = class_flags(alloc, read)?;
    let fields = all_fields(alloc, read)?;
    check_count(fields.len())?;
    let met = arrays_met(alloc, read)?;
    let Members { methods, pools } = all_members(alloc, files)?;
    check_count(methods.len())?;
    Ok(Declared {
        set,
        hierarchy: Hierarchy { table, rows, flags },
        parts: Parts {
            methods,
            fields,
            pools,
        },
        met,
    })
}

/// Whether there are few enough classes, so that each has a number.
fn check_classes(set: usize, arrays: usize) -> Result<(), NoMemory>
    ensures { IfOk result (λ u. set + arrays < 2 ^ 32) }
{
    match set.checked_add(arrays) {
        Some(count) => check_count(count),
        None => Err(NoMemory),
    }
}

/// The program of what the files declare.
fn build(alloc: Global, declared: Declared, main: MethodId) -> Result<Program, NoMemory>
    requires { (classes : List ClassOf) × IsDeclaredOf classes declared main }
    ensures { IfOk result (λ p. (files : List LoadedClass) →
        IsDeclared files declared → main_of (methods_of files) ≡ Some main → IsProgramOf files p) }
{
    let Declared {
        set,
        hierarchy,
        parts,
        met,
    } = declared;
    let set = set.as_slice();
    let methods = parts.methods.as_slice();
    let fields = parts.fields.as_slice();
    let known = know(alloc, set, hierarchy, methods, fields, met.as_slice())?;
    check_classes(set.len(), known.arrays.names.len())?;
    let program = assemble(alloc, set, &known, parts, main)?;
    Ok(program)
}

/// Links class files with the built-in classes (JVMS 5.3, 5.4).
///
/// The program has the built-in classes, then the classes of the files in their order, then the array classes. `Ok` comes
/// exactly where no class shows a fault. Otherwise the fault is the one of the least kind that a class shows, with the
/// first class in the order of the files that shows it. Or there was no memory. The first file is the one in which `main`
/// is looked for. Each class has to be that of a class file (JVMS 4.1), as those that are read are: the program keeps that.
pub fn link(alloc: Global, files: Vec<ClassFile>) -> Result<Program, LinkFault>
    requires some { 0 < length files.items }
    requires parts { All HasItsParts files.items }
    requires of_files { All HasItsFile files.items }
    ensures { Links (map loaded_file files.items) result }
{
    let count = files.len();
    let declared = declare(alloc, files)?;
    let set = declared.set.as_slice();
    let rows = declared.hierarchy.rows.as_slice();
    let methods = declared.parts.methods.as_slice();
    let index = MethodIndex::of(alloc, methods)?;
    match check_methods(set, rows, methods, &index, count) {
        Err(late) => Err(refusal(alloc, set, late.0, late.1)),
        Ok(main) => {
            let program = build(alloc, declared, main)?;
            Ok(program)
        }
    }
}
