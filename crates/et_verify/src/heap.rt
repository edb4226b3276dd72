//! What the instructions on fields, arrays, classes and constants take of the operands, and give (JVMS 6.5).
ghost use Rattle.std.specs.Prelude.{◌≡◌, ◌<◌, ◌^◌, IfOk, option_map, replicate};
ghost use Rattle.et_event.specs.PoolOperands.Operand.TheVariants as kinds;
ghost use Rattle.et_event.specs.Sites.{natural_of, constant_at, pool_index};
ghost use Rattle.et_event.specs.declared.rows.HeapRow.TheVariants as heap;
ghost use Rattle.et_verify.specs.Effects.{constant_effect, field_read, field_type as type_of_field, field_written, giving, heap_effect, kind_of_constant, naming_class as where_class, NamesWithin};
ghost use Rattle.et_verify.specs.Named.{descriptor_in as descriptor_of};
ghost use Rattle.et_verify.specs.Steps.{IsMove, below_taken, moved_where};

use crate::effects::{
    INT, INT_ON_REFERENCE, NONE, REFERENCE, into_array, kind_of_elements, kind_of_result,
    on_reference, one_of,
};
use crate::operands::{exchange, give, take};
use et_base::NoMemory;
use et_event::{HeapRow, Operand, Site, class_operand, index_of};
use et_flow::Types;
use et_pool::{Pool, kind_of};
use et_program::Program;

/// The descriptor of the member that the entry at an index of a pool gives, whatever its owner and its name.
#[inline]
fn descriptor_in(pool: &Pool, index: u16) -> Option<&[u8]>
    ensures { option_map (λ s. s.now) result ≡ descriptor_of pool.now.slots index }
{
    let (_owner, named) = pool.member(index)?;
    let (_name, descriptor) = pool.name_and_type(named)?;
    pool.utf8(descriptor)
}

/// The descriptor of the member that an instruction names, whatever its owner and its name.
#[inline]
fn descriptor_at<'a>(site: &Site<'a>) -> Option<&'a [u8]>
    requires { natural_of site.now.instr.first < 2 ^ 16 }
    ensures { option_map (λ s. s.now) result
        ≡ descriptor_of site.now.pool (pool_index site.now) }
{
    match site.pool() {
        Some(pool) => descriptor_in(pool, index_of(site)),
        None => None,
    }
}

/// The type of the field that an instruction names; `None` where it names none. Whether its text is one was found out as the
/// program was linked.
fn field_type<'a>(program: &Program, site: &Site<'a>) -> Option<&'a [u8]>
    requires { NamesWithin program.now site.now }
    ensures { option_map (λ s. s.now) result ≡ type_of_field site.now }
{
    if !program.is_field_at_index(site.class(), index_of(site)) {
        return None;
    }
    descriptor_at(site)
}

/// Takes operands of kinds, the topmost first, and gives what a field holds. `false` where no field is named, or the operands
/// aren't there.
#[inline]
fn read_field(
    types: &mut Types,
    program: &Program,
    site: &Site<'_>,
    taken: &[Operand],
) -> Result<bool, NoMemory>
    requires { NamesWithin program.now site.now }
    ensures { IfOk result
        (IsMove (moved_where (field_read site.now taken.now)) types.old types.new) }
{
    let Some(descriptor) = field_type(program, site) else {
        return Ok(false);
    };
    let done = exchange(types, taken, Some(kind_of_result(descriptor)))?;
    Ok(done)
}

/// Takes what is written to a field, and under it the object, if the field is no static one. `false` where no field is named,
/// or the operands aren't there.
fn write_field(
    types: &mut Types,
    program: &Program,
    site: &Site<'_>,
    is_static: bool,
) -> Result<bool, NoMemory>
    requires { NamesWithin program.now site.now }
    ensures { IfOk result
        (IsMove (moved_where (field_written site.now is_static)) types.old types.new) }
{
    let Some(descriptor) = field_type(program, site) else {
        return Ok(false);
    };
    let Some(kind) = kind_of(descriptor) else {
        return Ok(false);
    };
    let taken = if is_static {
        one_of(kind)
    } else {
        on_reference(kind)
    };
    let done = exchange(types, taken, None)?;
    Ok(done)
}

/// Takes operands of kinds, the topmost first, and gives one. `false` where the instruction names no class, or the operands
/// aren't there.
fn step_class(
    types: &mut Types,
    site: &Site<'_>,
    taken: &[Operand],
    given: Operand,
) -> Result<bool, NoMemory>
    requires { natural_of site.now.instr.first < 2 ^ 16 }
    ensures { IfOk result
        (IsMove (moved_where (where_class site.now (giving taken.now given))) types.old types.new) }
{
    if class_operand(site).is_none() {
        return Ok(false);
    }
    let done = exchange(types, taken, Some(given))?;
    Ok(done)
}

/// Takes so many ints. `false` where they aren't there; some entries may be gone then.
fn take_ints(types: &mut Types, count: usize) -> bool
    ensures { IsMove (below_taken (replicate count kinds.Int)) types.old types.new result }
{
    for _int in 0..count {
        if !take(types, Operand::Int) {
            return false;
        }
    }
    true
}

/// `multianewarray`: the lengths, and the array. `false` where the instruction names no class, or the lengths aren't there.
fn step_multi(types: &mut Types, site: &Site<'_>) -> Result<bool, NoMemory>
    requires { natural_of site.now.instr.first < 2 ^ 16 }
    ensures { IfOk result
        (IsMove (moved_where (heap_effect site.now heap.NewMultiArray)) types.old types.new) }
{
    if class_operand(site).is_none() {
        return Ok(false);
    }
    let dimensions = usize::try_from(site.instr().second).unwrap_or(0);
    if !take_ints(types, dimensions) {
        return Ok(false);
    }
    give(types, Operand::Reference)?;
    Ok(true)
}

/// What an instruction on fields, arrays and classes takes, and gives. `false` where it doesn't accept the operands; some
/// entries may be gone then.
pub(crate) fn step_heap(
    types: &mut Types,
    program: &Program,
    site: &Site<'_>,
    row: HeapRow,
) -> Result<bool, NoMemory>
    requires { NamesWithin program.now site.now }
    ensures { IfOk result (IsMove (moved_where (heap_effect site.now row)) types.old types.new) }
{
    let done = match row {
        HeapRow::GetStatic => read_field(types, program, site, &NONE)?,
        HeapRow::PutStatic => write_field(types, program, site, true)?,
        HeapRow::GetField => read_field(types, program, site, &REFERENCE)?,
        HeapRow::PutField => write_field(types, program, site, false)?,
        HeapRow::LoadElement(elements) => {
            exchange(types, &INT_ON_REFERENCE, Some(kind_of_elements(elements)))?
        }
        HeapRow::StoreElement(elements) => {
            exchange(types, into_array(kind_of_elements(elements)), None)?
        }
        HeapRow::New => step_class(types, site, &NONE, Operand::Reference)?,
        HeapRow::NewArray => exchange(types, &INT, Some(Operand::Reference))?,
        HeapRow::NewReferenceArray => step_class(types, site, &INT, Operand::Reference)?,
        HeapRow::NewMultiArray => step_multi(types, site)?,
        HeapRow::ArrayLength => exchange(types, &REFERENCE, Some(Operand::Int))?,
        HeapRow::CheckCast => step_class(types, site, &REFERENCE, Operand::Reference)?,
        HeapRow::InstanceOf => step_class(types, site, &REFERENCE, Operand::Int)?,
    };
    Ok(done)
}

/// The kind of the constant at an index of a pool; `None` where that is no constant.
fn constant_kind(pool: &Pool, index: u16) -> Option<Operand>
    ensures { result ≡ option_map kind_of_constant (constant_at pool.now.slots index) }
{
    if pool.integer(index).is_some() {
        Some(Operand::Int)
    } else if pool.long(index).is_some() {
        Some(Operand::Long)
    } else if pool.string(index).is_some() {
        Some(Operand::Reference)
    } else {
        None
    }
}

/// The kind of the constant that an instruction loads; `None` where it names none.
fn loaded_kind(site: &Site<'_>) -> Option<Operand>
    requires { natural_of site.now.instr.first < 2 ^ 16 }
    ensures { result ≡ option_map kind_of_constant
        (constant_at site.now.pool (natural_of site.now.instr.first)) }
{
    match site.pool() {
        Some(pool) => constant_kind(pool, index_of(site)),
        None => None,
    }
}

/// A constant of the pool is loaded. `false` where the instruction names none.
pub(crate) fn step_constant(types: &mut Types, site: &Site<'_>) -> Result<bool, NoMemory>
    requires { natural_of site.now.instr.first < 2 ^ 16 }
    ensures { IfOk result (IsMove (moved_where (constant_effect site.now)) types.old types.new) }
{
    let Some(kind) = loaded_kind(site) else {
        return Ok(false);
    };
    give(types, kind)?;
    Ok(true)
}
