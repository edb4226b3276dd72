//! The handler of an exception (JVMS 2.10, 4.7.3).
ghost use Rattle.std.specs.Prelude.{◌≡◌, ◌+◌, ◌<◌, ◌^◌, Some, length, find, option_map};
ghost use Rattle.et_class.specs.Looks.{class_name_at};
ghost use Rattle.et_code.specs.declared.body.TableRow.{TableRow as Row};
ghost use Rattle.et_program.specs.Referring.{pool_of_class};
ghost use Rattle.et_state.specs.Words.{HasFrame, top};
ghost use Rattle.et_event.specs.Throw.{is_above_or_same, catches_name, catches as catches_there, handler_of};
ghost use Rattle.et_event.specs.Places.{Runs};
ghost use Rattle.et_event.specs.Interfaces.{KnowsInterfaces};

use crate::frames::table_of;
use et_base::{ClassId, ThreadId};
use et_class::flags::{INTERFACE, has};
use et_code::TableRow;
use et_event::method_of;
use et_program::Program;
use et_state::Machine;

/// Whether a class is the other one, or has it as a superclass.
fn is_at_or_below(program: &Program, class: ClassId, above: ClassId) -> bool
    requires class { class < length program.now.classes }
    requires above { above < length program.now.classes }
    requires interfaces { KnowsInterfaces program.now }
    ensures { result ≡ is_above_or_same program.now class (Some above) }
{
    let interface = has(program.class(above).flags, INTERFACE);
    class == above || (!interface && program.is_subclass(class, above))
}

/// Whether the catch type at an index of the pool of a method's class catches an exception of a class, as it was resolved when
/// the program was linked. An interface, and what is no class of the program, catches nothing.
fn is_caught_by(program: &Program, method_class: ClassId, index: u16, class: ClassId) -> bool
    requires method_class { method_class < length program.now.classes }
    requires class { class < length program.now.classes }
    requires interfaces { KnowsInterfaces program.now }
    ensures { result ≡ catches_name program.now class
        (class_name_at (pool_of_class program.now method_class) index) }
{
    match program.class_at_index(method_class, index) {
        Some(Ok(above)) => is_at_or_below(program, class, above),
        Some(Err(_)) | None => false,
    }
}

/// Whether a row of the exception table of a method handles an exception of a class at a pc.
fn catches(program: &Program, method_class: ClassId, pc: u32, class: ClassId, row: TableRow) -> bool
    requires method_class { method_class < length program.now.classes }
    requires class { class < length program.now.classes }
    requires interfaces { KnowsInterfaces program.now }
    ensures { result
        ≡ catches_there program.now (pool_of_class program.now method_class) pc class row }
{
    row.start as u32 <= pc
        && pc < row.end as u32
        && (row.catch == 0 || is_caught_by(program, method_class, row.catch, class))
}

/// Where the first of these rows, those of a method, that handles an exception of a class at a pc has its handler.
fn first_handler(
    program: &Program,
    method_class: ClassId,
    pc: u32,
    class: ClassId,
    rows: &[TableRow],
) -> Option<u32>
    requires method_class { method_class < length program.now.classes }
    requires class { class < length program.now.classes }
    requires interfaces { KnowsInterfaces program.now }
    ensures { result ≡ option_map (λ (row : Row). row.handler) (find
        (catches_there program.now (pool_of_class program.now method_class) pc class)
        rows.now) }
{
    let row = rows
        .iter()
        .find(|row| catches(program, method_class, pc, class, **row))?;
    Some(row.handler as u32)
}

/// Where the handler of an exception of a class begins in the method that a frame runs: that of the first row of its
/// exception table whose range has the pc, and which catches all, or the class or one above it. What stands in the frame has
/// room on the list of the lost objects.
#[tactic(auto, using(crate::proofs::Handling::handler_found, crate::proofs::Handling::small_frame))]
pub(crate) fn handler(
    program: &Program,
    machine: &Machine,
    thread: ThreadId,
    class: ClassId,
) -> Option<u32>
    requires frame { HasFrame machine.now.guest thread }
    requires runs { Runs program.now (top machine.now.guest thread) }
    requires class { class < length program.now.classes }
    requires interfaces { KnowsInterfaces program.now }
    ensures row { result ≡ option_map
        (λ (row : Row). row.handler) (handler_of program.now (top machine.now.guest thread) class) }
    ensures small { length (top machine.now.guest thread).locals
        + length (top machine.now.guest thread).operands < 2 ^ 17 }
{
    let method = method_of(program, machine, thread);
    let pc = machine.pc(thread);
    first_handler(program, method.class, pc, class, table_of(method))
}
