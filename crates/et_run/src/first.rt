//! The records of the first state.
ghost use Rattle.std.specs.Prelude.{◌≡◌, List, length, All, IfOk};
ghost use Rattle.et_state.specs.Naming.{Names, IsNamed};
ghost use Rattle.et_event.specs.Start.{start_records};
ghost use Rattle.et_program.specs.Loaded.{LoadedClass};
ghost use Rattle.et_program.specs.ProgramOf.{IsProgramOf};

use et_base::NoMemory;
use et_program::Program;
use et_state::{Lines, Record, argument_class};
use std::alloc::Global;

/// The records of the first state: the argument array is made, of 24 bytes. They name a class of each program that files are
/// linked to. The only error is want of memory.
pub fn start_lines(alloc: Global, program: &Program) -> Result<Lines, NoMemory>
    ensures records { IfOk result (λ lines. lines ≡ start_records program.now) }
    ensures named { (names : Names) (files : List LoadedClass) →
        names.class_count ≡ length program.now.classes →
        IsProgramOf files program.now → IfOk result (λ lines. All (IsNamed names) lines) }
{
    let mut lines = Lines::begin(alloc);
    lines.push(Record::Alloc {
        event: 0,
        thread: 0,
        object: 1,
        class: argument_class(program),
        size: 24,
        length: 0,
    })?;
    Ok(lines)
}
