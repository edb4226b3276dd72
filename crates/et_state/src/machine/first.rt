//! The first state of a program.
ghost use Rattle.std.specs.Prelude.{◌≡◌, ◌<◌, [], length, IfOk};
ghost use Rattle.et_state.specs.State.{kept_of};
ghost use Rattle.et_state.specs.Start.{argument_class as class_of_arguments, first_class_state as state_of_class, class_states_from, start};

use crate::class_state::ClassState;
use crate::machine::Machine;
use et_base::{ClassId, NoMemory, Value};
use et_program::{Program, boot_count};
use std::alloc::Global;

/// The class of the array of arguments, `[Ljava/lang/String;`, which each program that files are linked to has; class 0 where a
/// program has none.
pub fn argument_class(program: &Program) -> ClassId
    ensures { result ≡ class_of_arguments program.now }
{
    program
        .resolve_class(b"[Ljava/lang/String;")
        .unwrap_or(ClassId::new(0))
}

/// How far a class is at first.
fn first_class_state(program: &Program, class: ClassId) -> ClassState
    requires { class < length program.now.classes }
    ensures { result ≡ state_of_class program.now class }
{
    let behind = class.number() as usize >= boot_count();
    if behind && program.pool(class).is_some() {
        ClassState::Untouched
    } else {
        ClassState::Done
    }
}

/// How far each class is at first.
fn class_states(alloc: Global, program: &Program) -> Result<Vec<ClassState>, NoMemory>
    ensures { IfOk result
        (λ states. states.items ≡ class_states_from program.now 0 (length program.now.classes)) }
{
    let mut states = Vec::new(alloc);
    'classes: for class in 0..program.class_count() {
        let state = first_class_state(program, ClassId::new(class));
        states.push(state)?;
    }
    Ok(states)
}

impl Machine {
    /// The machine of a program before its first event. It keeps the first state: object 1 is the argument array, of class
    /// `[Ljava/lang/String;` and length 0, and thread 0 has it in its entry slot and is not entered; nothing else was made,
    /// each static slot has its default value, and no class of a file has begun to be initialized (JVMS 2.3, 2.4, 5.2, 5.5).
    /// The only error is want of memory.
    pub fn begin(alloc: Global, program: &Program) -> Result<Machine, NoMemory>
        ensures state { IfOk result (λ machine. kept_of machine ≡ start program.now) }
        ensures lost { IfOk result (λ machine. machine.lost ≡ []) }
    {
        let classes = class_states(alloc, program)?;
        let statics = vec![in alloc; Value::Unset; program.statics().len()]?;
        Machine::of(alloc, argument_class(program), classes, statics)
    }
}
