//! Quiet classes: those for which nothing is to be run.
ghost use Rattle.std.specs.Prelude.{◌≡◌, ℕ, ◌<◌, ◌++◌, true, OnOk, length};
ghost use Rattle.et_base.specs.declared.value.Value.TheVariants.{Unset};
ghost use Rattle.et_state.specs.Threads.{lost_room};
ghost use Rattle.et_state.specs.State.{kept_of};
ghost use Rattle.et_state.specs.Words.{begun, static_at};
ghost use Rattle.et_event.specs.Moments.{moment, fits_heap};
ghost use Rattle.et_event.specs.Initialization.{constants_set, quietly_done};
ghost use Rattle.et_event.specs.InitializationOrder.{IsInOrder};
ghost use Rattle.et_initialize.specs.Asked.{MayPrepare, MaySet, after};
ghost use Rattle.et_event.specs.Telling.{so_far, StandsAt};
ghost use Rattle.et_initialize.specs.Under.{IsInitializing, class_of_slot};

use crate::constants::set_field;
use et_base::{ClassId, NoMemory, ThreadId};
use et_program::Program;
use et_state::{ClassState, Lines, Machine};

/// Sets the constants of a class whose static fields were not written, in the order of the file.
pub(crate) fn set_constants(
    program: &Program,
    machine: &mut Machine,
    thread: ThreadId,
    class: ClassId,
    out: &mut Lines,
) -> Result<(), NoMemory>
    requires sets { MaySet program.now machine.old }
    requires class { class < length program.now.classes }
    requires unset { (i : ℕ) → i < length program.now.statics →
        class_of_slot program.now i ≡ class → static_at machine.old.guest i ≡ Unset }
    requires fits { fits_heap (constants_set (moment program.now machine.old thread) class
        (so_far machine.old out.old)).state.heap ≡ true }
    ensures { OnOk result (StandsAt (constants_set (moment program.now machine.old thread)
        class
        (so_far machine.old out.old)) machine.old machine.new out.new) }
{
    let constants = program.class(class).constants.as_slice();
    for k in 0..constants.len() {
        set_field(program, machine, thread, constants[k], out)?;
    }
    Ok(())
}

/// In the event under way, each untouched class that is initialized with a quiet class, and then this itself, becomes done:
/// its constants are set in the order of the file, and a string is made at its first use (JVMS 4.7.2, 5.1). All that is made
/// fits. After `NoMemory` the event is half done, and machine and records may only be dropped.
pub fn set_quietly(
    program: &Program,
    machine: &mut Machine,
    thread: ThreadId,
    class: ClassId,
    out: &mut Lines,
) -> Result<(), NoMemory>
    requires program { IsInOrder program.now }
    requires class { class < length program.now.classes }
    requires ready { IsInitializing program.now (kept_of machine.old) }
    requires lost { length machine.old.lost < lost_room }
    requires fits { fits_heap (quietly_done (moment program.now machine.old thread) class
        (so_far machine.old out.old)).state.heap ≡ true }
    ensures { OnOk result (StandsAt (quietly_done (moment program.now machine.old thread) class
        (so_far machine.old out.old)) machine.old machine.new out.new) }
{
    let order = program.init_order(class);
    for k in 0..order.len() {
        let next = order[k];
        let ClassState::Untouched = machine.class_state(next) else {
            continue;
        };
        machine.set_class_state(next, ClassState::Done);
        set_constants(program, machine, thread, next, out)?;
    }
    Ok(())
}

/// An event begins, in which the quiet ones among these classes become done (JVMS 5.5). All fits. After `NoMemory` the event
/// is half done, and machine and records may only be dropped.
pub fn begin_prepared(
    program: &Program,
    machine: &mut Machine,
    thread: ThreadId,
    classes: &[ClassId],
    out: &mut Lines,
) -> Result<(), NoMemory>
    requires prepares { MayPrepare program.now machine.old classes.now }
    requires fits { fits_heap (after program.now machine.old thread classes.now).state.heap
        ≡ true }
    ensures { OnOk result (StandsAt (record {
      state = (after program.now machine.old thread classes.now).state;
      records = out.old ++ (after program.now machine.old thread classes.now).records;
    })
        (begun machine.old) machine.new out.new) }
{
    machine.begin_event();
    for k in 0..classes.len() {
        let class = classes[k];
        let ClassState::Untouched = machine.class_state(class) else {
            continue;
        };
        set_quietly(program, machine, thread, class, out)?;
    }
    Ok(())
}
