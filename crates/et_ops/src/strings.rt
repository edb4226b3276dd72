//! The strings of constants (JVMS 5.1).
ghost use Rattle.std.specs.Prelude.{◌≡◌, ℕ, ◌<◌, ◌^◌, ◌∷◌, true, List, Option, Some, IfOk, OnErr, length};
ghost use Rattle.et_base.specs.declared.value.Value.TheVariants.{Ref};
ghost use Rattle.et_pool.specs.Entries.{Item};
ghost use Rattle.et_code.specs.declared.instr.Instr.{Instr as Decoded};
ghost use Rattle.et_heap.specs.Objects.{IsHeld};
ghost use Rattle.et_state.specs.State.{kept_of};
ghost use Rattle.et_state.specs.Words.{HasFrame, top, with_top, ticked};
ghost use Rattle.et_state.specs.Sound.{IsSound};
ghost use Rattle.et_state.specs.Moves.{Led};
ghost use Rattle.et_event.specs.Answered.{EventAnswers};
ghost use Rattle.et_event.specs.Moments.{fits_heap, moment};
ghost use Rattle.et_event.specs.Plain.{constant};
ghost use Rattle.et_event.specs.Sites.{AString};

use et_base::{NoMemory, ObjectId, ThreadId, Value};
use et_event::{class_called, ill_typed, make_instance};
use et_program::{BuiltInClass, Program};
use et_state::{EventEnd, Lines, Machine};

/// The event in which the string of a constant that has its object is pushed.
fn push_string(machine: &mut Machine, thread: ThreadId, object: ObjectId, next: u32)
    requires frame { HasFrame machine.old.guest thread }
    requires sound { IsSound (kept_of machine.old) }
    requires clock { machine.old.guest.clock < 2 ^ 40 }
    requires room { length (top machine.old.guest thread).operands
        < (top machine.old.guest thread).room }
    requires object { IsHeld machine.old.heap object }
    ensures { Led (kept_of machine.old) (record {
      heap = machine.old.heap;
      guest = with_top
          (ticked machine.old.guest) thread (record (top machine.old.guest thread) {
            pc = next;
            operands = Ref object ∷ (top machine.old.guest thread).operands;
          });
    }) machine.new }
{
    machine.begin_event();
    machine.push(thread, Value::Ref(object));
    machine.set_pc(thread, next);
}

/// The event in which the string of these bytes is pushed, in front of the pc `next`. Its object is made where there is none
/// yet. After `NoMemory` the machine may have one object more, to which nothing refers, and there may be its record; all
/// else is as before.
pub(crate) fn string_event(
    program: &Program,
    machine: &mut Machine,
    thread: ThreadId,
    bytes: &[u8],
    next: u32,
    out: &mut Lines,
) -> Result<EventEnd, NoMemory>
    requires short { length bytes.now < 2 ^ 16 }
    requires frame { HasFrame machine.old.guest thread }
    requires sound { IsSound (kept_of machine.old) }
    requires clock { machine.old.guest.clock < 2 ^ 40 }
    requires fits { fits_heap machine.old.heap ≡ true }
    ensures ok { IfOk result (λ end. (instr : Decoded) (code : List ℕ) (pool : List (Option Item))
        (class : ℕ) → EventAnswers (constant (moment program.now machine.old thread)
        (record { instr = instr; next = next; code = code; pool = pool; class = class })
        (Some (AString bytes.now))) end machine.old machine.new out.old out.new) }
    ensures err { OnErr result (machine.new.guest ≡ machine.old.guest) }
{
    if machine.depth(thread) >= machine.room(thread) as u32 {
        return Ok(ill_typed(machine, thread));
    }
    if let Some(object) = machine.interned(bytes) {
        push_string(machine, thread, object, next);
        return Ok(EventEnd::Done);
    }
    let class = class_called(program, BuiltInClass::String);
    let Some(made) = make_instance(program, machine, thread, class, out)? else {
        return Ok(EventEnd::ObjectLimit);
    };
    machine.intern(bytes, made)?;
    machine.begin_event();
    machine.push(thread, Value::Ref(made));
    machine.set_pc(thread, next);
    Ok(EventEnd::Done)
}
