//! The operands of the topmost frame, taken and put.
ghost use Rattle.std.specs.Prelude.{◌≡◌, ◌+◌, ◌-◌, ◌<◌, ◌≤◌, ◌^◌, ◌++◌, [], length, drop, take as first};
ghost use Rattle.et_heap.specs.Refs.{refs_of};
ghost use Rattle.et_state.specs.Threads.{popped, lost_room};
ghost use Rattle.et_state.specs.State.{kept_of};
ghost use Rattle.et_state.specs.Words.{HasFrame, top, with_top, ticked, steps_top};
ghost use Rattle.et_state.specs.Sound.{IsSound};
ghost use Rattle.et_state.specs.Moves.{Led};
ghost use Rattle.et_event.specs.Tops.{AreIn};

use et_base::{ThreadId, Value};
use et_state::Machine;

/// Takes so many operands.
#[inline(always)]
pub fn take(machine: &mut Machine, thread: ThreadId, count: u32)
    requires frame { HasFrame machine.old.guest thread }
    requires operands { count ≤ length (top machine.old.guest thread).operands }
    requires lost { length machine.old.lost + count ≤ lost_room }
    ensures { machine.new
        ≡ steps_top machine.old thread (popped count (top machine.old.guest thread))
        (refs_of (first count (top machine.old.guest thread).operands)) }
{
    for _ in 0..count {
        machine.pop(thread);
    }
}

/// Puts these operands on top, the first of them topmost.
#[inline(always)]
pub fn give(machine: &mut Machine, thread: ThreadId, values: &[Value])
    requires frame { HasFrame machine.old.guest thread }
    requires room { length values.now + length (top machine.old.guest thread).operands
        ≤ (top machine.old.guest thread).room }
    ensures { machine.new ≡ steps_top machine.old thread (record (top machine.old.guest thread)
        { operands = values.now ++ (top machine.old.guest thread).operands }) [] }
{
    for k in 0..values.len() {
        machine.push(thread, values[values.len() - 1 - k]);
    }
}

/// The event in which so many operands are taken, these are put in their place, the first of them topmost, and the pc goes
/// on. The references among them stood in the frame.
#[inline(always)]
pub fn put(machine: &mut Machine, thread: ThreadId, taken: u32, values: &[Value], pc: u32)
    requires frame { HasFrame machine.old.guest thread }
    requires sound { IsSound (kept_of machine.old) }
    requires clock { machine.old.guest.clock < 2 ^ 40 }
    requires operands { taken ≤ length (top machine.old.guest thread).operands }
    requires few { taken ≤ 16 }
    requires room { length values.now + length (drop taken (top machine.old.guest thread).operands)
        ≤ (top machine.old.guest thread).room }
    requires there { AreIn (top machine.old.guest thread) values.now }
    ensures { Led (kept_of machine.old)
        (record {
          heap = machine.old.heap;
          guest = with_top (ticked machine.old.guest) thread
              (record (top machine.old.guest thread) {
                pc = pc;
                operands = values.now
                    ++ drop taken (top machine.old.guest thread).operands;
              });
        }) machine.new }
{
    machine.begin_event();
    take(machine, thread, taken);
    give(machine, thread, values);
    machine.set_pc(thread, pc);
}
