//! A plain instruction of a thread that changes nothing but the topmost frame, as an event of the machine.
ghost use Rattle.std.specs.Prelude.{◌≡◌, ◌+◌, ◌<◌, ◌≤◌, ◌^◌, true, length};
ghost use Rattle.et_code.specs.Switches.{IsSwitch};
ghost use Rattle.et_state.specs.State.{kept_of};
ghost use Rattle.et_state.specs.Sound.{IsSound};
ghost use Rattle.et_state.specs.Threads.{lost_room, most_frames};
ghost use Rattle.et_state.specs.Words.{HasFrame, losing, thread_at, top};
ghost use Rattle.et_event.specs.declared.rows.FrameRow.TheVariants as frame_rows;
ghost use Rattle.et_event.specs.declared.rows.Row.TheVariants as rows;
ghost use Rattle.et_event.specs.PlainRows.{is_plain};
ghost use Rattle.et_event.specs.Sites.{natural_of};
ghost use Rattle.et_ops.specs.Plain.{DoesPlain, RunsPlain};

use crate::constants::push_constant;
use crate::divisions::divide;
use crate::ends::{PlainEnd, end_of};
use crate::frames::{frame_event, natural};
use et_base::{ObjectId, ThreadId};
use et_event::{Place, Row};
use et_state::{Machine, Running};

/// Adds the objects to those that the event has lost.
pub fn lose_each(machine: &mut Machine, objects: &[ObjectId])
    requires { length machine.old.lost + length objects.now ≤ lost_room }
    ensures { machine.new ≡ losing machine.old objects.now }
{
    'each: for object in objects {
        machine.lose(*object);
    }
}

/// Does the plain instruction at a place, over the frame that runs.
#[inline(always)]
fn plain_step(running: &mut Running, place: &Place<'_>) -> PlainEnd
    requires pc { running.old.frame.pc < 2 ^ 31 }
    requires switch { place.now.row ≡ rows.Frame frame_rows.Switch →
        IsSwitch place.now.site.code place.now.site.instr }
    requires index { place.now.row ≡ rows.PoolConstant →
        natural_of place.now.site.instr.first < 2 ^ 16 }
    requires plain { is_plain place.now.row ≡ true }
    ensures { RunsPlain place.now.site place.now.row result running.old running.new }
{
    match place.row {
        Row::Frame(row) => end_of(frame_event(
            running,
            &row,
            place.site.code(),
            place.site.instr(),
            place.site.next(),
        )),
        Row::PoolConstant => {
            let index = natural(place.site.instr().first) as u16;
            push_constant(running, place.site.pool(), index, place.site.next())
        }
        Row::Divide(number, division) => divide(running, number, division, place.site.next()),
        Row::Heap(_) | Row::Call(_) | Row::Throw | Row::Monitor(_) => unreachable!(),
    }
}

/// The event of the plain instruction at a place, where it changes nothing but the topmost frame: it is done over the
/// frames of the thread while they are lifted out of the machine, and a legal step leads to the state after it. Where it has no
/// meaning or changes more, the machine is as before.
pub(crate) fn plain_done(machine: &mut Machine, thread: ThreadId, place: &Place<'_>) -> PlainEnd
    requires frame { HasFrame machine.old.guest thread }
    requires sound { IsSound (kept_of machine.old) }
    requires clock { machine.old.guest.clock < 2 ^ 40 }
    requires few { length (thread_at machine.old.guest thread).frames ≤ most_frames }
    requires pc { (top machine.old.guest thread).pc < 2 ^ 31 }
    requires switch { place.now.row ≡ rows.Frame frame_rows.Switch →
        IsSwitch place.now.site.code place.now.site.instr }
    requires index { place.now.row ≡ rows.PoolConstant →
        natural_of place.now.site.instr.first < 2 ^ 16 }
    requires plain { is_plain place.now.row ≡ true }
    ensures { DoesPlain place.now.site place.now.row result thread machine.old machine.new }
{
    let mut running = machine.lift(thread);
    let end = plain_step(&mut running, place);
    if end.is_done() {
        machine.begin_event();
        lose_each(machine, running.lost());
    }
    machine.land(thread, running);
    end
}
