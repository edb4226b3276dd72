//! The events that need a class to be initialized (JVMS 5.5).
ghost use Rattle.std.specs.Prelude.{◌≡◌, ◌<◌, ◌^◌, ◌++◌, true, length, IfOk, OnOk};
ghost use Rattle.et_heap.specs.Objects.{has_room as room_for};
ghost use Rattle.et_event.specs.Answered.{EventAnswers};
ghost use Rattle.et_event.specs.InitializationOrder.{IsInOrder};
ghost use Rattle.et_event.specs.Sound.{IsSoundFor};
ghost use Rattle.et_state.specs.State.{kept_of};
ghost use Rattle.et_event.specs.Initialization.{quietly_done};
ghost use Rattle.et_event.specs.Moments.{moment, begins, fits_heap};
ghost use Rattle.et_initialize.specs.Under.{base};
ghost use Rattle.et_refs.specs.Asked.{BeginsAccess};
ghost use Rattle.et_refs.specs.Accesses.{objects_in, slots_accessed, access_outcome, wanted_outcome};

use crate::doing::accesses::{Wanted, carry_out, objects_made, slots_made};
use et_base::{NoMemory, ThreadId};
use et_event::{GuestError, Place, throw_error, wait_event};
use et_heap::{MOST_OBJECTS, MOST_SLOTS};
use et_initialize::{Need, begin_class_event, need_of, quiet_fits, set_quietly};
use et_program::Program;
use et_state::{EventEnd, Lines, Machine};
use std::alloc::Global;

/// Whether so many objects, with so many slots in all, may be made.
#[inline(always)]
pub(crate) fn has_room(machine: &Machine, objects: u32, slots: u32) -> bool
    ensures { result ≡ room_for machine.now.heap objects slots }
{
    objects <= MOST_OBJECTS - machine.heap.count() && slots <= MOST_SLOTS - machine.heap.slots()
}

/// Whether what an access makes fits.
fn access_fits(program: &Program, machine: &Machine, wanted: &Wanted) -> bool
    requires { wanted.now.class < length program.now.classes }
    ensures { result ≡ room_for machine.now.heap
        (objects_in wanted.now.access) (slots_accessed program.now wanted.now.class
        wanted.now.access) }
{
    let objects = objects_made(wanted);
    has_room(machine, objects, slots_made(program, wanted))
}

/// The event of an access to a class that is done, or that this thread began.
#[inline(always)]
pub(crate) fn ready_event(
    program: &Program,
    machine: &mut Machine,
    thread: ThreadId,
    place: &Place<'_>,
    wanted: &Wanted,
    out: &mut Lines,
) -> Result<EventEnd, NoMemory>
    requires access { BeginsAccess program.now machine.old thread wanted.now }
    ensures { IfOk result (λ end. EventAnswers
        (access_outcome (moment program.now machine.old thread) place.now.site wanted.now
        (begins (moment program.now machine.old thread)))
        end machine.old machine.new out.old out.new) }
{
    if !access_fits(program, machine, wanted) {
        return Ok(EventEnd::ObjectLimit);
    }
    machine.begin_event();
    carry_out(program, machine, thread, place.site.next(), wanted, out)?;
    Ok(EventEnd::Done)
}

/// An event begins, in which a quiet class becomes done. All fits.
fn begin_quietly(
    program: &Program,
    machine: &mut Machine,
    thread: ThreadId,
    wanted: &Wanted,
    out: &mut Lines,
) -> Result<(), NoMemory>
    requires program { IsInOrder program.now }
    requires class { wanted.now.class < length program.now.classes }
    requires sound { IsSoundFor program.now (kept_of machine.old) }
    requires clock { machine.old.guest.clock < 2 ^ 40 }
    requires fits { fits_heap (quietly_done (moment program.now machine.old thread)
        wanted.now.class
        (begins (moment program.now machine.old thread))).state.heap ≡ true }
    ensures machine { OnOk result (machine.new ≡ base machine.old (quietly_done (moment program.now
        machine.old thread) wanted.now.class (begins (moment program.now machine.old thread)))) }
    ensures records { OnOk result
        (out.new ≡ out.old ++ (quietly_done (moment program.now machine.old thread) wanted.now.class
        (begins (moment program.now machine.old thread))).records) }
{
    machine.begin_event();
    set_quietly(program, machine, thread, wanted.class, out)
}

/// The event of an access to a quiet class, which becomes done first. After `NoMemory` the event may be half done.
fn quiet_event(
    alloc: Global,
    program: &Program,
    machine: &mut Machine,
    thread: ThreadId,
    place: &Place<'_>,
    wanted: &Wanted,
    out: &mut Lines,
) -> Result<EventEnd, NoMemory>
    requires access { BeginsAccess program.now machine.old thread wanted.now }
    ensures { IfOk result (λ end. EventAnswers
        (access_outcome (moment program.now machine.old thread) place.now.site wanted.now
        (quietly_done (moment program.now machine.old thread) wanted.now.class (begins
        (moment program.now machine.old thread)))) end machine.old machine.new out.old out.new) }
{
    let objects = objects_made(wanted);
    let slots = slots_made(program, wanted);
    if !quiet_fits(alloc, program, machine, wanted.class, objects, slots)? {
        return Ok(EventEnd::ObjectLimit);
    }
    begin_quietly(program, machine, thread, wanted, out)?;
    carry_out(program, machine, thread, place.site.next(), wanted, out)?;
    Ok(EventEnd::Done)
}

/// The event of an access: where its class is done, begun by this thread or quiet, that is done, and else what the
/// initialization of the class asks for. After `NoMemory` the event may be half done.
#[inline(always)]
pub(crate) fn access_event(
    alloc: Global,
    program: &Program,
    machine: &mut Machine,
    thread: ThreadId,
    place: &Place<'_>,
    wanted: &Wanted,
    out: &mut Lines,
) -> Result<EventEnd, NoMemory>
    requires access { BeginsAccess program.now machine.old thread wanted.now }
    ensures { IfOk result (λ end. EventAnswers
        (wanted_outcome (moment program.now machine.old thread) place.now.site wanted.now)
        end machine.old machine.new out.old out.new) }
{
    match need_of(program, machine, thread, wanted.class) {
        Need::Ready => ready_event(program, machine, thread, place, wanted, out),
        Need::Quiet => quiet_event(alloc, program, machine, thread, place, wanted, out),
        Need::Begins => begin_class_event(alloc, program, machine, thread, wanted.class, out),
        Need::Failed => {
            let error = GuestError::NoClassDefFoundError;
            throw_error(program, machine, thread, error, out)
        }
        Need::Waits => Ok(wait_event(machine)),
    }
}
