//! The plain instructions, by their rows.
ghost use Rattle.std.specs.Prelude.{◌≡◌, ◌<◌, ◌^◌, true, Some, IfNone, IfOk, IfSome, OnErr, length};
ghost use Rattle.et_state.specs.Threads.{FrameState};
ghost use Rattle.et_state.specs.Words.{HasFrame, top};
ghost use Rattle.et_event.specs.declared.rows.Division.{Division};
ghost use Rattle.et_event.specs.declared.rows.Number.{Number};
ghost use Rattle.et_event.specs.declared.rows.Row.TheVariants as rows;
ghost use Rattle.et_event.specs.Answered.{EventAnswers};
ghost use Rattle.et_event.specs.Beginning.{BeginsEvent};
ghost use Rattle.et_event.specs.Event.{does};
ghost use Rattle.et_event.specs.Moments.{moment};
ghost use Rattle.et_event.specs.Sites.{AString, constant_at, natural_of, pool_index};
ghost use Rattle.et_event.specs.PlainRows.{is_plain};
ghost use Rattle.et_event.specs.Places.{IsPlace};
ghost use Rattle.et_ops.specs.Plain.{ChangesMore};

use crate::constants::string_bytes;
use crate::ends::PlainEnd;
use crate::frames::natural;
use crate::lifted::plain_done;
use crate::strings::string_event;
use et_base::{NoMemory, ThreadId};
use et_event::{GuestError, Place, Row, ill_typed, throw_error};
use et_program::Program;
use et_state::{EventEnd, Lines, Machine};

/// The bytes of the string that a plain instruction loads where it changes more than the topmost frame; `None` where it divides
/// by 0.
fn string_loaded<'a>(place: &Place<'a>) -> Option<&'a [u8]>
    requires index { place.now.row ≡ rows.PoolConstant →
        natural_of place.now.site.instr.first < 2 ^ 16 }
    requires more { (f : FrameState) × ChangesMore place.now.site place.now.row f }
    ensures some { IfSome result (λ bytes. (place.now.row ≡ rows.PoolConstant)
        × (constant_at place.now.site.pool (pool_index place.now.site)
        ≡ Some (AString bytes.now))) }
    ensures short { IfSome result (λ bytes. length bytes.now < 2 ^ 16) }
    ensures none { IfNone result ((number : Number) × (division : Division)
        × (place.now.row ≡ rows.Divide number division)) }
{
    match place.row {
        Row::PoolConstant => {
            let index = natural(place.site.instr().first) as u16;
            match string_bytes(place.site.pool(), index) {
                Some(bytes) => Some(bytes),
                None => unreachable!(),
            }
        }
        Row::Divide(..) => None,
        Row::Frame(_) | Row::Heap(_) | Row::Call(_) | Row::Throw | Row::Monitor(_) => {
            unreachable!()
        }
    }
}

/// The event of the plain instruction at a place. It answers what the table of events says of its row there, and visits no
/// object. After `NoMemory` the machine may have one object more, to which nothing refers, and there may be its record; all
/// else is as before.
pub(crate) fn plain_event(
    program: &Program,
    machine: &mut Machine,
    thread: ThreadId,
    place: &Place<'_>,
    out: &mut Lines,
) -> Result<EventEnd, NoMemory>
    requires frame { HasFrame machine.old.guest thread }
    requires begins { BeginsEvent program.now machine.old thread }
    requires place { IsPlace program.now (top machine.old.guest thread) place.now }
    requires plain { is_plain place.now.row ≡ true }
    ensures ok { IfOk result (λ end. EventAnswers (does (moment program.now machine.old thread)
        place.now.site place.now.row) end machine.old machine.new out.old out.new) }
    ensures err { OnErr result (machine.new.guest ≡ machine.old.guest) }
{
    match plain_done(machine, thread, place) {
        PlainEnd::Done => Ok(EventEnd::Done),
        PlainEnd::IllTyped => Ok(ill_typed(machine, thread)),
        PlainEnd::More => match string_loaded(place) {
            Some(bytes) => string_event(program, machine, thread, bytes, place.site.next(), out),
            None => {
                let error = GuestError::ArithmeticException;
                throw_error(program, machine, thread, error, out)
            }
        },
    }
}
