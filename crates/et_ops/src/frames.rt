//! The instructions that read and change nothing but the topmost frame, by their rows.
//!
//! What programs do most is inlined into the loop that does one after the other, and the rest is not: a function that would
//! grow very large loses its mark to be inlined, with no message, and then each of these instructions is a call.
ghost use Rattle.std.specs.Prelude.{◌≡◌, ℕ, ◌+◌, ◌<◌, ◌^◌, List, Option};
ghost use Rattle.et_pool.specs.Entries.{Item};
ghost use Rattle.et_code.specs.Switches.{IsSwitch};
ghost use Rattle.et_event.specs.declared.rows.FrameRow.TheVariants as rows;
ghost use Rattle.et_event.specs.FrameSteps.{StepsRunning};
ghost use Rattle.et_event.specs.Sites.{Site, local_index, natural_of};
ghost use Rattle.et_event.specs.Plain.{frame_after};

use crate::branches::branch;
use crate::literals::{push_int, push_long, push_null};
use crate::locals::load;
use crate::numbers::{combine, compare_longs, convert, negate_number, shift_number};
use crate::stack::rearrange;
use crate::stores::{increment, store};
use crate::switches::switch;
use et_code::Instr;
use et_event::{FrameRow, Local};
use et_state::Running;

/// The number, where it isn't negative, and else 0.
#[inline(always)]
pub(crate) fn natural(n: i32) -> u32
    ensures value { result ≡ natural_of n }
    ensures small { result + 1 < 2 ^ 32 }
{
    if n < 0 { 0 } else { n as u32 }
}

/// The local variable that an instruction names.
#[inline(always)]
fn index_of(local: Local, instr: &Instr) -> u32
    ensures value { (at : Site) → at.instr ≡ instr.now → result ≡ local_index local at }
    ensures small { result + 1 < 2 ^ 32 }
{
    match local {
        Local::Named => natural(instr.first),
        Local::At(i) => i as u32,
    }
}

/// Does an instruction that reads and changes nothing but the frame that runs: of this row, decoded from this code, in front
/// of the pc `next`. `true` exactly where it has a meaning; where it has none, all is as before.
#[inline(always)]
pub(crate) fn frame_event(
    running: &mut Running,
    row: &FrameRow,
    code: &[u8],
    instr: &Instr,
    next: u32,
) -> bool
    requires pc { running.old.frame.pc < 2 ^ 31 }
    requires switch { row.now ≡ rows.Switch → IsSwitch code.now instr.now }
    ensures { (pool : List (Option Item)) (class : ℕ) → StepsRunning (frame_after
        (record { instr = instr.now; next = next; code = code.now; pool = pool; class = class }) row.now
        running.old.frame) result running.old running.new }
{
    match *row {
        FrameRow::Null => push_null(running, next),
        FrameRow::Int(n) => push_int(running, n, next),
        FrameRow::Long(n) => push_long(running, n, next),
        FrameRow::Immediate => push_int(running, instr.first, next),
        FrameRow::Load(kind, local) => load(running, kind, index_of(local, instr), next),
        FrameRow::Store(kind, local) => store(running, kind, index_of(local, instr), next),
        FrameRow::Increment => { increment(running, natural(instr.first), instr.second, next) }
        FrameRow::Rearrange(rearrangement) => rearrange(running, rearrangement, next),
        FrameRow::Arithmetic(number, operation) => { combine(running, number, operation, next) }
        FrameRow::Negate(number) => negate_number(running, number, next),
        FrameRow::Shift(number, shift) => shift_number(running, number, shift, next),
        FrameRow::Convert(conversion) => convert(running, conversion, next),
        FrameRow::CompareLongs => compare_longs(running, next),
        FrameRow::Branch(condition) => branch(running, condition, instr.first, next),
        FrameRow::Switch => switch(running, code, instr),
    }
}
