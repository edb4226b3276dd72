//! Instructions that read and change nothing but the topmost frame of a thread, one after the other while its frames are lifted
//! out of the machine.
ghost use Rattle.std.specs.Prelude.{◌≡◌, ℕ, ◌+◌, ◌<◌, ◌≤◌, ◌^◌, None, Contains, length};
ghost use Rattle.et_state.specs.ThreadRoots.{frame_roots};
ghost use Rattle.et_event.specs.FrameSteps.{AreFrameSteps, StepsRunning, frame_next};

use crate::frames::frame_event;
use et_code::decode;
use et_event::{Row, row_behind};
use et_graph::{Stamps, stamp_each};
use et_state::Running;

/// Does the instruction at the pc of the frame that runs, where that reads and changes nothing but the frame. `true` exactly
/// where it does; else all is as before.
#[inline(always)]
fn step(code: &[u8], running: &mut Running) -> bool
    requires { length code.now < 2 ^ 16 }
    ensures { StepsRunning (frame_next code.now running.old.frame) result running.old running.new }
{
    let pc = running.pc() as usize;
    if pc >= code.len() {
        return false;
    }
    let Ok((instr, next)) = decode(code, pc) else {
        return false;
    };
    let Some(Row::Frame(row)) = row_behind(instr.opcode) else {
        return false;
    };
    frame_event(running, row, code, &instr, next as u32)
}

/// Does up to so many instructions that read and change nothing but the frame that runs, the first of which is the event after
/// event e. Each object that one of them loses gets the number of the event before it as its stamp. Answers how many events
/// there were: it stops at the first instruction of another kind.
#[inline(always)]
pub fn run_frame(code: &[u8], running: &mut Running, stamps: &mut Stamps, e: u64, most: u64) -> u64
    requires code { length code.now < 2 ^ 16 }
    requires clock { e + most ≤ 2 ^ 40 }
    requires places { (o : ℕ) → Contains (frame_roots running.old.frame) o →
        o < length stamps.old }
    ensures steps { AreFrameSteps code.now result e running.old.frame running.new.frame
        stamps.old stamps.new }
    ensures below { running.new.below ≡ running.old.below }
    ensures few { result ≤ most }
    ensures stops { result < most → frame_next code.now running.new.frame ≡ None }
{
    let mut count = 0;
    'steps: while count < most {
        if !step(code, running) {
            break;
        }
        stamp_each(stamps, running.lost(), e + count);
        count += 1;
    }
    count
}
