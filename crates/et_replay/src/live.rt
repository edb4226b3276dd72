//! The bytes that are live at one event.
ghost use Rattle.std.specs.Prelude.{◌≡◌, ◌≤◌, ◌^◌, IfOk};
ghost use Rattle.et_replay.specs.Curve.{live};

use crate::lives::lives_of;
use crate::sizes::Sizes;
use et_base::NoMemory;
use et_text::Trace;
use std::alloc::Global;

/// The bytes that are live at an event, as the live curve has them: those of the objects that were made by then, but
/// for the objects that were last reached before.
pub fn live_bytes(alloc: Global, trace: &Trace, event: u64) -> Result<u64, NoMemory>
    requires event { event ≤ 2 ^ 40 }
    ensures { IfOk result (λ bytes. bytes ≡ live trace.now event) }
{
    let lives = lives_of(alloc, trace.lines())?;
    let mut born = Sizes::begin(lives.born)?;
    let mut died = Sizes::begin(lives.died)?;
    let made = born.below(event + 1);
    let gone = died.below(event);
    Ok(made - gone)
}
