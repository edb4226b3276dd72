//! How many events a thread may do at once.
ghost use Rattle.std.specs.Prelude.{◌≡◌, ◌+◌, ◌<◌, ◌≤◌};
ghost use Rattle.et_state.specs.History.{is_flush_point};
ghost use Rattle.et_state.specs.Options.{AreOptions};
ghost use Rattle.et_loop.specs.Pace.{IsNextFlush, IsRota, IsSlice};

use crate::guest::TimeSlice;
use crate::next_flush::NextFlush;
use crate::schedule::Rota;
use et_state::Options;

/// The thread, among so many, that has the turn after event e, and how many events it may do at once: one alone where a flush
/// came after event e, since the lines of the flush are put with those of that event.
pub fn next_slice(
    options: &Options,
    e: u64,
    due: bool,
    count: usize,
    next_flush: &NextFlush,
    rota: &mut Rota,
) -> TimeSlice
    requires options { AreOptions options.now }
    requires limit { e < options.now.limit }
    requires some { 0 < count }
    requires due { due ≡ is_flush_point options.now.interval e }
    requires next_flush { IsNextFlush options.now.interval (e + 1) next_flush.now.event }
    requires rota { IsRota options.now.schedule e rota.old }
    ensures slice { IsSlice options.now e count result }
    ensures next_flush { 0 < options.now.interval → e + result.events ≤ next_flush.now.event }
    ensures rota { IsRota options.now.schedule (e + 1) rota.new }
{
    let place = rota.next_place(options, e, count);
    if due {
        return TimeSlice { place, events: 1 };
    }
    let events = next_flush.up_to(options.interval, e, options.limit - e);
    TimeSlice {
        place,
        events: rota.turn_length(options, e + 1, count, events),
    }
}
