//! When the next flush is due.
ghost use Rattle.std.specs.Prelude.{◌≡◌, ◌+◌, ◌<◌, ◌≤◌, ◌^◌};
ghost use Rattle.et_state.specs.History.{is_flush_point};
ghost use Rattle.et_loop.specs.Pace.{IsNextFlush};

/// The next event after which a flush is due, so that it is found by a comparison. It says nothing where the interval is 0.
#[derive(Drop)]
pub struct NextFlush {
    pub event: u64,
}

impl NextFlush {
    /// The first event from 0 on.
    pub fn begin(interval: u64) -> NextFlush
        ensures { IsNextFlush interval 0 result.event }
    {
        NextFlush { event: interval }
    }

    /// Whether a flush is due after event e. Then it goes on to the event behind it.
    pub fn pass(&mut self, interval: u64, e: u64) -> bool
        requires interval { interval ≤ 2 ^ 40 }
        requires event { e ≤ 2 ^ 40 }
        requires next { IsNextFlush interval e self.old.event }
        ensures due { result ≡ is_flush_point interval e }
        ensures next { IsNextFlush interval (e + 1) self.new.event }
    {
        if interval == 0 || e != self.event {
            return false;
        }
        self.event = e + interval;
        true
    }

    /// Of so many events from event e on, as many as come before the next flush or up to the event after which it is due.
    pub fn up_to(&self, interval: u64, e: u64, events: u64) -> u64
        requires some { 0 < events }
        requires next { IsNextFlush interval (e + 1) self.now.event }
        ensures some { 0 < result }
        ensures few { result ≤ events }
        ensures before { 0 < interval → e + result ≤ self.now.event }
    {
        if interval == 0 || events <= self.event - e {
            events
        } else {
            self.event - e
        }
    }
}
