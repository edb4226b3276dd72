//! What a run reads off its schedule and its end: whose turn it is, and how a Z line spells the end.
ghost use Rattle.std.specs.Prelude.{◌≡◌, ℕ, ◌+◌, ◌*◌, ◌<◌, ◌≤◌, ◌%◌, ◌^◌};
ghost use Rattle.et_state.specs.History.{how_of};
ghost use Rattle.et_state.specs.declared.options.Schedule.{Schedule};
ghost use Rattle.et_state.specs.Options.{pick_of, AreOptions, IsSchedule};
ghost use Rattle.et_loop.specs.Pace.{IsBegun, IsPlaceFound, IsRota, IsRound, round_of};

use et_base::End;
use et_state::{Options, Schedule};

/// Where a schedule stands at an event. It goes from one event to the next without a division, and divides only where the
/// number that the schedule has for an event, or the number of threads, is not the one before, or where a round was left out.
#[derive(Drop)]
pub struct Rota {
    pub round: Round,
    pub found: Found,
}

/// The round in which an event is.
#[derive(Drop)]
pub struct Round {
    /// How many rounds are over.
    pub over: u64,
    /// Its first event.
    pub start: u64,
}

/// The place of a number among so many threads, as it was found last.
#[derive(Drop)]
pub struct Found {
    pub number: u64,
    pub count: usize,
    pub place: usize,
}

/// How many events a round of the schedule has.
fn round_length(schedule: &Schedule) -> u64
    ensures { result ≡ round_of schedule.now }
{
    match schedule {
        Schedule::Quantum(quantum) => *quantum,
        Schedule::Words(words) => words.as_slice().len() as u64,
    }
}

/// How many whole rounds of so many events are past. Nothing is divided where it is one.
fn whole_rounds(past: u64, events: u64) -> u64
    requires some { 0 < events }
    requires past { events ≤ past }
    ensures whole { result * events ≤ past }
    ensures rest { past < result * events + events }
{
    if past - events < events {
        1
    } else {
        past / events
    }
}

impl Round {
    /// Goes on to event e. It divides only where a whole round was left out, that is where one thread was alone.
    fn go_to(&mut self, events: u64, e: u64)
        requires some { 0 < events }
        requires events { events ≤ 2 ^ 40 }
        requires event { e ≤ 2 ^ 40 }
        requires begun { IsBegun events e self.old }
        ensures { IsRound events e self.new }
    {
        let past = e - self.start;
        if past >= events {
            let rounds = whole_rounds(past, events);
            self.over += rounds;
            self.start += rounds * events;
        }
    }

    /// The number that the schedule has for event e.
    fn number(&self, schedule: &Schedule, e: u64) -> u64
        requires schedule { IsSchedule schedule.now }
        requires round { IsRound (round_of schedule.now) e self.now }
        ensures { result ≡ pick_of schedule.now e }
    {
        match schedule {
            Schedule::Quantum(_) => self.over,
            Schedule::Words(words) => words.as_slice()[(e - self.start) as usize] as u64,
        }
    }
}

impl Found {
    /// The place of the number among so many threads.
    fn place_among(&mut self, number: u64, count: usize) -> usize
        requires some { 0 < count }
        requires found { IsPlaceFound self.old }
        ensures place { result ≡ number % count }
        ensures within { result < count }
        ensures found { IsPlaceFound self.new }
    {
        if number != self.number || count != self.count {
            self.number = number;
            self.count = count;
            self.place = (number % count as u64) as usize;
        }
        self.place
    }
}

impl Rota {
    /// Begins at event 0.
    pub fn begin() -> Rota
        ensures { (schedule : Schedule) → IsSchedule schedule → IsRota schedule 0 result }
    {
        Rota {
            round: Round { over: 0, start: 0 },
            found: Found {
                number: 0,
                count: 1,
                place: 0,
            },
        }
    }

    /// Goes on to the event after e, and answers the place of the thread whose turn it is, among so many that have not
    /// ended. Where there is one alone, nothing is divided.
    pub fn next_place(&mut self, options: &Options, e: u64, count: usize) -> usize
        requires options { AreOptions options.now }
        requires some { 0 < count }
        requires event { e < 2 ^ 40 }
        requires rota { IsRota options.now.schedule e self.old }
        ensures place { result ≡ pick_of options.now.schedule (e + 1) % count }
        ensures within { result < count }
        ensures round { IsRound (round_of options.now.schedule) (e + 1) self.new.round }
        ensures rota { IsRota options.now.schedule (e + 1) self.new }
    {
        self.round.go_to(round_length(&options.schedule), e + 1);
        if count == 1 {
            return 0;
        }
        let number = self.round.number(&options.schedule, e + 1);
        self.found.place_among(number, count)
    }

    /// Of so many events from event e on, in whose round the rota stands, as many as the schedule gives to the place that event e
    /// has, among so many threads: those up to the end of the round, and all where one thread is alone.
    pub fn turn_length(&self, options: &Options, e: u64, count: usize, events: u64) -> u64
        requires options { AreOptions options.now }
        requires event { e ≤ 2 ^ 40 }
        requires some { 0 < events }
        requires round { IsRound (round_of options.now.schedule) e self.now.round }
        ensures some { 0 < result }
        ensures few { result ≤ events }
        ensures turn { (k : ℕ) → k < result → pick_of options.now.schedule (e + k) % count
            ≡ pick_of options.now.schedule e % count }
    {
        if count == 1 {
            return events;
        }
        match &options.schedule {
            Schedule::Quantum(quantum) => (self.round.start + *quantum - e).min(events),
            Schedule::Words(_) => 1,
        }
    }
}

/// How a Z line spells the end.
pub fn ended_as(end: &End) -> u8
    ensures { result ≡ how_of end.now }
{
    match end {
        End::Finished => 0,
        End::EventLimit => 1,
        End::IllTyped { .. } => 2,
        End::ObjectLimit => 3,
    }
}
