//! The live curve.
ghost use Rattle.std.specs.Prelude.{◌≡◌, ◌≤◌, List, ◌∷◌, ◌++◌, [], reverse, IfOk, OnOk, OnErr};
ghost use Rattle.std.specs.Fmt.{decimal};
ghost use Rattle.std.specs.List.{flat_map};
ghost use Rattle.et_io.specs.Faults.{count_after, is_write_fault};
ghost use Rattle.et_io.specs.Sink.{with_more, TakesPrefix};
ghost use Rattle.et_replay.specs.Curve.{happens_at, curve_events, curve_text};
ghost use Rattle.et_replay.specs.Kept.{IsCurveOf};
ghost use Rattle.et_replay.specs.Lives.{GiveRows, row_by};
ghost use Rattle.et_base.specs.declared.line.TraceLine.{TraceLine};
ghost use Rattle.et_text.specs.Rules.{IsGoodTrace};

use crate::lives::Lives;
use crate::sizes::Sizes;
use et_base::{NoMemory, TraceLine};
use et_io::{RunFault, Sink, put_all, put_piece};
use et_text::{Follower, Trace};
use itoa::write_digits;
use std::alloc::Global;

/// The most bytes of a row: two numbers of at most 20 digits, a space and LF.
const MOST_BYTES: usize = 42;

fn happens_at(line: &TraceLine) -> Option<u64>
    ensures { result ≡ happens_at line.now }
{
    match line {
        TraceLine::Alloc { event, .. }
        | TraceLine::Update { event, .. }
        | TraceLine::Enter { event, .. }
        | TraceLine::Exit { event, .. }
        | TraceLine::Unwind { event, .. } => Some(*event),
        _ => None,
    }
}

/// Takes the event of the line, where it has one that the newest line with an event doesn't have.
fn push_event(events: &mut Vec<u64>, line: &TraceLine) -> Result<(), NoMemory>
    ensures { (past : List TraceLine) → events.old.items ≡ curve_events (reverse past) →
        OnOk result (events.new.items ≡ curve_events (reverse (line.now ∷ past))) }
{
    let Some(event) = happens_at(line) else {
        return Ok(());
    };
    let count = events.len();
    if count == 0 || events[count - 1] != event {
        events.push(event)?;
    }
    Ok(())
}

/// What the live curve needs of the lines of a trace, which come one by one: the events that have a row, and the objects.
#[derive(Drop)]
pub struct Curve {
    events: Vec<u64>,
    lives: Lives,
}

impl Curve {
    /// No line yet.
    pub fn begin(alloc: Global) -> Curve
        ensures { IsCurveOf result [] }
    {
        Curve {
            events: Vec::new(alloc),
            lives: Lives::begin(alloc),
        }
    }

    #[inline(always)]
    fn note(&mut self, line: &TraceLine) -> Result<(), NoMemory>
        ensures { (past : List TraceLine) → IsCurveOf self.old past →
            OnOk result (IsCurveOf self.new (line.now ∷ past)) }
    {
        push_event(&mut self.events, line)?;
        self.lives.note(line)
    }

    /// Writes the live curve of the lines that came, as `curve_lines` does.
    pub fn put<O: Sink>(self, alloc: Global, sink: &mut O) -> Result<(), RunFault>
        requires { (lines : List TraceLine) × IsGoodTrace lines × IsCurveOf self (reverse lines) }
        ensures ok { (lines : List TraceLine) → IsGoodTrace lines → IsCurveOf self (reverse lines) →
            OnOk result (O.taken sink.new ≡ with_more (O.taken sink.old) (curve_text lines)) }
        ensures write { O.faults sink.new
            ≡ count_after (is_write_fault result) (O.faults sink.old) }
        ensures err { (lines : List TraceLine) →
            IsGoodTrace lines → IsCurveOf self (reverse lines) →
            OnErr result (TakesPrefix (O.taken sink.old) (O.taken sink.new) (curve_text lines)) }
        ensures never_falls { O.faults sink.old ≤ O.faults sink.new }
    {
        let Curve { events, lives } = self;
        put_rows(alloc, &events, lives, sink)
    }
}

impl Follower for Curve {
    ghost follows = { IsCurveOf };

    #[inline(always)]
    fn line(&mut self, line: &TraceLine) -> Result<(), NoMemory> {
        self.note(line)
    }
}

/// What the live curve needs of the lines.
fn curve_of(alloc: Global, lines: &[TraceLine]) -> Result<Curve, NoMemory>
    ensures { IfOk result (λ curve. IsCurveOf curve (reverse lines.now)) }
{
    let mut curve = Curve::begin(alloc);
    for line in lines {
        curve.note(line)?;
    }
    Ok(curve)
}

/// A row, spelled from its last byte on and appended at once.
fn put_row(rows: &mut Vec<u8>, event: u64, live: u64) -> Result<(), NoMemory>
    ensures { OnOk result
        (rows.new.items ≡ rows.old.items ++ (decimal event ++ 32 ∷ decimal live ++ 10 ∷ [])) }
{
    let mut row = [0; MOST_BYTES];
    row[MOST_BYTES - 1] = b'\n';
    let space = write_digits(live, &mut row, MOST_BYTES - 1) - 1;
    row[space] = b' ';
    let start = write_digits(event, &mut row, space);
    rows.extend_from_slice(&row[start..])?;
    Ok(())
}

/// Puts the row of each event, in pieces.
fn put_rows<O: Sink>(
    alloc: Global,
    events: &[u64],
    lives: Lives,
    sink: &mut O,
) -> Result<(), RunFault>
    requires { GiveRows lives.born.items lives.died.items events.now }
    ensures ok { OnOk result (O.taken sink.new ≡ with_more (O.taken sink.old)
        (flat_map (row_by lives.born.items lives.died.items) events.now)) }
    ensures write { O.faults sink.new ≡ count_after (is_write_fault result) (O.faults sink.old) }
    ensures err { OnErr result (TakesPrefix (O.taken sink.old) (O.taken sink.new)
        (flat_map (row_by lives.born.items lives.died.items) events.now)) }
    ensures never_falls { O.faults sink.old ≤ O.faults sink.new }
{
    let Ok(mut born) = Sizes::begin(lives.born) else {
        return Err(RunFault::NoMemory);
    };
    let Ok(mut died) = Sizes::begin(lives.died) else {
        return Err(RunFault::NoMemory);
    };
    let mut rows = Vec::new(alloc);
    for event in events {
        let made = born.below(*event + 1);
        let gone = died.below(*event);
        let Ok(()) = put_row(&mut rows, *event, made - gone) else {
            return Err(RunFault::NoMemory);
        };
        put_piece(sink, &mut rows)?;
    }
    put_all(sink, rows.as_slice())
}

/// Writes the live curve: for each event with an A, U, M, E or X line, in rising order, a line with the event and the
/// bytes that are live at it. An object is live from the event that makes it up to the time of its D line, or to the
/// end where it has none. How the text is cut into pieces as it is put is no promise. `Write` comes exactly where the sink
/// counted one fault; after `Write` and after `NoMemory` the sink took a prefix of the text.
pub fn curve_lines<O: Sink>(alloc: Global, trace: &Trace, sink: &mut O) -> Result<(), RunFault>
    ensures ok { OnOk result
        (O.taken sink.new ≡ with_more (O.taken sink.old) (curve_text trace.now)) }
    ensures write { O.faults sink.new ≡ count_after (is_write_fault result) (O.faults sink.old) }
    ensures err { OnErr result
        (TakesPrefix (O.taken sink.old) (O.taken sink.new) (curve_text trace.now)) }
    ensures never_falls { O.faults sink.old ≤ O.faults sink.new }
{
    match curve_of(alloc, trace.lines()) {
        Ok(curve) => curve.put(alloc, sink),
        Err(NoMemory) => Err(RunFault::NoMemory),
    }
}
