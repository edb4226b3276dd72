//! What `bench` says of a trace.
ghost use Rattle.std.specs.Prelude.{◌≡◌, ◌≤◌, ◌^◌, ◌++◌, ◌∷◌, [], ℕ, Bool, count_by, reverse, length, string_bytes, IfOk};
ghost use Rattle.et_graph.specs.Graph.{Graph, Decides};
ghost use Rattle.et_replay.specs.Items.{made_objects, MakesInOrder};
ghost use Rattle.et_replay.specs.Lines.{report_text};
ghost use Rattle.et_replay.specs.Tally.{tally};
ghost use Rattle.et_replay.specs.declared.item.Item.{Item};
ghost use Rattle.et_replay.specs.declared.model.Policy.{Policy};
ghost use Rattle.et_files.specs.Loaded.{last_event};
ghost use Rattle.et_bench.specs.Totals.{is_alloc, is_death, is_flush, totals_of, totals_text, bench_policy, summary_text};

use et_base::{NoMemory, TraceLine};
use et_files::last_event;
use et_models::MarkSweep;
use et_replay::{Fed, HeapModel, Item, Kind, Policy, Report, Timeline, live_bytes, timeline};
use et_text::Trace;
use std::alloc::Global;
use std::fmt;

/// The capacity of the model, in bytes.
const CAPACITY: u64 = 4_000_000;

/// What a trace comes to.
#[derive(Clone, Copy, Debug, PartialEq, Eq)]
pub struct Totals {
    /// The last event.
    pub events: u64,
    /// The objects made, and those that were reported dead.
    pub objects: usize,
    pub deaths: usize,
    pub flushes: usize,
    /// The bytes that are live at the last event.
    pub live: u64,
}

impl fmt::Display for Totals {
    ghost use Rattle.std.specs.Prelude.{Some};
    ghost use Rattle.et_bench.specs.Totals.{totals_text};

    ghost output = { λ t. Some (totals_text t) };

    fn fmt<W: fmt::Write>(&self, f: &mut fmt::Formatter<W>) -> fmt::Result {
        let events = self.events;
        let objects = self.objects;
        let deaths = self.deaths;
        let flushes = self.flushes;
        let live = self.live;
        write!(
            f,
            "events={events} objects={objects} deaths={deaths} flushes={flushes} live={live}"
        )
    }
}

fn count_objects(lines: &[TraceLine]) -> usize
    ensures { result ≡ count_by is_alloc lines.now }
{
    lines
        .iter()
        .filter(|line| matches!(*line, TraceLine::Alloc { .. }))
        .count()
}

fn count_deaths(lines: &[TraceLine]) -> usize
    ensures { result ≡ count_by is_death lines.now }
{
    lines
        .iter()
        .filter(|line| matches!(*line, TraceLine::Death { .. }))
        .count()
}

fn count_flushes(lines: &[TraceLine]) -> usize
    ensures { result ≡ count_by is_flush lines.now }
{
    lines
        .iter()
        .filter(|line| matches!(*line, TraceLine::Flush { .. }))
        .count()
}

/// The event of the Z line, with which a trace ends.
fn end_event(trace: &Trace) -> u64
    ensures event { result ≡ last_event trace.now }
    ensures range { result ≤ 2 ^ 40 }
{
    last_event(trace.lines())
}

fn totals_of(alloc: Global, trace: &Trace) -> Result<Totals, NoMemory>
    ensures { IfOk result (λ totals. totals ≡ totals_of trace.now) }
{
    let lines = trace.lines();
    let events = end_event(trace);
    Ok(Totals {
        events,
        objects: count_objects(lines),
        deaths: count_deaths(lines),
        flushes: count_flushes(lines),
        live: live_bytes(alloc, trace, events)?,
    })
}

/// What a model reports once it was fed the items, or those up to the one at which it is exhausted.
fn report_of<M: HeapModel>(model: M, items: &[Item]) -> Result<Report, NoMemory>
    requires made { MakesInOrder items.now }
    requires stands { (policy : Policy) × (objects : ℕ)
        × (length (made_objects items.now) ≤ objects) × M.stands_for model policy objects [] }
    ensures { (reached : Graph → ℕ → Bool) → Decides reached → (policy : Policy) (objects : ℕ) →
        M.stands_for model policy objects [] →
        IfOk result (λ report. report ≡ tally reached policy (reverse items.now)) }
{
    let mut model = model;
    for item in items {
        match model.feed(item) {
            Fed::Ok => {}
            Fed::Exhausted => return Ok(model.report()),
            Fed::NoMemory => return Err(NoMemory),
        }
    }
    Ok(model.report())
}

/// What a mark-sweep heap reports of the timeline.
fn mark_sweep(alloc: Global, timeline: &Timeline) -> Result<Report, NoMemory>
    ensures { (reached : Graph → ℕ → Bool) → Decides reached →
        IfOk result (λ report. report ≡ tally reached bench_policy (reverse timeline.now)) }
{
    let policy = Policy {
        kind: Kind::MarkSweep,
        first: CAPACITY,
        second: 0,
    };
    let mut model = MarkSweep::begin(alloc);
    model.set_policy(policy, timeline.objects())?;
    report_of(model, timeline.items())
}

/// The two lines.
fn text_of(alloc: Global, totals: Totals, report: Report) -> Result<String, NoMemory>
    ensures { IfOk result (λ text. string_bytes text
        ≡ totals_text totals ++ 10 ∷ (report_text report ++ 10 ∷ [])) }
{
    Ok(format!(in alloc; "{totals}\n{report}\n")?)
}

/// The summary of a trace: a line of what it comes to, and that of a mark-sweep heap.
pub fn bench_summary(alloc: Global, trace: &Trace) -> Result<String, NoMemory>
    ensures { (reached : Graph → ℕ → Bool) → Decides reached →
        IfOk result (λ text. string_bytes text ≡ summary_text reached trace.now) }
{
    let totals = totals_of(alloc, trace)?;
    let timeline = timeline(alloc, trace)?;
    let report = mark_sweep(alloc, &timeline)?;
    text_of(alloc, totals, report)
}
