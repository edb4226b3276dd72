//! The replay of a timeline through models of the heap.
ghost use Rattle.std.specs.Prelude.{◌≡◌, ◌<◌, ◌≤◌, ◌++◌, ◌∷◌, [], ℕ, Bool, List, length, reverse, All, OnOk, IfOk, MatchOption, Some, None, OnErr};
ghost use Rattle.std.specs.List.{flat_map, AllZip};
ghost use Rattle.et_io.specs.Faults.{count_after, is_write_fault};
ghost use Rattle.et_io.specs.Sink.{with_more, TakesPrefix};
ghost use Rattle.et_graph.specs.Graph.{Graph, Decides};
ghost use Rattle.et_replay.specs.Feeding.{HasItemRoom, MayCome};
ghost use Rattle.et_replay.specs.Items.{made_objects, MakesInOrder};
ghost use Rattle.et_replay.specs.Lines.{report_text};
ghost use Rattle.et_replay.specs.Replay.{replay_text};
ghost use Rattle.et_replay.specs.Seats.{IsFinal, Sits, EachZip, Told, AllMayCome, told_line};
ghost use Rattle.et_replay.specs.Tally.{tally};
ghost use Rattle.et_replay.specs.declared.item.Item.{Item};
ghost use Rattle.et_replay.specs.declared.model.Policy.{Policy};

use crate::item::{Item, Timeline};
use crate::model::{Fed, HeapModel, Report};
use et_base::NoMemory;
use et_io::{RunFault, Sink, put_all};
use std::alloc::Global;

/// A model at work, or the report of one that was exhausted.
#[derive(Drop)]
struct Seat {
    model: Option<Box<dyn HeapModel>>,
    report: Option<Report>,
}

/// Feeds an item to a model; where there is no room any more, gives its report.
fn feed_model(model: &mut Box<dyn HeapModel>, item: &Item) -> Result<Option<Report>, NoMemory>
    requires { (policy : Policy)
        × (objects : ℕ) × (past : List Item) × stands_for model.old policy objects past
        × HasItemRoom policy past × MayCome objects past item.now }
    ensures { (policy : Policy) (objects : ℕ) (past : List Item) →
        stands_for model.old policy objects past → IfOk result
        (λ report. MatchOption report (stands_for model.new policy objects (item.now ∷ past)
        × HasItemRoom policy (item.now ∷ past)) (λ r. IsFinal r policy (item.now ∷ past))) }
{
    match model.feed(item) {
        Fed::Ok => Ok(None),
        Fed::Exhausted => Ok(Some(model.report())),
        Fed::NoMemory => Err(NoMemory),
    }
}

/// Feeds an item to a model that has room. An exhausted model leaves its report, and is dropped.
fn feed_seat(seat: &mut Seat, item: &Item) -> Result<(), NoMemory>
    requires { (policy : Policy) × (objects : ℕ) × (past : List Item)
        × Sits (λ b. stands_for b) seat.old.model seat.old.report policy objects past
        × MayCome objects past item.now }
    ensures { (policy : Policy) (objects : ℕ) (past : List Item) →
        Sits (λ b. stands_for b) seat.old.model seat.old.report policy objects past → OnOk result
        (Sits (λ b. stands_for b) seat.new.model seat.new.report policy objects (item.now ∷ past)) }
{
    let Some(model) = &mut seat.model else {
        return Ok(());
    };
    if let Some(report) = feed_model(model, item)? {
        *seat = Seat {
            model: None,
            report: Some(report),
        };
    }
    Ok(())
}

/// Feeds an item to each model that has room, in order.
fn feed_all(seats: &mut [Seat], item: &Item) -> Result<(), NoMemory>
    requires { (told : List Told) × (past : List Item) × EachZip
        (λ seat p. Sits (λ b. stands_for b) seat.model seat.report p.0 p.1 past) seats.old told
        × AllMayCome told past item.now }
    ensures { (told : List Told) (past : List Item) → EachZip
        (λ seat p. Sits (λ b. stands_for b) seat.model seat.report p.0 p.1 past) seats.old told →
        OnOk result (EachZip (λ seat p.
        Sits (λ b. stands_for b) seat.model seat.report p.0 p.1 (item.now ∷ past)) seats.new told) }
{
    for seat in seats.iter_mut() {
        feed_seat(seat, item)?;
    }
    Ok(())
}

/// Feeds all items, in order.
fn feed_items(seats: &mut [Seat], items: &[Item]) -> Result<(), NoMemory>
    requires made { MakesInOrder items.now }
    requires sit { (told : List Told) × EachZip
        (λ seat p. Sits (λ b. stands_for b) seat.model seat.report p.0 p.1 []) seats.old told
        × All (λ p. length (made_objects items.now) ≤ p.1) told }
    ensures { (told : List Told) → EachZip
        (λ seat p. Sits (λ b. stands_for b) seat.model seat.report p.0 p.1 []) seats.old told →
        OnOk result (EachZip (λ seat p. Sits
        (λ b. stands_for b) seat.model seat.report p.0 p.1 (reverse items.now)) seats.new told) }
{
    for item in items {
        feed_all(seats, item)?;
    }
    Ok(())
}

fn push_line(alloc: Global, text: &mut Vec<u8>, report: Report) -> Result<(), NoMemory>
    ensures { OnOk result (text.new.items ≡ text.old.items ++ (report_text report ++ 10 ∷ [])) }
{
    let line = format!(in alloc; "{report}\n")?;
    text.extend_from_slice(line.as_bytes())?;
    Ok(())
}

fn seat_of(model: Box<dyn HeapModel>) -> Seat
    ensures model { result.model ≡ Some model }
    ensures report { result.report ≡ None }
{
    Seat {
        model: Some(model),
        report: None,
    }
}

/// Gives each model a seat.
fn seats_of(alloc: Global, models: Vec<Box<dyn HeapModel>>) -> Result<Vec<Seat>, NoMemory>
    ensures { IfOk result (λ seats.
        EachZip (λ seat b. (seat.model ≡ Some b) × (seat.report ≡ None)) seats.items models.items) }
{
    let mut seats = Vec::new(alloc);
    for model in models {
        seats.push(seat_of(model))?;
    }
    Ok(seats)
}

/// What the model accounts for, or did when it was exhausted.
fn report_of(seat: &Seat) -> Report
    requires { (policy : Policy) × (objects : ℕ) × (past : List Item)
        × Sits (λ b. stands_for b) seat.now.model seat.now.report policy objects past }
    ensures { (reached : Graph → ℕ → Bool) →
        Decides reached → (policy : Policy) (objects : ℕ) (past : List Item) →
        Sits (λ b. stands_for b) seat.now.model seat.now.report policy objects past →
        result ≡ tally reached policy past }
{
    match &seat.model {
        Some(model) => model.report(),
        None => seat.report.unwrap(),
    }
}

/// The lines of all reports.
fn text_of(alloc: Global, seats: &[Seat]) -> Result<Vec<u8>, NoMemory>
    requires { (told : List Told) × (past : List Item) × EachZip
        (λ seat p. Sits (λ b. stands_for b) seat.model seat.report p.0 p.1 past) seats.now told }
    ensures { (reached : Graph → ℕ → Bool) →
        Decides reached → (told : List Told) (past : List Item) → EachZip
        (λ seat p. Sits (λ b. stands_for b) seat.model seat.report p.0 p.1 past) seats.now told →
        IfOk result (λ text. text.items ≡ flat_map (told_line reached past) told) }
{
    let mut text = Vec::new(alloc);
    for seat in seats {
        push_line(alloc, &mut text, report_of(seat))?;
    }
    Ok(text)
}

/// Feeds all items, and gives the lines of all reports.
fn run(alloc: Global, seats: &mut [Seat], items: &[Item]) -> Result<Vec<u8>, NoMemory>
    requires made { MakesInOrder items.now }
    requires sit { (told : List Told) × EachZip
        (λ seat p. Sits (λ b. stands_for b) seat.model seat.report p.0 p.1 []) seats.old told
        × All (λ p. length (made_objects items.now) ≤ p.1) told }
    ensures { (reached : Graph → ℕ → Bool) → Decides reached → (told : List Told) → EachZip
        (λ seat p. Sits (λ b. stands_for b) seat.model seat.report p.0 p.1 []) seats.old told →
        IfOk result (λ text. text.items ≡ flat_map (told_line reached (reverse items.now)) told) }
{
    feed_items(seats, items)?;
    text_of(alloc, seats)
}

fn lines_of(
    alloc: Global,
    items: &[Item],
    models: Vec<Box<dyn HeapModel>>,
) -> Result<Vec<u8>, NoMemory>
    requires made { MakesInOrder items.now }
    requires told { (told : List Told) × EachZip (λ b p. stands_for b p.0 p.1 []) models.items told
        × All (λ p. length (made_objects items.now) ≤ p.1) told }
    ensures { (reached : Graph → ℕ → Bool) → Decides reached → (told : List Told) →
        EachZip (λ b p. stands_for b p.0 p.1 []) models.items told →
        IfOk result (λ text. text.items ≡ flat_map (told_line reached (reverse items.now)) told) }
{
    let mut seats = seats_of(alloc, models)?;
    run(alloc, &mut seats, items)
}

/// Feeds the items of a timeline to each model, and puts the line of each model's report to the sink, in the order of the
/// models: what it reports of all items, or of those up to the one at which it was exhausted. The models have their policies,
/// were told of at least as many objects as the timeline makes, and were fed nothing. The answer is the number of lines. `Write`
/// comes exactly where the sink counted one fault; after `Write` and after `NoMemory` the sink took a prefix of the lines.
///
/// As it is written, and by no clause: a model that is exhausted is dropped there, and bytes are put only once all lines are
/// there.
pub fn replay<O: Sink>(
    alloc: Global,
    timeline: &Timeline,
    models: Vec<Box<dyn HeapModel>>,
    sink: &mut O,
) -> Result<u32, RunFault>
    requires { (policies : List Policy) × AllZip (λ b policy. (objects : ℕ) × (length
        (made_objects timeline.now) ≤ objects) × stands_for b policy objects []) models.items
        policies }
    ensures ok { (reached : Graph → ℕ → Bool) → Decides reached → (policies : List Policy) →
        AllZip (λ b policy. (objects : ℕ) × stands_for b policy objects []) models.items policies →
        OnOk result (O.taken sink.new
        ≡ with_more (O.taken sink.old) (replay_text reached timeline.now policies)) }
    ensures count { IfOk result (λ lines. lines ≡ length models.items) }
    ensures write { O.faults sink.new ≡ count_after (is_write_fault result) (O.faults sink.old) }
    ensures err { (reached : Graph → ℕ → Bool) → Decides reached → (policies : List Policy) →
        AllZip (λ b policy. (objects : ℕ) × stands_for b policy objects []) models.items policies →
        OnErr result (TakesPrefix
        (O.taken sink.old) (O.taken sink.new) (replay_text reached timeline.now policies)) }
    ensures never_falls { O.faults sink.old ≤ O.faults sink.new }
{
    let Ok(count) = u32::try_from(models.len()) else {
        return Err(RunFault::NoMemory);
    };
    let Ok(text) = lines_of(alloc, timeline.items(), models) else {
        return Err(RunFault::NoMemory);
    };
    put_all(sink, text.as_slice())?;
    Ok(count)
}
