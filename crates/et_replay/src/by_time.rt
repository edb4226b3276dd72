//! The timeline of a trace.
ghost use Rattle.std.specs.Prelude.{◌≡◌, ◌<◌, ◌^◌, List, ◌++◌, ◌∷◌, [], length, reverse, IfOk, OnOk};
ghost use Rattle.std.specs.List.{filter_map};
ghost use Rattle.et_replay.specs.Kept.{AreHappenings};
ghost use Rattle.et_replay.specs.Parts.{item_of, item_event, deaths_from};
ghost use Rattle.et_replay.specs.Timeline.{timeline_items};
ghost use Rattle.et_base.specs.declared.line.TraceLine.{TraceLine};
ghost use Rattle.et_text.specs.Rules.{IsGoodTrace};

use crate::item::{Item, Timeline};
use crate::lives::{Lives, NEVER};
use et_base::{NoMemory, TraceLine};
use et_text::{Follower, Trace};
use std::alloc::Global;

fn item_of(line: &TraceLine) -> Option<Item>
    ensures { result ≡ item_of line.now }
{
    match line {
        TraceLine::Alloc {
            event,
            object,
            size,
            ..
        } => Some(Item::Alloc {
            event: *event,
            object: *object,
            size: *size,
        }),
        TraceLine::Update { object: 0, .. } => None,
        TraceLine::Update {
            event,
            object,
            slot,
            new,
            ..
        } => Some(Item::Write {
            event: *event,
            object: *object,
            slot: *slot,
            new: *new,
        }),
        _ => None,
    }
}

fn moment(item: &Item) -> u128
    ensures { result ≡ item_event item.now }
{
    match item {
        Item::Alloc { event, .. } | Item::Write { event, .. } => 2 * u128::from(*event),
        Item::Death { time, .. } => 2 * u128::from(*time) + 1,
    }
}

fn push_item(items: &mut Vec<Item>, line: &TraceLine) -> Result<(), NoMemory>
    ensures { OnOk result
        (items.new.items ≡ items.old.items ++ filter_map item_of (line.now ∷ [])) }
{
    if let Some(item) = item_of(line) {
        items.push(item)?;
    }
    Ok(())
}

fn push_deaths(items: &mut Vec<Item>, died: &[(u64, u64)]) -> Result<(), NoMemory>
    requires { length died.now < 2 ^ 32 }
    ensures { OnOk result (items.new.items ≡ items.old.items ++ deaths_from 0 died.now) }
{
    let mut object = 0;
    for (time, _) in died {
        object += 1;
        if *time != NEVER {
            items.push(Item::Death {
                object,
                time: *time,
            })?;
        }
    }
    Ok(())
}

/// What the timeline needs of the lines of a trace, which come one by one: the items of its A and U lines, and the objects.
#[derive(Drop)]
pub struct Happenings {
    items: Vec<Item>,
    lives: Lives,
}

impl Happenings {
    /// No line yet.
    pub fn begin(alloc: Global) -> Happenings
        ensures { AreHappenings result [] }
    {
        Happenings {
            items: Vec::new(alloc),
            lives: Lives::begin(alloc),
        }
    }

    fn note(&mut self, line: &TraceLine) -> Result<(), NoMemory>
        ensures { (past : List TraceLine) → AreHappenings self.old past →
            OnOk result (AreHappenings self.new (line.now ∷ past)) }
    {
        push_item(&mut self.items, line)?;
        self.lives.note(line)
    }

    /// The items of the lines that came, in order of time, as `timeline` has them.
    pub fn in_order(self) -> Result<Timeline, NoMemory>
        requires { (lines : List TraceLine) × IsGoodTrace lines
            × AreHappenings self (reverse lines) }
        ensures { (lines : List TraceLine) → IsGoodTrace lines →
            AreHappenings self (reverse lines) → IfOk result (λ t. t ≡ timeline_items lines) }
    {
        let mut items = self.items;
        push_deaths(&mut items, &self.lives.died)?;
        items.sort_by_key(|item| moment(item))?;
        Ok(Timeline::of(items))
    }
}

impl Follower for Happenings {
    ghost follows = { AreHappenings };

    fn line(&mut self, line: &TraceLine) -> Result<(), NoMemory> {
        self.note(line)
    }
}

/// The items of a trace, in order of time: what the A and U lines tell, in their order, and each death of a time `t`
/// before what happens at event `t + 1`; deaths of one time stand in order of number. A U line of a static gives none.
pub fn timeline(alloc: Global, trace: &Trace) -> Result<Timeline, NoMemory>
    ensures { IfOk result (λ t. t ≡ timeline_items trace.now) }
{
    let mut happenings = Happenings::begin(alloc);
    for line in trace.lines() {
        happenings.note(line)?;
    }
    happenings.in_order()
}
