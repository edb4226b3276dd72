//! A whole trace, replayed.
ghost use Rattle.std.specs.Prelude.{◌≡◌, ◌≤◌, ℕ, [], length};
ghost use Rattle.et_replay.specs.Items.{made_objects};
ghost use Rattle.et_replay.specs.declared.model.Policy.{Policy};

use crate::timelines::TRACE;
use crate::traces::read;
use et_io::MemSink;
use et_models::{Generational, MarkSweep, SemiSpace};
use et_refcount::RefCount;
use et_replay::{HeapModel, Kind, Policy, Timeline, replay, timeline};
use std::alloc::Global;
use std::process::Abort;
use std::test::Fail;

fn items_of(alloc: Global, text: &str) -> Result<Timeline, Fail> {
    let trace = read(alloc, text.as_bytes(), text.len())?;
    Ok(timeline(alloc, &trace)?)
}

fn replay_both(
    alloc: Global,
    items: &Timeline,
    mark_sweep: MarkSweep,
    semi_space: SemiSpace,
    sink: &mut MemSink,
) -> Result<u32, Fail>
    requires first { (policy : Policy) × (objects : ℕ) × (length (made_objects items.now) ≤ objects)
        × ⟦<MarkSweep as HeapModel>⟧.stands_for mark_sweep policy objects [] }
    requires second { (policy : Policy) × (objects : ℕ) ×
        (length (made_objects items.now) ≤ objects)
        × ⟦<SemiSpace as HeapModel>⟧.stands_for semi_space policy objects [] }
{
    let mut models: Vec<Box<dyn HeapModel>> = Vec::new(alloc);
    models.push(Box::new(alloc, mark_sweep)?)?;
    models.push(Box::new(alloc, semi_space)?)?;
    Ok(replay(alloc, items, models, sink)?)
}

#[test]
fn one_goes_on_where_another_is_exhausted(rt: HostRuntime) -> Result<(), Fail> {
    let alloc = rt.alloc();
    let items = items_of(alloc, TRACE)?;
    let mut mark_sweep = MarkSweep::begin(alloc);
    mark_sweep.set_policy(
        Policy {
            kind: Kind::MarkSweep,
            first: 96,
            second: 0,
        },
        items.objects(),
    )?;
    let mut semi_space = SemiSpace::begin(alloc);
    semi_space.set_policy(
        Policy {
            kind: Kind::SemiSpace,
            first: 100,
            second: 0,
        },
        items.objects(),
    )?;
    let mut sink = MemSink::begin(alloc, 7);
    let lines = replay_both(alloc, &items, mark_sweep, semi_space, &mut sink)?;
    assert_eq!(rt; lines, 2);
    let wanted = "mark-sweep capacity=96 collections=1 marked=48 swept=48 peak=96
semispace capacity=100 collections=1 copied=48 freed=0 peak=48 exhausted=3
";
    assert_eq!(rt; sink.bytes(), wanted.as_bytes());
    Ok(())
}

/// The line of a new model alone, by its policy.
fn replay_alone(
    alloc: Global,
    items: &Timeline,
    mut model: Box<dyn HeapModel>,
    policy: Policy,
    sink: &mut MemSink,
) -> Result<u32, Fail>
    requires new { is_new model }
    requires kind { policy.kind ≡ kind_of model }
{
    model.set_policy(policy, items.objects())?;
    let mut models: Vec<Box<dyn HeapModel>> = Vec::new(alloc);
    models.push(model)?;
    Ok(replay(alloc, items, models, sink)?)
}

fn replay_generations(
    alloc: Global,
    items: &Timeline,
    nursery: u64,
    old: u64,
    sink: &mut MemSink,
) -> Result<u32, Fail> {
    let model = Box::new(alloc, Generational::begin(alloc))?;
    let policy = Policy {
        kind: Kind::Generational,
        first: nursery,
        second: old,
    };
    replay_alone(alloc, items, model, policy, sink)
}

#[test]
fn the_old_space_keeps_what_a_dead_object_refers_to(rt: HostRuntime) -> Result<(), Fail> {
    let alloc = rt.alloc();
    let items = items_of(alloc, TRACE)?;
    let mut sink = MemSink::begin(alloc, 7);
    let roomy = replay_generations(alloc, &items, 48, 200, &mut sink)?;
    let narrow = replay_generations(alloc, &items, 23, 48, &mut sink)?;
    assert_eq!(rt; roomy, 1);
    assert_eq!(rt; narrow, 1);
    let wanted = "generational nursery=48 old=200 minor=2 major=0 promoted=96 swept=0 peak=120
generational nursery=23 old=48 minor=0 major=1 promoted=0 swept=0 peak=48 exhausted=3
";
    assert_eq!(rt; sink.bytes(), wanted.as_bytes());
    Ok(())
}

/// Two objects refer to each other, and one of them to a third.
const CYCLE: &str = "H 1 0
C 1 P
A 1 0 1 1 24 0
A 2 0 2 1 24 0
A 3 0 3 1 16 0
U 4 0 1 0 0 2
U 5 0 2 0 0 1
U 6 0 2 1 0 3
F 8 3
D 1 7
D 2 7
D 3 7
Z 8 0
";

fn replay_counts(
    alloc: Global,
    items: &Timeline,
    capacity: u64,
    sink: &mut MemSink,
) -> Result<u32, Fail> {
    let model = Box::new(alloc, RefCount::begin(alloc))?;
    let policy = Policy {
        kind: Kind::RefCount,
        first: capacity,
        second: 0,
    };
    replay_alone(alloc, items, model, policy, sink)
}

#[test]
fn a_cycle_leaks_with_what_it_leads_to(rt: HostRuntime) -> Result<(), Fail> {
    let alloc = rt.alloc();
    let mut sink = MemSink::begin(alloc, 7);
    let five = items_of(alloc, TRACE)?;
    let cycle = items_of(alloc, CYCLE)?;
    let freed = replay_counts(alloc, &five, 200, &mut sink)?;
    let leaked = replay_counts(alloc, &cycle, 100, &mut sink)?;
    let narrow = replay_counts(alloc, &cycle, 63, &mut sink)?;
    assert_eq!(rt; freed, 1);
    assert_eq!(rt; leaked, 1);
    assert_eq!(rt; narrow, 1);
    let wanted = "refcount capacity=200 leaked=0 freed=120 peak=72
refcount capacity=100 leaked=64 freed=0 peak=64
refcount capacity=63 leaked=0 freed=0 peak=48 exhausted=3
";
    assert_eq!(rt; sink.bytes(), wanted.as_bytes());
    Ok(())
}
