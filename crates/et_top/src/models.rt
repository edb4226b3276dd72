//! The models of a replay.
ghost use Rattle.std.specs.Prelude.{◌≡◌, ◌≤◌, ◌<◌, ◌^◌, ◌∷◌, ℕ, Bool, List, [], All, length, map, reverse, IfOk, IfSome, OnOk, OnErr};
ghost use Rattle.std.specs.List.{AllZip};
ghost use Rattle.et_base.specs.declared.line.TraceLine.{TraceLine};
ghost use Rattle.et_graph.specs.Graph.{Graph, Decides};
ghost use Rattle.et_io.specs.Faults.{count_after, is_write_fault};
ghost use Rattle.et_io.specs.Sink.{with_more, TakesPrefix};
ghost use Rattle.et_replay.specs.Kept.{AreHappenings};
ghost use Rattle.et_replay.specs.Replay.{replay_text};
ghost use Rattle.et_replay.specs.Timeline.{timeline_items};
ghost use Rattle.et_replay.specs.Items.{made_objects};
ghost use Rattle.et_text.specs.Rules.{IsGoodTrace};
ghost use Rattle.et_top.specs.Told.{IsPrepared};
ghost use Rattle.et_top.specs.Top.{policy_of, policies_of};

use et_base::NoMemory;
use et_command::Models;
use et_io::{RunFault, Sink};
use et_replay::{Happenings, HeapModel, Item, Kind, Policy, replay};
use std::alloc::Global;

/// The policy of a model of this kind, if one is asked for.
fn policy_of(asked: &Models, kind: Kind) -> Option<Policy>
    ensures policy { result ≡ policy_of asked.now kind }
    ensures kind { IfSome result (λ policy. policy.kind ≡ kind) }
{
    let (first, second) = match kind {
        Kind::MarkSweep => (asked.mark_sweep?, 0),
        Kind::SemiSpace => (asked.semispace?, 0),
        Kind::Generational => {
            let spaces = asked.generational?;
            (spaces.nursery, spaces.old)
        }
        Kind::RefCount => (asked.ref_count?, 0),
    };
    Some(Policy {
        kind,
        first,
        second,
    })
}

/// How many objects the item makes: one, or none.
fn makes(item: &Item) -> u32
    ensures { result ≡ length (made_objects (item.now ∷ [])) }
{
    match item {
        Item::Alloc { .. } => 1,
        _ => 0,
    }
}

/// How many objects the items make.
#[tactic(auto, using(et_replay::proofs::Comes::made_left))]
fn count_made(items: &[Item]) -> u32
    requires { length (made_objects items.now) < 2 ^ 24 }
    ensures { result ≡ length (made_objects items.now) }
{
    let mut count = 0;
    'items: for item in items {
        count += makes(item);
    }
    count
}

/// Gives a new model its policy and the number of objects, where it is asked for.
fn prepare(
    asked: &Models,
    objects: u32,
    model: Box<dyn HeapModel>,
) -> Result<Option<Box<dyn HeapModel>>, NoMemory>
    requires new { is_new model }
    requires few { objects ≤ 16777215 }
    ensures { IfOk result (λ chosen. IsPrepared
        (λ b policy. stands_for b policy objects []) (policy_of asked.now (kind_of model)) chosen) }
{
    let Some(policy) = policy_of(asked, model.kind()) else {
        return Ok(None);
    };
    let mut model = model;
    model.set_policy(policy, objects)?;
    Ok(Some(model))
}

/// Gives each of the new models that is asked for its policy and the number of objects, and drops the others.
fn choose(
    alloc: Global,
    asked: &Models,
    objects: u32,
    models: Vec<Box<dyn HeapModel>>,
) -> Result<Vec<Box<dyn HeapModel>>, NoMemory>
    requires new { All (λ b. is_new b) models.items }
    requires few { objects ≤ 16777215 }
    ensures { IfOk result (λ chosen. AllZip (λ b policy. stands_for b policy objects [])
        chosen.items (policies_of asked.now (map (λ b. kind_of b) models.items))) }
{
    let mut chosen = Vec::new(alloc);
    'models: for model in models {
        match prepare(asked, objects, model)? {
            Some(model) => chosen.push(model)?,
            None => {}
        }
    }
    Ok(chosen)
}

/// Writes the line of each of the new models that is asked for, in order: what it reports of the trace whose lines came. The
/// other models are dropped.
pub fn replay_trace<O: Sink>(
    alloc: Global,
    asked: &Models,
    happenings: Happenings,
    models: Vec<Box<dyn HeapModel>>,
    out: &mut O,
) -> Result<(), RunFault>
    requires new { All (λ b. is_new b) models.items }
    requires lines { (lines : List TraceLine) × IsGoodTrace lines
        × AreHappenings happenings (reverse lines) }
    ensures ok { (lines : List TraceLine) → IsGoodTrace lines →
        AreHappenings happenings (reverse lines) → (reached : Graph → ℕ → Bool) → Decides reached →
        OnOk result (O.taken out.new ≡ with_more (O.taken out.old) (replay_text reached
        (timeline_items lines) (policies_of asked.now (map (λ b. kind_of b) models.items)))) }
    ensures write { O.faults out.new ≡ count_after (is_write_fault result) (O.faults out.old) }
    ensures err { (lines : List TraceLine) → IsGoodTrace lines →
        AreHappenings happenings (reverse lines) → (reached : Graph → ℕ → Bool) → Decides reached →
        OnErr result (TakesPrefix (O.taken out.old) (O.taken out.new) (replay_text reached
        (timeline_items lines) (policies_of asked.now (map (λ b. kind_of b) models.items)))) }
    ensures never_falls { O.faults out.old ≤ O.faults out.new }
{
    let items = match happenings.in_order() {
        Ok(items) => items,
        Err(_) => return Err(RunFault::NoMemory),
    };
    let chosen = match choose(alloc, asked, count_made(items.items()), models) {
        Ok(chosen) => chosen,
        Err(_) => return Err(RunFault::NoMemory),
    };
    match replay(alloc, &items, chosen, out) {
        Ok(_) => Ok(()),
        Err(fault) => Err(fault),
    }
}
