//! The model with reference counts.
use crate::counts::Counts;
use et_base::NoMemory;
use et_replay::{Fed, HeapModel, Item, Kind, Policy, Report};
use std::alloc::Global;

/// A heap that frees an object as soon as it is dead and nothing that isn't freed refers to it. What stands on a cycle
/// is never freed, nor what a cycle leads to.
#[derive(Drop)]
pub struct RefCount {
    policy: Policy,
    counts: Counts,
}

impl RefCount {
    ghost use Rattle.std.specs.Prelude.{◌≡◌};

    /// A new model.
    pub fn begin(alloc: Global) -> RefCount
        ensures new { ⟦<RefCount as HeapModel>⟧.is_new result }
        ensures kind { ⟦<RefCount as HeapModel>⟧.kind_of result ≡ Kind.RefCount }
    {
        RefCount {
            policy: Policy::none(Kind::RefCount),
            counts: Counts::begin(alloc),
        }
    }
}

impl HeapModel for RefCount {
    ghost use Rattle.std.specs.Prelude.{◌≡◌, ◌≤◌, ℕ, Bool, List, [], ◌∷◌, OnOk};
    ghost use Rattle.et_graph.specs.Graph.{Graph, Decides};
    ghost use Rattle.et_replay.specs.Feeding.{MayCome, HasItemRoom, OnTaken, TellsExhausted};
    ghost use Rattle.et_replay.specs.Tally.{tally, is_exhausted};
    ghost use Rattle.et_replay.specs.declared.item.Item.{Item};
    ghost use Rattle.et_replay.specs.declared.model.Policy.{Policy};
    ghost use Rattle.et_replay.specs.declared.model.Kind.TheVariants.{RefCount as own_kind};
    ghost use Rattle.et_refcount.specs.Counts.{view_of, new_view, Accounts};

    ghost kind_of = { λ _. own_kind };

    ghost is_new = { λ m. view_of m.counts ≡ new_view };

    ghost stands_for = { λ m policy objects past.
        Accounts m.policy policy (view_of m.counts) objects past };

    fn kind(&self) -> Kind {
        Kind::RefCount
    }

    fn set_policy(&mut self, policy: Policy, objects: u32) -> Result<(), NoMemory> {
        self.counts.open(policy.first, objects)?;
        self.policy = policy;
        Ok(())
    }

    fn feed(&mut self, item: &Item) -> Fed {
        match self.counts.take(item) {
            Ok(()) => self.counts.totals.answer(),
            Err(NoMemory) => Fed::NoMemory,
        }
    }

    fn report(&self) -> Report {
        Report {
            policy: self.policy,
            totals: self.counts.totals,
        }
    }
}
