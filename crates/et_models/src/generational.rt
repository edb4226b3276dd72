//! The generational model.
use crate::generations::Generations;
use et_base::NoMemory;
use et_replay::{Fed, HeapModel, Item, Kind, Policy, Report};
use std::alloc::Global;

/// A heap of a nursery and an old space: minor collections promote objects from one to the other.
#[derive(Drop)]
pub struct Generational {
    policy: Policy,
    heap: Generations,
}

impl Generational {
    ghost use Rattle.std.specs.Prelude.{◌≡◌};

    /// A new model.
    pub fn begin(alloc: Global) -> Generational
        ensures new { ⟦<Generational as HeapModel>⟧.is_new result }
        ensures kind { ⟦<Generational as HeapModel>⟧.kind_of result ≡ Kind.Generational }
    {
        Generational {
            policy: Policy::none(Kind::Generational),
            heap: Generations::begin(alloc),
        }
    }
}

impl HeapModel for Generational {
    ghost use Rattle.std.specs.Prelude.{◌≡◌, ◌≤◌, ℕ, Bool, List, [], ◌∷◌, OnOk};
    ghost use Rattle.et_graph.specs.Graph.{Graph, Decides};
    ghost use Rattle.et_replay.specs.Feeding.{MayCome, HasItemRoom, OnTaken, TellsExhausted};
    ghost use Rattle.et_replay.specs.Tally.{tally, is_exhausted};
    ghost use Rattle.et_replay.specs.declared.item.Item.{Item};
    ghost use Rattle.et_replay.specs.declared.model.Policy.{Policy};
    ghost use Rattle.et_replay.specs.declared.model.Kind.TheVariants.{Generational as own_kind};
    ghost use Rattle.et_models.specs.Generations.{both_of, new_both, StandsAs};

    ghost kind_of = { λ _. own_kind };

    ghost is_new = { λ m. both_of m.heap ≡ new_both };

    ghost stands_for = { λ m policy objects past.
        StandsAs m.policy policy (both_of m.heap) objects past };

    fn kind(&self) -> Kind {
        Kind::Generational
    }

    fn set_policy(&mut self, policy: Policy, objects: u32) -> Result<(), NoMemory> {
        self.heap.open(policy.first, policy.second, objects)?;
        self.policy = policy;
        Ok(())
    }

    fn feed(&mut self, item: &Item) -> Fed {
        match self.heap.take(item) {
            Ok(()) => self.heap.totals.answer(),
            Err(NoMemory) => Fed::NoMemory,
        }
    }

    fn report(&self) -> Report {
        Report {
            policy: self.policy,
            totals: self.heap.totals,
        }
    }
}
