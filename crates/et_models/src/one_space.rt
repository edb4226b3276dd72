//! The mark-sweep and the semispace model: heaps that have one space in use, and collect it where an object doesn't fit.
ghost use Rattle.std.specs.Prelude.{◌≡◌, ◌/◌, ℕ, Bool, List};
ghost use Rattle.et_graph.specs.Graph.{Graph};
ghost use Rattle.et_replay.specs.Tally.{heap_by, space_after};
ghost use Rattle.et_replay.specs.declared.item.Item.{Item};
ghost use Rattle.et_replay.specs.declared.model.Kind.{Kind};

use crate::space::Space;
use et_base::NoMemory;
use et_replay::{Fed, HeapModel, Item, Kind, Policy, Report};
use std::alloc::Global;
use std::marker::PhantomData;

/// What a kind of heap with one space in use has of its own.
pub trait Collected {
    ghost own_kind: { Kind };

    /// The bytes in use of a capacity.
    ghost part: { ℕ → ℕ };

    /// The kind.
    fn kind() -> Kind
        ensures { result ≡ own_kind };

    /// The bytes in use of a capacity.
    fn in_use(capacity: u64) -> u64
        ensures { result ≡ part capacity };

    ghost accounts: { (reached : Graph → ℕ → Bool) (first second : ℕ) (past : List Item) →
        heap_by reached own_kind first second past ≡ space_after (part first) past };
}

/// A collection frees the dead objects where they are: the whole space is in use.
#[derive(Drop)]
pub struct InPlace;

impl Collected for InPlace {
    ghost use Rattle.std.specs.Prelude.{refl};
    ghost use Rattle.et_replay.specs.declared.model.Kind.TheVariants.{MarkSweep as own};

    ghost own_kind = { own };

    ghost part = { λ capacity. capacity };

    fn kind() -> Kind {
        Kind::MarkSweep
    }

    fn in_use(capacity: u64) -> u64 {
        capacity
    }

    ghost accounts = { λ reached first second past. refl };
}

/// A collection copies the live objects to the other half: one of two halves is in use.
#[derive(Drop)]
pub struct ByCopying;

impl Collected for ByCopying {
    ghost use Rattle.std.specs.Prelude.{refl, ◌/◌};
    ghost use Rattle.et_replay.specs.declared.model.Kind.TheVariants.{SemiSpace as own};

    ghost own_kind = { own };

    ghost part = { λ capacity. capacity / 2 };

    fn kind() -> Kind {
        Kind::SemiSpace
    }

    fn in_use(capacity: u64) -> u64 {
        capacity / 2
    }

    ghost accounts = { λ reached first second past. refl };
}

/// A heap with one space in use.
#[derive(Drop)]
pub struct OneSpace<C> {
    policy: Policy,
    space: Space,
    collected: PhantomData<C>,
}

/// A heap of one space: a collection frees the dead objects where they are.
pub type MarkSweep = OneSpace<InPlace>;

/// A heap of two halves, one of them in use: a collection copies the live objects to the other.
pub type SemiSpace = OneSpace<ByCopying>;

impl<C: Collected + Drop> OneSpace<C> {
    /// A new model.
    pub fn begin(alloc: Global) -> OneSpace<C>
        ensures new { ⟦<OneSpace<C> as HeapModel>⟧.is_new result }
        ensures kind { ⟦<OneSpace<C> as HeapModel>⟧.kind_of result ≡ C.own_kind }
    {
        OneSpace {
            policy: Policy::none(C::kind()),
            space: Space::begin(alloc),
            collected: PhantomData,
        }
    }
}

impl<C: Collected + Drop> HeapModel for OneSpace<C> {
    ghost use Rattle.std.specs.Prelude.{◌≡◌, ◌≢◌, ◌≤◌, ℕ, Bool, List, [], ◌∷◌, OnOk};
    ghost use Rattle.et_graph.specs.Graph.{Graph, Decides};
    ghost use Rattle.et_replay.specs.Feeding.{MayCome, HasItemRoom, OnTaken, TellsExhausted};
    ghost use Rattle.et_replay.specs.Tally.{tally, is_exhausted};
    ghost use Rattle.et_replay.specs.declared.item.Item.{Item};
    ghost use Rattle.et_replay.specs.declared.model.Policy.{Policy};
    ghost use Rattle.et_models.specs.Spaces.{view_of, new_view, Accounts};

    ghost kind_of = { λ _. C.own_kind };

    ghost is_new = { λ m. view_of m.space ≡ new_view };

    ghost stands_for = { λ m policy objects past.
        Accounts m.policy policy C.own_kind (C.part policy.first) m.space objects past };

    fn kind(&self) -> Kind {
        C::kind()
    }

    fn set_policy(&mut self, policy: Policy, objects: u32) -> Result<(), NoMemory> {
        self.space.open(C::in_use(policy.first), objects)?;
        self.policy = policy;
        Ok(())
    }

    /// Takes an item, and no memory.
    fn feed(&mut self, item: &Item) -> Fed
        requires stands { (policy : Policy) × (objects : ℕ) × (past : List Item)
            × ⟦<OneSpace<C> as HeapModel>⟧.stands_for self.old policy objects past
            × HasItemRoom policy past × MayCome objects past item.now }
        ensures taken { (policy : Policy) (objects : ℕ) (past : List Item) →
            ⟦<OneSpace<C> as HeapModel>⟧.stands_for self.old policy objects past → OnTaken result
            (⟦<OneSpace<C> as HeapModel>⟧.stands_for self.new policy objects (item.now ∷ past)) }
        ensures exhausted { (reached : Graph → ℕ → Bool) →
            Decides reached → (policy : Policy) (objects : ℕ) (past : List Item) →
            ⟦<OneSpace<C> as HeapModel>⟧.stands_for self.old policy objects past →
            TellsExhausted result (is_exhausted reached policy (item.now ∷ past)) }
        ensures kind { ⟦<OneSpace<C> as HeapModel>⟧.kind_of self.new
            ≡ ⟦<OneSpace<C> as HeapModel>⟧.kind_of self.old }
        ensures no_memory { result ≢ Fed.NoMemory }
    {
        self.space.feed(item);
        self.space.totals.answer()
    }

    fn report(&self) -> Report {
        Report {
            policy: self.policy,
            totals: self.space.totals,
        }
    }
}
