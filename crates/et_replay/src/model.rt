//! Models of the heap: policies, reports, and what each model keeps to.
ghost use Rattle.std.specs.Prelude.{◌≡◌, ◌≤◌, if◌then◌else◌, is_some, ℕ, Bool, List, [], ◌∷◌, OnOk};
ghost use Rattle.et_graph.specs.Graph.{Graph, Decides};
ghost use Rattle.et_replay.specs.Feeding.{MayCome, HasItemRoom, OnTaken, TellsExhausted};
ghost use Rattle.et_replay.specs.Tally.{empty_heap, totals_of, tally, is_exhausted};
ghost use Rattle.et_replay.specs.declared.item.Item.{Item};
ghost use Rattle.et_replay.specs.declared.model.Kind.{Kind};
ghost use Rattle.et_replay.specs.declared.model.Policy.{Policy};

use crate::item::Item;
use et_base::NoMemory;

/// The kinds of models.
#[derive(Clone, Copy, Debug, PartialEq, Eq)]
pub enum Kind {
    /// One space; a collection frees the dead objects where they are.
    MarkSweep,
    /// Two halves, of which one is in use; a collection copies the live objects to the other.
    SemiSpace,
    /// A nursery for small new objects, and an old space.
    Generational,
    /// One space; an object is freed as soon as it is dead and no slot of an object that isn't freed refers to it.
    RefCount,
}

/// What a model is to account for.
#[derive(Clone, Copy, Debug, PartialEq, Eq)]
pub struct Policy {
    pub kind: Kind,
    /// The capacity in bytes; of a generational heap that of the nursery.
    pub first: u64,
    /// The capacity of the old space in bytes, and 0 where there is none.
    pub second: u64,
}

impl Policy {
    /// The policy of a model of this kind that was given none yet.
    pub fn none(kind: Kind) -> Policy
        ensures { result ≡ record { kind = kind; first = 0; second = 0 } }
    {
        Policy {
            kind,
            first: 0,
            second: 0,
        }
    }
}

/// The running totals of a heap. Each is 0 where the policy doesn't count it.
#[derive(Clone, Copy, Debug, PartialEq, Eq)]
pub struct Totals {
    /// Minor collections.
    pub minor: u64,
    /// Collections of the whole space, of a generational heap those of its old space.
    pub major: u64,
    /// The bytes that collections kept, added up: what was marked, copied or promoted. With reference counts, the bytes
    /// of the objects that are dead and not freed.
    pub kept: u128,
    /// The bytes that were freed.
    pub freed: u64,
    /// The most bytes in the heap after an object was placed.
    pub peak: u64,
    /// The event of the object for which there was no room.
    pub exhausted: Option<u64>,
}

impl Totals {
    /// The totals of a heap to which nothing came.
    pub fn begin() -> Totals
        ensures { result ≡ totals_of empty_heap }
    {
        Totals {
            minor: 0,
            major: 0,
            kept: 0,
            freed: 0,
            peak: 0,
            exhausted: None,
        }
    }

    /// What a model with these totals answers to an item that it took.
    pub fn answer(&self) -> Fed
        ensures { result ≡ (if is_some self.now.exhausted then Fed.Exhausted else Fed.Ok) }
    {
        if self.exhausted.is_some() {
            Fed::Exhausted
        } else {
            Fed::Ok
        }
    }
}

/// The account of a policy.
#[derive(Clone, Copy, Debug, PartialEq, Eq)]
pub struct Report {
    pub policy: Policy,
    pub totals: Totals,
}

/// What a model answers to an item.
#[derive(Clone, Copy, Debug, PartialEq, Eq)]
pub enum Fed {
    /// It took the item.
    Ok,
    /// It took the item, and there was no room for its object. Nothing more may be fed.
    Exhausted,
    /// Memory ran out. The model may only be dropped.
    NoMemory,
}

/// A model of the heap: it is fed items and accounts for them as its policy does.
pub trait HeapModel: Drop {
    /// What kind of model it is.
    ghost kind_of: { Self → Kind };

    /// It has no policy yet.
    ghost is_new: { Self → Type 0 };

    /// It has this policy, was told of so many objects, and was fed these items, of which the newest stands first.
    ghost stands_for: { Self → Policy → ℕ → List Item → Type 0 };

    /// The kind.
    fn kind(&self) -> Kind
        ensures { result ≡ kind_of self.now };

    /// Gives a new model its policy, and the number of the objects that may come, at most 16,777,215.
    fn set_policy(&mut self, policy: Policy, objects: u32) -> Result<(), NoMemory>
        requires kind { policy.kind ≡ kind_of self.old }
        requires new { is_new self.old }
        requires few { objects ≤ 16777215 }
        ensures ok { OnOk result (stands_for self.new policy objects []) }
        ensures kind { kind_of self.new ≡ kind_of self.old };

    /// Takes an item. `Exhausted` is answered exactly where there is too little room for the item's object, after a
    /// collection where the policy has one.
    fn feed(&mut self, item: &Item) -> Fed
        requires stands { (policy : Policy)
            × (objects : ℕ) × (past : List Item) × stands_for self.old policy objects past
            × HasItemRoom policy past × MayCome objects past item.now }
        ensures taken { (policy : Policy) (objects : ℕ) (past : List Item) →
            stands_for self.old policy objects past →
            OnTaken result (stands_for self.new policy objects (item.now ∷ past)) }
        ensures exhausted { (reached : Graph → ℕ → Bool) → Decides reached → (policy : Policy)
            (objects : ℕ) (past : List Item) → stands_for self.old policy objects past →
            TellsExhausted result (is_exhausted reached policy (item.now ∷ past)) }
        ensures kind { kind_of self.new ≡ kind_of self.old };

    /// The account of what it was fed.
    fn report(&self) -> Report
        ensures { (reached : Graph → ℕ → Bool) →
            Decides reached → (policy : Policy) (objects : ℕ) (past : List Item) →
            stands_for self.now policy objects past → result ≡ tally reached policy past };
}
