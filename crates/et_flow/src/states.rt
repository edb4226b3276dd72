//! The types that a search has found at places.
ghost use Rattle.std.specs.Prelude.{◌≡◌, ℕ, ◌<◌, ◌≤◌, ◌++◌, List, [], ◌∷◌, true, false, length, slice_set, Some, None, IfOk, OnOk};
ghost use Rattle.et_flow.specs.declared.states.Joined.TheVariants as outcome;
ghost use Rattle.et_flow.specs.Flows.{types_at, IsJoinable};
ghost use Rattle.et_flow.specs.Searching.{HasJoined};
ghost use Rattle.et_flow.specs.Slots.{shown, AreApart};

use crate::types::Types;
use et_base::NoMemory;
use std::alloc::Global;
use std::marker::Model;

/// What came of types that were joined at a place.
#[derive(Clone, Copy)]
pub(crate) enum Joined {
    /// Other operands were found there, or not as many local variables.
    Other,
    /// The types there are the same.
    Same,
    /// The types there changed.
    Changed,
}

/// For how many places the room of the types stays for the next search.
const KEPT: usize = 64;

/// The types found at places. Only the places at which something was found take room for types: the first of `found` are
/// theirs, and those behind are of no place.
#[derive(Drop)]
pub(crate) struct States {
    slots: Vec<usize>,
    found: Vec<Types>,
    used: usize,
}

impl Model for States {
    ghost use Rattle.std.specs.Prelude.{◌≤◌, List, Option, length};
    ghost use Rattle.et_flow.specs.Types.{TypesOf};
    ghost use Rattle.et_flow.specs.Slots.{shown, AreApart};

    ghost Value = { List (Option TypesOf) };

    ghost view = { λ s. shown s.found.items s.slots.items };

    ghost invariant = { λ s. AreApart s.slots.items s.used × (s.used ≤ length s.found.items) };
}

/// Makes room for the types of one more place than have some.
fn make_room(alloc: Global, found: &mut Vec<Types>, used: usize) -> Result<(), NoMemory>
    requires { used ≤ length found.old.items }
    ensures room { OnOk result (used < length found.new.items) }
    ensures kept { OnOk result ((slots : List ℕ) → AreApart slots used →
        shown found.new.items slots ≡ shown found.old.items slots) }
    ensures long { length found.old.items ≤ length found.new.items }
{
    if used == found.len() {
        found.push(Types::new(alloc))?;
    }
    Ok(())
}

impl States {
    /// There are no places.
    pub(crate) fn new(alloc: Global) -> Self {
        States {
            slots: Vec::new(alloc),
            found: Vec::new(alloc),
            used: 0,
        }
    }

    /// Nothing was found at so many places.
    pub(crate) fn begin(&mut self, count: usize) -> Result<(), NoMemory>
        ensures long { OnOk result (length self.new ≡ count) }
        ensures none { OnOk result ((pc : ℕ) → types_at self.new pc ≡ None) }
    {
        self.used = 0;
        self.found.truncate(KEPT);
        self.slots.clear();
        self.slots.resize(count, 0)?;
        Ok(())
    }

    /// Makes types those that were found at a place. `false` where nothing was.
    pub(crate) fn read(&self, place: u32, types: &mut Types) -> Result<bool, NoMemory>
        requires { place < length self.now }
        ensures some { IfOk result (λ b. b ≡ true → types_at self.now place ≡ Some types.new) }
        ensures none { IfOk result (λ b. b ≡ false → types_at self.now place ≡ None) }
    {
        let slot = self.slots[place as usize];
        if slot == 0 {
            return Ok(false);
        }
        types.copy_from(&self.found[slot - 1])?;
        Ok(true)
    }

    /// These types are found at a place, where nothing was.
    fn put(&mut self, alloc: Global, place: u32, types: &Types) -> Result<(), NoMemory>
        requires inside { place < length self.old }
        requires none { types_at self.old place ≡ None }
        ensures { OnOk result (self.new ≡ slice_set self.old place (Some types.now)) }
    {
        make_room(alloc, &mut self.found, self.used)?;
        self.found[self.used].copy_from(types)?;
        self.used += 1;
        self.slots[place as usize] = self.used;
        Ok(())
    }

    /// Joins types with what was found at a place.
    pub(crate) fn join(
        &mut self,
        alloc: Global,
        place: u32,
        types: &Types,
    ) -> Result<Joined, NoMemory>
        requires { place < length self.old }
        ensures other { IfOk result (λ j. j ≡ outcome.Other →
            IsJoinable (types_at self.old place) types.now → ⊥) }
        ensures same { IfOk result (λ j. j ≡ outcome.Same → (locals : ℕ) (work : List ℕ) →
            HasJoined locals self.old work place types.now self.new work) }
        ensures changed { IfOk result (λ j. j ≡ outcome.Changed → (locals : ℕ) (work : List ℕ) →
            length types.now.locals ≤ locals →
            HasJoined locals self.old work place types.now self.new (work ++ place ∷ [])) }
        ensures long { IfOk result (λ j. length self.new ≡ length self.old) }
    {
        let slot = self.slots[place as usize];
        if slot == 0 {
            self.put(alloc, place, types)?;
            return Ok(Joined::Changed);
        }
        if !self.found[slot - 1].has_shape_of(types) {
            return Ok(Joined::Other);
        }
        if self.found[slot - 1].join_locals(types) {
            return Ok(Joined::Changed);
        }
        Ok(Joined::Same)
    }
}
