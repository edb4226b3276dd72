//! The search for the least typing of code.

ghost use Rattle.std.specs.Prelude.{◌≡◌, ℕ, ◌+◌, ◌*◌, ◌<◌, ◌≤◌, ◌^◌, [], ◌∷◌, ◌++◌, true, false, Bool, length, Option, None, Contains, IfOk, IfSome, vec_len};
ghost use Rattle.et_flow.specs.Types.{TypesOf};
ghost use Rattle.et_flow.specs.Flows.{LeadOf, Typing, HasTyping, IsFollowable, IsLed, heights, HasLocals, IsJoinable, types_at};
ghost use Rattle.et_flow.specs.Searching.{HasJoined, HaveLocals, IsUnder, AreThere, Joins, Searches, AreKept};

use crate::states::{Joined, States};
use crate::types::Types;
use et_base::NoMemory;
use std::alloc::Global;

/// Where an instruction leads.
#[derive(Drop)]
pub struct Lead {
    /// The place right behind, where no other instruction leads to it.
    pub on: Option<u32>,
    /// The other places at which it goes on.
    pub nexts: Vec<u32>,
    /// The handlers that may be entered at it.
    pub handlers: Vec<u32>,
    /// The types with which they are, if there are some.
    pub caught: Types,
}

impl Lead {
    /// Nowhere.
    fn nowhere(alloc: Global) -> Self
        ensures { (result.on ≡ None) × (result.nexts.items ≡ []) × (result.handlers.items ≡ []) }
    {
        Lead {
            on: None,
            nexts: Vec::new(alloc),
            handlers: Vec::new(alloc),
            caught: Types::new(alloc),
        }
    }
}

/// Code, of which is told where its instructions lead.
pub trait Flow {
    /// Where the instruction at a place leads from types; `None` where there is none, or it doesn't accept them.
    ghost leads: { Self → ℕ → TypesOf → Option LeadOf };

    /// Whether one instruction alone leads to a place, which stands before it.
    ghost straight: { Self → ℕ → Bool };

    /// Tells where the instruction at a place leads from types, which become those after it. `false` where there is none, or it
    /// doesn't accept them; the types are of no use then.
    fn lead(&self, place: u32, types: &mut Types, lead: &mut Lead) -> Result<bool, NoMemory>
        ensures { IfOk result (λ b. IsLed (straight self.now) b lead.new types.new
            (leads self.now place types.old)) };
}

/// Joins types with what was found at a place, and notes the place where that changed. It answers `false` where the place has
/// other operands.
#[inline(never)]
fn join_at(
    alloc: Global,
    states: &mut States,
    work: &mut Vec<u32>,
    place: u32,
    types: &Types,
) -> Result<bool, NoMemory>
    requires { place < length states.old }
    ensures joined { IfOk result (λ b. b ≡ true → (locals : ℕ) →
        length types.now.locals ≤ locals → HasJoined locals states.old work.old.items place
        types.now states.new work.new.items) }
    ensures other { IfOk result (λ b. b ≡ false →
        IsJoinable (types_at states.old place) types.now → ⊥) }
    ensures long { IfOk result (λ b. length states.new ≡ length states.old) }
{
    match states.join(alloc, place, types)? {
        Joined::Other => return Ok(false),
        Joined::Same => {}
        Joined::Changed => work.push(place)?,
    }
    Ok(true)
}

/// Joins types with what was found at each of some places. It answers `false` where one has other operands.
#[inline(always)]
fn join_each(
    alloc: Global,
    states: &mut States,
    work: &mut Vec<u32>,
    places: &[u32],
    types: &Types,
) -> Result<bool, NoMemory>
    requires { (q : ℕ) → Contains places.now q → q < length states.old }
    ensures joined { IfOk result (λ b. b ≡ true → (locals : ℕ) →
        ((q : ℕ) → Contains places.now q → length types.now.locals ≤ locals) →
        HaveLocals locals states.old →
        Joins locals states.old work.old.items places.now types.now states.new work.new.items) }
    ensures none { IfOk result (λ b. b ≡ false → (typing : Typing) →
        IsUnder typing states.old → AreThere typing places.now types.now → ⊥) }
    ensures long { IfOk result (λ b. length states.new ≡ length states.old) }
{
    for place in places {
        if !join_at(alloc, states, work, *place, types)? {
            return Ok(false);
        }
    }
    Ok(true)
}

/// Follows the instruction at a place, and those that come straight behind it, to where they lead. It answers `false` where there
/// is no typing.
#[inline(never)]
fn follow<F: Flow>(
    alloc: Global,
    flow: &F,
    states: &mut States,
    work: &mut Vec<u32>,
    place: u32,
    types: &mut Types,
    lead: &mut Lead,
) -> Result<bool, NoMemory>
    requires place { place < length states.old }
    requires kept { F.straight flow.now place ≡ false }
    requires noted { AreKept (F.straight flow.now) (length states.old) work.old.items }
    requires code { IsFollowable (length states.old) (F.leads flow.now) (F.straight flow.now) }
    ensures followed { IfOk result (λ b. b ≡ true → (entry : TypesOf) (locals : ℕ) →
        Searches (F.leads flow.now) (F.straight flow.now) entry locals
        states.old (work.old.items ++ place ∷ []) →
        Searches (F.leads flow.now) (F.straight flow.now) entry locals
        states.new work.new.items
        × (2 * heights locals states.new + vec_len work.new
        ≤ 2 * heights locals states.old + vec_len work.old)) }
    ensures none { IfOk result (λ b. b ≡ false → (entry : TypesOf) (locals : ℕ) →
        Searches (F.leads flow.now) (F.straight flow.now) entry locals
        states.old (work.old.items ++ place ∷ []) →
        HasTyping (F.leads flow.now) entry → ⊥) }
    ensures long { IfOk result (λ b. length states.new ≡ length states.old) }
    ensures noted { IfOk result (λ b. b ≡ true → (entry : TypesOf) (locals : ℕ) →
        Searches (F.leads flow.now) (F.straight flow.now) entry locals
        states.old (work.old.items ++ place ∷ []) →
        AreKept (F.straight flow.now) (length states.old) work.new.items) }
{
    if !states.read(place, types)? {
        return Ok(true);
    }
    let mut next = Some(place);
    'run: while let Some(pc) = next {
        if !flow.lead(pc, types, lead)? {
            return Ok(false);
        }
        if !join_each(alloc, states, work, lead.handlers.as_slice(), &lead.caught)? {
            return Ok(false);
        }
        if !join_each(alloc, states, work, lead.nexts.as_slice(), types)? {
            return Ok(false);
        }
        next = lead.on;
    }
    Ok(true)
}

/// What one search leaves to the next one: its room.
#[derive(Drop)]
pub struct Search {
    states: States,
    work: Vec<u32>,
    types: Types,
    lead: Lead,
}

impl Search {
    /// No search was made yet.
    pub fn new(alloc: Global) -> Self {
        Search {
            states: States::new(alloc),
            work: Vec::new(alloc),
            types: Types::new(alloc),
            lead: Lead::nowhere(alloc),
        }
    }
}

/// Whether code has a typing, of which it begins with these types. Nothing was found yet, and the places of the states are those
/// of the code.
fn search_all<F: Flow>(
    alloc: Global,
    flow: &F,
    entry: &Types,
    states: &mut States,
    work: &mut Vec<u32>,
    types: &mut Types,
    lead: &mut Lead,
) -> Result<bool, NoMemory>
    requires some { 0 < length states.old }
    requires few { length states.old < 2 ^ 32 }
    requires none { (pc : ℕ) → types_at states.old pc ≡ None }
    requires idle { work.old.items ≡ [] }
    requires code { IsFollowable (length states.old) (F.leads flow.now) (F.straight flow.now) }
    ensures found { IfOk result (λ b.
        b ≡ true → HasTyping (F.leads flow.now) entry.now) }
    ensures none { IfOk result (λ b.
        b ≡ false → HasTyping (F.leads flow.now) entry.now → ⊥) }
{
    if !join_at(alloc, states, work, 0, entry)? {
        return Ok(false);
    }
    while let Some(place) = work.pop() {
        if !follow(alloc, flow, states, work, place, types, lead)? {
            return Ok(false);
        }
    }
    Ok(true)
}

/// Whether code of so many places has a typing, of which it begins with these types.
pub fn find_typing<F: Flow>(
    alloc: Global,
    search: &mut Search,
    flow: &F,
    count: usize,
    entry: &Types,
) -> Result<bool, NoMemory>
    requires some { 0 < count }
    requires few { count < 2 ^ 32 }
    requires code { IsFollowable count (F.leads flow.now) (F.straight flow.now) }
    ensures found { IfOk result (λ b.
        b ≡ true → HasTyping (F.leads flow.now) entry.now) }
    ensures none { IfOk result (λ b.
        b ≡ false → HasTyping (F.leads flow.now) entry.now → ⊥) }
{
    search.states.begin(count)?;
    search.work.clear();
    let found = search_all(
        alloc,
        flow,
        entry,
        &mut search.states,
        &mut search.work,
        &mut search.types,
        &mut search.lead,
    )?;
    Ok(found)
}
