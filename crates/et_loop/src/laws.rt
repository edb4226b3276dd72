//! Laws about the graph that a machine keeps, beside the whole one. Each is a function with an empty body: what it
//! promises is its contract.

ghost use Rattle.std.specs.Prelude.{ℕ, ◌↔◌, List};
ghost use Rattle.et_graph.specs.Graph.{Graph, IsReached, AreDead, IsSoundGraph};
ghost use Rattle.et_graph.specs.Steps.{IsLegalStep, IsTie, IsFlush};
ghost use Rattle.et_graph.specs.Cleared.{IsCleared};
ghost use Rattle.et_loop.specs.Kept.{IsKeptPart};

/// What is reached is the same in both.
pub fn reached()
    ensures { (g whole : Graph) →
        IsKeptPart g whole → IsSoundGraph whole → (o : ℕ) → IsReached g o ↔ IsReached whole o }
{}

/// A step that is legal over what is kept is one over the whole graph.
pub fn step()
    ensures { (g whole h : Graph) (fresh lost : List ℕ) → IsKeptPart g whole →
        IsSoundGraph whole → IsLegalStep g (record { after = h; fresh = fresh; lost = lost }) →
        (after : Graph) × IsKeptPart h after
        × IsLegalStep whole (record { after = after; fresh = fresh; lost = lost }) }
{}

/// What is cleared of what is kept is flushed of the whole graph.
pub fn flush()
    ensures { (g whole h : Graph) (reports : List ℕ) → IsKeptPart g whole → IsSoundGraph whole →
        IsCleared g h → AreDead g reports →
        (after : Graph) × IsKeptPart h after × IsFlush whole reports after }
{}

/// A tie of what is kept is one of the whole graph.
pub fn tie()
    ensures { (g whole h : Graph) → IsKeptPart g whole → IsSoundGraph whole → IsTie g h →
        (after : Graph) × IsKeptPart h after × IsTie whole after }
{}
