//! The sound states of a program besides those that events lead to. Each law is a function with an empty body: what it
//! promises is its contract.

ghost use Rattle.std.specs.Prelude.{◌≡◌, ◌↔◌, ℕ, Bool, true, List, All};
ghost use Rattle.et_history.specs.programs.ClassNames.{HasClassName};
ghost use Rattle.et_event.specs.Sound.{IsSoundFor};
ghost use Rattle.et_state.specs.Start.{start};
ghost use Rattle.et_graph.specs.Graph.{IsReached};
ghost use Rattle.et_heap.specs.Objects.{IsHeld};
ghost use Rattle.et_program.specs.Loaded.{LoadedClass};
ghost use Rattle.et_program.specs.ProgramOf.{IsProgramOf};
ghost use Rattle.et_state.specs.Enqueuing.{flushed_heap};
ghost use Rattle.et_state.specs.Roots.{graph_of};
ghost use Rattle.et_state.specs.State.{Kept};
ghost use Rattle.et_program.specs.Entries.{Linked};

/// The first state of a program is sound, where each file has the name of a class.
pub fn first_state_is_sound()
    ensures { (files : List LoadedClass) (p : Linked) →
        All HasClassName files → IsProgramOf files p → IsSoundFor p (start p) }
{}

/// A flush of what isn't reached leaves a sound state of the program.
pub fn flush_keeps_sound()
    ensures { (p : Linked) (s : Kept) (here : ℕ → Bool) → IsSoundFor p s →
        ((o : ℕ) → IsHeld s.heap o → (here o ≡ true) ↔ IsReached (graph_of s) o) →
        IsSoundFor p (record { heap = flushed_heap here s.heap; guest = s.guest }) }
{}
