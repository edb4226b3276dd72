//! Who waits in reference queues. Each law is a function with an empty body: what it promises is its contract.

ghost use Rattle.std.specs.Prelude.{◌≡◌, ◌↔◌, ℕ, Bool, true};
ghost use Rattle.et_graph.specs.Graph.{Graph, Decides};
ghost use Rattle.et_heap.specs.Links.{StandOnce};
ghost use Rattle.et_program.specs.Entries.{Linked};
ghost use Rattle.et_program.specs.Linking.{IsLinked};
ghost use Rattle.et_program.specs.Tables.{IsTabled};
ghost use Rattle.et_state.specs.declared.options.Options.{Options};
ghost use Rattle.et_state.specs.Options.{AreOptions};
ghost use Rattle.et_history.specs.Allocations.{object_in};
ghost use Rattle.et_history.specs.Histories.{whole_at, WholeComesTo};
ghost use Rattle.et_history.specs.Waiting.{WaitsIn, WaitsSomewhere};

/// In every state of the history of a linked program in which nothing is freed, a reference is marked as one that waits
/// exactly where it stands in the list of a queue. It stands in one list at most, and once there, so the poll that takes it
/// out leaves it in none.
pub fn marks_tell_who_waits()
    ensures marked { (reached : Graph → ℕ → Bool) (p : Linked) (options : Options) (pick : ℕ → ℕ)
        (e r : ℕ) → Decides reached → IsTabled p → IsLinked p → AreOptions options →
        WholeComesTo reached p options pick e →
        ((object_in (whole_at reached p options pick e) r).waits ≡ true)
        ↔ WaitsSomewhere (whole_at reached p options pick e) r }
    ensures one { (reached : Graph → ℕ → Bool) (p : Linked) (options : Options) (pick : ℕ → ℕ)
        (e q u r : ℕ) → Decides reached → IsTabled p → IsLinked p → AreOptions options →
        WholeComesTo reached p options pick e → WaitsIn (whole_at reached p options pick e) q r →
        WaitsIn (whole_at reached p options pick e) u r → q ≡ u }
    ensures once { (reached : Graph → ℕ → Bool) (p : Linked) (options : Options) (pick : ℕ → ℕ)
        (e q : ℕ) → Decides reached → IsTabled p → IsLinked p → AreOptions options →
        WholeComesTo reached p options pick e →
        StandOnce (object_in (whole_at reached p options pick e) q).waiting }
{}
