//! What records tell of slots. Each law is a function with an empty body: what it promises is its contract.

ghost use Rattle.std.specs.Prelude.{◌≡◌, ◌⊎◌, ℕ, ◌+◌, ◌<◌, ◌≤◌, Bool, true, false, All};
ghost use Rattle.et_graph.specs.Graph.{Graph};
ghost use Rattle.et_heap.specs.Objects.{IsHeld};
ghost use Rattle.et_program.specs.Entries.{Linked};
ghost use Rattle.et_state.specs.declared.options.Options.{Options};
ghost use Rattle.et_state.specs.History.{records_at};
ghost use Rattle.et_state.specs.Roots.{graph};
ghost use Rattle.et_event.specs.Start.{start_records};
ghost use Rattle.et_history.specs.Histories.{whole_at, whole_picked, IsHistoryTo};
ghost use Rattle.et_history.specs.Slots.{IsOfEvent, told_by};
ghost use Rattle.et_history.specs.Whole.{whole_start};
ghost use Rattle.et_history.specs.steps.Records.{HasPlainStrings};
ghost use Rattle.et_history.specs.steps.Writes.{HasCause, is_out_slot, reference_at};

/// Over every list of picks, what the U records up to an event tell is what stands in the state that it left: the reference in
/// each slot of each object that was not reported, and in each static but that of System.out, of which they tell nothing. The
/// records of an event are of it. And in an object that was made and is not reached nothing is written by the next event.
pub fn records_tell_slots()
    ensures told { (reached : Graph → ℕ → Bool) (p : Linked) (options : Options) (pick : ℕ → ℕ)
        (e o i : ℕ) → IsHistoryTo reached p options pick e → HasPlainStrings p → HasCause p →
        (o ≡ 0) ⊎ IsHeld (whole_at reached p options pick e).kept.heap o →
        (o ≡ 0 → is_out_slot p i ≡ false) →
        told_by reached (whole_picked p options pick) (whole_start p) (start_records p) e o i
        ≡ reference_at (whole_at reached p options pick e).kept o i }
    ensures out { (reached : Graph → ℕ → Bool) (p : Linked) (options : Options) (pick : ℕ → ℕ)
        (e i : ℕ) → IsHistoryTo reached p options pick e → HasPlainStrings p → HasCause p →
        is_out_slot p i ≡ true →
        told_by reached (whole_picked p options pick) (whole_start p) (start_records p) e 0 i ≡ 0 }
    ensures events { (reached : Graph → ℕ → Bool) (p : Linked) (options : Options) (pick : ℕ → ℕ)
        (e : ℕ) → IsHistoryTo reached p options pick e → HasPlainStrings p →
        All (IsOfEvent e) (records_at reached (whole_picked p options pick) (whole_start p)
        (start_records p) e) }
    ensures unreached { (reached : Graph → ℕ → Bool) (p : Linked) (options : Options) (pick : ℕ → ℕ)
        (e o i : ℕ) → IsHistoryTo reached p options pick (e + 1) → 0 < o →
        o ≤ (graph (whole_at reached p options pick e)).made →
        reached (graph (whole_at reached p options pick e)) o ≡ false →
        told_by reached (whole_picked p options pick) (whole_start p) (start_records p) (e + 1) o i
        ≡ told_by reached (whole_picked p options pick) (whole_start p) (start_records p) e o i }
{}
