//! When objects are reached. Each law is a function with an empty body: what it promises is its contract.

ghost use Rattle.std.specs.Prelude.{◌≡◌, ◌↔◌, ℕ, ◌+◌, ◌<◌, ◌≤◌, Bool, true, false, length, Contains};
ghost use Rattle.et_graph.specs.Graph.{Graph, Decides};
ghost use Rattle.et_heap.specs.Objects.{IsHeld};
ghost use Rattle.et_program.specs.Entries.{Linked};
ghost use Rattle.et_state.specs.declared.options.Options.{Options};
ghost use Rattle.et_state.specs.History.{deaths};
ghost use Rattle.et_state.specs.Roots.{graph};
ghost use Rattle.et_state.specs.State.{Kept};
ghost use Rattle.et_event.specs.Told.{event_with_texts};
ghost use Rattle.et_event.specs.Start.{start_records};
ghost use Rattle.et_history.specs.Deaths.{DiesBy, WasTold};
ghost use Rattle.et_history.specs.Histories.{whole_picked, whole_at, WholeGoesOn, IsHistoryTo, WholeComesTo};
ghost use Rattle.et_history.specs.Reaching.{ReachesNew};
ghost use Rattle.et_history.specs.Whole.{whole_start};

/// What an event of a thread that was started makes is reached after it, whatever the program and the state: the objects of
/// constants, the instances and arrays of `new` and its kin, each array of a multianewarray (JVMS 6.5), the exceptions that the
/// machine throws, the string that a string builder makes, and the print stream of System.out. Where the thread waits, nothing
/// is made.
pub fn events_reach_what_they_make()
    ensures { (p : Linked) (s : Kept) (t : ℕ) →
        t < length s.guest.threads → ReachesNew s (event_with_texts p s t) }
{}

/// In the history in which nothing is freed, over every list of picks, each object is reached in the state that the event
/// left which made it, and those of the first state are reached in it.
pub fn objects_are_reached_as_made()
    ensures first { (reached : Graph → ℕ → Bool) (p : Linked) (options : Options)
        (pick : ℕ → ℕ) (o : ℕ) → Decides reached → 0 < o →
        o ≤ (graph (whole_at reached p options pick 0)).made →
        reached (graph (whole_at reached p options pick 0)) o ≡ true }
    ensures made { (reached : Graph → ℕ → Bool) (p : Linked) (options : Options)
        (pick : ℕ → ℕ) (e o : ℕ) → Decides reached → WholeGoesOn reached p options pick e →
        (graph (whole_at reached p options pick e)).made < o →
        o ≤ (graph (whole_at reached p options pick (e + 1))).made →
        reached (graph (whole_at reached p options pick (e + 1))) o ≡ true }
{}

/// The time of each death that a flush after an event lists is the last event at which the object was reached: it was reached
/// in the state that this event left, which is before the flush, and in no state that a later event up to the flush left.
pub fn deaths_tell_last_events()
    ensures told { (reached : Graph → ℕ → Bool) (p : Linked) (options : Options) (pick : ℕ → ℕ)
        (e o time : ℕ) → Decides reached → WholeComesTo reached p options pick e →
        Contains (deaths reached (whole_picked p options pick) (whole_start p)
        (start_records p) e) (o, time) →
        reached (graph (whole_at reached p options pick time)) o ≡ true }
    ensures earlier { (reached : Graph → ℕ → Bool) (p : Linked) (options : Options) (pick : ℕ → ℕ)
        (e o time : ℕ) → Decides reached → WholeComesTo reached p options pick e →
        Contains (deaths reached (whole_picked p options pick) (whole_start p)
        (start_records p) e) (o, time) → time < e }
    ensures last { (reached : Graph → ℕ → Bool) (p : Linked) (options : Options)
        (pick : ℕ → ℕ) (e o time k : ℕ) → Contains (deaths reached
        (whole_picked p options pick) (whole_start p) (start_records p) e) (o, time) →
        time < k → k ≤ e → reached (graph (whole_at reached p options pick k)) o ≡ false }
{}

/// The deaths that a flush after an event lists are exactly these: of each object that was made, is not reached, and was told
/// by no flush before, with the last event at which it was reached. The objects that are reported are exactly those that
/// a flush before told.
pub fn deaths_are_exact()
    ensures exact { (reached : Graph → ℕ → Bool) (p : Linked) (options : Options) (pick : ℕ → ℕ)
        (e o time : ℕ) → IsHistoryTo reached p options pick e →
        Contains (deaths reached (whole_picked p options pick) (whole_start p)
        (start_records p) e) (o, time) ↔ DiesBy reached p options pick e o time }
    ensures reported { (reached : Graph → ℕ → Bool) (p : Linked) (options : Options) (pick : ℕ → ℕ)
        (e o : ℕ) → IsHistoryTo reached p options pick e →
        IsHeld (whole_at reached p options pick e).reported o ↔ WasTold reached p options pick e o }
{}
