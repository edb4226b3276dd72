//! What verified programs promise. Each law is a function with an empty body: what it promises is its contract.

ghost use Rattle.std.specs.Prelude.{Bool, ℕ, ◌<◌, ◌^◌};
ghost use Rattle.et_base.specs.declared.value.End.TheVariants.{IllTyped};
ghost use Rattle.et_graph.specs.Graph.{Graph, Decides};
ghost use Rattle.et_program.specs.Entries.{Linked};
ghost use Rattle.et_program.specs.Linking.{IsLinked};
ghost use Rattle.et_program.specs.Tables.{IsTabled};
ghost use Rattle.et_state.specs.History.{IsLastEvent};
ghost use Rattle.et_state.specs.Options.{AreOptions};
ghost use Rattle.et_state.specs.Start.{start};
ghost use Rattle.et_state.specs.State.{Kept};
ghost use Rattle.et_state.specs.Words.{IsUnended};
ghost use Rattle.et_state.specs.declared.options.Options.{Options};
ghost use Rattle.et_event.specs.Told.{event_with_texts};
ghost use Rattle.et_event.specs.Runnable.{IsRunnable};
ghost use Rattle.et_event.specs.Sound.{IsSoundFor};
ghost use Rattle.et_event.specs.Start.{start_records};
ghost use Rattle.et_verify.specs.Typings.{IsVerified};
ghost use Rattle.et_history.specs.Histories.{moment_at, picked, whole_picked};
ghost use Rattle.et_history.specs.Whole.{whole_start};
ghost use Rattle.et_theorems.specs.typings.Refused.{IsRefused};
ghost use Rattle.et_theorems.specs.typings.Typed.{AreTypings, IsTyped, KeepsTyped, Typings};

/// Each event of a thread that has not ended, in a sound state of a program that may be run and of which each method with
/// code has a typing, where each frame keeps to its typing, leads to such a state again. Where it has no meaning, check 7
/// refuses it: check 1 is passed with the very values of the frame, and an object is of a class that the instruction can't
/// take.
pub fn events_keep_types()
    ensures { (p : Linked) (typings : Typings) (s : Kept) (t : ℕ) →
        IsSoundFor p s → s.guest.clock < 2 ^ 40 → IsUnended s.guest t → IsRunnable p →
        AreTypings p typings → IsTyped p typings s →
        KeepsTyped (record { program = p; before = s; thread = t }) typings
        (event_with_texts p s t) }
{}

/// A linked program each method of whose files has a typing: a history of it, over every list of picks and for all options,
/// that ends ill typed ends so by check 7, and never by check 1, nor because an exception doesn't fit at its handler. So it
/// is of the history of what a machine keeps, and of the one in which nothing is freed.
pub fn verified_histories_end_by_check_7()
    ensures kept { (reached : Graph → ℕ → Bool) (p : Linked) (options : Options)
        (pick : ℕ → ℕ) (e t m pc : ℕ) → Decides reached → IsTabled p → IsLinked p →
        IsVerified p → AreOptions options →
        IsLastEvent reached (picked p options pick) (start p) (start_records p)
        e (IllTyped t m pc) →
        IsRefused (moment_at reached p options pick e) }
    ensures whole { (reached : Graph → ℕ → Bool) (p : Linked) (options : Options)
        (pick : ℕ → ℕ) (e t m pc : ℕ) → Decides reached → IsTabled p → IsLinked p →
        IsVerified p → AreOptions options →
        IsLastEvent reached (whole_picked p options pick) (whole_start p) (start_records p)
        e (IllTyped t m pc) →
        IsRefused (moment_at reached p options pick e) }
{}
