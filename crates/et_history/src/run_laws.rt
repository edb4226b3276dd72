//! The histories of every linked program. Each law is a function with an empty body: what it promises is its contract.
//! `IsTabled` and `IsLinked` hold of each `Program`, as its call `is_linked` tells.

ghost use Rattle.std.specs.Prelude.{ℕ, Bool};
ghost use Rattle.et_graph.specs.Graph.{Graph};
ghost use Rattle.et_program.specs.Entries.{Linked};
ghost use Rattle.et_program.specs.Linking.{IsLinked};
ghost use Rattle.et_program.specs.Tables.{IsTabled};
ghost use Rattle.et_state.specs.declared.options.Options.{Options};
ghost use Rattle.et_state.specs.Start.{start};
ghost use Rattle.et_event.specs.Start.{start_records};
ghost use Rattle.et_history.specs.Ends.{HasOneEnd};
ghost use Rattle.et_history.specs.Histories.{whole_picked};
ghost use Rattle.et_history.specs.Settings.{IsSoundRun};
ghost use Rattle.et_history.specs.Whole.{whole_start};

/// Each history has exactly one last event, which is the limit of the options at most, and one end: over every program,
/// all options and every list of picks.
pub fn each_history_ends()
    ensures { (reached : Graph → ℕ → Bool) (p : Linked) (options : Options) (pick : ℕ → ℕ) →
        HasOneEnd reached (whole_picked p options pick) (whole_start p) (start_records p) }
{}

/// Every linked program may be run, and its first state is sound: what the laws of histories ask of a program.
pub fn linked_programs_run_soundly()
    ensures { (p : Linked) → IsTabled p → IsLinked p → IsSoundRun p (start p) }
{}
