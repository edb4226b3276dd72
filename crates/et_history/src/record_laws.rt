//! What records and traces tell of objects. Each law is a function with an empty body: what it promises is its contract.

ghost use Rattle.std.specs.Prelude.{ℕ, Bool, List, All};
ghost use Rattle.et_graph.specs.Graph.{Graph};
ghost use Rattle.et_program.specs.Entries.{Linked};
ghost use Rattle.et_program.specs.Loaded.{LoadedClass};
ghost use Rattle.et_program.specs.ProgramOf.{IsProgramOf};
ghost use Rattle.et_state.specs.declared.options.Options.{Options};
ghost use Rattle.et_state.specs.History.{lines_to};
ghost use Rattle.et_event.specs.Start.{start_records};
ghost use Rattle.et_history.specs.programs.ClassNames.{HasClassName};
ghost use Rattle.et_history.specs.Allocations.{AreAllocations, HasArguments, IsMadeAt, next_number};
ghost use Rattle.et_history.specs.Histories.{whole_at, whole_picked, IsHistoryTo};
ghost use Rattle.et_event.specs.Runnable.{IsRunnable};
ghost use Rattle.et_history.specs.steps.Records.{HasPlainStrings};
ghost use Rattle.et_history.specs.steps.Writes.{HasCause};
ghost use Rattle.et_history.specs.Whole.{whole_start};

/// Over every list of picks, the A lines up to an event are those of the objects made by then, from object 1 on, each with the
/// event that made it, and with the length and the bytes of the object, which it keeps also once it was reported.
pub fn allocations_are_told()
    ensures { (reached : Graph → ℕ → Bool) (p : Linked) (options : Options) (pick : ℕ → ℕ) (e : ℕ) →
        IsHistoryTo reached p options pick e → HasPlainStrings p → HasArguments p →
        AreAllocations (IsMadeAt p (whole_at reached p options pick) e) 1
        (lines_to reached (whole_picked p options pick) (whole_start p) (start_records p) e)
        (next_number (whole_at reached p options pick e)) }
{}

/// A linked program has what these laws, and those of its events, ask: a string is no array, the arguments of `main` are one,
/// and an ExceptionInInitializerError has a slot for its cause.
pub fn programs_have_sizes()
    ensures strings { (files : List LoadedClass) (p : Linked) →
        IsProgramOf files p → HasPlainStrings p }
    ensures arguments { (files : List LoadedClass) (p : Linked) →
        All HasClassName files → IsProgramOf files p → HasArguments p }
    ensures cause { (files : List LoadedClass) (p : Linked) →
        IsProgramOf files p → IsRunnable p → HasCause p }
{}
