//! The histories of a program. Each law is a function with an empty body: what it promises is its contract.

ghost use Rattle.std.specs.Prelude.{◌≡◌, ◌↔◌, ℕ, ◌+◌, ◌<◌, ◌≤◌, Bool, List, Some, Contains};
ghost use Rattle.et_base.specs.declared.value.End.{End};
ghost use Rattle.et_graph.specs.Graph.{Graph};
ghost use Rattle.et_heap.specs.Objects.{ObjectState, IsHeld, at};
ghost use Rattle.et_program.specs.Entries.{Linked};
ghost use Rattle.et_state.specs.declared.options.Options.{Options};
ghost use Rattle.et_state.specs.History.{IsLastEvent};
ghost use Rattle.et_state.specs.Roots.{graph};
ghost use Rattle.et_state.specs.Start.{start};
ghost use Rattle.et_state.specs.State.{Kept};
ghost use Rattle.et_event.specs.Monitors.{Lock};
ghost use Rattle.et_event.specs.Start.{start_records};
ghost use Rattle.et_io.specs.Sink.{Log};
ghost use Rattle.et_loop.specs.declared.options.Ran.{Ran};
ghost use Rattle.et_loop.specs.Traced.{WritesTrace, WritesPrefix};
ghost use Rattle.et_loop.specs.Visits.{allowed_visits, IsCut};
ghost use Rattle.et_loop.specs.Said.{Says, SaysPrefix, IsCutSaid};
ghost use Rattle.et_history.specs.soundness.WellFormed.{IsThere};
ghost use Rattle.et_history.specs.Histories.{picked, state_at, whole_picked, whole_at, times_held, IsHistory, IsHistoryTo, HistoryComesTo};
ghost use Rattle.et_history.specs.steps.Holding.{monitor_in};
ghost use Rattle.et_history.specs.Same.{IsHere, IsReportedAs, TellsTheSame};
ghost use Rattle.et_history.specs.Settings.{flush_visits_of, setting};
ghost use Rattle.et_history.specs.Whole.{whole_setting, whole_start, whole_visits_of, whole_said};

/// In every state of every history of a program that may be run, over every list of picks, no two threads hold one monitor:
/// neither that of an object, also of one that was reported dead, nor that of a class. And what has a monitor and was not
/// reported has it owned by the thread that holds it, with the entries of that thread less its exits; it has no owner
/// exactly where nobody holds it.
pub fn monitors_exclude()
    ensures one { (reached : Graph → ℕ → Bool) (p : Linked) (options : Options) (pick : ℕ → ℕ)
        (e : ℕ) (lock : Lock) (t u : ℕ) → IsHistory reached p options →
        HistoryComesTo reached p options pick e → 0 < times_held reached p options pick t lock e →
        0 < times_held reached p options pick u lock e → t ≡ u }
    ensures owner { (reached : Graph → ℕ → Bool) (p : Linked) (options : Options) (pick : ℕ → ℕ)
        (e : ℕ) (lock : Lock) (t : ℕ) → IsHistory reached p options →
        HistoryComesTo reached p options pick e → IsThere (state_at reached p options pick e) lock →
        ((monitor_in (state_at reached p options pick e) lock).owner ≡ Some t)
        ↔ (0 < times_held reached p options pick t lock e) }
    ensures count { (reached : Graph → ℕ → Bool) (p : Linked) (options : Options) (pick : ℕ → ℕ)
        (e : ℕ) (lock : Lock) (t : ℕ) → IsHistory reached p options →
        HistoryComesTo reached p options pick e → IsThere (state_at reached p options pick e) lock →
        (monitor_in (state_at reached p options pick e) lock).owner ≡ Some t →
        (monitor_in (state_at reached p options pick e) lock).count
        ≡ times_held reached p options pick t lock e }
{}

/// In the history in which nothing is freed, of a program that may be run, over every list of picks: an object that is in a
/// state is in every later one, and one that was reported stays as it was then, but that what it refers to weakly may have
/// become null. Each number from 1 to how many were made is of an object in the state, and those of the reported ones, and no
/// others, are gone.
pub fn nothing_is_freed()
    ensures here { (reached : Graph → ℕ → Bool) (p : Linked) (options : Options) (pick : ℕ → ℕ)
        (e n o : ℕ) → IsHistoryTo reached p options pick (e + n) →
        IsHere (whole_at reached p options pick e) o →
        IsHere (whole_at reached p options pick (e + n)) o }
    ensures reported { (reached : Graph → ℕ → Bool) (p : Linked) (options : Options) (pick : ℕ → ℕ)
        (e n o : ℕ) (x : ObjectState) → IsHistoryTo reached p options pick (e + n) →
        at (whole_at reached p options pick e).reported o ≡ Some x →
        IsReportedAs (whole_at reached p options pick (e + n)) o x }
    ensures all { (reached : Graph → ℕ → Bool) (p : Linked) (options : Options) (pick : ℕ → ℕ)
        (e o : ℕ) → IsHistoryTo reached p options pick e → 0 < o →
        o ≤ (graph (whole_at reached p options pick e)).made →
        IsHere (whole_at reached p options pick e) o }
    ensures gone { (reached : Graph → ℕ → Bool) (p : Linked) (options : Options) (pick : ℕ → ℕ)
        (e o : ℕ) → IsHistoryTo reached p options pick e →
        Contains (graph (whole_at reached p options pick e)).gone o
        ↔ IsHeld (whole_at reached p options pick e).reported o }
{}

/// What a machine keeps is told by that history: over every list of picks, at each event it is the part of the state that is
/// not reported, and the same objects are reached, with the same last events, deaths and lines. Both histories end at the
/// same event, in the same way.
pub fn histories_tell_the_same()
    ensures same { (reached : Graph → ℕ → Bool) (p : Linked) (options : Options) (pick : ℕ → ℕ)
        (e : ℕ) → IsHistory reached p options → HistoryComesTo reached p options pick e →
        TellsTheSame reached p options pick e }
    ensures ends { (reached : Graph → ℕ → Bool) (p : Linked) (options : Options) (pick : ℕ → ℕ)
        (e : ℕ) (end : End) → IsHistory reached p options →
        IsLastEvent reached (picked p options pick) (start p) (start_records p) e end
        ↔ IsLastEvent reached (whole_picked p options pick) (whole_start p) (start_records p)
        e end }
{}

/// So a trace of one history is a trace of the other, and a prefix of it is too. A run may make as many visits of objects, up
/// to the end and up to each turn before.
pub fn traces_are_the_same()
    ensures trace { (reached : Graph → ℕ → Bool) (p : Linked) (options : Options) (ran : Ran)
        (before after : Log) → IsHistory reached p options →
        WritesTrace reached (setting p options) (start p) (start_records p) ran before after
        ↔ WritesTrace reached (whole_setting p options) (whole_start p) (start_records p)
        ran before after }
    ensures prefix { (reached : Graph → ℕ → Bool) (p : Linked) (options : Options)
        (before after : Log) → IsHistory reached p options →
        WritesPrefix reached (setting p options) (start p) (start_records p) before after
        ↔ WritesPrefix reached (whole_setting p options) (whole_start p) (start_records p)
        before after }
    ensures visits { (reached : Graph → ℕ → Bool) (p : Linked) (options : Options) (e : ℕ)
        (end : End) → IsHistory reached p options →
        IsLastEvent reached (setting p options) (start p) (start_records p) e end →
        allowed_visits reached (setting p options) flush_visits_of (start p) (start_records p) e
        ≡ allowed_visits reached (whole_setting p options) whole_visits_of (whole_start p)
        (start_records p) e }
    ensures cut { (reached : Graph → ℕ → Bool) (p : Linked) (options : Options) (before after : Log)
        (old new : ℕ) → IsHistory reached p options →
        IsCut reached (setting p options) flush_visits_of (start p) (start_records p)
        before after old new →
        IsCut reached (whole_setting p options) whole_visits_of (whole_start p) (start_records p)
        before after old new }
{}

/// What the history of what a machine keeps prints, by a rule that reads that, the other history prints.
pub fn histories_say_the_same()
    ensures said { (reached : Graph → ℕ → Bool) (p : Linked) (options : Options)
        (said : Kept → ℕ → List ℕ) (ran : Ran) (before after : Log) → IsHistory reached p options →
        Says reached (setting p options) said (start p) (start_records p) ran before after →
        Says reached (whole_setting p options) (whole_said said) (whole_start p) (start_records p)
        ran before after }
    ensures prefix { (reached : Graph → ℕ → Bool) (p : Linked) (options : Options)
        (said : Kept → ℕ → List ℕ) (before after : Log) → IsHistory reached p options →
        SaysPrefix reached (setting p options) said (start p) (start_records p) before after →
        SaysPrefix reached (whole_setting p options) (whole_said said) (whole_start p)
        (start_records p) before after }
    ensures cut { (reached : Graph → ℕ → Bool) (p : Linked) (options : Options)
        (said : Kept → ℕ → List ℕ) (before after : Log) (old new : ℕ) →
        IsHistory reached p options →
        IsCutSaid reached (setting p options) said (start p) (start_records p) flush_visits_of
        before after old new →
        IsCutSaid reached (whole_setting p options) (whole_said said) (whole_start p)
        (start_records p) whole_visits_of before after old new }
{}
