//! What snapshots of a trace show. The law is a function that calls the laws that it stands on: what it promises is its
//! contract.

ghost use Rattle.std.specs.Prelude.{◌≡◌, ◌≢◌, ℕ, ◌-◌, ◌≤◌, Bool, true, false, Contains, filter};
ghost use Rattle.et_base.specs.declared.value.End.{End};
ghost use Rattle.et_event.specs.Moments.{number_of_value};
ghost use Rattle.et_event.specs.Start.{start_records};
ghost use Rattle.et_graph.specs.Graph.{Graph};
ghost use Rattle.et_heap.specs.Objects.{slot_of};
ghost use Rattle.et_history.specs.Allocations.{object_in};
ghost use Rattle.et_history.specs.Histories.{whole_at, whole_picked};
ghost use Rattle.et_history.specs.Whole.{whole_start};
ghost use Rattle.et_program.specs.Entries.{Linked};
ghost use Rattle.et_program.specs.Linking.{IsLinked};
ghost use Rattle.et_program.specs.Tables.{IsTabled};
ghost use Rattle.et_snapshot.specs.Snapshot.{content};
ghost use Rattle.et_state.specs.History.{trace_of};
ghost use Rattle.et_state.specs.Roots.{graph, numbers_from};
ghost use Rattle.et_state.specs.Words.{static_at};
ghost use Rattle.et_state.specs.declared.options.Options.{Options};
ghost use Rattle.et_theorems.specs.traces.LiveBytes.{is_reached_from};
ghost use Rattle.et_theorems.specs.traces.Snapshots.{IsEndedRun, IsShown, live_objects};
ghost use Rattle.et_history.specs.steps.Writes.{is_out_slot};

use et_history::laws::{histories_tell_the_same, nothing_is_freed};
use et_history::object_laws::objects_are_reached_as_made;
use et_history::program_laws::files_keep_rules;
use et_history::record_laws::{allocations_are_told, programs_have_sizes};
use et_history::run_laws::linked_programs_run_soundly;
use et_history::slot_laws::records_tell_slots;

/// What the trace of a run tells of slots at an event is what the state holds that the event left. The objects that are live
/// then are those made by then that are reached in that state or in that of a later event up to the last. The content of
/// each slot of such an object is the reference that stands there, by its number, and 0 where null, a number or nothing stands
/// there; that of each static is too, but for that of System.out, of which no record tells: its content is 0. And what stands
/// in a slot of a live object, or in a static, is itself live. Every program that was linked has what this asks of one.
pub fn snapshots_show_states()
    ensures objects { (reached : Graph → ℕ → Bool) (p : Linked) (options : Options)
        (pick : ℕ → ℕ) (e last : ℕ) (end : End) →
        IsEndedRun reached p options pick last end → e ≤ last →
        live_objects (trace_of reached (whole_picked p options pick) (whole_start p)
        (start_records p) last end) e
        ≡ filter (λ o. is_reached_from reached (whole_picked p options pick) (whole_start p)
        (start_records p) o e (last - e))
        (numbers_from 1 (graph (whole_at reached p options pick e)).made) }
    ensures slots { (reached : Graph → ℕ → Bool) (p : Linked) (options : Options)
        (pick : ℕ → ℕ) (e last o i : ℕ) (end : End) →
        IsEndedRun reached p options pick last end → e ≤ last →
        Contains (live_objects (trace_of reached (whole_picked p options pick) (whole_start p)
        (start_records p) last end) e) o →
        content (trace_of reached (whole_picked p options pick) (whole_start p) (start_records p)
        last end) e o i
        ≡ number_of_value (slot_of (object_in (whole_at reached p options pick e) o) i) }
    ensures statics { (reached : Graph → ℕ → Bool) (p : Linked) (options : Options)
        (pick : ℕ → ℕ) (e last i : ℕ) (end : End) →
        IsEndedRun reached p options pick last end → e ≤ last → is_out_slot p i ≡ false →
        content (trace_of reached (whole_picked p options pick) (whole_start p) (start_records p)
        last end) e 0 i
        ≡ number_of_value (static_at (whole_at reached p options pick e).kept.guest i) }
    ensures out { (reached : Graph → ℕ → Bool) (p : Linked) (options : Options)
        (pick : ℕ → ℕ) (e last i : ℕ) (end : End) →
        IsEndedRun reached p options pick last end → e ≤ last → is_out_slot p i ≡ true →
        content (trace_of reached (whole_picked p options pick) (whole_start p) (start_records p)
        last end) e 0 i ≡ 0 }
    ensures targets { (reached : Graph → ℕ → Bool) (p : Linked) (options : Options)
        (pick : ℕ → ℕ) (e last o i target : ℕ) (end : End) →
        IsEndedRun reached p options pick last end → e ≤ last →
        Contains (live_objects (trace_of reached (whole_picked p options pick) (whole_start p)
        (start_records p) last end) e) o →
        content (trace_of reached (whole_picked p options pick) (whole_start p) (start_records p)
        last end) e o i ≡ target → target ≢ 0 →
        Contains (live_objects (trace_of reached (whole_picked p options pick) (whole_start p)
        (start_records p) last end) e) target }
    ensures static_targets { (reached : Graph → ℕ → Bool) (p : Linked) (options : Options)
        (pick : ℕ → ℕ) (e last i target : ℕ) (end : End) →
        IsEndedRun reached p options pick last end → e ≤ last →
        content (trace_of reached (whole_picked p options pick) (whole_start p) (start_records p)
        last end) e 0 i ≡ target → target ≢ 0 →
        Contains (live_objects (trace_of reached (whole_picked p options pick) (whole_start p)
        (start_records p) last end) e) target }
    ensures linked { (p : Linked) → IsTabled p → IsLinked p → IsShown p }
{
    // Laws: they tell the prover, and do nothing.
    histories_tell_the_same();
    nothing_is_freed();
    objects_are_reached_as_made();
    allocations_are_told();
    programs_have_sizes();
    linked_programs_run_soundly();
    records_tell_slots();
    files_keep_rules();
}
