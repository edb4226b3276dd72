//! The theorems, each but the last over one record of premises, `IsTraced`: the words and the files define the trace of a
//! program. All of them speak of one history, the one in which nothing is freed. Each is a function that calls the laws that
//! it stands on: what it promises is its contract.

ghost use Rattle.std.specs.Prelude.{◌≡◌, ◌≢◌, ◌↔◌, Bool, true, false, ℕ, ◌+◌, ◌-◌, ◌^◌, ◌<◌, ◌≤◌, List, length, Contains, filter, Result, Ok, Some};
ghost use Rattle.et_base.specs.Numbers.{AreBytes};
ghost use Rattle.et_base.specs.declared.line.TraceLine.{TraceLine};
ghost use Rattle.et_base.specs.declared.line.TraceLine.TheVariants.{Death};
ghost use Rattle.et_base.specs.declared.value.End.{End};
ghost use Rattle.et_base.specs.declared.value.End.TheVariants.{IllTyped};
ghost use Rattle.et_binary.specs.Formats.{trace_bytes};
ghost use Rattle.et_convert.specs.Conversions.{converted_bytes};
ghost use Rattle.et_event.specs.Moments.{number_of_value};
ghost use Rattle.et_event.specs.Monitors.{Lock};
ghost use Rattle.et_event.specs.Start.{start_records};
ghost use Rattle.et_graph.specs.Graph.{Graph, Decides, IsMade, IsReached};
ghost use Rattle.et_heap.specs.Objects.{slot_of};
ghost use Rattle.et_history.specs.Allocations.{object_in};
ghost use Rattle.et_history.specs.Deaths.{DiesBy};
ghost use Rattle.et_history.specs.Histories.{times_held};
ghost use Rattle.et_history.specs.Whole.{whole_start, whole_visits_of};
ghost use Rattle.et_io.specs.Files.{Held};
ghost use Rattle.et_io.specs.Sink.{Log, with_more};
ghost use Rattle.et_loop.specs.Visits.{allowed_visits};
ghost use Rattle.et_program.specs.Entries.{Linked};
ghost use Rattle.et_program.specs.Linking.{IsLinked};
ghost use Rattle.et_program.specs.Tables.{IsTabled};
ghost use Rattle.et_replay.specs.Curve.{curve_events, curve_text, live};
ghost use Rattle.et_replay.specs.Replay.{replay_text};
ghost use Rattle.et_replay.specs.Timeline.{timeline_items};
ghost use Rattle.et_replay.specs.declared.model.Kind.{Kind};
ghost use Rattle.et_snapshot.specs.Snapshot.{content, snapshot_text};
ghost use Rattle.et_history.specs.soundness.WellFormed.{IsThere};
ghost use Rattle.et_state.specs.History.{IsLastEvent};
ghost use Rattle.et_state.specs.Options.{AreOptions};
ghost use Rattle.et_state.specs.Roots.{graph, numbers_from};
ghost use Rattle.et_state.specs.Words.{static_at};
ghost use Rattle.et_state.specs.declared.options.Options.{Options};
ghost use Rattle.et_text.specs.declared.fault.TraceFault.TheVariants.{At};
ghost use Rattle.et_top.specs.Bench.{IsNotReadBack};
ghost use Rattle.et_command.specs.Command.{command, Convert, Curve, Replay, Snapshot, Trace, Verify};
ghost use Rattle.et_files.specs.Faults.{BadEvent, Fault};
ghost use Rattle.et_files.specs.Loaded.{file_bytes, most_of_trace, IsTraceOf};
ghost use Rattle.et_top.specs.Top.{Defined, Refused, Traces, Verifies, Writes, IsDefined, WritesHistory, policies_of, status_of_end};
ghost use Rattle.et_command.specs.declared.command.Models.{Models};
ghost use Rattle.et_files.specs.declared.status.Status.{Status};
ghost use Rattle.et_theorems.specs.traces.Good.{IsTraceable};
ghost use Rattle.et_theorems.specs.traces.LiveBytes.{bytes_reached, is_reached_from, object_size};
ghost use Rattle.et_theorems.specs.traces.Snapshots.{IsEndedRun, live_objects};
ghost use Rattle.et_theorems.specs.typings.Refused.{IsRefused};
ghost use Rattle.et_verify.specs.Typings.{IsVerified};
ghost use Rattle.et_history.specs.steps.Holding.{monitor_in};
ghost use Rattle.et_history.specs.steps.Writes.{is_out_slot};
ghost use Rattle.et_theorems.specs.Runs.{Run, IsTraced, IsWritten, IsFlushed, deaths_at, lines_of, next_moment, picks_of, setting_of, state_at};

use crate::good_laws::{traces_are_good, traces_are_read};
use crate::live_laws::live_is_reached;
use crate::snapshot_laws::snapshots_show_states;
use crate::typed_laws::verified_histories_end_by_check_7;
use et_convert::laws::{spelled_lists_differ, spelled_traces_have_no_fault};
use et_graph::laws::reaching_is_decided;
use et_history::laws::{histories_tell_the_same, monitors_exclude, nothing_is_freed};
use et_history::object_laws::deaths_are_exact;
use et_history::run_laws::each_history_ends;
use et_top::laws::{converted_twice, one_thing_is_defined};

/// The premises are met: each trace that words and files define has such a run, where files hold bytes and the program has
/// fewer than 2^32 classes.
pub fn premises_are_met()
    ensures { (kinds : List Kind) (words : List (List ℕ)) (held : Held) (p : Linked)
        (options : Options) → IsDefined kinds words held (Traces p options) →
        ((path file : List ℕ) → held path ≡ Some file → AreBytes file) →
        length p.classes < 2 ^ 32 →
        (r : Run) × IsTraced r × (r.kinds ≡ kinds) × (r.words ≡ words) × (r.held ≡ held)
        × (r.program ≡ p) × (r.options ≡ options) }
{
    reaching_is_decided();
    each_history_ends();
}

/// The program that words and files define was linked of class files, its tables are in range, and so are the options. Its
/// history has no other end than that of the run. So the laws of et_history, and those on traces beside this page, hold of it with
/// no other premise.
pub fn programs_are_linked()
    ensures tabled { (r : Run) → IsTraced r → IsTabled r.program }
    ensures linked { (r : Run) → IsTraced r → IsLinked r.program }
    ensures options { (r : Run) → IsTraced r → AreOptions r.options }
    ensures one_end { (r : Run) (last : ℕ) (end : End) → IsTraced r →
        IsLastEvent r.reached (setting_of r) (whole_start r.program) (start_records r.program)
        last end → (last ≡ r.last) × (end ≡ r.end) }
    ensures ended { (r : Run) → IsTraced r →
        IsEndedRun r.reached r.program r.options (picks_of r) r.last r.end }
    ensures traceable { (r : Run) → IsTraced r → IsTraceable r.program }
{
    each_history_ends();
    snapshots_show_states();
    traces_are_good();
}

/// Where `trace` answers that its output was taken whole, the output took exactly the trace of the history, its text or its
/// pack as the options say; the answer is by the end of the history; and no more visits of objects were counted than that
/// allows.
pub fn whole_outputs_are_traces()
    ensures bytes { (r : Run) (before after : Log) (old new : ℕ) (answer : Status) →
        IsTraced r → WritesHistory r.reached before after old new r.program r.options answer →
        after ≡ with_more before (trace_bytes r.options.format (lines_of r)) }
    ensures answer { (r : Run) (before after : Log) (old new : ℕ) (answer : Status) →
        IsTraced r → WritesHistory r.reached before after old new r.program r.options answer →
        answer ≡ status_of_end r.end }
    ensures visits { (r : Run) (before after : Log) (old new : ℕ) (answer : Status) →
        IsTraced r → WritesHistory r.reached before after old new r.program r.options answer →
        new ≤ old + allowed_visits r.reached (setting_of r) whole_visits_of
        (whole_start r.program) (start_records r.program) r.last }
{
    programs_are_linked();
}

/// The deaths that a flush tells are exactly those of the objects that were made, that no path from a root leads to, and that
/// no flush told before, each with the last event at which it was reached. The D lines of the trace are those of its flushes,
/// and no others: one time at most for each object, and one for each that was made and isn't reached at the end.
pub fn deaths_are_told_exactly()
    ensures exact { (r : Run) (e o time : ℕ) → IsTraced r → e ≤ r.last →
        Contains (deaths_at r e) (o, time)
        ↔ DiesBy r.reached r.program r.options (picks_of r) e o time }
    ensures lines { (r : Run) (o time : ℕ) → IsTraced r →
        Contains (lines_of r) (Death o time)
        ↔ ((e : ℕ) × IsFlushed r e × DiesBy r.reached r.program r.options (picks_of r) e o time) }
    ensures once { (r : Run) (o time other : ℕ) → IsTraced r →
        Contains (lines_of r) (Death o time) → Contains (lines_of r) (Death o other) →
        time ≡ other }
    ensures all { (r : Run) (o : ℕ) → IsTraced r → IsMade (graph (state_at r r.last)) o →
        ¬ IsReached (graph (state_at r r.last)) o →
        (time : ℕ) × Contains (lines_of r) (Death o time) }
{
    programs_are_linked();
    deaths_are_exact();
    nothing_is_freed();
}

/// What `trace` wrote whole, and a file holds, is read to exactly the lines of the history, in either format, and has no fault.
pub fn written_traces_are_read()
    ensures bytes { (r : Run) (later : Held) (path bytes : List ℕ) → IsTraced r →
        IsWritten r later path bytes → bytes ≡ trace_bytes r.options.format (lines_of r) }
    ensures read { (r : Run) (later : Held) (path bytes : List ℕ)
        (trace : Result (List TraceLine) Fault) → IsTraced r → IsWritten r later path bytes →
        IsTraceOf (file_bytes most_of_trace (later path)) trace ↔ (trace ≡ Ok (lines_of r)) }
{
    programs_are_linked();
    whole_outputs_are_traces();
    traces_are_read();
    spelled_traces_have_no_fault();
    spelled_lists_differ();
}

/// So `curve`, `replay`, `convert` and `snapshot` of that file write exactly the curve of those lines, what the models report
/// of them, the lines in the other format, and what stood in the heap at an event, which is refused exactly behind the last
/// one. What `convert` wrote of it, converted again, is the file.
pub fn written_traces_are_used()
    ensures curve { (r : Run) (later : Held) (path bytes : List ℕ) (kinds : List Kind)
        (words : List (List ℕ)) (d : Defined) → IsTraced r → IsWritten r later path bytes →
        command words ≡ Some (Curve path) →
        IsDefined kinds words later d ↔ (d ≡ Writes (λ reached. curve_text (lines_of r))) }
    ensures replay { (r : Run) (later : Held) (path bytes : List ℕ) (kinds : List Kind)
        (words : List (List ℕ)) (models : Models) (d : Defined) → IsTraced r →
        IsWritten r later path bytes → command words ≡ Some (Replay models path) →
        IsDefined kinds words later d ↔ (d ≡ Writes (λ reached.
        replay_text reached (timeline_items (lines_of r)) (policies_of models kinds))) }
    ensures convert { (r : Run) (later : Held) (path bytes : List ℕ) (kinds : List Kind)
        (words : List (List ℕ)) (d : Defined) → IsTraced r → IsWritten r later path bytes →
        command words ≡ Some (Convert path) →
        IsDefined kinds words later d ↔ (d ≡ Writes (λ reached. converted_bytes (lines_of r))) }
    ensures snapshot { (r : Run) (later : Held) (path bytes : List ℕ) (kinds : List Kind)
        (words : List (List ℕ)) (e : ℕ) (d : Defined) → IsTraced r →
        IsWritten r later path bytes → command words ≡ Some (Snapshot path e) → e ≤ r.last →
        IsDefined kinds words later d ↔ (d ≡ Writes (λ reached. snapshot_text (lines_of r) e)) }
    ensures behind { (r : Run) (later : Held) (path bytes : List ℕ) (kinds : List Kind)
        (words : List (List ℕ)) (e : ℕ) (d : Defined) → IsTraced r →
        IsWritten r later path bytes → command words ≡ Some (Snapshot path e) → r.last < e →
        IsDefined kinds words later d ↔ (d ≡ Refused (BadEvent e)) }
    ensures again { (r : Run) (later : Held) (path bytes other : List ℕ) (kinds : List Kind)
        (words : List (List ℕ)) (d : Defined) → IsTraced r → IsWritten r later path bytes →
        later other ≡ Some (converted_bytes (lines_of r)) →
        length (converted_bytes (lines_of r)) ≤ most_of_trace →
        command words ≡ Some (Convert other) →
        IsDefined kinds words later d ↔ (d ≡ Writes (λ reached. bytes)) }
{
    written_traces_are_read();
    converted_twice();
    one_thing_is_defined();
}

/// At each event of the curve of a trace that was read back, its number is the sum of the bytes of the objects made by then
/// that are reached in the state that this event left, or in that of a later one. That is so at each other event too.
pub fn curves_show_what_is_reached()
    ensures read { (r : Run) (later : Held) (path bytes : List ℕ) (lines : List TraceLine)
        (e : ℕ) → IsTraced r → IsWritten r later path bytes →
        IsTraceOf (file_bytes most_of_trace (later path)) (Ok lines) →
        Contains (curve_events lines) e →
        live lines e ≡ bytes_reached r.reached (setting_of r) (whole_start r.program)
        (start_records r.program) (object_size r.program) e r.last }
    ensures live { (r : Run) (e : ℕ) → IsTraced r → e ≤ r.last →
        live (lines_of r) e ≡ bytes_reached r.reached (setting_of r) (whole_start r.program)
        (start_records r.program) (object_size r.program) e r.last }
    ensures events { (r : Run) (e : ℕ) → IsTraced r →
        Contains (curve_events (lines_of r)) e → e ≤ r.last }
{
    programs_are_linked();
    live_is_reached();
    written_traces_are_read();
}

/// What the trace tells of the heap at an event is what stood there: the objects that are live are those made by then that are
/// reached in the state that it left or in that of a later event; in each slot of such an object, and in each static, stands
/// the reference that the state holds, or 0 where it holds none; and what it refers to is live. Of the static of System.out the
/// trace tells nothing, so that 0 stands there.
pub fn snapshots_show_the_heap()
    ensures objects { (r : Run) (e : ℕ) → IsTraced r → e ≤ r.last →
        live_objects (lines_of r) e
        ≡ filter (λ o. is_reached_from r.reached (setting_of r) (whole_start r.program)
        (start_records r.program) o e (r.last - e)) (numbers_from 1 (graph (state_at r e)).made) }
    ensures slots { (r : Run) (e o i : ℕ) → IsTraced r → e ≤ r.last →
        Contains (live_objects (lines_of r) e) o →
        content (lines_of r) e o i ≡ number_of_value (slot_of (object_in (state_at r e) o) i) }
    ensures statics { (r : Run) (e i : ℕ) → IsTraced r → e ≤ r.last →
        is_out_slot r.program i ≡ false →
        content (lines_of r) e 0 i ≡ number_of_value (static_at (state_at r e).kept.guest i) }
    ensures out { (r : Run) (e i : ℕ) → IsTraced r → e ≤ r.last →
        is_out_slot r.program i ≡ true → content (lines_of r) e 0 i ≡ 0 }
    ensures targets { (r : Run) (e o i target : ℕ) → IsTraced r → e ≤ r.last →
        Contains (live_objects (lines_of r) e) o → content (lines_of r) e o i ≡ target →
        target ≢ 0 → Contains (live_objects (lines_of r) e) target }
    ensures static_targets { (r : Run) (e i target : ℕ) → IsTraced r → e ≤ r.last →
        content (lines_of r) e 0 i ≡ target → target ≢ 0 →
        Contains (live_objects (lines_of r) e) target }
{
    programs_are_linked();
    snapshots_show_states();
}

/// A program each method of whose files has a typing never ends ill typed by check 1, nor at a handler: where its history ends
/// ill typed, the operands and local variables of the frame fit the instruction, and an object is of a class that it can't
/// take (check 7). What `verify` says of the files of a trace is said of its program.
pub fn verified_runs_end_by_check_7()
    ensures refused { (r : Run) (thread method pc : ℕ) → IsTraced r → IsVerified r.program →
        r.end ≡ IllTyped thread method pc → IsRefused (next_moment r) }
    ensures verdict { (r : Run) (paths words : List (List ℕ)) (d : Defined) → IsTraced r →
        command r.words ≡ Some (Trace r.options paths) → command words ≡ Some (Verify paths) →
        IsDefined r.kinds words r.held d ↔ (d ≡ Verifies r.program) }
{
    programs_are_linked();
    verified_histories_end_by_check_7();
    histories_tell_the_same();
    one_thing_is_defined();
}

/// After each event at most one thread holds a monitor, that of an object or of a class, by the entries and exits of the
/// threads. Where what has it was not reported, the thread that holds it owns it, with as many entries as it has left to exit.
pub fn monitors_are_held_by_one()
    ensures one { (r : Run) (e : ℕ) (lock : Lock) (t u : ℕ) → IsTraced r → e ≤ r.last →
        0 < times_held r.reached r.program r.options (picks_of r) t lock e →
        0 < times_held r.reached r.program r.options (picks_of r) u lock e → t ≡ u }
    ensures owner { (r : Run) (e : ℕ) (lock : Lock) (t : ℕ) → IsTraced r → e ≤ r.last →
        IsThere (state_at r e).kept lock →
        ((monitor_in (state_at r e).kept lock).owner ≡ Some t)
        ↔ (0 < times_held r.reached r.program r.options (picks_of r) t lock e) }
    ensures count { (r : Run) (e : ℕ) (lock : Lock) (t : ℕ) → IsTraced r → e ≤ r.last →
        IsThere (state_at r e).kept lock → (monitor_in (state_at r e).kept lock).owner ≡ Some t →
        (monitor_in (state_at r e).kept lock).count
        ≡ times_held r.reached r.program r.options (picks_of r) t lock e }
{
    programs_are_linked();
    monitors_exclude();
    histories_tell_the_same();
}

/// The trace of a bench is read back: its answer is never that the trace is a bad one. The program of a bench is linked, and its
/// tables are in range, as those of each program are that was linked.
pub fn benches_have_good_traces()
    ensures { (reached : Graph → ℕ → Bool) (p : Linked) (old new kind line : ℕ) →
        Decides reached → IsTabled p → IsLinked p →
        IsNotReadBack reached p old new (At kind line) → ⊥ }
{
    traces_are_good();
    traces_are_read();
}
