//! The live curve of a trace. Each law is a function with an empty body, or one that calls the laws that it stands on: what
//! it promises is its contract.

ghost use Rattle.std.specs.Prelude.{◌≡◌, ℕ, ◌≤◌, Bool, Contains};
ghost use Rattle.et_base.specs.declared.value.End.{End};
ghost use Rattle.et_graph.specs.Graph.{Graph};
ghost use Rattle.et_program.specs.Entries.{Linked};
ghost use Rattle.et_program.specs.Linking.{IsLinked};
ghost use Rattle.et_program.specs.Tables.{IsTabled};
ghost use Rattle.et_state.specs.History.{IsLastEvent, trace_of};
ghost use Rattle.et_state.specs.Start.{start};
ghost use Rattle.et_state.specs.declared.options.Options.{Options};
ghost use Rattle.et_event.specs.Start.{start_records};
ghost use Rattle.et_history.specs.Allocations.{HasArguments};
ghost use Rattle.et_history.specs.steps.Records.{HasPlainStrings};
ghost use Rattle.et_history.specs.Histories.{IsHistory};
ghost use Rattle.et_history.specs.Settings.{IsSoundRun};
ghost use Rattle.et_history.specs.Whole.{whole_setting, whole_start};
ghost use Rattle.et_replay.specs.Curve.{curve_events, live};
ghost use Rattle.et_theorems.specs.traces.Good.{IsTraceable};
ghost use Rattle.et_theorems.specs.traces.LiveBytes.{bytes_reached, object_size};

use crate::good_laws::traces_are_good;
use et_history::laws::{histories_tell_the_same, nothing_is_freed};
use et_history::object_laws::objects_are_reached_as_made;
use et_history::program_laws::files_keep_rules;
use et_history::record_laws::{allocations_are_told, programs_have_sizes};

/// In the trace of every history in which nothing is freed, the live bytes at each event up to the last, as its curve has
/// them, are the sum of the sizes of the objects made by then that are reached in the state that the event left, or in that
/// of a later event up to the last. So the bytes of an object count until it is reached no more, and no longer. Each event
/// of the curve is one up to the last. Every program that was linked has what this asks of one.
pub fn live_is_reached()
    ensures live { (reached : Graph → ℕ → Bool) (p : Linked) (options : Options) (e last : ℕ)
        (end : End) → IsHistory reached p options → HasPlainStrings p → HasArguments p →
        IsLastEvent reached (whole_setting p options) (whole_start p) (start_records p) last end →
        e ≤ last →
        live (trace_of reached (whole_setting p options) (whole_start p) (start_records p) last
        end) e
        ≡ bytes_reached reached (whole_setting p options) (whole_start p) (start_records p)
        (object_size p) e last }
    ensures events { (reached : Graph → ℕ → Bool) (p : Linked) (options : Options) (e last : ℕ)
        (end : End) → IsHistory reached p options → IsTraceable p →
        IsLastEvent reached (whole_setting p options) (whole_start p) (start_records p) last end →
        Contains (curve_events (trace_of reached (whole_setting p options) (whole_start p)
        (start_records p) last end)) e → e ≤ last }
    ensures linked { (p : Linked) → IsTabled p → IsLinked p →
        IsSoundRun p (start p) × HasPlainStrings p × HasArguments p × IsTraceable p }
{
    // Laws: they tell the prover, and do nothing.
    traces_are_good();
    files_keep_rules();
    histories_tell_the_same();
    nothing_is_freed();
    objects_are_reached_as_made();
    allocations_are_told();
    programs_have_sizes();
}
