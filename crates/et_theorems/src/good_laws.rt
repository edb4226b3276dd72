//! Traces are good. Each law is a function with an empty body: what it promises is its contract.

ghost use Rattle.std.specs.Prelude.{◌≡◌, ◌↔◌, ℕ, ◌+◌, ◌*◌, ◌<◌, ◌≤◌, All, Bool, List, bytes_eq, length, true};
ghost use Rattle.et_base.specs.declared.line.TraceLine.{TraceLine};
ghost use Rattle.et_base.specs.declared.value.End.{End};
ghost use Rattle.et_graph.specs.Graph.{Graph};
ghost use Rattle.et_history.specs.programs.ClassNames.{HasClassName};
ghost use Rattle.et_program.specs.Entries.{Linked, class_at};
ghost use Rattle.et_program.specs.LinkFaults.{IsLinkable};
ghost use Rattle.et_program.specs.Loaded.{LoadedClass};
ghost use Rattle.et_program.specs.Linking.{IsLinked};
ghost use Rattle.et_program.specs.ProgramOf.{IsProgramOf};
ghost use Rattle.et_program.specs.Tables.{IsTabled};
ghost use Rattle.et_state.specs.declared.options.Options.{Options};
ghost use Rattle.et_state.specs.History.{IsLastEvent, trace_of};
ghost use Rattle.et_state.specs.Start.{start};
ghost use Rattle.et_text.specs.Rules.{IsGood};
ghost use Rattle.et_text.specs.Ranges.{header_version};
ghost use Rattle.et_binary.specs.Formats.{trace_bytes};
ghost use Rattle.et_event.specs.Start.{start_records};
ghost use Rattle.et_history.specs.Histories.{whole_picked, IsHistory};
ghost use Rattle.et_history.specs.Settings.{IsSoundRun};
ghost use Rattle.et_history.specs.Whole.{whole_start};
ghost use Rattle.et_theorems.specs.traces.Good.{IsTraceable};
ghost use Rattle.et_convert.specs.Spellings.{SpellsIn, HasFaultIn};

use et_binary::laws::{good_packs_have_no_fault, packed_lists_differ};
use et_history::laws::histories_tell_the_same;
use et_history::object_laws::objects_are_reached_as_made;
use et_history::program_laws::files_keep_rules;
use et_history::record_laws::programs_have_sizes;
use et_history::run_laws::linked_programs_run_soundly;
use et_history::spoken_laws::{events_are_told, events_keep_monitors, events_tell_objects};
use et_text::laws::{good_lists_differ, good_texts_have_no_fault};

/// The trace of every history of a program that a trace can tell of is a good list, of the version of its format, over every
/// list of picks. Every program that was linked is one.
pub fn traces_are_good()
    ensures good { (reached : Graph → ℕ → Bool) (p : Linked) (options : Options) (pick : ℕ → ℕ)
        (last : ℕ) (end : End) → IsHistory reached p options → IsTraceable p →
        IsLastEvent reached (whole_picked p options pick) (whole_start p) (start_records p) last
        end →
        IsGood (header_version options.format) (trace_of reached (whole_picked p options pick)
        (whole_start p) (start_records p) last end) }
    ensures linked { (p : Linked) → IsTabled p → IsLinked p →
        IsSoundRun p (start p) × IsTraceable p }
{
    // Laws: they tell the prover, and do nothing.
    files_keep_rules();
    linked_programs_run_soundly();
    programs_have_sizes();
    events_are_told();
    events_tell_objects();
    events_keep_monitors();
    histories_tell_the_same();
    objects_are_reached_as_made();
}

/// So its bytes, which are its text or its pack, are read to exactly its lines, and have no fault.
pub fn traces_are_read()
    ensures lines { (reached : Graph → ℕ → Bool) (p : Linked) (options : Options) (pick : ℕ → ℕ)
        (last : ℕ) (end : End) (lines : List TraceLine) → IsHistory reached p options →
        IsTraceable p →
        IsLastEvent reached (whole_picked p options pick) (whole_start p) (start_records p) last
        end →
        SpellsIn options.format lines (trace_bytes options.format
        (trace_of reached (whole_picked p options pick) (whole_start p) (start_records p) last
        end)) ↔ (lines ≡ trace_of reached (whole_picked p options pick) (whole_start p)
        (start_records p) last end) }
    ensures none { (reached : Graph → ℕ → Bool) (p : Linked) (options : Options) (pick : ℕ → ℕ)
        (last : ℕ) (end : End) (kind number : ℕ) → IsHistory reached p options → IsTraceable p →
        IsLastEvent reached (whole_picked p options pick) (whole_start p) (start_records p) last
        end →
        HasFaultIn options.format (trace_bytes options.format
        (trace_of reached (whole_picked p options pick) (whole_start p) (start_records p) last
        end)) kind number → ⊥ }
{
    // Laws: they tell the prover, and do nothing.
    traces_are_good();
    good_lists_differ();
    good_texts_have_no_fault();
    packed_lists_differ();
    good_packs_have_no_fault();
}

/// No two classes of a linked program have one name.
pub fn class_names_are_apart()
    ensures { (files : List LoadedClass) (p : Linked) → All HasClassName files →
        IsLinkable files → IsProgramOf files p →
        (c d : ℕ) → c < length p.classes → d < length p.classes →
        bytes_eq (class_at p c).info.name (class_at p d).info.name ≡ true → c ≡ d }
{}

/// A linked program has at most 4,096 files, each of at most 65,535 fields, and System.out is one static field more; so its
/// static fields are fewer than the slots that a line of a trace can tell, which are 2^28.
pub fn statics_are_few()
    ensures { (p : Linked) → IsLinked p → length p.statics ≤ 4096 * 65535 + 1 }
{}
