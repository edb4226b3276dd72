//! What words and files define.

ghost use Rattle.std.specs.Prelude.{◌≡◌, ◌≤◌, ℕ, List, Some, length};
ghost use Rattle.et_io.specs.Files.{Held};
ghost use Rattle.et_replay.specs.declared.model.Kind.{Kind};
ghost use Rattle.et_command.specs.Command.{Convert};
ghost use Rattle.et_files.specs.Loaded.{most_of_trace};
ghost use Rattle.et_top.specs.Top.{Defined, Writes, IsDefined, IsAskedDefined};

use et_convert::laws::{
    conversions_are_traces, spelled_lists_differ, spelled_traces_have_no_fault,
    spelling_answers_exist, spelling_faults_are_one,
};
use et_link::laws::answers_are_one;

/// What `convert` writes of a file, where it is short enough to be read from another, is converted back to the bytes of the
/// first.
pub fn converted_twice()
    ensures { (kinds : List Kind) (held : Held) (path other bytes text : List ℕ) →
        held path ≡ Some bytes → held other ≡ Some text → length text ≤ most_of_trace →
        IsAskedDefined kinds (Some (Convert path)) held (Writes (λ reached. text)) →
        IsAskedDefined kinds (Some (Convert other)) held (Writes (λ reached. bytes)) }
{
    // A law: it tells the prover, and does nothing.
    conversions_are_traces();
}

/// For all words and all files that are held exactly one thing is defined, whatever the models are.
pub fn one_thing_is_defined()
    ensures { (kinds : List Kind) (words : List (List ℕ)) (held : Held) → (d : Defined)
        × IsDefined kinds words held d
        × ((other : Defined) → IsDefined kinds words held other → other ≡ d) }
{
    // Laws: they tell the prover, and do nothing.
    et_class::laws::exactly_one();
    et_base::laws::exactly_one();
    spelling_answers_exist();
    spelled_traces_have_no_fault();
    spelled_lists_differ();
    spelling_faults_are_one();
    et_link::laws::answers_exist();
    answers_are_one();
}
