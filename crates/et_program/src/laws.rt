//! What the definitions mean.

ghost use Rattle.std.specs.Prelude.{ℕ, List};
ghost use Rattle.et_program.specs.Entries.{Linked};
ghost use Rattle.et_program.specs.Words.{AreSpecific};
ghost use Rattle.et_program.specs.Types.{ElementsDecide};
ghost use Rattle.et_program.specs.declared.kind.Kind.{Kind};

/// The methods that resolution and selection choose from are the maximally specific ones that aren't abstract
/// (JVMS 5.4.3.3).
#[tactic(auto, using(crate::proofs::WordLemmas::specific_words))]
pub fn specific_methods_are_maximal()
    ensures { (p : Linked) (name descriptor : List ℕ) (c : ℕ) → AreSpecific p name descriptor c }
{}

/// An array passes for an array exactly where its elements pass for those (JVMS 6.5, checkcast).
pub fn elements_decide()
    ensures { (p : Linked) (low high : Kind) → ElementsDecide p low high }
{}
