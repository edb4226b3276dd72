//! What bytes spell, and what a trace is converted to.
ghost use Rattle.std.specs.Prelude.{◌≡◌, ◌<◌, ◌^◌, ℕ, List, All, length};
ghost use Rattle.et_base.specs.declared.line.TraceLine.{TraceLine};
ghost use Rattle.et_text.specs.Ranges.{HasShortNames};
ghost use Rattle.et_convert.specs.Spellings.{SpellsTrace, HasSpellingFault, HasSpellingAnswer};
ghost use Rattle.et_convert.specs.Conversions.{converted_lines, converted_bytes};

use et_binary::laws::{
    good_packs_have_no_fault, pack_answers_exist, pack_faults_are_one, packed_lists_differ,
    shown_pack_faults_stay,
};
use et_text::laws::{answers_exist, faults_are_one, good_lists_differ, good_texts_have_no_fault};

/// All bytes spell a good list, in the format that the first of them tells, or have a fault,
pub fn spelling_answers_exist()
    ensures { (bytes : List ℕ) → HasSpellingAnswer bytes }
{
    // Laws: they tell the prover, and do nothing.
    answers_exist();
    pack_answers_exist();
    shown_pack_faults_stay();
}

/// never both,
pub fn spelled_traces_have_no_fault()
    ensures { (lines : List TraceLine) (bytes : List ℕ) (kind number : ℕ) →
        SpellsTrace lines bytes → HasSpellingFault bytes kind number → ⊥ }
{
    good_texts_have_no_fault();
    good_packs_have_no_fault();
}

/// and the list,
pub fn spelled_lists_differ()
    ensures { (a b : List TraceLine) (bytes : List ℕ) →
        SpellsTrace a bytes → SpellsTrace b bytes → a ≡ b }
{
    good_lists_differ();
    packed_lists_differ();
}

/// or the fault, is one.
pub fn spelling_faults_are_one()
    ensures { (bytes : List ℕ) (k n l m : ℕ) →
        HasSpellingFault bytes k n → HasSpellingFault bytes l m → (k ≡ l) × (n ≡ m) }
{
    faults_are_one();
    pack_faults_are_one();
}

/// What a trace is converted to spells the same lines in the other format, where its names are short; so they are where its
/// bytes are fewer than 2^32. What that is converted to is the first trace.
pub fn conversions_are_traces()
    ensures other { (lines : List TraceLine) (bytes : List ℕ) →
        SpellsTrace lines bytes → All HasShortNames lines →
        SpellsTrace (converted_lines lines) (converted_bytes lines) }
    ensures again { (lines : List TraceLine) (bytes : List ℕ) → SpellsTrace lines bytes →
        (converted_lines (converted_lines lines) ≡ lines)
        × (converted_bytes (converted_lines lines) ≡ bytes) }
    ensures short { (lines : List TraceLine) (bytes : List ℕ) →
        SpellsTrace lines bytes → length bytes < 2 ^ 32 → All HasShortNames lines }
{}
