//! What the definitions say of all lines and all bytes.
ghost use Rattle.std.specs.Prelude.{◌≡◌, ℕ, List, ◌++◌};
ghost use Rattle.std.specs.List.{flat_map};
ghost use Rattle.et_base.specs.Numbers.{AreBytes};
ghost use Rattle.et_base.specs.declared.line.TraceLine.{TraceLine};
ghost use Rattle.et_text.specs.Rules.{IsGood};
ghost use Rattle.et_binary.specs.Packing.{pack, written_record};
ghost use Rattle.et_binary.specs.Packs.{IsPacked, IsPackOf, ShowsPackFault, IsPackFault, HasPackAnswer};

/// No record begins another, and no two lines have one record.
pub fn packings_differ()
    ensures { (a b : TraceLine) (x y more rest : List ℕ) →
        IsPacked a x → IsPacked b y → x ++ more ≡ y ++ rest → (a ≡ b) × (more ≡ rest) }
{}

/// What is written of the lines of a good list, one after the other, is its pack.
pub fn records_are_packs()
    ensures { (lines : List TraceLine) →
        IsGood 2 lines → flat_map written_record lines ≡ pack lines }
{}

/// All bytes are the pack of a good list or have a fault,
pub fn pack_answers_exist()
    ensures { (bytes : List ℕ) → AreBytes bytes → HasPackAnswer bytes }
{}

/// never both,
pub fn good_packs_have_no_fault()
    ensures { (lines : List TraceLine) (bytes : List ℕ) (kind number : ℕ) →
        IsPackOf lines bytes → IsPackFault bytes kind number → ⊥ }
{}

/// and the list,
pub fn packed_lists_differ()
    ensures { (a b : List TraceLine) (bytes : List ℕ) →
        IsPackOf a bytes → IsPackOf b bytes → a ≡ b }
{}

/// or the fault, is one.
pub fn pack_faults_are_one()
    ensures { (bytes : List ℕ) (k n l m : ℕ) →
        IsPackFault bytes k n → IsPackFault bytes l m → (k ≡ l) × (n ≡ m) }
{}

/// A fault that is shown stays, however the bytes go on.
pub fn shown_pack_faults_stay()
    ensures { (bytes more : List ℕ) (kind number : ℕ) →
        ShowsPackFault bytes kind number → ShowsPackFault (bytes ++ more) kind number }
{}
