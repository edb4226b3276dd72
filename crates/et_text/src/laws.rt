//! What the definitions say of all lines and all bytes.
ghost use Rattle.std.specs.Prelude.{◌≡◌, ◌↔◌, ℕ, List, ◌++◌, Some};
ghost use Rattle.et_base.specs.declared.line.TraceLine.{TraceLine};
ghost use Rattle.et_text.specs.Reading.{line_at};
ghost use Rattle.et_text.specs.Text.{IsLineSpelled, IsTextOf, ShowsFault, IsTraceFault, HasAnswer};

/// Reading is the inverse of spelling: the line that is read from left to right is the one that the bytes spell.
pub fn reading_inverts_spelling()
    ensures { (line : TraceLine) (bytes : List ℕ) →
        (line_at bytes ≡ Some line) ↔ IsLineSpelled line bytes }
{}

/// No two lines have one spelling.
pub fn spellings_differ()
    ensures { (a b : TraceLine) (bytes : List ℕ) → IsLineSpelled a bytes → IsLineSpelled b bytes →
        a ≡ b }
{}

/// All bytes are the text of a good list or have a fault,
pub fn answers_exist()
    ensures { (bytes : List ℕ) → HasAnswer bytes }
{}

/// never both,
pub fn good_texts_have_no_fault()
    ensures { (lines : List TraceLine) (bytes : List ℕ) (kind number : ℕ) →
        IsTextOf lines bytes → IsTraceFault bytes kind number → ⊥ }
{}

/// and the list,
pub fn good_lists_differ()
    ensures { (a b : List TraceLine) (bytes : List ℕ) →
        IsTextOf a bytes → IsTextOf b bytes → a ≡ b }
{}

/// or the fault, is one.
pub fn faults_are_one()
    ensures { (bytes : List ℕ) (k n l m : ℕ) →
        IsTraceFault bytes k n → IsTraceFault bytes l m → (k ≡ l) × (n ≡ m) }
{}

/// A line that breaks a rule is the fault, whatever stands behind it.
pub fn shown_faults_stay()
    ensures { (bytes more : List ℕ) (kind number : ℕ) →
        ShowsFault bytes kind number → ShowsFault (bytes ++ more) kind number }
{}
