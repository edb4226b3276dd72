//! What the verdicts mean.

ghost use Rattle.std.specs.Prelude.{◌≡◌, ℕ};
ghost use Rattle.et_program.specs.Entries.{Linked};
ghost use Rattle.et_verify.specs.Typings.{IsVerified};
ghost use Rattle.et_verify.specs.Verdicts.{IsFirstRejected};

/// No program is both verified and rejected.
pub fn verdicts_differ()
    ensures { (p : Linked) (m : ℕ) → IsVerified p → IsFirstRejected p m → ⊥ }
{}

/// A program is rejected for one method.
pub fn rejections_are_one()
    ensures { (p : Linked) (m k : ℕ) → IsFirstRejected p m → IsFirstRejected p k → m ≡ k }
{}
