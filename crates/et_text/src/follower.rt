//! What follows the lines of a trace.
ghost use Rattle.std.specs.Prelude.{◌≡◌, List, ◌∷◌, None, OnOk};
ghost use Rattle.et_base.specs.declared.line.TraceLine.{TraceLine};
ghost use Rattle.et_text.specs.Rules.{next_fault};

use et_base::{NoMemory, TraceLine};

/// What is handed the lines of a trace one after the other, as they are read, so that they need not be kept.
pub trait Follower: Drop {
    /// It was handed these lines, of which the newest stands first.
    ghost follows: { Self → List TraceLine → Type 0 };

    /// Takes the next line, which breaks no rule after those before it. After `NoMemory` it may only be dropped.
    fn line(&mut self, line: &TraceLine) -> Result<(), NoMemory>
        requires fine { (past : List TraceLine) × follows self.old past
            × (next_fault past line.now ≡ None) }
        ensures { (past : List TraceLine) → follows self.old past →
            OnOk result (follows self.new (line.now ∷ past)) };
}
