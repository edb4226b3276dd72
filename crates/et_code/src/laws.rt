//! What the definitions mean.

ghost use Rattle.std.specs.Prelude.{ℕ, List, None, IsTrue, ◌↔◌};
ghost use Rattle.et_base.specs.Marks.{MarksAre};
ghost use Rattle.et_code.specs.Bodies.{Body};
ghost use Rattle.et_code.specs.Starts.{IsStart, is_start};
ghost use Rattle.et_code.specs.Rules.{code_marks};
ghost use Rattle.et_code.specs.Kept.{IsKeptCode};

/// The list of instruction starts has exactly the places at which instructions begin: the first
/// place of the code, and each place in the code behind an instruction.
pub fn starts_are_all()
    ensures { (code : List ℕ) (pc : ℕ) → IsTrue (is_start code pc) ↔ IsStart code pc }
{}

/// In code that breaks no rule an instruction stands at each instruction start and keeps its rules,
/// and so does each row of the exception table.
pub fn kept_code()
    ensures { (b : Body) (tags : List ℕ) → MarksAre (code_marks b tags) None → IsKeptCode b tags }
{}
