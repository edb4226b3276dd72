//! What the definitions mean.

ghost use Rattle.std.specs.Prelude.{List, None};
ghost use Rattle.et_base.specs.Marks.{Mark, MarksAre, IsTheOne, first_from};

/// Of any rules either all hold, or exactly one broken item is the first.
pub fn exactly_one()
    ensures { (marks : List Mark) → IsTheOne marks }
{}

/// What the rules give when they are taken one after the other, in whatever order they stand, is
/// the first broken item.
pub fn found_is_first()
    ensures { (marks : List Mark) → MarksAre marks (first_from None marks) }
{}
