//! What the definitions mean.

ghost use Rattle.std.specs.Prelude.{ℕ, List, ◌↔◌};
ghost use Rattle.et_base.specs.Numbers.{AreBytes};
ghost use Rattle.et_class.specs.Layout.{ClassOf};
ghost use Rattle.et_class.specs.Reading.{IsRead};
ghost use Rattle.et_class.specs.Spelling.{IsClassSpelled};
ghost use Rattle.et_class.specs.Classes.{HasOneClass};

/// Any bytes are either those of exactly one class file, or have exactly one first fault, and not
/// both.
pub fn exactly_one()
    ensures { (bytes : List ℕ) → HasOneClass bytes }
{}

/// The first pass reads a class exactly where the bytes are those that spell it, and no others.
pub fn spelled()
    ensures { (bytes : List ℕ) (c : ClassOf) →
        AreBytes bytes → (IsRead bytes c ↔ IsClassSpelled bytes c) }
{}
