//! What the definitions mean.

ghost use Rattle.std.specs.Prelude.{ℕ, List, Option, ◌↔◌};
ghost use Rattle.et_base.specs.Numbers.{AreBytes};
ghost use Rattle.et_pool.specs.Entries.{Item};
ghost use Rattle.et_pool.specs.Pools.{IsPool, HasOnePool};
ghost use Rattle.et_pool.specs.Spelling.{IsPoolSpelled};

/// At each place of any bytes there is either one pool or one first broken item, and not both.
pub fn exactly_one()
    ensures { (bytes : List ℕ) (at : ℕ) → HasOnePool bytes at }
{}

/// The bytes have a pool at a place exactly where its count and its entries are spelled there, in
/// order, whole.
pub fn spelled()
    ensures { (bytes : List ℕ) (at : ℕ) (slots : List (Option Item)) (after : ℕ) →
        AreBytes bytes → (IsPool bytes at slots after ↔ IsPoolSpelled bytes at slots after) }
{}
