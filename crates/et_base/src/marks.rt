//! The first broken rule so far.

ghost use Rattle.std.specs.Prelude.{◌≡◌};
ghost use Rattle.et_base.specs.Marks.{marked};

/// The place and the kind of the first broken rule, in the order of the places, and of the kinds
/// at equal places; `None` where no rule is broken so far.
pub type First = Option<(usize, u8)>;

/// The first broken rule behind one rule more: a rule of this kind that is marked at this place,
/// and holds or is broken. The rules may come in any order.
pub fn mark(first: First, place: usize, kind: u8, holds: bool) -> First
    ensures { result ≡ marked first (record { place = place; kind = kind; holds = holds }) }
{
    if holds {
        return first;
    }
    match first {
        None => Some((place, kind)),
        Some((p, k)) => {
            if place < p || (place == p && kind < k) {
                Some((place, kind))
            } else {
                Some((p, k))
            }
        }
    }
}
