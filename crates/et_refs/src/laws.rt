//! What making arrays of some dimensions keeps. Each law is a function with an empty body: what it promises is its contract.

ghost use Rattle.std.specs.Prelude.{◌≡◌, ℕ, ◌<◌, ◌≤◌, [], ◌∷◌, ◌++◌, true, List, length, drop};
ghost use Rattle.et_base.specs.declared.value.Value.TheVariants.{Ref};
ghost use Rattle.et_heap.specs.Objects.{has_room};
ghost use Rattle.et_state.specs.State.{Kept};
ghost use Rattle.et_state.specs.Moves.{IsUnderWay};
ghost use Rattle.et_event.specs.Heap.{arrays_made};
ghost use Rattle.et_event.specs.Moments.{Moment, Doing, next_object, array_made, slot_written, fits_heap};
ghost use Rattle.et_refs.specs.declared.arrays.filling.Filling.{Filling};
ghost use Rattle.et_refs.specs.Filling.{with_filled, first_filling, next_filling};
ghost use Rattle.et_refs.specs.Legal.{HasMadeArrays};

/// Arrays of one dimension or more are made in an event: it stays under way, loses nothing more, and each of them but the
/// first is in one that was made before it.
pub fn arrays()
    ensures { (e : Moment) (class n : ℕ) (ns : List ℕ) (d : Doing) (s : Kept) (lost : List ℕ) →
        IsUnderWay s d.state lost → length s.heap ≤ length d.state.heap →
        HasMadeArrays s lost d (arrays_made e class (n ∷ ns) d) }
{}

/// Arrays under way are finished: an array in which no element is, is finished as the arrays of its dimensions are made; it
/// goes on by the next array that is made, and by one that is whole and becomes an element; all of them are made where none
/// is missing.
pub fn finishing()
    ensures opened { (e : Moment) (c n : ℕ) (ns : List ℕ) (d : Doing) →
        with_filled e (first_filling e (next_object d) c n ns ∷ []) ns (array_made e c n d)
        ≡ arrays_made e c (n ∷ ns) d }
    ensures pushed { (e : Moment) (xs : List Filling) (f : Filling)
        (n : ℕ) (ns ms : List ℕ) (d : Doing) → f.next < f.count → drop (length xs) ms ≡ n ∷ ns →
        with_filled e (xs ++ f ∷ first_filling e (next_object d) f.inner n ns ∷ []) ms
        (array_made e f.inner n d) ≡ with_filled e (xs ++ f ∷ []) ms d }
    ensures popped { (e : Moment) (xs : List Filling) (f g : Filling) (ms : List ℕ) (d : Doing) →
        g.next ≡ g.count → with_filled e (xs ++ next_filling f ∷ []) ms
        (slot_written e f.array f.next (Ref g.array) d) ≡ with_filled e (xs ++ f ∷ g ∷ []) ms d }
    ensures whole { (e : Moment) (f : Filling) (ns : List ℕ) (d : Doing) →
        f.next ≡ f.count → with_filled e (f ∷ []) ns d ≡ d }
    ensures fits { (e : Moment) (xs : List Filling) (f : Filling) (n : ℕ) (ns ms : List ℕ)
        (d : Doing) → f.next < f.count → drop (length xs) ms ≡ n ∷ ns → 0 < length d.state.heap →
        fits_heap (with_filled e (xs ++ f ∷ []) ms d).state.heap ≡ true →
        has_room d.state.heap 1 n ≡ true }
{}
