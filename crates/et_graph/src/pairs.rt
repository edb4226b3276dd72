//! The pairs of a graph, as a step changes them and as a search reads them.

ghost use Rattle.std.specs.Prelude.{◌≡◌, ℕ, ◌+◌, ◌<◌, ◌≤◌, ◌++◌, vec_len, vec_capacity, length, not, filter, slice_index_or, Contains, ◌↔◌};
ghost use Rattle.std.specs.Ordering.{nat_cmp, ordering_then};
ghost use Rattle.std.specs.List.Sorted.{IsSorted, IsNonDecreasingBy};
ghost use Rattle.et_graph.specs.Edit.{has_pair};

use et_base::{ObjectId, within};

/// The pairs that a step takes away, in order.
#[derive(Drop)]
struct Cut {
    pairs: Vec<(ObjectId, ObjectId)>,
    ghost sorted: { IsSorted
        (λ (p q : ℕ × ℕ). ordering_then (nat_cmp p.0 q.0) (nat_cmp p.1 q.1)) pairs.items },
}

impl Cut {
    fn new(mut pairs: Vec<(ObjectId, ObjectId)>) -> Self
        ensures { (p : ℕ × ℕ) → has_pair result.pairs.items p ≡ has_pair pairs.items p }
    {
        pairs.sort_unstable();
        Cut { pairs }
    }

    fn has(&self, pair: &(ObjectId, ObjectId)) -> bool
        ensures { result ≡ has_pair self.now.pairs.items pair.now }
    {
        self.pairs.binary_search(pair).is_ok()
    }
}

/// Takes the pairs of `cut` away and puts those of `tied` in.
pub fn edit(
    pairs: &mut Vec<(ObjectId, ObjectId)>,
    cut: Vec<(ObjectId, ObjectId)>,
    tied: &[(ObjectId, ObjectId)],
)
    requires room { vec_len pairs.old + length tied.now ≤ vec_capacity pairs.old }
    ensures { pairs.new.items
        ≡ filter (λ p. not (has_pair cut.items p)) pairs.old.items ++ tied.now }
{
    if !cut.is_empty() {
        let cut = Cut::new(cut);
        pairs.retain(|pair| !cut.has(pair));
    }
    within::extend(pairs, tied);
}

/// Sorts the pairs by their first object.
pub fn sort(pairs: &mut [(ObjectId, ObjectId)])
    ensures sorted { IsNonDecreasingBy (λ (p : ℕ × ℕ). p.0) pairs.new }
    ensures same { (p : ℕ × ℕ) → Contains pairs.new p ↔ Contains pairs.old p }
{
    pairs.sort_unstable_by_key(|pair| pair.0.number());
}

/// Where the pairs of the object begin, among pairs that are sorted by their first object.
fn first_from(pairs: &[(ObjectId, ObjectId)], object: ObjectId) -> usize
    requires { IsNonDecreasingBy (λ (p : ℕ × ℕ). p.0) pairs.now }
    ensures bound { result ≤ length pairs.now }
    ensures before { (k : ℕ) (d : ℕ × ℕ) → k < result → (slice_index_or pairs.now k d).0 < object }
    ensures after { (k : ℕ) (d : ℕ × ℕ) →
        result ≤ k → k < length pairs.now → object ≤ (slice_index_or pairs.now k d).0 }
{
    pairs.partition_point(|pair| pair.0.number() < object.number())
}

/// Where they end.
fn first_after(pairs: &[(ObjectId, ObjectId)], object: ObjectId) -> usize
    requires { IsNonDecreasingBy (λ (p : ℕ × ℕ). p.0) pairs.now }
    ensures bound { result ≤ length pairs.now }
    ensures before { (k : ℕ) (d : ℕ × ℕ) → k < result → (slice_index_or pairs.now k d).0 ≤ object }
    ensures after { (k : ℕ) (d : ℕ × ℕ) →
        result ≤ k → k < length pairs.now → object < (slice_index_or pairs.now k d).0 }
{
    pairs.partition_point(|pair| pair.0.number() <= object.number())
}

/// The pairs of the object, among pairs that are sorted by their first object.
pub fn pairs_of(pairs: &[(ObjectId, ObjectId)], object: ObjectId) -> &[(ObjectId, ObjectId)]
    requires { IsNonDecreasingBy (λ (p : ℕ × ℕ). p.0) pairs.now }
    ensures { (p : ℕ × ℕ) → Contains result.now p ↔ (Contains pairs.now p × (p.0 ≡ object)) }
{
    &pairs[first_from(pairs, object)..first_after(pairs, object)]
}
