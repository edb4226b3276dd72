//! The vectors in which a flush works.
ghost use Rattle.std.specs.Prelude.{◌≡◌, ℕ, ◌+◌, ◌^◌, ◌<◌, ◌≤◌, [], length, map, vec_capacity, All, Contains, OnOk};
ghost use Rattle.et_graph.specs.Listing.{death_pairs};
ghost use Rattle.et_graph.specs.Times.{set_each, AreSettled, Carries, IsSet, unset_count};
ghost use Rattle.et_heap.specs.Objects.{IsHeld, made_count, held_count};
ghost use Rattle.et_heap.specs.Refs.{pairs_of};
ghost use Rattle.et_flush.specs.Ranks.{AreRanked, rank_of, ranked_pairs, time_of};
ghost use Rattle.et_flush.specs.Reaches.{AreReached};
ghost use Rattle.et_flush.specs.Searches.{ArePairsHeld, AreAllHeld, AreTimes, AreDyingIn};
ghost use Rattle.et_flush.specs.Works.{HasWorkPlaces, IsWorkReady, IsSettled};

use crate::deaths::list_deaths;
use crate::held::list_held;
use crate::order::order_sources;
use crate::ranks::{Ranks, list_ranks, no_ranks, reserve_ranks};
use crate::reach::reach;
use crate::search::HeldReferences;
use crate::times::{NOW, write_times};
use et_base::{ObjectId, Steps, within};
use et_graph::{Death, spread_all};
use et_heap::Heap;
use std::alloc::{AllocError, Global};
use std::sync::ledger::Ledger;

/// What a flush works in. The lists are as long as objects are held: the entry of one is at its rank less 1 of `times`, of
/// `reached` and of `seen`. What stands in a list is left over from the flush before, and nothing reads it.
#[derive(Drop)]
pub(crate) struct Work {
    pub ranks: Ranks,
    pub times: Vec<u64>,
    /// Whether the roots lead to it.
    pub reached: Vec<bool>,
    /// Whether the search of the rest has come to it.
    pub seen: Vec<bool>,
    /// The ranks whose references a search is to follow; after it, the references whose referents became null.
    pub waiting: Vec<ObjectId>,
    pub held: Vec<ObjectId>,
    /// The ranks of the rest with their times, in the order in which the search takes them; after it, the deaths.
    pub deaths: Vec<Death>,
}

/// No places yet.
pub(crate) fn no_work(alloc: Global) -> Work
    ensures places { HasWorkPlaces 0 0 result }
    ensures deaths { result.deaths.items ≡ [] }
{
    Work {
        ranks: no_ranks(alloc),
        times: Vec::new(alloc),
        reached: Vec::new(alloc),
        seen: Vec::new(alloc),
        waiting: Vec::new(alloc),
        held: Vec::new(alloc),
        deaths: Vec::new(alloc),
    }
}

/// Makes places for so many objects that are held, of which none has a greater number than this one.
pub(crate) fn reserve(work: &mut Work, number: u32, objects: u32) -> Result<(), AllocError>
    requires { HasWorkPlaces 0 0 work.old }
    ensures ok { OnOk result (HasWorkPlaces number objects work.new) }
    ensures kept { (m n : ℕ) →
        n ≤ objects → HasWorkPlaces m n work.old → HasWorkPlaces m n work.new }
    ensures deaths { work.new.deaths.items ≡ work.old.deaths.items }
{
    let count = objects as usize;
    reserve_ranks(&mut work.ranks, number as usize, count)?;
    within::reserve(&mut work.times, count)?;
    within::reserve(&mut work.reached, count)?;
    within::reserve(&mut work.seen, count)?;
    within::reserve(&mut work.waiting, count)?;
    within::reserve(&mut work.held, count)?;
    within::reserve(&mut work.deaths, count)?;
    Ok(())
}

/// Makes a list of so many flags, of which none is set.
fn clear_flags(flags: &mut Vec<bool>, count: usize)
    requires { count ≤ vec_capacity flags.old }
    ensures long { length flags.new.items ≡ count }
    ensures unset { (rank : ℕ) → ¬ IsSet flags.new.items rank }
    ensures room { vec_capacity flags.old ≤ vec_capacity flags.new }
{
    within::resize(flags, count, false);
    flags.fill(false);
}

/// Lists the objects that are held, and gives them their ranks and their stamps as times.
fn prepare(heap: &Heap, stamps: &[u64], work: &mut Work)
    requires none { ¬ IsHeld heap.now 0 }
    requires stamped { (o : ℕ) → IsHeld heap.now o → o < length stamps.now }
    requires places { HasWorkPlaces (made_count heap.now) (held_count heap.now) work.old }
    ensures ready { IsWorkReady heap.now work.new }
    ensures times { AreTimes work.new.held.items stamps.now work.new.times.items }
    ensures unreached { (rank : ℕ) → ¬ IsSet work.new.reached.items rank }
    ensures few { length work.new.held.items < 2 ^ 32 }
    ensures places { (m n : ℕ) → HasWorkPlaces m n work.old → HasWorkPlaces m n work.new }
{
    list_held(heap, &mut work.held);
    list_ranks(&work.held, &mut work.ranks);
    write_times(&work.held, stamps, &mut work.times);
    clear_flags(&mut work.reached, work.held.len());
    clear_flags(&mut work.seen, work.held.len());
    work.waiting.clear();
}

/// Finds what the roots lead to. Each is visited once.
fn find_reached<L: Ledger>(heap: &Heap, roots: &[ObjectId], work: &mut Work, visits: &mut Steps<L>)
    requires ready { IsWorkReady heap.now work.old }
    requires room { length work.old.held.items ≤ vec_capacity work.old.waiting }
    requires unreached { (rank : ℕ) → ¬ IsSet work.old.reached.items rank }
    requires roots { (o : ℕ) → Contains roots.now o → IsHeld heap.now o }
    requires pairs { ArePairsHeld heap.now }
    requires below { All (λ t. t ≤ NOW) work.old.times.items }
    ensures ready { IsWorkReady heap.now work.new }
    ensures held { work.new.held.items ≡ work.old.held.items }
    ensures ranks { work.new.ranks ≡ work.old.ranks }
    ensures carries { Carries (ranked_pairs work.old.ranks (pairs_of heap.now))
        (set_each (map (rank_of work.old.ranks) roots.now) NOW work.old.times.items)
        work.new.times.items }
    ensures reached { AreReached (ranked_pairs work.old.ranks (pairs_of heap.now))
        work.new.times.items work.new.reached.items }
    ensures places { (m n : ℕ) → HasWorkPlaces m n work.old → HasWorkPlaces m n work.new }
    ensures visits { visits.new + unset_count work.new.reached.items
        ≤ visits.old + length work.old.held.items }
{
    reach(
        &HeldReferences {
            heap,
            held: &work.held,
            ranks: &work.ranks,
            left_out: &work.seen,
        },
        roots,
        &mut work.times,
        &mut work.reached,
        &mut work.waiting,
        visits,
    );
}

/// Finds the times of what the roots don't lead to: of all that leads there, the greatest. Each is visited once.
fn date_others<L: Ledger>(heap: &Heap, work: &mut Work, visits: &mut Steps<L>)
    requires ready { IsWorkReady heap.now work.old }
    requires few { length work.old.held.items < 2 ^ 32 }
    requires room { length work.old.held.items ≤ vec_capacity work.old.waiting }
    requires room_order { length work.old.held.items ≤ vec_capacity work.old.deaths }
    requires pairs { ArePairsHeld heap.now }
    requires below { All (λ t. t ≤ NOW) work.old.times.items }
    requires reached { AreReached (ranked_pairs work.old.ranks (pairs_of heap.now))
        work.old.times.items work.old.reached.items }
    ensures held { work.new.held.items ≡ work.old.held.items }
    ensures ranks { work.new.ranks ≡ work.old.ranks }
    ensures carries { Carries (ranked_pairs work.old.ranks (pairs_of heap.now))
        work.old.times.items work.new.times.items }
    ensures settled { AreSettled (ranked_pairs work.old.ranks (pairs_of heap.now))
        work.new.times.items }
    ensures places { (m n : ℕ) → HasWorkPlaces m n work.old → HasWorkPlaces m n work.new }
    ensures visits { visits.new ≤ visits.old + unset_count work.old.reached.items }
{
    order_sources(&work.times, &work.reached, &mut work.deaths);
    spread_all(
        &HeldReferences {
            heap,
            held: &work.held,
            ranks: &work.ranks,
            left_out: &work.reached,
        },
        &work.deaths,
        &mut work.times,
        &mut work.seen,
        &mut work.waiting,
        visits,
    );
}

/// Finds the time of each object that is held: `NOW` where it is reached, else the greatest stamp that leads to it; and lists
/// the deaths by these times. Each is visited once at most.
pub(crate) fn find_deaths<L: Ledger>(
    heap: &Heap,
    roots: &[ObjectId],
    stamps: &[u64],
    work: &mut Work,
    visits: &mut Steps<L>,
)
    requires none { ¬ IsHeld heap.now 0 }
    requires roots { (o : ℕ) → Contains roots.now o → IsHeld heap.now o }
    requires pairs { ArePairsHeld heap.now }
    requires stamped { (o : ℕ) → IsHeld heap.now o → o < length stamps.now }
    requires below { All (λ t. t < NOW) stamps.now }
    requires places { HasWorkPlaces (made_count heap.now) (held_count heap.now) work.old }
    ensures settled { IsSettled
        heap.now roots.now stamps.now (time_of work.new.ranks work.new.times.items) }
    ensures held { AreAllHeld heap.now work.new.held.items }
    ensures ranked { AreRanked work.new.held.items work.new.ranks }
    ensures long { length work.new.times.items ≡ length work.new.held.items }
    ensures deaths { AreDyingIn heap.now
        (time_of work.new.ranks work.new.times.items) (death_pairs work.new.deaths.items) }
    ensures places { (m n : ℕ) → HasWorkPlaces m n work.old → HasWorkPlaces m n work.new }
    ensures visits { visits.new ≤ visits.old + held_count heap.now }
{
    prepare(heap, stamps, work);
    find_reached(heap, roots, work, visits);
    date_others(heap, work, visits);
    list_deaths(&work.held, &work.times, &mut work.deaths);
}
