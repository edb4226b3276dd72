//! A book of stamps: from the present graph and one stamp per object it tells when each object was last reached.

ghost use Rattle.std.specs.Prelude.{◌≡◌, ℕ, ◌+◌, ◌<◌, ◌^◌, length, slice_index};

use crate::objects::{Death, Objects};
use crate::pairs;
use et_base::{NoMemory, ObjectId};
use std::alloc::Global;
use std::marker::Model;

/// One step of a graph.
#[derive(Drop)]
pub struct GraphStep {
    /// The objects that the step makes: the next numbers, in order.
    pub fresh: Vec<ObjectId>,
    /// The objects that it takes a reference away from.
    pub lost: Vec<ObjectId>,
    /// The roots after the step.
    pub roots: Vec<ObjectId>,
    /// The pairs that it takes away. A pair (u, x) says that u leads to x.
    pub cut: Vec<(ObjectId, ObjectId)>,
    /// The pairs that it puts in.
    pub tied: Vec<(ObjectId, ObjectId)>,
}

/// How many objects there are once these were made, where so many were made before.
fn count_after(made: usize, fresh: &[ObjectId]) -> usize
    requires next { (k : ℕ) → k < length fresh.now → slice_index fresh.now k ≡ made + 1 + k }
    requires small { made < 2 ^ 32 }
    ensures count { result ≡ made + length fresh.now }
    ensures small { result < 2 ^ 32 }
{
    match fresh.last() {
        Some(newest) => newest.number() as usize,
        None => made,
    }
}

/// The present graph, and a stamp for each object. A contract sees it as a `Book`.
#[derive(Drop)]
pub struct StampBook {
    steps: u64,
    roots: Vec<ObjectId>,
    pairs: Vec<(ObjectId, ObjectId)>,
    objects: Objects,
}

impl Model for StampBook {
    ghost use Rattle.et_graph.specs.Book.{Book};

    ghost Value = { Book };

    ghost use Rattle.et_graph.specs.Inside.{book_of, IsBook};

    ghost view = { book_of };

    ghost invariant = { IsBook };
}

impl StampBook {
    ghost use Rattle.std.specs.Prelude.{◌≡◌, ℕ, ◌+◌, ◌^◌, ◌<◌, ◌∷◌, List, [], map, OnOk, OnErr};
    ghost use Rattle.std.specs.Borrow.{sem};
    ghost use Rattle.et_graph.specs.Steps.{IsLegalStep};
    ghost use Rattle.et_graph.specs.Edit.{step_of, with_pairs};
    ghost use Rattle.et_graph.specs.Graph.{IsReached};
    ghost use Rattle.et_graph.specs.Times.{ArePairsAmong};
    ghost use Rattle.et_graph.specs.History.{Turn, AreDeaths};
    ghost use Rattle.et_graph.specs.History.Turn.{Flushed};
    ghost use Rattle.et_graph.specs.Book.{StandsFor};
    ghost use Rattle.et_graph.specs.Listing.{death_pairs};
    ghost use Rattle.et_graph.specs.Written.{edit_of};
    ghost use Rattle.et_graph.specs.Taken.{with_step, with_tie};
    ghost use Rattle.et_graph.specs.Flush.{EndsFlushed};

    /// A book with no step.
    pub fn begin(alloc: Global) -> Self
        ensures { StandsFor result [] }
    {
        StampBook {
            steps: 0,
            roots: Vec::new(alloc),
            pairs: Vec::new(alloc),
            objects: Objects::new(alloc),
        }
    }

    /// The number of steps so far, which is the number of the next one: they are numbered from 0.
    pub fn steps_taken(&self) -> u64
        ensures { result ≡ self.now.steps }
    {
        self.steps
    }

    /// Takes a legal step. The book then stands for the history with this step. With `NoMemory` it is as before.
    pub fn take_step(&mut self, step: GraphStep) -> Result<(), NoMemory>
        requires legal { IsLegalStep self.old.graph (step_of self.old.graph (edit_of step)) }
        requires few { self.old.steps < 2 ^ 41 }
        ensures ok { OnOk result ((turns : List Turn) →
            StandsFor self.old turns → StandsFor self.new (with_step turns (edit_of step))) }
        ensures graph { OnOk result
            (self.new.graph ≡ (step_of self.old.graph (edit_of step)).after) }
        ensures steps { OnOk result (self.new.steps ≡ self.old.steps + 1) }
        ensures err { OnErr result (self.new ≡ self.old) }
    {
        let GraphStep {
            fresh,
            lost,
            roots,
            cut,
            tied,
        } = step;
        let count = count_after(self.objects.stamps.len(), &fresh);
        self.pairs.reserve(tied.len())?;
        self.objects.reserve(count)?;
        pairs::edit(&mut self.pairs, cut, &tied);
        self.objects.take_step(&lost, self.steps, count);
        self.roots = roots;
        self.steps += 1;
        Ok(())
    }

    /// Puts in pairs between objects that are reached now. A tie is no step: it has no number, and stamps nothing. The book
    /// then stands for the history with this tie. With `NoMemory` it is as before.
    pub fn tie(&mut self, tied: Vec<(ObjectId, ObjectId)>) -> Result<(), NoMemory>
        requires reached { ArePairsAmong (IsReached self.old.graph) tied.items }
        ensures ok { OnOk result ((turns : List Turn) →
            StandsFor self.old turns → StandsFor self.new (with_tie turns tied.items)) }
        ensures graph { OnOk result
            (self.new ≡ record (self.old) { graph = with_pairs self.old.graph tied.items }) }
        ensures err { OnErr result (self.new ≡ self.old) }
    {
        self.pairs.extend_from_slice(&tied)?;
        Ok(())
    }

    /// Lists the deaths: each object that is neither reached nor reported before, with the number of the last step after
    /// which it was reached, in rising order of the objects. From then on they count as reported. It takes no memory.
    pub fn flush(&mut self) -> &[Death]
        ensures* stands { sem 𝓛 (EndsFlushed self.entry result.now) }
        ensures deaths { (turns : List Turn) →
            StandsFor self.old turns → AreDeaths turns (death_pairs result.now) }
    {
        self.report();
        self.deaths()
    }

    /// Finds the deaths, and counts them as reported.
    fn report(&mut self)
        ensures deaths { (turns : List Turn) →
            StandsFor self.old turns → AreDeaths turns self.new.deaths }
        ensures stands { (turns : List Turn) → StandsFor self.old turns →
            StandsFor self.new (Flushed self.new.graph (map (λ d. d.0) self.new.deaths) ∷ turns) }
    {
        pairs::sort(&mut self.pairs);
        self.objects
            .find_deaths(&self.pairs, &self.roots, self.steps);
    }

    /// The deaths that the newest flush found.
    fn deaths(&self) -> &[Death]
        ensures { death_pairs result.now ≡ self.now.deaths }
    {
        &self.objects.deaths
    }
}
