//! Tables of steps and the deaths that come of them.

ghost use Rattle.std.specs.Prelude.{◌≡◌, ◌^◌, ◌<◌, [], ◌∷◌, map, length, IfOk};
ghost use Rattle.et_graph.specs.Steps.{IsLegalStep};
ghost use Rattle.et_graph.specs.Graph.{Graph};
ghost use Rattle.et_graph.specs.Edit.{Edit, step_of};
ghost use Rattle.et_graph.specs.Written.{edit_of};
ghost use Rattle.et_graph.specs.Taken.{AreLegalSteps};

use et_base::{NoMemory, ObjectId};
use et_graph::{Death, GraphStep, StampBook};
use std::alloc::Global;
use std::test::Fail;

/// A step as a table has it.
#[derive(Clone, Copy)]
struct Row {
    fresh: &'static [u32],
    lost: &'static [u32],
    roots: &'static [u32],
    cut: &'static [(u32, u32)],
    tied: &'static [(u32, u32)],
}

// Its new and its lost objects, the roots after it, and the pairs that it takes away and puts in.
macro_rules! row {
    ($fresh:expr, $lost:expr, $roots:expr, $cut:expr, $tied:expr) => {
        Row {
            fresh: &$fresh,
            lost: &$lost,
            roots: &$roots,
            cut: &$cut,
            tied: &$tied,
        }
    };
}

fn objects(alloc: Global, numbers: &[u32]) -> Result<Vec<ObjectId>, NoMemory>
    ensures { IfOk result (λ v. v.items ≡ numbers.now) }
{
    let mut objects = Vec::new(alloc);
    for number in numbers {
        objects.push(ObjectId::new(*number))?;
    }
    Ok(objects)
}

fn pairs(alloc: Global, numbers: &[(u32, u32)]) -> Result<Vec<(ObjectId, ObjectId)>, NoMemory>
    ensures { IfOk result (λ v. v.items ≡ numbers.now) }
{
    let mut pairs = Vec::new(alloc);
    for pair in numbers {
        pairs.push((ObjectId::new(pair.0), ObjectId::new(pair.1)))?;
    }
    Ok(pairs)
}

fn step(alloc: Global, row: &Row) -> Result<GraphStep, NoMemory>
    ensures { IfOk result (λ s. edit_of s ≡ record {
      fresh = row.now.fresh.now;
      lost = row.now.lost.now;
      roots = row.now.roots.now;
      cut = row.now.cut.now;
      tied = row.now.tied.now;
    }) }
{
    Ok(GraphStep {
        fresh: objects(alloc, row.fresh)?,
        lost: objects(alloc, row.lost)?,
        roots: objects(alloc, row.roots)?,
        cut: pairs(alloc, row.cut)?,
        tied: pairs(alloc, row.tied)?,
    })
}

/// Takes the steps of a table.
fn play(alloc: Global, rows: &[Row]) -> Result<StampBook, NoMemory>
    requires legal { AreLegalSteps [] (map (λ r. record {
      fresh = r.fresh.now;
      lost = r.lost.now;
      roots = r.roots.now;
      cut = r.cut.now;
      tied = r.tied.now;
    }) rows.now) }
    requires few { length rows.now < 2 ^ 41 }
{
    let mut book = StampBook::begin(alloc);
    for row in rows {
        let step = step(alloc, row)?;
        book.take_step(step)?;
    }
    Ok(book)
}

// Object 2 is lost at step 1, a root again at step 2, and lost again at step 3.
const REVIVED: [Row; 4] = [
    row!([1, 2], [], [1], [], [(1, 2)]),
    row!([], [2], [1], [(1, 2)], []),
    row!([], [], [1, 2], [], []),
    row!([], [2], [1], [], []),
];

// Object 2 is lost at step 1 and reported then, so that it may not be a root again.
const REPORTED: [Row; 2] = [
    row!([1, 2], [], [1], [], [(1, 2)]),
    row!([], [2], [1], [(1, 2)], []),
];

// A program makes two objects that refer to each other. It loses both, with their last roots, at step 7.
const CYCLE: [Row; 10] = [
    row!([1], [], [1], [], []),
    row!([], [1], [1], [], []),
    row!([2], [], [1, 2], [], []),
    row!([3], [], [1, 2, 3], [], []),
    row!([], [], [1, 2, 3, 2, 3], [], []),
    row!([], [3, 2], [1, 2, 3], [], [(2, 3)]),
    row!([], [3, 2], [1, 3, 2], [], []),
    row!([], [2, 3], [1], [], [(3, 2)]),
    row!([], [1], [], [], []),
    row!([], [], [], [], []),
];

// A program has a weak reference, 2, to an object, 3, which refers to another, 4. It loses 3 at step 8, gets it back at
// step 12, and loses it again at step 13.
const WEAKLY_HELD: [Row; 18] = [
    row!([1], [], [1], [], []),
    row!([], [1], [1], [], []),
    row!([2], [], [1, 2], [], []),
    row!([], [], [1, 2, 2], [], []),
    row!([3], [], [1, 2, 2, 3], [], []),
    row!([], [], [1, 2, 2, 3, 3], [], []),
    row!([4], [], [1, 2, 2, 3, 3, 4], [], []),
    row!([], [4, 3], [1, 2, 2, 3], [], [(3, 4)]),
    row!([], [3, 2], [1, 2], [], []),
    row!([], [], [1, 2], [], []),
    row!([], [], [1, 2], [], []),
    row!([], [], [1, 2, 2], [], []),
    row!([], [2], [1, 2, 3], [], []),
    row!([], [3], [1, 2], [], []),
    row!([], [], [1, 2], [], []),
    row!([], [2], [1], [], []),
    row!([], [1], [], [], []),
    row!([], [], [], [], []),
];

fn death(object: u32, time: u64) -> Death {
    Death {
        object: ObjectId::new(object),
        time,
    }
}

#[test]
fn the_last_stay_decides(rt: HostRuntime) -> Result<(), Fail> {
    let mut book = play(rt.alloc(), &REVIVED)?;
    assert_eq!(rt; book.flush(), [death(2, 2)].as_slice());
    Ok(())
}

#[test]
fn a_death_is_reported_once(rt: HostRuntime) -> Result<(), Fail> {
    let mut book = play(rt.alloc(), &REPORTED)?;
    assert_eq!(rt; book.steps_taken(), 2);
    assert_eq!(rt; book.flush(), [death(2, 0)].as_slice());
    assert!(rt; book.flush().is_empty());
    Ok(())
}

#[test]
fn a_cycle_dies_whole(rt: HostRuntime) -> Result<(), Fail> {
    let mut book = play(rt.alloc(), &CYCLE)?;
    assert_eq!(rt;
        book.flush(),
        [death(1, 7), death(2, 6), death(3, 6)].as_slice()
    );
    Ok(())
}

#[test]
fn what_was_held_weakly_dies_at_its_last_stay(rt: HostRuntime) -> Result<(), Fail> {
    let mut book = play(rt.alloc(), &WEAKLY_HELD)?;
    assert_eq!(rt;
        book.flush(),
        [death(1, 15), death(2, 14), death(3, 12), death(4, 12)].as_slice()
    );
    Ok(())
}

// Object 2 is tied to object 1 while both are roots. So it stays reached once it is a root no more, and dies with object 1.
#[test]
fn what_is_tied_dies_with_its_holder(rt: HostRuntime) -> Result<(), Fail> {
    let alloc = rt.alloc();
    let mut book = StampBook::begin(alloc);
    book.take_step(step(alloc, &row!([1, 2], [], [1, 2], [], []))?)?;
    book.tie(pairs(alloc, &[(1, 2)])?)?;
    book.take_step(step(alloc, &row!([], [2], [1], [], []))?)?;
    assert!(rt; book.flush().is_empty());
    book.take_step(step(alloc, &row!([], [1], [], [], []))?)?;
    assert_eq!(rt; book.flush(), [death(1, 1), death(2, 1)].as_slice());
    Ok(())
}

/// Once object 2 is reported, a step that makes it a root again is not legal.
fn reported_is_no_root()
    ensures { let g : Graph = record { made = 2; roots = 1 ∷ []; pairs = []; gone = 2 ∷ [] }
        in let revives : Edit = record {
          fresh = [];
          lost = [];
          roots = 1 ∷ 2 ∷ [];
          cut = [];
          tied = [];
        } in ¬ IsLegalStep g (step_of g revives) }
{}
