//! What setting the constants of quiet classes keeps. Each law is a function with an empty body: what it promises is its
//! contract.

ghost use Rattle.std.specs.Prelude.{◌≡◌, ℕ, ◌<◌, ◌++◌, List, [], length};
ghost use Rattle.et_state.specs.State.{Kept};
ghost use Rattle.et_state.specs.Sound.{IsSound};
ghost use Rattle.et_program.specs.Entries.{Linked};
ghost use Rattle.et_state.specs.declared.records.Record.{Record};
ghost use Rattle.et_event.specs.Moments.{Moment, Doing, later};
ghost use Rattle.et_event.specs.Sound.{IsSoundFor};
ghost use Rattle.et_event.specs.Initialization.{quietly_done};
ghost use Rattle.et_event.specs.InitializationOrder.{IsInOrder};
ghost use Rattle.et_initialize.specs.Under.{IsInitializing, HasMadeStrings};

/// A sound state is ready as an event begins, which has made nothing yet.
#[tactic(auto, using(crate::proofs::Legal::made_none, crate::proofs::Legal::ready_first))]
pub fn begin()
    ensures ready { (p : Linked) (s : Kept) → IsSoundFor p s → IsInitializing p (later s) }
    ensures made { (s : Kept) → IsSound s → HasMadeStrings s (later s) [] }
{}

/// Quiet classes become done: the state stays ready for others, and the event under way. The threads and the monitors of
/// classes stay as they are, and no more than the classes, the static fields and the strings changes of the guest.
#[tactic(auto, using(crate::proofs::Legal::quietly_threads, crate::proofs::Legal::quietly_monitors))]
pub fn quietly()
    ensures ready { (e : Moment) (c : ℕ) (d : Doing) →
        IsInOrder e.program → c < length e.program.classes →
        IsInitializing e.program d.state → IsInitializing e.program (quietly_done e c d).state }
    ensures made { (e : Moment) (c : ℕ) (d : Doing) (s : Kept) (lost : List ℕ) →
        IsInOrder e.program → c < length e.program.classes → IsInitializing e.program d.state →
        HasMadeStrings s d.state lost → HasMadeStrings s (quietly_done e c d).state lost }
    ensures threads { (e : Moment) (c : ℕ) (d : Doing) →
        (quietly_done e c d).state.guest.threads ≡ d.state.guest.threads }
    ensures monitors { (e : Moment) (c : ℕ) (d : Doing) →
        (quietly_done e c d).state.guest.class_monitors ≡ d.state.guest.class_monitors }
{}

/// The records stand behind those that were there.
#[tactic(auto, using(crate::proofs::Records::behind_quietly))]
pub fn records()
    ensures { (r : List Record) (e : Moment) (c : ℕ) (d : Doing) →
        quietly_done e c (record { state = d.state; records = r ++ d.records }) ≡ record {
          state = (quietly_done e c d).state;
          records = r ++ (quietly_done e c d).records;
        } }
{}
