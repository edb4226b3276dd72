//! Laws about graphs and their histories. Each is a function with an empty body: what it promises is its contract.

ghost use Rattle.std.specs.Prelude.{◌≡◌, ◌↔◌, ℕ, Bool, List, [], map, Contains};
ghost use Rattle.et_graph.specs.Graph.{Graph, IsMade, IsReached, Decides, AreDead, IsSoundGraph};
ghost use Rattle.et_graph.specs.Listed.{AreListed};
ghost use Rattle.et_graph.specs.Steps.{Step, IsDraft, IsLegalStep, IsTie};
ghost use Rattle.et_graph.specs.Drafts.{IsMove, IsMaking};
ghost use Rattle.et_graph.specs.History.{Turn, graph_after, IsHistory, StampsTell, stamp, IsGreatestMark, WasReported, AreDeaths, AreStamped};

/// There is a test that says of each object of each graph whether it is reached.
pub fn reaching_is_decided()
    ensures { (reached : Graph → ℕ → Bool) × Decides reached }
{}

/// The stamp law. After every list of legal steps, ties and flushes, the last step after which an object was reached is, for
/// each object that isn't reached now, the greatest stamp of the objects that lead to it now.
pub fn stamps_tell()
    ensures { (turns : List Turn) → IsHistory turns → StampsTell turns }
{}

/// The stamp of an object is the greatest of the step that made it and of those that came right before one that lost it.
pub fn stamps_mark()
    ensures { (turns : List Turn) → IsHistory turns →
        (o : ℕ) → IsMade (graph_after turns) o → IsGreatestMark turns o (stamp turns o) }
{}

/// The dead objects with their greatest stamps are the deaths.
pub fn stamps_show_deaths()
    ensures { (turns : List Turn) (deaths : List (ℕ × ℕ)) →
        IsHistory turns → AreStamped turns deaths → AreDeaths turns deaths }
{}

/// The objects of the deaths are the dead ones, which a flush reports.
pub fn deaths_are_dead()
    ensures { (turns : List Turn) (deaths : List (ℕ × ℕ)) →
        IsHistory turns → AreDeaths turns deaths →
        AreDead (graph_after turns) (map (λ d. d.0) deaths) }
{}

/// There is at most one list of deaths.
pub fn deaths_are_one()
    ensures { (turns : List Turn) (a b : List (ℕ × ℕ)) →
        AreDeaths turns a → AreDeaths turns b → a ≡ b }
{}

/// The objects that are gone are those that the flushes reported.
pub fn gone_were_reported()
    ensures { (turns : List Turn) → IsHistory turns →
        (o : ℕ) → Contains (graph_after turns).gone o ↔ WasReported turns o }
{}

/// What holds of the graph after every history.
pub fn histories_are_sound()
    ensures { (turns : List Turn) → IsHistory turns → IsSoundGraph (graph_after turns) }
{}

/// What a tie joins is reached before, so that it leaves the reached objects as they are.
pub fn ties_keep_reached()
    ensures { (g h : Graph) → IsTie g h → (o : ℕ) → IsReached h o ↔ IsReached g o }
{}

/// A tie that follows a tie makes one tie with it.
pub fn ties_join()
    ensures { (g h k : Graph) → IsTie g h → IsTie h k → IsTie g k }
{}

/// A step begins as a draft in which nothing is new and nothing is lost.
pub fn drafts_begin()
    ensures { (g : Graph) →
        IsSoundGraph g → IsDraft g (record { after = g; fresh = []; lost = [] }) }
{}

/// A call that makes no object leads from a draft to a draft.
pub fn drafts_move()
    ensures { (g : Graph) (s t : Step) → IsSoundGraph g → IsDraft g s → IsMove g s t → IsDraft g t }
{}

/// A call that makes an object leads from a draft to a draft.
pub fn drafts_make()
    ensures { (g : Graph) (s t : Step) → IsDraft g s → IsMaking s t → IsDraft g t }
{}

/// A draft whose new objects are all reached is a legal step.
pub fn drafts_end()
    ensures { (g : Graph) (s : Step) → IsDraft g s →
        ((o : ℕ) → Contains s.fresh o → IsReached s.after o) → IsLegalStep g s }
{}

/// There is at most one list of what a flush reports by these stamps.
pub fn lists_are_one()
    ensures { (g : Graph) (stamps : ℕ → ℕ) (a b : List (ℕ × ℕ)) →
        AreListed g stamps a → AreListed g stamps b → a ≡ b }
{}

/// Over the graph of a history, with the stamps of that history, the list is the one that shows its deaths.
pub fn lists_show_deaths()
    ensures { (turns : List Turn) (deaths : List (ℕ × ℕ)) →
        AreListed (graph_after turns) (stamp turns) deaths → AreStamped turns deaths }
{}
