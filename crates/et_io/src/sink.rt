//! What bytes are put to.
ghost use Rattle.std.specs.Prelude.{◌≡◌, ℕ, ◌≤◌};
ghost use Rattle.et_io.specs.Faults.{count_after};
ghost use Rattle.et_io.specs.Sink.{Log, Takes, is_put_failed};

/// What a sink answered to one put.
#[derive(Clone, Copy, Debug, PartialEq, Eq)]
pub enum Put {
    /// It took this many bytes from the front of the piece: at least one, unless the piece was empty.
    Took(usize),
    /// The put failed, nothing was taken, and the count of faults is one higher.
    Failed,
    /// Memory ran out, and nothing was taken.
    NoMemory,
}

/// What bytes are put to. A sink may tell which bytes it took, and of which puts it took nothing; each tells how often it
/// failed.
pub trait Sink {
    /// The log of the puts so far, where the sink tells it.
    ghost taken: { Self → Log };

    /// How many puts failed.
    ghost faults: { Self → ℕ };

    /// Takes bytes from the front of the piece. A put that fails counts one fault, up to 2^64 - 1, and any other answer
    /// leaves the count as it was; a sink that takes nothing of a piece that isn't empty has failed. After `Failed` and
    /// after `NoMemory` nothing was taken.
    fn put(&mut self, piece: &[u8]) -> Put
        ensures takes { Takes result (taken self.old) (taken self.new) piece.now }
        ensures failed { faults self.new ≡ count_after (is_put_failed result) (faults self.old) }
        ensures never_falls { faults self.old ≤ faults self.new };
}
