//! Sinks that gather what they take.
ghost use Rattle.std.specs.Prelude.{◌≡◌, ℕ, List, Option, option_map, true, not};
ghost use Rattle.et_io.specs.Faults.{count_after};
ghost use Rattle.et_io.specs.Sink.{taken_bytes};

use crate::sink::Sink;

/// A sink that gathers what it takes, and hands it on when it is asked to, or before. It may tell what it handed on.
pub trait GatheringSink: Sink {
    /// The bytes handed on so far, where the sink tells them.
    ghost handed: { Self → Option (List ℕ) };

    /// Hands on all that was taken, and says whether that was done. Where it wasn't, one fault is counted, up to
    /// 2^64 - 1, and any part of what was gathered may have been handed on. Nothing is taken by it.
    fn hand_on(&mut self) -> bool
        ensures taken { Self.taken self.new ≡ Self.taken self.old }
        ensures handed { result ≡ true →
            handed self.new ≡ option_map taken_bytes (Self.taken self.new) }
        ensures faults { Self.faults self.new ≡ count_after (not result) (Self.faults self.old) };
}
