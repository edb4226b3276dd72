//! A sink that keeps nothing.
ghost use Rattle.std.specs.Prelude.{None};

use et_io::{Put, Sink};

/// Takes each piece whole, tells nothing, and never fails.
#[derive(Drop)]
pub struct Discard;

impl Sink for Discard {
    ghost taken = { λ d. None };

    ghost faults = { λ d. 0 };

    fn put(&mut self, piece: &[u8]) -> Put {
        Put::Took(piece.len())
    }
}
