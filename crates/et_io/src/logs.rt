//! The logs of reads and of puts, which only proofs read.
use crate::files::Found;
use crate::sink::Put;
use et_base::NoMemory;
use et_ghost_list::{Change, GhostList};
use std::marker::Model;

/// The reads so far, in order.
pub(crate) type Reads = GhostList<Read<'static>>;

/// A read of the file at this path that asked for at most so many bytes, and its answer.
#[derive(Drop)]
pub(crate) struct Read<'a> {
    pub path: &'a str,
    pub most: u64,
    pub answer: &'a Result<Found, NoMemory>,
}

impl<'a> Model for Read<'a> {
    ghost use Rattle.et_io.specs.Codes.{coded_reading};
    ghost use Rattle.et_io.specs.Files.{Reading, answer_of};

    ghost Value = { Reading };

    ghost coded = { coded_reading };

    ghost view = { λ r. record {
      path = r.path.now;
      most = r.most;
      answer = answer_of r.answer.now;
    } };
}

/// One read more.
impl<'a> Change<Read<'static>> for Read<'a> {
    ghost use Rattle.std.specs.Prelude.{[], ◌∷◌, ◌++◌};

    ghost after = { λ read log. log ++ read ∷ [] };
}

/// The marks of the puts so far, in order.
pub(crate) type Puts = GhostList<LogMark>;

/// A mark of a put, which contracts name and nothing makes.
#[derive(Drop)]
pub(crate) struct LogMark {}

impl Model for LogMark {
    ghost use Rattle.std.specs.Prelude.{[]};
    ghost use Rattle.et_io.specs.Codes.{coded_mark};
    ghost use Rattle.et_io.specs.Sink.{Mark, Untaken};

    ghost Value = { Mark };

    ghost coded = { coded_mark };

    ghost view = { λ _. Untaken [] };
}

/// A put of this piece, and its answer.
#[derive(Drop)]
pub(crate) struct Made<'a> {
    pub piece: &'a [u8],
    pub answer: Put,
}

/// One put more.
impl<'a> Change<LogMark> for Made<'a> {
    ghost use Rattle.et_io.specs.Sink.{after_put};

    ghost after = { λ put marks. after_put put.answer put.piece.now marks };
}
