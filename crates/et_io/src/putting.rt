//! Putting a whole piece.
ghost use Rattle.std.specs.Prelude.{◌≡◌, ◌≤◌, [], OnOk, OnErr};
ghost use Rattle.et_io.specs.Faults.{count_after, is_write_fault};
ghost use Rattle.et_io.specs.Sink.{with_more, TakesPrefix};

use crate::sink::{Put, Sink};

/// Why a piece wasn't put whole.
#[derive(Clone, Copy, Debug, PartialEq, Eq)]
pub enum RunFault {
    /// A put failed.
    Write,
    /// Memory ran out.
    NoMemory,
}

/// Puts the whole piece, in as many calls as the sink wants, and none where the piece is empty: no empty piece is put. It
/// ends with the first put that fails, behind which none is made. `Write` says that the sink counted one fault, and by any
/// other answer it counted none. After `Write` and after `NoMemory` the sink took a prefix of the piece.
#[inline(always)]
pub fn put_all<S: Sink>(sink: &mut S, piece: &[u8]) -> Result<(), RunFault>
    ensures ok { OnOk result (S.taken sink.new ≡ with_more (S.taken sink.old) piece.now) }
    ensures write { S.faults sink.new ≡ count_after (is_write_fault result) (S.faults sink.old) }
    ensures err { OnErr result (TakesPrefix (S.taken sink.old) (S.taken sink.new) piece.now) }
    ensures never_falls { S.faults sink.old ≤ S.faults sink.new }
    ensures no_call { piece.now ≡ [] → sink.new ≡ sink.old }
{
    let mut rest = piece;
    while !rest.is_empty() {
        match sink.put(rest) {
            Put::Took(n) => rest = &rest[n..],
            Put::Failed => return Err(RunFault::Write),
            Put::NoMemory => return Err(RunFault::NoMemory),
        }
    }
    Ok(())
}
