//! Putting what is gathered in pieces.
ghost use Rattle.std.specs.Prelude.{◌≡◌, ◌≤◌, OnOk, OnErr};
ghost use Rattle.et_io.specs.Faults.{count_after, is_write_fault};
ghost use Rattle.et_io.specs.Sink.{TakesUpTo, TakesPrefix};

use crate::putting::{RunFault, put_all};
use crate::sink::Sink;

/// How many bytes are gathered before they are put.
const PIECE: usize = 65_536;

/// Puts the bytes that were gathered and empties the buffer, once they are 64 KiB or more; fewer bytes stay. That so many are
/// put at once is no promise. `Write` comes exactly where the sink counted one fault. After `Write` and after `NoMemory` the sink
/// took a prefix of the bytes, a put that failed is the last one, and what is in the buffer means nothing.
#[inline]
pub fn put_piece<S: Sink>(sink: &mut S, gathered: &mut Vec<u8>) -> Result<(), RunFault>
    ensures ok { OnOk result (TakesUpTo
        (S.taken sink.old) (S.taken sink.new) gathered.old.items gathered.new.items) }
    ensures write { S.faults sink.new ≡ count_after (is_write_fault result) (S.faults sink.old) }
    ensures err { OnErr result
        (TakesPrefix (S.taken sink.old) (S.taken sink.new) gathered.old.items) }
    ensures never_falls { S.faults sink.old ≤ S.faults sink.new }
{
    if gathered.len() < PIECE {
        return Ok(());
    }
    put_all(sink, gathered.as_slice())?;
    gathered.clear();
    Ok(())
}
