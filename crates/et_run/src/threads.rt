//! The threads that have not ended.
ghost use Rattle.std.specs.Prelude.{◌≡◌, ◌<◌, length, slice_index};
ghost use Rattle.et_state.specs.Threads.{unended_of};

use et_base::ThreadId;
use et_state::Machine;

/// The k-th thread that has not ended, from 0, in order of start.
pub fn nth_unended(machine: &Machine, k: usize) -> ThreadId
    requires { k < length (unended_of machine.now.guest.threads) }
    ensures { result ≡ slice_index (unended_of machine.now.guest.threads) k }
{
    let _started = machine.started();
    match machine.unended(k as u32) {
        Some(thread) => thread,
        None => unreachable!(),
    }
}
