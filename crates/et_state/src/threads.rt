//! Threads in order of start; below, one thread.

pub(crate) mod thread;

ghost use Rattle.std.specs.Prelude.{◌≡◌, ◌≤◌, ◌++◌, ◌==◌, length, not, OnOk};
ghost use Rattle.std.specs.List.{filter, flat_map};
ghost use Rattle.et_state.specs.Threads.{is_thread_object, thread_with, most_threads};
ghost use Rattle.et_state.specs.ThreadRoots.{thread_roots};

use crate::threads::thread::Thread;
use et_base::{NoMemory, ObjectId, ThreadId};
use et_heap::RootList;

/// Takes a thread away from a list of threads.
pub(crate) fn take_away(threads: &mut Vec<ThreadId>, thread: ThreadId)
    ensures { threads.new.items ≡ filter (λ t. not (t == thread)) threads.old.items }
{
    threads.retain(|other| *other != thread);
}

/// Whether this is the Thread object of the thread.
fn has_object(thread: &Thread, o: ObjectId) -> bool
    ensures { result ≡ is_thread_object o thread.now }
{
    thread.object() == Some(o)
}

/// The first thread with this Thread object.
pub(crate) fn thread_of(threads: &[Thread], o: ObjectId) -> Option<ThreadId>
    requires { length threads.now ≤ most_threads }
    ensures { result ≡ thread_with threads.now o }
{
    for (t, thread) in threads.iter().enumerate() {
        if has_object(thread, o) {
            return Some(ThreadId::new(t as u8));
        }
    }
    None
}

/// Puts the objects in the root places of the threads at the end of the list.
pub(crate) fn list_roots(threads: &[Thread], room: &mut RootList) -> Result<(), NoMemory>
    ensures { OnOk result (room.new ≡ room.old ++ flat_map thread_roots threads.now) }
{
    for thread in threads {
        thread.list_roots(room)?;
    }
    Ok(())
}
