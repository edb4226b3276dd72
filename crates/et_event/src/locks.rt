//! What has a monitor.
ghost use Rattle.std.specs.Prelude.{◌≡◌};
ghost use Rattle.et_event.specs.Monitors.{lock_for as lock_for_method, lock_in as lock_in_frame};
ghost use Rattle.et_event.specs.Locks.{locks_of};

use et_base::{ClassId, ObjectId};
use et_class::flags::{STATIC, SYNCHRONIZED, has};
use et_program::MethodInfo;
use et_state::Stage;

/// What has a monitor (JVMS 2.11.10).
#[derive(Clone, Copy, Debug, PartialEq, Eq)]
pub enum Lock {
    OfObject(ObjectId),
    OfClass(ClassId),
}

/// The lock of a method (JVMS 2.11.10): where it is synchronized, its class if it is static, else the receiver; where it is
/// not, none.
pub fn lock_for(method: &MethodInfo, receiver: Option<ObjectId>) -> Option<Lock>
    ensures { locks_of result ≡ lock_for_method method.now receiver }
{
    if !has(method.flags, SYNCHRONIZED) {
        return None;
    }
    if has(method.flags, STATIC) {
        return Some(Lock::OfClass(method.class));
    }
    match receiver {
        Some(o) => Some(Lock::OfObject(o)),
        None => None,
    }
}

/// The lock that a frame of a method holds, by its stage and the object in its lock slot. An initializer holds none.
pub fn lock_in(stage: Stage, method: &MethodInfo, slot: Option<ObjectId>) -> Option<Lock>
    ensures { locks_of result ≡ lock_in_frame stage method.now slot }
{
    match stage {
        Stage::Plain => lock_for(method, slot),
        Stage::Before(_) | Stage::Clinit(_) => None,
    }
}
