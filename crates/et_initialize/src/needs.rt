//! What an event does that needs a class.
ghost use Rattle.std.specs.Prelude.{◌≡◌, ℕ, ◌<◌, length};
ghost use Rattle.et_event.specs.Moments.{moment, begins};
ghost use Rattle.et_event.specs.Initialization.{is_quiet as quiet, is_quiet_state as quiet_state};
ghost use Rattle.et_initialize.specs.Needs.{need_of as needed};

use et_base::{ClassId, ThreadId};
use et_program::Program;
use et_state::{ClassState, Machine};

/// What an event does that needs a class (JVMS 5.5).
#[derive(Clone, Copy, Debug, PartialEq, Eq)]
pub enum Need {
    /// The class is done, or this thread began it: the event goes on.
    Ready,
    /// Another thread began it: this one waits.
    Waits,
    /// It failed: NoClassDefFoundError is thrown.
    Failed,
    /// Nothing is to be run for it: it becomes done, with what is initialized with it, and the event goes on.
    Quiet,
    /// An initializer is to be run: the event only begins the class.
    Begins,
}

/// Whether nothing is to be run for a class itself: it is done, or untouched and without `<clinit>`.
fn is_quiet_state(program: &Program, class: ClassId, state: ClassState) -> bool
    requires { class < length program.now.classes }
    ensures { result ≡ quiet_state program.now class state }
{
    match state {
        ClassState::Untouched => program.class(class).clinit.is_none(),
        ClassState::Done => true,
        ClassState::Begun(_) | ClassState::Failed => false,
    }
}

/// Whether nothing is to be run for a class, and for what is initialized with it.
fn is_quiet(program: &Program, machine: &Machine, class: ClassId) -> bool
    requires class { class < length program.now.classes }
    requires classes { length machine.now.guest.classes ≡ length program.now.classes }
    ensures { (thread : ℕ) → result ≡ quiet (moment program.now machine.now thread)
        (begins (moment program.now machine.now thread)) class }
{
    let order = program.init_order(class);
    for k in 0..order.len() {
        if !is_quiet_state(program, order[k], machine.class_state(order[k])) {
            return false;
        }
    }
    true
}

/// What an event does in which a thread needs a class. Nothing is changed.
pub fn need_of(program: &Program, machine: &Machine, thread: ThreadId, class: ClassId) -> Need
    requires class { class < length program.now.classes }
    requires classes { length machine.now.guest.classes ≡ length program.now.classes }
    ensures { result ≡ needed (moment program.now machine.now thread)
        (begins (moment program.now machine.now thread)) class }
{
    match machine.class_state(class) {
        ClassState::Done => Need::Ready,
        ClassState::Begun(owner) => {
            if owner.number() == thread.number() {
                Need::Ready
            } else {
                Need::Waits
            }
        }
        ClassState::Failed => Need::Failed,
        ClassState::Untouched => {
            if is_quiet(program, machine, class) {
                Need::Quiet
            } else {
                Need::Begins
            }
        }
    }
}
