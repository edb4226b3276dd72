//! Monitors, read, entered and left.
ghost use Rattle.std.specs.Prelude.{◌≡◌, ◌+◌, ◌<◌, ◌≤◌, ◌^◌};
ghost use Rattle.et_event.specs.Monitors.{left_once as once_left};
ghost use Rattle.et_event.specs.Locks.{lock_of, locks_of, HasMonitor, HasSome, IsFewTimes, IsSomeFewTimes, monitor_at, with_monitor_at, owns_at, owns_some_at, may_enter_at, may_enter_some_at, entering_lock, entering_some, leaving_lock, leaving_some};

use crate::locks::Lock;
use et_base::{Steps, ThreadId};
use et_heap::Monitor;
use et_state::Machine;
use std::sync::ledger::Ledger;

/// The monitor of a lock. It visits one object at most, as each call here that reads.
fn monitor<L: Ledger>(machine: &Machine, lock: &Lock, visits: &mut Steps<L>) -> Monitor
    requires { HasMonitor machine.now (lock_of lock.now) }
    ensures value { result ≡ monitor_at machine.now (lock_of lock.now) }
    ensures visits { visits.new ≤ visits.old + 1 }
{
    match lock {
        Lock::OfObject(o) => machine.heap.monitor(*o, visits),
        Lock::OfClass(class) => machine.class_monitor(*class),
    }
}

/// Writes the monitor of a lock. It visits one object at most.
fn set_monitor<L: Ledger>(
    machine: &mut Machine,
    lock: &Lock,
    monitor: &Monitor,
    visits: &mut Steps<L>,
)
    requires { HasMonitor machine.old (lock_of lock.now) }
    ensures new { machine.new ≡ with_monitor_at (lock_of lock.now) monitor.now machine.old }
    ensures visits { visits.new ≤ visits.old + 1 }
{
    match lock {
        Lock::OfObject(o) => {
            machine.heap.set_monitor(*o, *monitor, visits);
        }
        Lock::OfClass(class) => machine.set_class_monitor(*class, *monitor),
    }
}

/// Whether a thread owns the monitor of a lock.
pub fn owns<L: Ledger>(
    machine: &Machine,
    thread: ThreadId,
    lock: &Lock,
    visits: &mut Steps<L>,
) -> bool
    requires { HasMonitor machine.now (lock_of lock.now) }
    ensures value { result ≡ owns_at thread (lock_of lock.now) machine.now }
    ensures visits { visits.new ≤ visits.old + 1 }
{
    match monitor(machine, lock, visits).owner {
        Some(owner) => owner == thread,
        None => false,
    }
}

/// Whether a thread may enter the monitor of a lock: nobody owns it, or the thread does.
pub fn may_enter<L: Ledger>(
    machine: &Machine,
    thread: ThreadId,
    lock: &Lock,
    visits: &mut Steps<L>,
) -> bool
    requires { HasMonitor machine.now (lock_of lock.now) }
    ensures value { result ≡ may_enter_at thread (lock_of lock.now) machine.now }
    ensures visits { visits.new ≤ visits.old + 1 }
{
    match monitor(machine, lock, visits).owner {
        Some(owner) => owner == thread,
        None => true,
    }
}

/// Lets a thread enter the monitor of a lock once more. It visits two objects at most.
pub fn enter_monitor<L: Ledger>(
    machine: &mut Machine,
    thread: ThreadId,
    lock: &Lock,
    visits: &mut Steps<L>,
)
    requires there { HasMonitor machine.old (lock_of lock.now) }
    requires count { IsFewTimes machine.old (lock_of lock.now) }
    ensures new { machine.new ≡ entering_lock thread (lock_of lock.now) machine.old }
    ensures visits { visits.new ≤ visits.old + 2 }
{
    let count = monitor(machine, lock, visits).count;
    let entered = Monitor {
        owner: Some(thread),
        count: count + 1,
    };
    set_monitor(machine, lock, &entered, visits);
}

/// A monitor that was left once more: after the last time nobody owns it.
fn left_once(monitor: &Monitor) -> Monitor
    ensures { result ≡ once_left monitor.now }
{
    if monitor.count <= 1 {
        Monitor {
            owner: None,
            count: 0,
        }
    } else {
        Monitor {
            owner: monitor.owner,
            count: monitor.count - 1,
        }
    }
}

/// Leaves the monitor of a lock once: after the last time nobody owns it. It visits two objects at most.
pub fn leave_monitor<L: Ledger>(machine: &mut Machine, lock: &Lock, visits: &mut Steps<L>)
    requires { HasMonitor machine.old (lock_of lock.now) }
    ensures new { machine.new ≡ leaving_lock (lock_of lock.now) machine.old }
    ensures visits { visits.new ≤ visits.old + 2 }
{
    let entered = monitor(machine, lock, visits);
    let left = left_once(&entered);
    set_monitor(machine, lock, &left, visits);
}

/// Whether a thread may enter the monitor of a lock, if there is one.
pub fn may_enter_some<L: Ledger>(
    machine: &Machine,
    thread: ThreadId,
    lock: &Option<Lock>,
    visits: &mut Steps<L>,
) -> bool
    requires { HasSome machine.now (locks_of lock.now) }
    ensures value { result ≡ may_enter_some_at thread (locks_of lock.now) machine.now }
    ensures visits { visits.new ≤ visits.old + 1 }
{
    match lock {
        Some(lock) => may_enter(machine, thread, lock, visits),
        None => true,
    }
}

/// Lets a thread enter the monitor of a lock once more, if there is one.
pub fn enter_some<L: Ledger>(
    machine: &mut Machine,
    thread: ThreadId,
    lock: &Option<Lock>,
    visits: &mut Steps<L>,
)
    requires there { HasSome machine.old (locks_of lock.now) }
    requires count { IsSomeFewTimes machine.old (locks_of lock.now) }
    ensures new { machine.new ≡ entering_some thread (locks_of lock.now) machine.old }
    ensures visits { visits.new ≤ visits.old + 2 }
{
    match lock {
        Some(lock) => enter_monitor(machine, thread, lock, visits),
        None => (),
    }
}

/// Whether a thread owns the monitor of a lock, if there is one.
pub fn owns_some<L: Ledger>(
    machine: &Machine,
    thread: ThreadId,
    lock: &Option<Lock>,
    visits: &mut Steps<L>,
) -> bool
    requires { HasSome machine.now (locks_of lock.now) }
    ensures value { result ≡ owns_some_at thread (locks_of lock.now) machine.now }
    ensures visits { visits.new ≤ visits.old + 1 }
{
    match lock {
        Some(lock) => owns(machine, thread, lock, visits),
        None => true,
    }
}

/// Leaves the monitor of a lock once, if there is one.
pub fn leave_some<L: Ledger>(machine: &mut Machine, lock: &Option<Lock>, visits: &mut Steps<L>)
    requires { HasSome machine.old (locks_of lock.now) }
    ensures new { machine.new ≡ leaving_some (locks_of lock.now) machine.old }
    ensures visits { visits.new ≤ visits.old + 2 }
{
    match lock {
        Some(lock) => leave_monitor(machine, lock, visits),
        None => (),
    }
}
