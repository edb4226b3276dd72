//! What the calls on monitors come to in the middle of an event. Each law is a function with an empty body: what it
//! promises is its contract.

ghost use Rattle.std.specs.Prelude.{◌≡◌, ℕ, List, Option};
ghost use Rattle.et_heap.specs.declared.monitor.Monitor.{Monitor};
ghost use Rattle.et_state.specs.State.{Kept, MachineState, kept_of};
ghost use Rattle.et_state.specs.Moves.{IsOnWay};
ghost use Rattle.et_state.specs.declared.records.Record.{Record};
ghost use Rattle.et_event.specs.Moments.{Moment};
ghost use Rattle.et_event.specs.Monitors.{Lock as TableLock, entered_some, left_some};
ghost use Rattle.et_event.specs.Locks.{HasMonitor, with_monitor_at, entering_some, leaving_some};

/// A monitor that is written keeps an event on its way.
pub fn on_way()
    ensures { (s : Kept) (m : MachineState) (lock : TableLock) (x : Monitor) →
        IsOnWay s m → HasMonitor m lock → IsOnWay s (with_monitor_at lock x m) }
{}

/// `enter_monitor` and `enter_some` come to what the table of events says.
pub fn entered()
    ensures { (e : Moment) (lock : Option TableLock) (m : MachineState) (records : List Record) →
        entered_some e lock (record { state = kept_of m; records = records })
        ≡ record { state = kept_of (entering_some e.thread lock m); records = records } }
{}

/// So do `leave_monitor` and `leave_some`.
pub fn left()
    ensures { (lock : Option TableLock) (m : MachineState) (records : List Record) →
        left_some lock (record { state = kept_of m; records = records })
        ≡ record { state = kept_of (leaving_some lock m); records = records } }
{}
