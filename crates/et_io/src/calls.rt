//! Calls that fail as they are told.
ghost use Rattle.std.specs.Prelude.{◌≡◌, [], ◌<◌, ◌≤◌, ◌^◌, OnOk, OnErr};
ghost use Rattle.et_io.specs.Calls.{next_fails, with_failing, after_call};

use et_base::NoMemory;
use std::alloc::Global;
use std::collections::BTreeSet;
use std::marker::Model;

/// The number above every call that can be told to fail, and the last one that is counted.
const LAST_CALL: u64 = 0x8000_0000_0000_0000;

/// Counts the calls of files or of a sink in memory, and knows which are to fail. Calls are numbered from 1. A
/// contract sees how many were made, the numbers that are to fail, in order, and how many failed.
#[derive(Drop)]
pub struct CallBook {
    made: u64,
    failing: BTreeSet<u64>,
    faults: u64,
}

impl Model for CallBook {
    ghost use Rattle.et_io.specs.Calls.{Calls, AreCounted};

    ghost Value = { Calls };

    ghost view = { λ c. record { made = c.made; failing = c.failing.keys; faults = c.faults } };

    ghost invariant = { λ c.
        AreCounted (record { made = c.made; failing = c.failing.keys; faults = c.faults }) };
}

impl CallBook {
    /// No call made, and none that is to fail.
    pub fn begin(alloc: Global) -> CallBook
        ensures { result ≡ record { made = 0; failing = []; faults = 0 } }
    {
        CallBook {
            made: 0,
            failing: BTreeSet::new(alloc),
            faults: 0,
        }
    }

    /// Lets the call of this number fail. After `NoMemory` all is as before.
    pub fn fail_at(&mut self, call: u64) -> Result<(), NoMemory>
        requires { call < 2 ^ 63 }
        ensures ok { OnOk result (self.new ≡ with_failing self.old call) }
        ensures err { OnErr result (self.new ≡ self.old) }
    {
        self.failing.insert(call)?;
        Ok(())
    }

    /// Counts one call more, and says whether it is to fail.
    pub fn next_call(&mut self) -> bool
        ensures value { result ≡ next_fails self.old }
        ensures counted { self.new ≡ after_call self.old }
        ensures never_falls { self.old.faults ≤ self.new.faults }
    {
        let number = self.made + 1;
        let fails = self.failing.contains(&number);
        self.made = number.min(LAST_CALL);
        self.faults += u64::from(fails);
        fails
    }
}
