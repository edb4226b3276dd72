//! A sink in memory that gathers.
ghost use Rattle.std.specs.Prelude.{◌≡◌, ◌<◌, ◌≤◌, ◌^◌, [], ◌∷◌, length, Some, OnOk, OnErr, true, not};
ghost use Rattle.et_io.specs.Calls.{next_fails, with_failing, after_call};
ghost use Rattle.et_io.specs.Faults.{count_after};
ghost use Rattle.et_io.specs.GatheringMemSink.{handed_bytes};
ghost use Rattle.et_io.specs.MemSink.{TakesMost, PutsAsTold};
ghost use Rattle.et_io.specs.Sink.{taken_bytes};

use crate::gathering::GatheringSink;
use crate::mem_sink::MemSink;
use crate::sink::{Put, Sink};
use et_base::NoMemory;
use std::alloc::Global;
use std::marker::Model;

/// A sink that keeps what it takes, knows how much of it was handed on, and fails at the calls that it was told to fail
/// at: puts and handings on, numbered together. A put takes its whole piece, and a handing on that fails hands on
/// nothing. It tells all.
#[derive(Drop)]
pub struct GatheringMemSink {
    sink: MemSink,
    count_handed: usize,
}

impl Model for GatheringMemSink {
    ghost use Rattle.std.specs.Prelude.{◌+◌, ◌^◌, ◌≤◌, length};
    ghost use Rattle.et_io.specs.Sink.{taken_bytes};
    ghost use Rattle.et_io.specs.GatheringMemSink.{GatheringSinkInMemory};

    ghost Value = { GatheringSinkInMemory };

    ghost view = { λ s. record {
      taken = s.sink.taken;
      count_handed = s.count_handed;
      calls = s.sink.calls;
    } };

    ghost invariant = { λ s. (2 ^ 64 ≤ s.sink.most + 1)
        × (s.count_handed ≤ length (taken_bytes s.sink.taken)) };
}

impl GatheringMemSink {
    /// A sink that took nothing and handed on nothing, and has no call made, none to fail and no faults.
    pub fn begin(alloc: Global) -> GatheringMemSink
        ensures { result ≡ record {
          taken = [];
          count_handed = 0;
          calls = record { made = 0; failing = []; faults = 0 };
        } }
    {
        GatheringMemSink {
            sink: MemSink::begin(alloc, u64::MAX),
            count_handed: 0,
        }
    }

    /// Lets the call of this number fail; the first is 1. After `NoMemory` all is as before.
    pub fn fail_at(&mut self, call: u64) -> Result<(), NoMemory>
        requires { call < 2 ^ 63 }
        ensures ok { OnOk result
            (self.new ≡ record self.old { calls = with_failing self.old.calls call }) }
        ensures err { OnErr result (self.new ≡ self.old) }
    {
        self.sink.fail_at(call)
    }

    /// The bytes handed on so far.
    pub fn handed(&self) -> &[u8]
        ensures { result.now ≡ handed_bytes self.now }
    {
        &self.sink.bytes()[..self.count_handed]
    }
}

impl Sink for GatheringMemSink {
    ghost taken = { λ s. Some s.taken };

    ghost faults = { λ s. s.calls.faults };

    /// Takes the whole piece, and hands on nothing. Fails exactly at the calls that are to fail.
    fn put(&mut self, piece: &[u8]) -> Put
        ensures told { PutsAsTold result piece.now
            self.old.taken self.new.taken self.old.calls self.new.calls }
        ensures takes_all { TakesMost result piece.now (length piece.now) }
        ensures gathers { handed_bytes self.new ≡ handed_bytes self.old }
    {
        self.sink.put(piece)
    }
}

impl GatheringSink for GatheringMemSink {
    ghost handed = { λ s. Some (handed_bytes s) };

    /// Fails exactly at the calls that are to fail, and hands on nothing then.
    fn hand_on(&mut self) -> bool
        ensures taken { Some self.new.taken ≡ Some self.old.taken }
        ensures handed { result ≡ true →
            Some (handed_bytes self.new) ≡ Some (taken_bytes self.new.taken) }
        ensures faults { self.new.calls.faults ≡ count_after (not result) self.old.calls.faults }
        ensures fails { not result ≡ next_fails self.old.calls }
        ensures calls { self.new.calls ≡ after_call self.old.calls }
        ensures nothing { not result ≡ true → handed_bytes self.new ≡ handed_bytes self.old }
    {
        if self.sink.next_call() {
            return false;
        }
        self.count_handed = self.sink.bytes().len();
        true
    }
}
