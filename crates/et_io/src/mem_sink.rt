//! A sink in memory.
ghost use Rattle.std.specs.Prelude.{◌≡◌, ◌<◌, ◌≤◌, ◌^◌, [], Some, OnOk, OnErr};
ghost use Rattle.et_io.specs.Calls.{next_fails, with_failing, after_call};
ghost use Rattle.et_io.specs.MemSink.{TakesMost, PutsAsTold};
ghost use Rattle.et_io.specs.Sink.{taken_bytes};

use crate::calls::CallBook;
use crate::logs::{Made, Puts};
use crate::sink::{Put, Sink};
use et_base::NoMemory;
use std::alloc::Global;
use std::marker::Model;

/// A sink that keeps what it takes, takes at most so many bytes in a call, and fails at the calls that it was told to
/// fail at. It tells all.
#[derive(Drop)]
pub struct MemSink {
    taken: Vec<u8>,
    most: u64,
    calls: CallBook,
    puts: Puts,
}

impl Model for MemSink {
    ghost use Rattle.std.specs.Prelude.{◌≡◌, ◌≤◌};
    ghost use Rattle.et_io.specs.MemSink.{SinkInMemory};
    ghost use Rattle.et_io.specs.Sink.{taken_bytes};

    ghost Value = { SinkInMemory };

    ghost view = { λ s. record { taken = s.puts.items; most = s.most; calls = s.calls } };

    ghost invariant = { λ s. (1 ≤ s.most) × (s.taken.items ≡ taken_bytes s.puts.items) };
}

impl MemSink {
    /// A sink that took nothing and has no call made, none to fail and no faults. It takes at most this many bytes in
    /// a call.
    pub fn begin(alloc: Global, most: u64) -> MemSink
        requires { 1 ≤ most }
        ensures { result ≡ record {
          taken = [];
          most = most;
          calls = record { made = 0; failing = []; faults = 0 };
        } }
    {
        MemSink {
            taken: Vec::new(alloc),
            most,
            calls: CallBook::begin(alloc),
            puts: Puts::begin(),
        }
    }

    /// Lets the put of this number fail; the first is 1. After `NoMemory` all is as before.
    pub fn fail_at(&mut self, call: u64) -> Result<(), NoMemory>
        requires { call < 2 ^ 63 }
        ensures ok { OnOk result
            (self.new ≡ record self.old { calls = with_failing self.old.calls call }) }
        ensures err { OnErr result (self.new ≡ self.old) }
    {
        self.calls.fail_at(call)
    }

    /// Counts a call that puts nothing, and says whether it is to fail.
    pub(crate) fn next_call(&mut self) -> bool
        ensures value { result ≡ next_fails self.old.calls }
        ensures counted { self.new ≡ record self.old { calls = after_call self.old.calls } }
    {
        self.calls.next_call()
    }

    /// The bytes taken so far.
    pub fn bytes(&self) -> &[u8]
        ensures { result.now ≡ taken_bytes self.now.taken }
    {
        self.taken.as_slice()
    }
}

impl Sink for MemSink {
    ghost taken = { λ s. Some s.taken };

    ghost faults = { λ s. s.calls.faults };

    /// Takes as many bytes of the piece as a call may. Fails exactly at the calls that are to fail.
    fn put(&mut self, piece: &[u8]) -> Put
        ensures told { PutsAsTold result piece.now
            self.old.taken self.new.taken self.old.calls self.new.calls }
        ensures takes_most { TakesMost result piece.now self.old.most }
        ensures most { self.new.most ≡ self.old.most }
    {
        let answer = if self.calls.next_call() {
            Put::Failed
        } else {
            let count = (piece.len() as u64).min(self.most) as usize;
            match self.taken.extend_from_slice(&piece[..count]) {
                Ok(()) => Put::Took(count),
                Err(_) => Put::NoMemory,
            }
        };
        self.puts = self.puts.then(&Made { piece, answer });
        answer
    }
}
