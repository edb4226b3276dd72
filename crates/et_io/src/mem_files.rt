//! Files in memory.
use crate::calls::CallBook;
use crate::files::{Files, Found};
use crate::logs::{Read, Reads};
use et_base::NoMemory;
use std::alloc::Global;
use std::collections::HashMap;

/// Files that are held in memory, and fail at the calls that they were told to fail at. They tell all.
#[derive(Drop)]
pub struct MemFiles {
    files: HashMap<String, Vec<u8>>,
    alloc: Global,
    calls: CallBook,
    reads: Reads,
}

impl MemFiles {
    ghost use Rattle.std.specs.Prelude.{◌≡◌, ◌<◌, ◌≤◌, ◌^◌, List, ℕ, [], None, IfOk, OnOk, OnErr};
    ghost use Rattle.et_io.specs.Calls.{next_fails, with_failing, after_call};
    ghost use Rattle.et_io.specs.Files.{Finds, IsWithin};
    ghost use Rattle.et_io.specs.MemFiles.{held, calls_of, asked_of, Holds, IsUnchanged, FailsAsTold};

    /// Nothing held, no call made, none to fail and no faults.
    pub fn begin(alloc: Global) -> MemFiles
        ensures nothing { (path : List ℕ) → held result path ≡ None }
        ensures calls { calls_of result ≡ record { made = 0; failing = []; faults = 0 } }
        ensures asked { asked_of result ≡ [] }
    {
        MemFiles {
            files: HashMap::new(alloc),
            alloc,
            calls: CallBook::begin(alloc),
            reads: Reads::begin(),
        }
    }

    /// Holds a file of these bytes at this path, in the place of the one that was there. After `NoMemory` all is as
    /// before.
    pub fn hold(&mut self, path: &str, bytes: &[u8]) -> Result<(), NoMemory>
        ensures ok { OnOk result (Holds self.old self.new path.now bytes.now) }
        ensures err { OnErr result (IsUnchanged self.old self.new) }
    {
        let path = String::from_str(self.alloc, path)?;
        let bytes = Vec::from_slice(self.alloc, bytes)?;
        self.files.insert(path, bytes)?;
        Ok(())
    }

    /// Lets the read of this number fail; the first is 1. After `NoMemory` all is as before.
    pub fn fail_at(&mut self, call: u64) -> Result<(), NoMemory>
        requires { call < 2 ^ 63 }
        ensures ok { OnOk result (calls_of self.new ≡ with_failing (calls_of self.old) call) }
        ensures files { (path : List ℕ) → held self.new path ≡ held self.old path }
        ensures asked { asked_of self.new ≡ asked_of self.old }
        ensures err { OnErr result (calls_of self.new ≡ calls_of self.old) }
    {
        self.calls.fail_at(call)
    }

    /// Finds what is held. Fails exactly at the calls that are to fail.
    fn answer(&mut self, alloc: Global, path: &str, most: u64) -> Result<Found, NoMemory>
        ensures found { IfOk result (λ found. Finds found most (held self.old path.now)) }
        ensures within { IfOk result (λ found. IsWithin found most) }
        ensures fails { FailsAsTold result (next_fails (calls_of self.old)) }
        ensures calls { calls_of self.new ≡ after_call (calls_of self.old) }
        ensures files { held self.new ≡ held self.old }
        ensures asked { asked_of self.new ≡ asked_of self.old }
        ensures never_falls { (calls_of self.old).faults ≤ (calls_of self.new).faults }
    {
        if self.calls.next_call() {
            return Ok(Found::Failed);
        }
        match self.files.get(path) {
            None => Ok(Found::Absent),
            Some(bytes) if bytes.len() as u64 > most => Ok(Found::TooLong),
            Some(bytes) => Ok(Found::Bytes(Vec::from_slice(alloc, bytes.as_slice())?)),
        }
    }
}

impl Files for MemFiles {
    ghost use Rattle.std.specs.Prelude.{◌≡◌, ◌≤◌, ◌++◌, ◌∷◌, [], List, length, IfOk};
    ghost use Rattle.et_io.specs.Calls.{next_fails, after_call};
    ghost use Rattle.et_io.specs.Faults.{count_after};
    ghost use Rattle.et_io.specs.Files.{Held, Reading, answer_of, Finds, IsWithin, is_read_failed};
    ghost use Rattle.et_io.specs.MemFiles.{held, calls_of, asked_of, FailsAsTold};

    ghost asked = { asked_of };

    ghost agrees = { λ files first other. held files ≡ other };

    ghost faults = { λ files. (calls_of files).faults };

    /// Finds what is held. Fails exactly at the calls that are to fail.
    fn read(&mut self, alloc: Global, path: &str, most: u64) -> Result<Found, NoMemory>
        ensures found { (first : List Reading) (other : Held) →
            length first ≤ length (asked_of self.old) → held self.new ≡ other →
            IfOk result (λ found. Finds found most (other path.now)) }
        ensures within { IfOk result (λ found. IsWithin found most) }
        ensures failed { (calls_of self.new).faults
            ≡ count_after (is_read_failed result) (calls_of self.old).faults }
        ensures asked { asked_of self.new ≡ asked_of self.old ++ record {
          path = path.now;
          most = most;
          answer = answer_of result;
        } ∷ [] }
        ensures kept { (first : List Reading) (other : Held) → held self.new ≡ other →
            held self.old ≡ other }
        ensures never_falls { (calls_of self.old).faults ≤ (calls_of self.new).faults }
        ensures fails { FailsAsTold result (next_fails (calls_of self.old)) }
        ensures calls { calls_of self.new ≡ after_call (calls_of self.old) }
    {
        let answer = self.answer(alloc, path, most);
        self.reads = self.reads.then(&Read {
            path,
            most,
            answer: &answer,
        });
        answer
    }
}
