//! Files by their paths.
ghost use Rattle.std.specs.Prelude.{◌≡◌, ℕ, ◌≤◌, ◌++◌, ◌∷◌, [], List, length, IfOk};
ghost use Rattle.et_io.specs.Faults.{count_after};
ghost use Rattle.et_io.specs.Files.{Held, Reading, answer_of, Finds, IsWithin, is_read_failed};

use et_base::NoMemory;
use std::alloc::Global;

/// What a read found.
#[derive(Debug, Drop)]
pub enum Found {
    /// The bytes of the file, all of them.
    Bytes(Vec<u8>),
    /// There is no file at the path.
    Absent,
    /// The file has more bytes than were asked for.
    TooLong,
    /// The read failed, and the count of faults is one higher.
    Failed,
}

/// Files, each at a path. They tell which reads were made, and what was answered; and how many reads failed.
pub trait Files {
    /// The reads made so far, in order.
    ghost asked: { Self → List Reading };

    /// These held files agree with what was read behind the first reads. Files that are known agree with what they hold.
    ghost agrees: { Self → (first : List Reading) → Held → Type 0 };

    /// How many reads failed.
    ghost faults: { Self → ℕ };

    /// Reads the file at the path, if it has at most this many bytes. A read changes no file. One that fails counts one
    /// fault, up to 2^64 - 1, and any other answer leaves the count as it was. `NoMemory` says nothing of the file.
    fn read(&mut self, alloc: Global, path: &str, most: u64) -> Result<Found, NoMemory>
        ensures found { (first : List Reading) (held : Held) →
            length first ≤ length (asked self.old) → agrees self.new first held →
            IfOk result (λ found. Finds found most (held path.now)) }
        ensures within { IfOk result (λ found. IsWithin found most) }
        ensures failed { faults self.new ≡ count_after (is_read_failed result) (faults self.old) }
        ensures asked { asked self.new ≡ asked self.old ++ record {
          path = path.now;
          most = most;
          answer = answer_of result;
        } ∷ [] }
        ensures kept { (first : List Reading) (held : Held) → agrees self.new first held →
            agrees self.old first held }
        ensures never_falls { faults self.old ≤ faults self.new };
}
