//! The words of a process, and what is said where there are none.
ghost use Rattle.std.specs.Prelude.{◌≤◌, IfOk, length};

use et_files::Status;
use et_io::{MemFiles, MemSink};
use et_test_runs::{WordsFault, run_elephant, run_without_memory, words};
use std::env::{Env, FillError};
use std::test::Fail;

/// A process that was begun with these words, its name among them.
#[derive(Drop)]
struct Process<'a> {
    words: &'a [&'a [u8]],
}

/// Copies a word to the start of the buffer, if there is room.
fn fill(word: &[u8], buf: &mut [u8]) -> Result<usize, FillError>
    ensures { IfOk result (λ count. count ≤ length buf.new) }
{
    let count = word.len();
    if count > buf.len() {
        return Err(FillError::TooLong);
    }
    buf[..count].copy_from_slice(word);
    Ok(count)
}

impl Env for Process<'_> {
    fn arg(&self, i: usize, buf: &mut [u8]) -> Result<usize, FillError> {
        match self.words.get(i) {
            Some(word) => fill(word, buf),
            None => Err(FillError::NotPresent),
        }
    }

    fn var(&self, _name: &str, _buf: &mut [u8]) -> Result<usize, FillError> {
        Err(FillError::NotPresent)
    }

    fn var_at(&self, _i: usize, _buf: &mut [u8]) -> Result<usize, FillError> {
        Err(FillError::NotPresent)
    }
}

#[test]
fn words_stand_behind_the_name(rt: HostRuntime) -> Result<(), Fail> {
    let process = Process {
        words: &[b"elephant", b"curve", b"T"],
    };
    let Ok(found) = words(&(process, rt.alloc())) else {
        panic!(rt; "no words");
    };
    assert_eq!(rt; found.len(), 2);
    assert_eq!(rt; found.first().map(|word| word.as_str()), Some("curve"));
    assert_eq!(rt; found.last().map(|word| word.as_str()), Some("T"));
    Ok(())
}

#[test]
fn a_word_that_is_not_utf8(rt: HostRuntime) -> Result<(), Fail> {
    let process = Process {
        words: &[b"elephant", b"curve", b"\xff"],
    };
    let found = words(&(process, rt.alloc()));
    assert_eq!(rt; found.err(), Some(WordsFault::NotUtf8));
    Ok(())
}

#[test]
fn words_that_are_not_there_are_refused(rt: HostRuntime) -> Result<(), Fail> {
    let alloc = rt.alloc();
    let rows: [(WordsFault, Status, &[u8]); 2] = [
        (WordsFault::NotUtf8, Status::Usage, b"elephant: usage\n"),
        (
            WordsFault::NoMemory,
            Status::NoMemory,
            b"elephant: no memory\n",
        ),
    ];
    for (fault, status, refusal) in rows {
        let mut files = MemFiles::begin(alloc);
        let mut out = MemSink::begin(alloc, 1000);
        let mut err = MemSink::begin(alloc, 1000);
        let found = run_elephant(alloc, Err(fault), &mut files, &mut out, &mut err);
        assert_eq!(rt; found, status);
        assert!(rt; out.bytes().is_empty());
        assert_eq!(rt; err.bytes(), refusal);
    }
    Ok(())
}

#[test]
fn no_memory_to_gather_in_is_refused(rt: HostRuntime) -> Result<(), Fail> {
    let mut err = MemSink::begin(rt.alloc(), 1000);
    assert_eq!(rt; run_without_memory(rt.alloc(), &mut err), Status::NoMemory);
    assert_eq!(rt; err.bytes(), b"elephant: no memory\n".as_slice());
    Ok(())
}
