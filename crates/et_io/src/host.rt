//! The real files and streams. They log what they were asked for and what was answered; that the system's answers are true
//! is trusted.
ghost use Rattle.std.specs.Io.Buffered.{writer_buffer};
ghost use Rattle.std.specs.Prelude.{◌≡◌, ◌<◌, ◌≤◌, [], length, Some, IfOk, IfSome, true, not};
ghost use Rattle.et_io.specs.Faults.{count_after};
ghost use Rattle.et_io.specs.Files.{IsWithin};
ghost use Rattle.et_io.specs.Sink.{bytes_but, taken_bytes};

use crate::files::{Files, Found};
use crate::gathering::GatheringSink;
use crate::logs::{Made, Puts, Read as Asked, Reads};
use crate::sink::{Put, Sink};
use et_base::NoMemory;
use std::alloc::Global;
use std::io::{self, BufWriter, ErrorKind, Read, Write};
use std::{fs, rt};

/// The files of the system. Files agree with what was read of them where each answer is true. The count of faults stays
/// at its last number, 2^64 - 1, once it stands there.
#[derive(Drop)]
pub struct HostFiles<R: rt::Files> {
    runtime: R,
    faults: u64,
    reads: Reads,
}

impl<R: rt::Files> HostFiles<R> {
    /// The files that this runtime reaches.
    pub fn begin(runtime: R) -> HostFiles<R> {
        HostFiles {
            runtime,
            faults: 0,
            reads: Reads::begin(),
        }
    }
}

/// How many bytes are asked of the system at once.
const ASKED: usize = 8_192;

/// Reads to the end, or so many bytes: never more. A read that was interrupted is tried again.
fn read_up_to<F: Read>(file: &mut F, bytes: &mut Vec<u8>, most: usize) -> io::Result<()>
    requires { length bytes.old.items ≤ most }
    ensures { length bytes.new.items ≤ most }
{
    let mut piece = [0; ASKED];
    for _ in 0..u64::MAX {
        let room = (most - bytes.len()).min(ASKED);
        match file.read(&mut piece[..room]) {
            Ok(0) => return Ok(()),
            Ok(count) => bytes.extend_from_slice(&piece[..count])?,
            Err(error) if error.kind() == ErrorKind::Interrupted => {}
            Err(error) => return Err(error),
        }
    }
    Err(io::Error::from(ErrorKind::Interrupted))
}

/// Reads to the end, or to the first byte past the most that is wanted.
fn read_open<F: Read + Drop>(file: F, alloc: Global, most: u64) -> Result<Found, NoMemory>
    ensures { IfOk result (λ found. IsWithin found most) }
{
    let mut file = file;
    let mut bytes = Vec::new(alloc);
    match read_up_to(&mut file, &mut bytes, most.saturating_add(1) as usize) {
        Ok(()) if bytes.len() as u64 > most => Ok(Found::TooLong),
        Ok(()) => Ok(Found::Bytes(bytes)),
        Err(error) if error.kind() == ErrorKind::OutOfMemory => Err(NoMemory),
        Err(_) => Ok(Found::Failed),
    }
}

impl<R: rt::Files> Files for HostFiles<R> {
    ghost use Rattle.et_io.specs.Files.{AgreesBehind};

    ghost asked = { λ files. files.reads.items };

    ghost agrees = { λ files first held. AgreesBehind first files.reads.items held };

    ghost faults = { λ files. files.faults };

    fn read(&mut self, alloc: Global, path: &str, most: u64) -> Result<Found, NoMemory> {
        let answer = match fs::open(&self.runtime, path) {
            Ok(file) => read_open(file, alloc, most),
            Err(error) if error.kind() == ErrorKind::NotFound => Ok(Found::Absent),
            Err(_) => Ok(Found::Failed),
        };
        if matches!(&answer, Ok(Found::Failed)) {
            self.faults = self.faults.saturating_add(1);
        }
        self.reads = self.reads.then(&Asked {
            path,
            most,
            answer: &answer,
        });
        answer
    }
}

/// A stream of the system, as standard output. The count of faults stays at its last number, 2^64 - 1, once it stands
/// there.
#[derive(Drop)]
pub struct HostSink<W: Write> {
    stream: W,
    faults: u64,
    puts: Puts,
}

impl<W: Write> HostSink<W> {
    /// The sink of this stream.
    pub fn begin(stream: W) -> HostSink<W> {
        HostSink {
            stream,
            faults: 0,
            puts: Puts::begin(),
        }
    }
}

/// How many bytes a sink gathers before it hands them on.
const GATHERED: usize = 65_536;

impl<W: Write + Drop> HostSink<BufWriter<W>> {
    /// The sink of this stream that gathers what it takes, and hands it on in pieces of 64 KiB. A put may then fail for
    /// what an earlier one was given. What is gathered at the end is handed on by `hand_on`.
    pub fn gathering(alloc: Global, stream: W) -> Result<HostSink<BufWriter<W>>, NoMemory> {
        match BufWriter::with_capacity(alloc, GATHERED, stream) {
            Ok(gathered) => Ok(HostSink::begin(gathered)),
            Err(_) => Err(NoMemory),
        }
    }
}

impl<W: Write> Sink for HostSink<W> {
    ghost use Rattle.std.specs.Prelude.{Some};

    ghost taken = { λ sink. Some sink.puts.items };

    ghost faults = { λ sink. sink.faults };

    fn put(&mut self, piece: &[u8]) -> Put {
        let answer = match write_once(&mut self.stream, piece) {
            Some(count) => Put::Took(count),
            None => {
                self.faults = self.faults.saturating_add(1);
                Put::Failed
            }
        };
        self.puts = self.puts.then(&Made { piece, answer });
        answer
    }
}

impl<W: Write + Drop> GatheringSink for HostSink<BufWriter<W>> {
    ghost use Rattle.std.specs.Prelude.{Some};
    ghost use Rattle.std.specs.Io.Buffered.{writer_buffer};
    ghost use Rattle.et_io.specs.Sink.{bytes_but};

    ghost handed = { λ sink. Some (bytes_but (writer_buffer sink.stream) sink.puts.items) };

    /// Hands on to the stream what was gathered, and says whether the stream took it all.
    fn hand_on(&mut self) -> bool
        ensures emptied { result ≡ true → writer_buffer self.new.stream ≡ [] }
        ensures taken { Some self.new.puts.items ≡ Some self.old.puts.items }
        ensures handed { result ≡ true →
            Some (bytes_but (writer_buffer self.new.stream) self.new.puts.items)
            ≡ Some (taken_bytes self.new.puts.items) }
        ensures faults { self.new.faults ≡ count_after (not result) self.old.faults }
    {
        let is_taken = self.stream.flush().is_ok();
        if !is_taken {
            self.faults = self.faults.saturating_add(1);
        }
        is_taken
    }
}

/// Writes what the stream takes of the piece at once: nothing is a failure, unless the piece is empty. A write that was
/// interrupted is tried again.
fn write_once<W: Write>(stream: &mut W, piece: &[u8]) -> Option<usize>
    ensures within { IfSome result (λ count. count ≤ length piece.now) }
    ensures some { IfSome result (λ count. 0 < length piece.now → 0 < count) }
{
    for _ in 0..u64::MAX {
        match stream.write(piece) {
            Ok(0) if !piece.is_empty() => return None,
            Ok(count) => return Some(count),
            Err(error) if error.kind() == ErrorKind::Interrupted => {}
            Err(_) => return None,
        }
    }
    None
}
