//! What the program says on standard error: a line for each refusal.
ghost use Rattle.std.specs.Prelude.{◌≡◌, false};
ghost use Rattle.et_files.specs.Refusals.{status_of};
ghost use Rattle.et_files.specs.Status.{is_read_status, is_write_status};
ghost use Rattle.et_files.specs.Told.{IsFileRefusal, cause_of, is_read_cause};

use crate::status::Status;
use et_base::Name;
use et_io::{Sink, put_all};
use et_link::LinkFaultKind;
use std::alloc::Global;
use std::fmt::{self, Display, Formatter, Write};
use thiserror::Error;

/// The bytes of a name, shown with the escapes of a trace: `%`, the space, the bytes below it and those from 7F on as
/// `%` and two upper-case hexadecimal digits.
#[derive(Clone, Copy, Debug)]
pub struct Escaped<'a>(pub &'a [u8]);

impl Display for Escaped<'_> {
    fn fmt<W: Write>(&self, f: &mut Formatter<W>) -> fmt::Result {
        for byte in self.0 {
            match *byte {
                b'%' | 0..=b' ' | 0x7f..=0xff => write!(f, "%{:02X}", *byte)?,
                plain => write!(f, "{}", plain as char)?,
            }
        }
        Ok(())
    }
}

/// Why there is no output, or why it ended early. It is shown as its line on standard error, without LF.
#[derive(Debug, Drop, Error)]
pub enum Refusal<'a> {
    /// The words are no command.
    #[error("elephant: usage")]
    Usage,
    /// There is no file at this path.
    #[error("elephant: absent {0}")]
    Absent(&'a str),
    /// The file is no class file: the kind of its first fault, and its place in bytes.
    #[error("elephant: bad class {path} {kind} {offset}")]
    BadClass {
        path: &'a str,
        kind: u8,
        offset: usize,
    },
    /// A read of the file at this path failed.
    #[error("elephant: read fault {0}")]
    ReadFault(&'a str),
    /// A write failed.
    #[error("elephant: write fault")]
    WriteFault,
    /// Memory ran out.
    #[error("elephant: no memory")]
    NoMemory,
    /// The file is no listing: the least kind of its first faulty line, and the number of that line, from 1 on.
    #[error("elephant: bad text {path} {kind} {line}")]
    BadText {
        path: &'a str,
        kind: u8,
        line: u64,
    },
    /// The file is no trace: the kind of its first faulty line or record, and the number of that, from 1 on.
    #[error("elephant: bad trace {path} {kind} {line}")]
    BadTrace {
        path: &'a str,
        kind: u8,
        line: u64,
    },
    /// The next event has no meaning: its thread, and the method and the place of its instruction.
    #[error("elephant: ill typed {thread} {class} {method} {descriptor} {pc}")]
    IllTyped {
        thread: u8,
        class: Escaped<'a>,
        method: Escaped<'a>,
        descriptor: Escaped<'a>,
        pc: u32,
    },
    /// The next event would make too many objects.
    #[error("elephant: object limit")]
    ObjectLimit,
    /// The file at this path is longer than is read.
    #[error("elephant: too long {0}")]
    TooLong(&'a str),
    /// The classes don't link: the kind of the fault, and the name of the first class that shows it (JVMS 5.3, 5.4).
    #[error("elephant: link {} {}", *.kind as u8, Escaped(.class.as_slice()))]
    LinkFault {
        kind: LinkFaultKind,
        class: Name,
    },
    /// The method has no typing.
    #[error("elephant: rejected {class} {method} {descriptor}")]
    Rejected {
        class: Escaped<'a>,
        method: Escaped<'a>,
        descriptor: Escaped<'a>,
    },
    /// A trace ends before this event.
    #[error("elephant: bad event {0}")]
    BadEvent(u64),
}

impl Refusal<'_> {
    /// The status that stands for it.
    pub fn status(&self) -> Status
        ensures { result ≡ status_of self.now }
    {
        match self {
            Refusal::Usage => Status::Usage,
            Refusal::Absent(_) => Status::Absent,
            Refusal::BadClass { .. } => Status::BadClass,
            Refusal::ReadFault(_) => Status::ReadFault,
            Refusal::WriteFault => Status::WriteFault,
            Refusal::NoMemory => Status::NoMemory,
            Refusal::BadText { .. } => Status::BadText,
            Refusal::BadTrace { .. } => Status::BadTrace,
            Refusal::IllTyped { .. } => Status::IllTyped,
            Refusal::ObjectLimit => Status::ObjectLimit,
            Refusal::TooLong(_) => Status::TooLong,
            Refusal::LinkFault { .. } => Status::LinkFault,
            Refusal::Rejected { .. } => Status::Rejected,
            Refusal::BadEvent(_) => Status::BadEvent,
        }
    }
}

/// Says the refusal, in a line. A fault there changes nothing.
fn say<E: Sink>(alloc: Global, err: &mut E, refusal: &Refusal<'_>) {
    if let Ok(line) = format!(in alloc; "{refusal}\n") {
        let _ = put_all(err, line.as_bytes());
    }
}

/// Says the refusal on err, and answers its status.
pub fn refuse<E: Sink>(alloc: Global, err: &mut E, refusal: &Refusal<'_>) -> Status
    ensures status { result ≡ status_of refusal.now }
    ensures reads { is_read_status result ≡ is_read_cause (cause_of refusal.now) }
    ensures writes { IsFileRefusal (cause_of refusal.now) → is_write_status result ≡ false }
{
    say(alloc, err, refusal);
    refusal.status()
}
