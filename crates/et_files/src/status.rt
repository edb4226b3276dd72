//! How the program ends.
ghost use Rattle.std.specs.Prelude.{◌≡◌};
ghost use Rattle.et_files.specs.Status.{status_number, is_whole};

/// How the program ended.
#[derive(Clone, Copy, Debug, PartialEq, Eq)]
pub enum Status {
    /// The whole output was taken. A trace ended because each thread ended, or at the event limit.
    Done,
    /// The words are no command.
    Usage,
    /// There is no file at a path.
    Absent,
    /// A file is no class file.
    BadClass,
    /// The classes of the files don't link.
    LinkFault,
    /// A read failed.
    ReadFault,
    /// A write failed. What was taken is a prefix of the output.
    WriteFault,
    /// Memory ran out. What was taken is a prefix of the output.
    NoMemory,
    /// A file is no trace, in either spelling.
    BadTrace,
    /// The next event had no meaning. The trace up to it was taken whole.
    IllTyped,
    /// The next event would have made too many objects. The trace up to it was taken whole.
    ObjectLimit,
    /// A file is no listing.
    BadText,
    /// A file is longer than is read: 1,048,576 bytes of a class file or a listing, 268,435,456 of a trace.
    TooLong,
    /// A method of the files has no typing.
    Rejected,
    /// A trace ends before the event that is asked for.
    BadEvent,
}

impl Status {
    /// The number with which the process ends.
    pub fn number(&self) -> u8
        ensures { result ≡ status_number self.now }
    {
        match self {
            Status::Done => 0,
            Status::Usage => 2,
            Status::Absent => 3,
            Status::BadClass => 4,
            Status::LinkFault => 5,
            Status::ReadFault => 6,
            Status::WriteFault => 7,
            Status::NoMemory => 8,
            Status::BadTrace => 9,
            Status::IllTyped => 10,
            Status::ObjectLimit => 11,
            Status::BadText => 12,
            Status::TooLong => 13,
            Status::Rejected => 15,
            Status::BadEvent => 16,
        }
    }

    /// Whether the whole output was taken.
    pub fn is_whole(&self) -> bool
        ensures { result ≡ is_whole self.now }
    {
        matches!(self, Status::Done | Status::IllTyped | Status::ObjectLimit)
    }
}
