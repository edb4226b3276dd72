//! The commands `asm`, `curve`, `snapshot` and `replay`, and the options of `trace`.

use crate::first_path::{BOX, TRACE};
use crate::rows::{Refused, Written, are_done, are_refused, failed_at, files_with};
use et_files::Status;
use et_io::MemSink;
use et_test_runs::{answer, is_answered};
use std::process::Abort;
use std::test::Fail;

/// The listing of which `Box.class` is made.
const LISTING: &[u8] =
    b"class Box java/lang/Object 0021\nmethod main ([Ljava/lang/String;)V 0009 1 1\n\
    new Box\npop\nreturn\nend\n";

/// Object 1 refers to object 3 and dies with it at event 5; the others die at the end.
pub const FIVE: &[u8] =
    b"H 1 0\nC 1 P\nA 1 0 1 1 24 0\nA 2 0 2 1 24 0\nA 3 0 3 1 24 0\nU 4 0 1 0 0 3\n\
    A 6 0 4 1 24 0\nA 7 0 5 1 24 0\nF 8 5\nD 1 5\nD 2 7\nD 3 5\nD 4 7\nD 5 7\nZ 8 0\n";

const TRACED: [Written; 3] = [
    ("trace --flush=00 -- Box.class", TRACE),
    (
        "trace --limit 0 Box.class",
        b"H 1 0\nC 1 [Ljava/lang/String;\nA 0 0 1 1 24 0\nF 0 0\nZ 0 1\n",
    ),
    (
        "trace --flush 1 --limit 4 Box.class",
        b"H 1 1\nC 1 [Ljava/lang/String;\nA 0 0 1 1 24 0\nC 2 Box\n\
          N 1 2 main ([Ljava/lang/String;)V\nM 1 0 1 0\nF 1 0\nA 2 0 2 2 16 0\nF 2 0\nF 3 1\nD 2 2\n\
          E 4 0 1\nF 4 1\nD 1 3\nZ 4 1\n",
    ),
];

#[test]
fn options_of_trace(rt: HostRuntime) -> Result<(), Fail> {
    let alloc = rt.alloc();
    let mut files = files_with(alloc, "Box.class", &BOX)?;
    are_done(alloc, &mut files, &TRACED)
}

/// The first file that can't be used is told.
const IN_ORDER: [Refused; 4] = [
    Refused {
        line: "trace Box.class No.class",
        status: Status::Absent,
        refusal: b"elephant: absent No.class\n",
    },
    Refused {
        line: "trace No.class Bad.class",
        status: Status::Absent,
        refusal: b"elephant: absent No.class\n",
    },
    Refused {
        line: "trace Box.class Bad.class No.class",
        status: Status::BadClass,
        refusal: b"elephant: bad class Bad.class 11 10\n",
    },
    Refused {
        line: "trace Box.class Box.class",
        status: Status::LinkFault,
        refusal: b"elephant: link 1 Box\n",
    },
];

#[test]
fn several_files_are_read_in_order(rt: HostRuntime) -> Result<(), Fail> {
    let alloc = rt.alloc();
    let mut files = files_with(alloc, "Box.class", &BOX)?;
    files.hold("Bad.class", &BOX[..10])?;
    are_refused(alloc, &mut files, &IN_ORDER)?;
    files.fail_at(9)?;
    let said = b"elephant: read fault Box.class\n";
    let line = "trace Box.class Box.class";
    is_answered(alloc, &mut files, line, Status::ReadFault, b"", said)
}

#[test]
fn a_listing_is_assembled(rt: HostRuntime) -> Result<(), Fail> {
    let alloc = rt.alloc();
    let mut files = files_with(alloc, "Box.txt", LISTING)?;
    let line = "asm Box.txt";
    is_answered(alloc, &mut files, line, Status::Done, &BOX, b"")?;
    let mut wrong = files_with(
        alloc,
        "Box.txt",
        b"class Box java/lang/Object 0021\n\
        method main ([Ljava/lang/String;)V 0009 1 1\nnew Box\npopp\nreturn\nend\n",
    )?;
    let said = b"elephant: bad text Box.txt 1 4\n";
    is_answered(alloc, &mut wrong, line, Status::BadText, b"", said)?;
    let mut open = files_with(
        alloc,
        "Box.txt",
        b"class Box java/lang/Object 0021\n\
        method main ([Ljava/lang/String;)V 0009 1 1\nnew Box\npop\nreturn\n",
    )?;
    let said = b"elephant: bad text Box.txt 5 6\n";
    is_answered(alloc, &mut open, line, Status::BadText, b"", said)
}

#[test]
fn the_live_curve_of_a_trace(rt: HostRuntime) -> Result<(), Fail> {
    let alloc = rt.alloc();
    let mut files = files_with(alloc, "T", TRACE)?;
    let curve = b"0 24\n1 24\n2 40\n4 0\n";
    is_answered(alloc, &mut files, "curve T", Status::Done, curve, b"")
}

/// Object 1 is given objects in its slots 1 and 0 and loses the first of them; two static slots hold both objects, of which
/// the second is reached for the last time at event 5.
const HELD: &[u8] =
    b"H 1 0\nC 1 P\nC 2 Q\nA 1 0 1 1 24 0\nA 1 0 2 1 16 0\nU 2 0 0 7 0 1\nU 3 0 0 2 0 2\n\
    U 3 0 1 1 0 2\nU 4 0 1 0 0 1\nU 5 0 1 1 2 0\nF 6 2\nD 1 6\nD 2 5\nZ 6 0\n";

const SNAPSHOTS: [Written; 4] = [
    (
        "snapshot T 2",
        b"snapshot 2 2 40\no 1 [Ljava/lang/String; 24\no 2 Box 16\n\
        c [Ljava/lang/String; 1 24\nc Box 1 16\n",
    ),
    (
        "snapshot T 3",
        b"snapshot 3 1 24\no 1 [Ljava/lang/String; 24\nc [Ljava/lang/String; 1 24\n",
    ),
    (
        "snapshot -- H 4",
        b"snapshot 4 2 40\ns 2 2\ns 7 1\no 1 P 24\ne 1 0 1\ne 1 1 2\no 2 P 16\nc P 2 40\n",
    ),
    (
        "snapshot H 6",
        b"snapshot 6 1 24\ns 2 2\ns 7 1\no 1 P 24\ne 1 0 1\nc P 1 24\n",
    ),
];

#[test]
fn what_stood_in_the_heap(rt: HostRuntime) -> Result<(), Fail> {
    let alloc = rt.alloc();
    let mut files = files_with(alloc, "T", TRACE)?;
    files.hold("H", HELD)?;
    are_done(alloc, &mut files, &SNAPSHOTS)?;
    let said = b"elephant: bad event 8\n";
    is_answered(
        alloc,
        &mut files,
        "snapshot T 08",
        Status::BadEvent,
        b"",
        said,
    )
}

const REPLAYED: [Written; 5] = [
    (
        "replay --mark-sweep 96 --semispace 100 --nursery 48 --old 200 T",
        b"mark-sweep capacity=96 collections=1 marked=48 swept=48 peak=96\n\
        semispace capacity=100 collections=1 copied=48 freed=0 peak=48 exhausted=3\n\
        generational nursery=48 old=200 minor=2 major=0 promoted=96 swept=0 peak=120\n",
    ),
    (
        "replay --nursery 48 --old 200 T",
        b"generational nursery=48 old=200 minor=2 major=0 promoted=96 swept=0 peak=120\n",
    ),
    (
        "replay --nursery 23 --old 48 T",
        b"generational nursery=23 old=48 minor=0 major=1 promoted=0 swept=0 peak=48 exhausted=3\n",
    ),
    (
        "replay --semispace=100 T",
        b"semispace capacity=100 collections=1 copied=48 freed=0 peak=48 exhausted=3\n",
    ),
    (
        "replay --refcount 96 --mark-sweep 96 T",
        b"mark-sweep capacity=96 collections=1 marked=48 swept=48 peak=96\n\
        refcount capacity=96 leaked=0 freed=120 peak=72\n",
    ),
];

#[test]
fn a_trace_is_replayed(rt: HostRuntime) -> Result<(), Fail> {
    let alloc = rt.alloc();
    let mut files = files_with(alloc, "T", FIVE)?;
    are_done(alloc, &mut files, &REPLAYED)
}

#[test]
fn other_words_are_no_command(rt: HostRuntime) -> Result<(), Fail> {
    let alloc = rt.alloc();
    let mut files = files_with(alloc, "T", FIVE)?;
    for line in [
        "trace --flush x Box.class",
        "trace --flush 1 --flush 2 Box.class",
        "trace --quantum 1 --words 0 Box.class",
        "trace --quantum 0 Box.class",
        "replay T",
        "replay --nursery 48 T",
        "trace --format 3 Box.class",
        "convert T T",
        "curve",
        "asm",
    ] {
        let said = b"elephant: usage\n";
        is_answered(alloc, &mut files, line, Status::Usage, b"", said)?;
    }
    Ok(())
}

#[test]
fn a_failed_write_is_no_want_of_memory(rt: HostRuntime) -> Result<(), Fail> {
    let alloc = rt.alloc();
    for line in [
        "convert T",
        "curve T",
        "snapshot T 4",
        "replay --mark-sweep 120 T",
    ] {
        let mut files = files_with(alloc, "T", FIVE)?;
        let (status, out) = failed_at(alloc, &mut files, line, 1)?;
        assert_eq!(rt; status, Status::WriteFault);
        assert!(rt; out.bytes().is_empty());
    }
    Ok(())
}

#[test]
fn a_failing_write_leaves_a_front(rt: HostRuntime) -> Result<(), Fail> {
    let alloc = rt.alloc();
    let mut files = files_with(alloc, "Box.txt", LISTING)?;
    let mut out = MemSink::begin(alloc, 100);
    let mut err = MemSink::begin(alloc, 1000);
    out.fail_at(2)?;
    let status = answer(alloc, "asm Box.txt", &mut files, &mut out, &mut err)?;
    assert_eq!(rt; status, Status::WriteFault);
    assert_eq!(rt; out.bytes(), &BOX[..100]);
    Ok(())
}
