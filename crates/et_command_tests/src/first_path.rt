//! The trace of one class of the first form, and each of its refusals.

use crate::rows::{Refused, are_refused, failed_at, files_with};
use et_files::Status;
use et_io::MemSink;
use et_test_runs::{answer, is_answered};
use std::alloc::Global;
use std::process::Abort;
use std::test::Fail;

/// The class `Box`, whose `main` is `new Box; pop; return`.
pub const BOX: [u8; 125] = *b"\xca\xfe\xba\xbe\x00\x00\x00\x34\x00\x08\
    \x01\x00\x03Box\x07\x00\x01\x01\x00\x10java/lang/Object\x07\x00\x03\x01\x00\x04main\
    \x01\x00\x16([Ljava/lang/String;)V\x01\x00\x04Code\
    \x00\x21\x00\x02\x00\x04\x00\x00\x00\x00\x00\x01\
    \x00\x09\x00\x05\x00\x06\x00\x01\x00\x07\x00\x00\x00\x11\x00\x01\x00\x01\x00\x00\x00\x05\
    \xbb\x00\x02\x57\xb1\x00\x00\x00\x00\x00\x00";

/// Box with a Float entry, LineNumberTable and StackMapTable in its Code and SourceFile on the class, of any bytes.
const BOX_WITH_ATTRIBUTES: [u8; 205] = *b"\xca\xfe\xba\xbe\x00\x00\x004\x00\x0c\
    \x01\x00\x03Box\
    \x07\x00\x01\
    \x01\x00\x10java/lang/Object\
    \x07\x00\x03\
    \x01\x00\x04main\
    \x01\x00\x16([Ljava/lang/String;)V\
    \x01\x00\x04Code\
    \x04?\x80\x00\x00\
    \x01\x00\x0fLineNumberTable\
    \x01\x00\x0dStackMapTable\
    \x01\x00\x0aSourceFile\
    \x00!\x00\x02\x00\x04\x00\x00\x00\x00\x00\x01\
    \x00\x09\x00\x05\x00\x06\x00\x01\x00\x07\x00\x00\x00'\x00\x01\
    \x00\x01\x00\x00\x00\x05\xbb\x00\x02W\xb1\x00\x00\x00\x02\x00\
    \x09\x00\x00\x00\x03xyz\x00\x0a\x00\x00\x00\x07\
    \xff\xff\xff\xff\xff\xff\xff\x00\x01\x00\x0b\x00\x00\x00\x00";

pub const TRACE: &[u8] = b"H 1 0\nC 1 [Ljava/lang/String;\nA 0 0 1 1 24 0\nC 2 Box\n\
    N 1 2 main ([Ljava/lang/String;)V\nM 1 0 1 0\nA 2 0 2 2 16 0\nE 4 0 1\nF 5 2\nD 1 3\nD 2 2\nZ 5 0\n";

/// `main` pops from an empty stack.
const ILL_TYPED_TRACE: &[u8] = b"H 1 0\nC 1 [Ljava/lang/String;\nA 0 0 1 1 24 0\nC 2 Box\n\
    N 1 2 main ([Ljava/lang/String;)V\nM 1 0 1 0\nF 1 0\nZ 1 2\n";

/// `trace` answers so where the file of `Box` has these bytes.
fn is_traced(
    alloc: Global,
    bytes: &[u8],
    status: Status,
    trace: &[u8],
    refusal: &[u8],
) -> Result<(), Fail> {
    let mut files = files_with(alloc, "Box.class", bytes)?;
    is_answered(alloc, &mut files, "trace Box.class", status, trace, refusal)
}

#[test]
fn box_is_traced_byte_by_byte(rt: HostRuntime) -> Result<(), Fail> {
    is_traced(rt.alloc(), &BOX, Status::Done, TRACE, b"")
}

#[test]
fn attributes_change_nothing(rt: HostRuntime) -> Result<(), Fail> {
    is_traced(rt.alloc(), &BOX_WITH_ATTRIBUTES, Status::Done, TRACE, b"")
}

#[test]
fn an_empty_stack_is_ill_typed(rt: HostRuntime) -> Result<(), Fail> {
    let mut bytes = Vec::from_slice(rt.alloc(), &BOX[..102])?;
    bytes.extend_from_slice(b"\x00\x00\x00\x0e\x00\x01\x00\x01\x00\x00\x00\x02\x57\xb1")?;
    bytes.extend_from_slice(b"\x00\x00\x00\x00\x00\x00")?;
    let refusal = b"elephant: ill typed 0 Box main ([Ljava/lang/String;)V 0\n";
    is_traced(
        rt.alloc(),
        &bytes,
        Status::IllTyped,
        ILL_TYPED_TRACE,
        refusal,
    )
}

/// Box with other bytes from a place on.
fn changed(alloc: Global, place: usize, bytes: &[u8]) -> Result<Vec<u8>, Fail> {
    let mut class = Vec::from_slice(alloc, &BOX[..place.min(125)])?;
    class.extend_from_slice(bytes)?;
    let rest = place.saturating_add(bytes.len()).min(125);
    class.extend_from_slice(&BOX[rest..])?;
    Ok(class)
}

/// Box with other bytes from a place on, and the kind and the place of the fault.
#[derive(Clone, Copy)]
struct Change {
    place: usize,
    bytes: &'static [u8],
    fault: &'static str,
}

macro_rules! changes {
    ($($bytes:literal at $place:literal: $fault:literal;)*) => {
        [$(Change { place: $place, bytes: $bytes, fault: $fault }),*]
    };
}

/// The class of these bytes has this fault.
fn is_bad(alloc: Global, bytes: &[u8], fault: &str) -> Result<(), Fail> {
    let refusal = format!(in alloc; "elephant: bad class Box.class {fault}\n")?;
    is_traced(alloc, bytes, Status::BadClass, b"", refusal.as_bytes())
}

#[test]
fn changed_classes_are_refused(rt: HostRuntime) -> Result<(), Fail> {
    let alloc = rt.alloc();
    let changes: [Change; 13] = changes! {
        b"\xca\xfe\xba\xbf" at 0: "1 0";
        b"\x35" at 7: "2 6";
        b"\0\0" at 8: "3 8";
        b"\x02" at 10: "3 10";
        b"\0" at 13: "3 10";
        b"\x04" at 18: "3 16";
        b"\x04\x31" at 80: "4 80";
        b"\0\0" at 84: "3 84";
        b"\xff\xff\xff\xff" at 102: "11 106";
        b"\xba" at 114: "9 114";
        b"\x01" at 116: "8 114";
        b"\x62" at 117: "9 117";
        b"\xa7" at 118: "8 118";
    };
    for Change {
        place,
        bytes,
        fault,
    } in changes {
        is_bad(alloc, &changed(alloc, place, bytes)?, fault)?;
    }
    Ok(())
}

#[test]
fn cut_classes_are_refused(rt: HostRuntime) -> Result<(), Fail> {
    let alloc = rt.alloc();
    for place in [0usize, 4, 6, 8, 10, 80, 92, 123] {
        let fault = format!(in alloc; "11 {place}")?;
        is_bad(alloc, &BOX[..place], &fault)?;
    }
    is_bad(alloc, &BOX[..3], "11 0")?;
    let mut longer = Vec::from_slice(alloc, &BOX)?;
    longer.push(0)?;
    is_bad(alloc, &longer, "10 125")
}

#[test]
fn a_class_without_main_does_not_link(rt: HostRuntime) -> Result<(), Fail> {
    let bytes = changed(rt.alloc(), 95, b"\x07")?;
    is_traced(
        rt.alloc(),
        &bytes,
        Status::LinkFault,
        b"",
        b"elephant: link 6 Box\n",
    )
}

/// A file that is too long, one that is not there, and words without a file, by each of two commands.
const REFUSED: [Refused; 8] = [
    Refused {
        line: "trace Box.class",
        status: Status::TooLong,
        refusal: b"elephant: too long Box.class\n",
    },
    Refused {
        line: "trace No.class",
        status: Status::Absent,
        refusal: b"elephant: absent No.class\n",
    },
    Refused {
        line: "trace --flush",
        status: Status::Usage,
        refusal: b"elephant: usage\n",
    },
    Refused {
        line: "trace",
        status: Status::Usage,
        refusal: b"elephant: usage\n",
    },
    Refused {
        line: "run Box.class",
        status: Status::TooLong,
        refusal: b"elephant: too long Box.class\n",
    },
    Refused {
        line: "run No.class",
        status: Status::Absent,
        refusal: b"elephant: absent No.class\n",
    },
    Refused {
        line: "run --format 2 Box.class",
        status: Status::Usage,
        refusal: b"elephant: usage\n",
    },
    Refused {
        line: "run",
        status: Status::Usage,
        refusal: b"elephant: usage\n",
    },
];

#[test]
fn files_are_refused(rt: HostRuntime) -> Result<(), Fail> {
    let alloc = rt.alloc();
    let long = vec![in alloc; 0u8; 1_048_577]?;
    let mut files = files_with(alloc, "Box.class", &long)?;
    are_refused(alloc, &mut files, &REFUSED)?;
    let mut failing = files_with(alloc, "Box.class", &BOX)?;
    failing.fail_at(1)?;
    let line = "trace Box.class";
    let said = b"elephant: read fault Box.class\n";
    is_answered(alloc, &mut failing, line, Status::ReadFault, b"", said)
}

/// A program that prints nothing: `run` writes nothing, by any options, also where no write would succeed.
#[test]
fn nothing_is_printed(rt: HostRuntime) -> Result<(), Fail> {
    let alloc = rt.alloc();
    let lines = [
        "run Box.class",
        "run --flush 1 Box.class",
        "run --limit 3 --words 0,1 -- Box.class",
    ];
    for line in lines {
        let mut files = files_with(alloc, "Box.class", &BOX)?;
        let mut out = MemSink::begin(alloc, 1000);
        let mut err = MemSink::begin(alloc, 1000);
        out.fail_at(1)?;
        let status = answer(alloc, line, &mut files, &mut out, &mut err)?;
        assert_eq!(rt; status, Status::Done, "{line}");
        assert!(rt; out.bytes().is_empty() && err.bytes().is_empty());
    }
    Ok(())
}

/// Each put of the trace of `Box` fails in turn: what was taken is a front of the whole.
pub fn each_put_fails(
    rt: &impl Abort,
    alloc: Global,
    line: &str,
    whole: &[u8],
) -> Result<(), Fail> {
    for call in 1..=6 {
        let mut files = files_with(alloc, "Box.class", &BOX)?;
        let (status, out) = failed_at(alloc, &mut files, line, call)?;
        assert!(rt; whole.starts_with(out.bytes()));
        // The starting state, the three events that have records, and the end are put.
        let wanted = if call <= 5 {
            Status::WriteFault
        } else {
            Status::Done
        };
        assert_eq!(rt; status, wanted);
    }
    Ok(())
}

#[test]
fn each_write_fails_in_turn(rt: HostRuntime) -> Result<(), Fail> {
    each_put_fails(&rt, rt.alloc(), "trace Box.class", TRACE)
}
