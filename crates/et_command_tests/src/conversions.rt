//! The command `convert`, and binary traces.
use crate::first_path::{BOX, TRACE, each_put_fails};
use crate::rows::{Written, are_done, files_with};
use et_files::Status;
use et_test_runs::is_answered;
use std::alloc::Global;
use std::test::Fail;

/// The trace of Box in the binary spelling.
const BINARY: [u8; 237] = *b"\xfeET2\
    H\0\0\0\0\0\0\0\0\
    C\0\0\0\x01\0\0\0\x13[Ljava/lang/String;\
    A\0\0\0\0\0\0\0\0\0\0\0\0\x01\0\0\0\x01\0\0\0\0\0\0\0\x18\0\0\0\0\
    C\0\0\0\x02\0\0\0\x03Box\
    N\0\0\0\x01\0\0\0\x02\0\0\0\x04main\0\0\0\x16([Ljava/lang/String;)V\
    M\0\0\0\0\0\0\0\x01\0\0\0\0\x01\0\0\0\0\
    A\0\0\0\0\0\0\0\x02\0\0\0\0\x02\0\0\0\x02\0\0\0\0\0\0\0\x10\0\0\0\0\
    E\0\0\0\0\0\0\0\x04\0\0\0\0\x01\
    F\0\0\0\0\0\0\0\x05\0\0\0\x02\
    D\0\0\0\x01\0\0\0\0\0\0\0\x03\
    D\0\0\0\x02\0\0\0\0\0\0\0\x02\
    Z\0\0\0\0\0\0\0\x05\0";

const CONVERTED: [Written; 7] = [
    ("trace --format 2 Box.class", &BINARY),
    ("trace --format=1 Box.class", TRACE),
    ("trace --limit 99 --format=02 Box.class", &BINARY),
    ("convert T", &BINARY),
    ("convert B", TRACE),
    ("curve B", b"0 24\n1 24\n2 40\n4 0\n"),
    (
        "replay --mark-sweep 30 --semispace 30 --nursery 30 --old 30 B",
        b"mark-sweep capacity=30 collections=1 marked=24 swept=0 peak=24 exhausted=2\n\
        semispace capacity=30 collections=1 copied=0 freed=0 peak=0 exhausted=0\n\
        generational nursery=30 old=30 minor=1 major=0 promoted=24 swept=0 peak=40\n",
    ),
];

#[test]
fn a_trace_is_written_in_either_format_and_converted(rt: HostRuntime) -> Result<(), Fail> {
    let alloc = rt.alloc();
    let mut files = files_with(alloc, "T", TRACE)?;
    files.hold("B", &BINARY)?;
    files.hold("Box.class", &BOX)?;
    are_done(alloc, &mut files, &CONVERTED)
}

/// The one read fails: nothing is put.
#[test]
fn a_trace_that_is_not_read(rt: HostRuntime) -> Result<(), Fail> {
    let alloc = rt.alloc();
    let mut files = files_with(alloc, "B", &BINARY)?;
    files.fail_at(1)?;
    let said = b"elephant: read fault B\n";
    let line = "convert B";
    is_answered(alloc, &mut files, line, Status::ReadFault, b"", said)
}

#[test]
fn each_put_of_a_binary_trace_fails_in_turn(rt: HostRuntime) -> Result<(), Fail> {
    each_put_fails(&rt, rt.alloc(), "trace --format 2 Box.class", &BINARY)
}

/// A damaged binary trace, and the kind and the record of its fault.
#[derive(Clone, Copy)]
struct Damage {
    /// How many bytes of the trace stay before the new ones.
    length: usize,
    new: &'static [u8],
    /// From where on it goes on behind them.
    rest: usize,
    fault: &'static str,
}

const DAMAGED: [Damage; 21] = [
    Damage {
        length: 0,
        new: b"\xfeET2H\0\0\x01\0\0\0\0\x01",
        rest: 13,
        fault: "1 1",
    },
    Damage {
        length: 4,
        new: b"I",
        rest: 5,
        fault: "1 1",
    },
    Damage {
        length: 13,
        new: b"C\0\0\0\x02\0\0\0\x13[Ljava/lang/String;",
        rest: 41,
        fault: "2 2",
    },
    Damage {
        length: 83,
        new: b"N\0\0\0\x01\0\0\0\x02\0\0\0\x04main\0\0\0\x16([Ljava/lang/String;)V\
         N\0\0\0\x02\0\0\0\x02\0\0\0\x04main\0\0\0\x16([Ljava/lang/String;)V",
        rest: 126,
        fault: "4 6",
    },
    Damage {
        length: 144,
        new: b"A\0\0\0\0\0\0\0\x02\0\0\0\0\x02\0\0\0\x02\0\0\0\0\0\0\0\x0f\0\0\0\0",
        rest: 174,
        fault: "1 7",
    },
    Damage {
        length: 144,
        new: b"A\0\0\0\0\0\0\0\x02\0\0\0\0\x02\0\0\0\x03\0\0\0\0\0\0\0\x10\0\0\0\0",
        rest: 174,
        fault: "3 7",
    },
    Damage {
        length: 174,
        new: b"E\0\0\0\0\0\0\0\x01\0\0\0\0\x01",
        rest: 188,
        fault: "2 8",
    },
    Damage {
        length: 188,
        new: b"F\0\0\0\0\0\0\0\x05\0\0\0\x03",
        rest: 201,
        fault: "2 12",
    },
    Damage {
        length: 188,
        new: b"F\0\0\0\0\0\0\0\x06\0\0\0\x02",
        rest: 201,
        fault: "2 12",
    },
    Damage {
        length: 201,
        new: b"D\0\0\0\x01\0\0\0\0\0\0\0\x06",
        rest: 214,
        fault: "2 10",
    },
    Damage {
        length: 201,
        new: b"D\0\0\0\x03\0\0\0\0\0\0\0\x03",
        rest: 214,
        fault: "3 10",
    },
    Damage {
        length: 214,
        new: b"D\0\0\0\x01\0\0\0\0\0\0\0\x03",
        rest: 227,
        fault: "2 11",
    },
    Damage {
        length: 227,
        new: b"Z\0\0\0\0\0\0\0\x05\x04",
        rest: 237,
        fault: "1 12",
    },
    Damage {
        length: 227,
        new: b"Z\0\0\0\0\0\0\0\x05\0Z",
        rest: 237,
        fault: "6 13",
    },
    Damage {
        length: 236,
        new: b"",
        rest: 237,
        fault: "5 12",
    },
    Damage {
        length: 237,
        new: b"Z",
        rest: 237,
        fault: "6 13",
    },
    Damage {
        length: 1,
        new: b"",
        rest: 237,
        fault: "5 1",
    },
    Damage {
        length: 3,
        new: b"1",
        rest: 237,
        fault: "1 1",
    },
    Damage {
        length: 18,
        new: b"\xff\xff\xff\xffab",
        rest: 237,
        fault: "5 2",
    },
    Damage {
        length: 18,
        new: b"\0\0\0\0",
        rest: 237,
        fault: "1 2",
    },
    Damage {
        length: 42,
        new: b"\0\0\x01\0\0\0\0\x01\0\0\0\0\x01\0\0\0\x01\0\0\0\0\0\0\0\x18\0\0\0\0",
        rest: 237,
        fault: "1 3",
    },
];

/// The lines of the text.
const LINES: [&str; 12] = [
    "H 1 0\n",
    "C 1 [Ljava/lang/String;\n",
    "A 0 0 1 1 24 0\n",
    "C 2 Box\n",
    "N 1 2 main ([Ljava/lang/String;)V\n",
    "M 1 0 1 0\n",
    "A 2 0 2 2 16 0\n",
    "E 4 0 1\n",
    "F 5 2\n",
    "D 1 3\n",
    "D 2 2\n",
    "Z 5 0\n",
];

/// The trace with another line, and the kind and the line of its fault.
#[derive(Clone, Copy)]
struct NewLine {
    /// The number of the line.
    place: usize,
    new: &'static str,
    fault: &'static str,
}

macro_rules! new_lines {
    ($($new:literal at $place:literal: $fault:literal;)*) => {
        [$(NewLine { place: $place, new: $new, fault: $fault }),*]
    };
}

const DAMAGED_LINES: [NewLine; 19] = new_lines! {
    "H 2 0\n" at 1: "1 1";
    "C 2 [Ljava/lang/String;\n" at 2: "2 2";
    "A 0 0 1 1 024 0\n" at 3: "1 3";
    "C 2 Bo%78\n" at 4: "1 4";
    "C 2 Box \n" at 4: "1 4";
    "N 1 2 main ([Ljava/lang/String;)V\nN 2 2 main ([Ljava/lang/String;)V\n" at 5: "4 6";
    "A 2 0 2 2 15 0\n" at 7: "1 7";
    "A 2 0 2 3 16 0\n" at 7: "3 7";
    "E 1 0 1\n" at 8: "2 8";
    "F 5 3\n" at 9: "2 12";
    "F 6 2\n" at 9: "2 12";
    "D 1 6\n" at 10: "2 10";
    "D 3 3\n" at 10: "3 10";
    "D 1 3\n" at 11: "2 11";
    "" at 12: "5 12";
    "Z 5 4\n" at 12: "1 12";
    "Z 5 0" at 12: "5 12";
    "Z 5 0\nZ" at 12: "6 13";
    "Z 5 0\nZ 5 0\n" at 12: "6 13";
};

/// Each command that reads a trace refuses these bytes, and puts nothing.
fn is_bad(alloc: Global, bytes: &[u8], fault: &str) -> Result<(), Fail> {
    let mut files = files_with(alloc, "T", bytes)?;
    let refusal = format!(in alloc; "elephant: bad trace T {fault}\n")?;
    let said = refusal.as_bytes();
    for command in ["convert T", "curve T", "replay --mark-sweep 96 T"] {
        is_answered(alloc, &mut files, command, Status::BadTrace, b"", said)?;
    }
    Ok(())
}

#[test]
fn damaged_binary_traces_are_refused(rt: HostRuntime) -> Result<(), Fail> {
    for damage in &DAMAGED {
        let mut bytes = Vec::new(rt.alloc());
        bytes.extend_from_slice(&BINARY[..damage.length.min(237)])?;
        bytes.extend_from_slice(damage.new)?;
        bytes.extend_from_slice(&BINARY[damage.rest.min(237)..])?;
        is_bad(rt.alloc(), bytes.as_slice(), damage.fault)?;
    }
    Ok(())
}

#[test]
fn each_line_that_breaks_a_rule_is_told(rt: HostRuntime) -> Result<(), Fail> {
    for damage in &DAMAGED_LINES {
        let mut text = Vec::new(rt.alloc());
        for (i, line) in LINES.iter().enumerate() {
            let part = if i + 1 == damage.place {
                damage.new
            } else {
                *line
            };
            text.extend_from_slice(part.as_bytes())?;
        }
        is_bad(rt.alloc(), text.as_slice(), damage.fault)?;
    }
    is_bad(rt.alloc(), b"", "5 1")
}
