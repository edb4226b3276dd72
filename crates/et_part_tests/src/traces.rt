//! Traces read whole and in pieces, and the faults of damaged ones.
use et_text::{TextReader, Trace, TraceFault, write_line};
use std::alloc::Global;
use std::process::Abort;
use std::test::Fail;

/// Two threads and one class monitor.
const THREADS: &str = "H 1 0
C 1 [Ljava/lang/String;
A 0 0 1 1 24 0
C 2 Wrk
N 1 2 main ([Ljava/lang/String;)V
M 1 0 1 0
A 2 0 2 2 24 0
N 2 2 <init> ()V
M 4 0 2 2
E 7 0 2
N 3 2 run ()V
M 9 1 3 2
N 4 2 add ()V
M 10 0 4 0
C 3 java/lang/Object
A 12 0 3 3 16 0
U 14 0 0 0 0 3
E 16 0 4
M 17 1 4 0
E 18 0 1
A 19 1 4 3 16 0
U 21 1 0 0 3 4
E 22 1 4
E 23 1 3
F 24 3
D 1 17
D 2 23
D 3 20
Z 24 0
";

/// A method is left by an exception. There is a flush at each second event, and an escape in a name.
const UNWOUND: &str = "H 1 2
C 1 [Ljava/lang/String;
A 0 0 1 1 24 0
C 2 a%20b
N 1 2 main ([Ljava/lang/String;)V
M 1 0 1 0
A 2 0 2 2 16 0
F 2 0
C 3 java/lang/IllegalMonitorStateException
A 3 0 3 3 32 0
X 4 0 1 3
F 4 2
D 1 3
D 2 3
F 5 1
D 3 4
Z 5 0
";

/// An object is made and dropped at once, and the array of `main` lives up to the return.
pub const BOX: [u8; 144] = *b"H 1 0\nC 1 [Ljava/lang/String;\nA 0 0 1 1 24 0\nC 2 Box\n\
    N 1 2 main ([Ljava/lang/String;)V\nM 1 0 1 0\nA 2 0 2 2 16 0\nE 4 0 1\nF 5 2\nD 1 3\nD 2 2\nZ 5 0\n";

/// The trace with another line, and its fault.
#[derive(Clone, Copy)]
struct Damage {
    /// The number of the line.
    place: usize,
    new: &'static str,
    kind: u8,
    /// The line of the fault.
    line: u64,
}

macro_rules! damages {
    ($($new:literal at $place:literal => $kind:literal at $line:literal;)*) => {
        [$(Damage { place: $place, new: $new, kind: $kind, line: $line }),*]
    };
}

const DAMAGED: [Damage; 21] = damages! {
    "H 2 0\n" at 1 => 1 at 1;
    "C 2 [Ljava/lang/String;\n" at 2 => 2 at 2;
    "A 0 0 1 1 024 0\n" at 3 => 1 at 3;
    "N 1 2 main ([Ljava/lang/String;)V\nN 2 2 main ([Ljava/lang/String;)V\n" at 5 => 4 at 6;
    "C 2 Bo%78\n" at 4 => 1 at 4;
    "C 2 Box \n" at 4 => 1 at 4;
    "A 2 0 2 2 15 0\n" at 7 => 1 at 7;
    "A 2 0 2 3 16 0\n" at 7 => 3 at 7;
    "E 1 0 1\n" at 8 => 2 at 8;
    "F 5 3\n" at 9 => 2 at 12;
    "F 6 2\n" at 9 => 2 at 12;
    "D 1 6\n" at 10 => 2 at 10;
    "D 3 3\n" at 10 => 3 at 10;
    "D 1 3\n" at 11 => 2 at 11;
    "D 2 1\n" at 11 => 2 at 11;
    "Z 5 4\n" at 12 => 1 at 12;
    "C 3 Other\nZ 5 0\n" at 12 => 2 at 12;
    "" at 12 => 5 at 12;
    "Z 5 0" at 12 => 5 at 12;
    "Z 5 0\nZ 5 0\n" at 12 => 6 at 13;
    "Z 5 0\nZ" at 12 => 6 at 13;
};

/// A death that was reported at an earlier flush.
const DEAD_TWICE: &str = "H 1 1
C 1 [Ljava/lang/String;
A 0 0 1 1 24 0
C 2 Box
N 1 2 main ([Ljava/lang/String;)V
M 1 0 1 0
F 1 0
A 2 0 2 2 16 0
F 2 0
F 3 1
D 2 2
E 4 0 1
F 4 1
D 2 2
Z 4 1
";

/// The trace of a text that is read in pieces of so many bytes.
pub fn read(alloc: Global, text: &[u8], step: usize) -> Result<Trace, TraceFault> {
    let mut reader = TextReader::begin(alloc);
    for piece in text.chunks(step.max(1)) {
        reader.feed(piece)?;
    }
    reader.finish()
}

fn reads_back(rt: &impl Abort, alloc: Global, text: &[u8]) -> Result<(), Fail> {
    for step in [1, 3, text.len()] {
        let trace = read(alloc, text, step)?;
        let mut again = Vec::new(alloc);
        for line in trace.lines() {
            write_line(line, &mut again)?;
        }
        assert_eq!(rt; again.as_slice(), text, "in pieces of {step}");
    }
    Ok(())
}

#[test]
fn pieces(rt: HostRuntime) -> Result<(), Fail> {
    let alloc = rt.alloc();
    reads_back(&rt, alloc, THREADS.as_bytes())?;
    reads_back(&rt, alloc, UNWOUND.as_bytes())
}

/// The trace with that line.
fn damaged_box(alloc: Global, damage: &Damage) -> Result<Vec<u8>, Fail> {
    let mut text = Vec::new(alloc);
    for (i, old) in BOX.split(|byte| *byte == b'\n').enumerate() {
        if i + 1 == damage.place {
            text.extend_from_slice(damage.new.as_bytes())?;
        } else if !old.is_empty() {
            text.extend_from_slice(old)?;
            text.push(b'\n')?;
        }
    }
    Ok(text)
}

fn fault_of(alloc: Global, text: &[u8]) -> Option<TraceFault> {
    read(alloc, text, 7).err()
}

#[test]
fn damaged(rt: HostRuntime) -> Result<(), Fail> {
    let alloc = rt.alloc();
    for damage in &DAMAGED {
        let text = damaged_box(alloc, damage)?;
        let fault = fault_of(alloc, text.as_slice());
        let wanted = TraceFault::At {
            kind: damage.kind,
            line: damage.line,
        };
        assert_eq!(rt;
            fault,
            Some(wanted),
            "line {} made {}",
            damage.place,
            damage.new
        );
    }
    let twice = fault_of(alloc, DEAD_TWICE.as_bytes());
    assert_eq!(rt; twice, Some(TraceFault::At { kind: 4, line: 14 }));
    let none = fault_of(alloc, &[]);
    assert_eq!(rt; none, Some(TraceFault::At { kind: 5, line: 1 }));
    Ok(())
}
