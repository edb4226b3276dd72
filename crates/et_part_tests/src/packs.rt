//! Binary traces read whole and in pieces, and the faults of damaged ones.
use crate::traces::BOX as LINES;
use et_binary::BinaryReader;
use et_text::{Trace, TraceFault, write_line};
use std::alloc::Global;
use std::process::Abort;
use std::test::Fail;

/// The trace of twelve lines, as records.
const BOX: [u8; 237] = *b"\xfeET2\
    H\0\0\0\0\0\0\0\0\
    C\0\0\0\x01\0\0\0\x13[Ljava/lang/String;\
    A\0\0\0\0\0\0\0\0\0\0\0\0\x01\0\0\0\x01\0\0\0\0\0\0\0\x18\0\0\0\0\
    C\0\0\0\x02\0\0\0\x03Box\
    N\0\0\0\x01\0\0\0\x02\0\0\0\x04main\0\0\0\x16([Ljava/lang/String;)V\
    M\0\0\0\0\0\0\0\x01\0\0\0\0\x01\0\0\0\0\
    A\0\0\0\0\0\0\0\x02\0\0\0\0\x02\0\0\0\x02\0\0\0\0\0\0\0\x10\0\0\0\0\
    E\0\0\0\0\0\0\0\x04\0\0\0\0\x01\
    F\0\0\0\0\0\0\0\x05\0\0\0\x02\
    D\0\0\0\x01\0\0\0\0\0\0\0\x03\
    D\0\0\0\x02\0\0\0\0\0\0\0\x02\
    Z\0\0\0\0\0\0\0\x05\0";

/// A byte that is changed, and the fault that follows.
#[derive(Clone, Copy)]
struct Damage {
    place: usize,
    new: u8,
    kind: u8,
    /// The record of the fault.
    line: u64,
}

macro_rules! damages {
    ($($new:literal at $place:literal => $kind:literal at $line:literal;)*) => {
        [$(Damage { place: $place, new: $new, kind: $kind, line: $line }),*]
    };
}

/// Record 2 has number 2, the first object the size 15, the second one class 3, the return is at event 1, and so on.
const DAMAGED: [Damage; 16] = damages! {
    b'H' at 0 => 1 at 1;
    b'1' at 3 => 1 at 1;
    b'B' at 4 => 1 at 1;
    2 at 7 => 1 at 1;
    2 at 17 => 2 at 2;
    15 at 66 => 1 at 3;
    3 at 161 => 3 at 7;
    15 at 169 => 1 at 7;
    1 at 182 => 2 at 8;
    6 at 196 => 2 at 12;
    3 at 200 => 2 at 12;
    3 at 205 => 3 at 10;
    6 at 213 => 2 at 10;
    1 at 218 => 2 at 11;
    3 at 218 => 3 at 11;
    4 at 236 => 1 at 12;
};

/// How many bytes are there, and the number of the record that is not whole.
const CUT: [(usize, u64); 14] = [
    (0, 1),
    (1, 1),
    (4, 1),
    (12, 1),
    (13, 2),
    (40, 2),
    (71, 4),
    (125, 5),
    (126, 6),
    (173, 7),
    (201, 10),
    (226, 11),
    (227, 12),
    (236, 12),
];

fn read(alloc: Global, bytes: &[u8], step: usize) -> Result<Trace, TraceFault> {
    let mut reader = BinaryReader::begin(alloc);
    for piece in bytes.chunks(step.max(1)) {
        reader.feed(piece)?;
    }
    reader.finish()
}

#[test]
fn pieces(rt: HostRuntime) -> Result<(), Fail> {
    let alloc = rt.alloc();
    // the lines of the text, but for the version
    let mut wanted = Vec::from_slice(alloc, b"H 2 0\n")?;
    wanted.extend_from_slice(&LINES[6..])?;
    for step in [1, 2, 3, 7, 64, 237] {
        let trace = read(alloc, &BOX, step)?;
        let mut lines = Vec::new(alloc);
        for line in trace.lines() {
            write_line(line, &mut lines)?;
        }
        assert_eq!(rt; lines.as_slice(), wanted.as_slice(), "in pieces of {step}");
    }
    Ok(())
}

#[test]
fn damaged(rt: HostRuntime) -> Result<(), Fail> {
    let alloc = rt.alloc();
    for damage in &DAMAGED {
        let Damage {
            place,
            new,
            kind,
            line,
        } = *damage;
        let mut bytes = Vec::new(alloc);
        for (i, old) in BOX.iter().enumerate() {
            bytes.push(if i == place { new } else { *old })?;
        }
        let wanted = TraceFault::At { kind, line };
        for step in [1, 7, 237] {
            let fault = read(alloc, bytes.as_slice(), step).err();
            assert_eq!(rt;
                fault,
                Some(wanted),
                "byte {place} made {new}, in pieces of {step}"
            );
        }
    }
    Ok(())
}

#[test]
fn cut_off(rt: HostRuntime) -> Result<(), Fail> {
    let alloc = rt.alloc();
    for (length, line) in CUT {
        let mut front = Vec::new(alloc);
        for (i, byte) in BOX.iter().enumerate() {
            if i < length {
                front.push(*byte)?;
            }
        }
        let fault = read(alloc, front.as_slice(), 5).err();
        assert_eq!(rt;
            fault,
            Some(TraceFault::At { kind: 5, line }),
            "{length} bytes"
        );
    }
    Ok(())
}
