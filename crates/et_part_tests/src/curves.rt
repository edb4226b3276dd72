//! The curve of a whole trace.
use crate::traces::{BOX, read};
use et_io::MemSink;
use et_replay::curve_lines;
use std::process::Abort;
use std::test::Fail;

#[test]
fn curve_of_a_trace(rt: HostRuntime) -> Result<(), Fail> {
    let alloc = rt.alloc();
    let trace = read(alloc, &BOX, BOX.len())?;
    let mut sink = MemSink::begin(alloc, 7);
    curve_lines(alloc, &trace, &mut sink)?;
    assert_eq!(rt; sink.bytes(), b"0 24\n1 24\n2 40\n4 0\n".as_slice());
    Ok(())
}
