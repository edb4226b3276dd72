//! Each read and each write of a run that fails, in turn; and a second thread whose event has no meaning.

use crate::traces::{BAD, Traced, USE, USE_TRACE, beginning, files_of, is_ill_typed};
use et_files::Status;
use et_io::{GatheringMemSink, MemFiles, MemSink};
use et_test_runs::{answer, is_answered, run_process, words_of};
use std::alloc::Global;
use std::process::Abort;
use std::test::Fail;

const USE_LINE: &str = "trace Use.class Bad.class";

/// The files of that line.
fn use_files(alloc: Global) -> Result<MemFiles, Fail> {
    files_of(alloc, &[("Use.class", USE), ("Bad.class", BAD)])
}

/// The trace is written to a sink of which one put fails, the first, the second and so on up to the last: what it took is a
/// prefix of the trace. Without that fault the trace is whole.
#[test]
fn each_put_of_a_trace_fails_in_turn(rt: HostRuntime) -> Result<(), Fail> {
    let alloc = rt.alloc();
    for call in 1..=9 {
        let mut files = use_files(alloc)?;
        let mut out = MemSink::begin(alloc, 1000);
        let mut err = MemSink::begin(alloc, 1000);
        out.fail_at(call)?;
        let status = answer(alloc, USE_LINE, &mut files, &mut out, &mut err)?;
        // the starting state, the events 1, 3, 6, 7, 10 and 13, and the end are put
        if call <= 8 {
            assert_eq!(rt; status, Status::WriteFault);
            assert!(rt; USE_TRACE.starts_with(out.bytes()));
        } else {
            assert_eq!(rt; status, Status::Done);
            assert_eq!(rt; out.bytes(), USE_TRACE);
            assert!(rt; err.bytes().is_empty());
        }
    }
    Ok(())
}

/// An array that is filled with 6,000 objects.
const FILLED: &str =
    "class Filled java/lang/Object 0021\nmethod main ([Ljava/lang/String;)V 0009 4 3\nsipush 6000\n\
    anewarray java/lang/Object\nastore 1\niconst_0\nistore 2\ngoto test\nnext:\naload 1\niload 2\n\
    new java/lang/Object\naastore\niinc 2 1\ntest:\niload 2\nsipush 6000\nif_icmplt next\nreturn\nend\n";

/// The lines of its trace up to the last flush: from event 13 on, each eighth event makes an object, and the next one stores it.
fn filled_lines(alloc: Global) -> Result<String, Fail> {
    let mut lines = beginning(alloc, "Filled", 0)?;
    lines.push_str("C 3 [Ljava/lang/Object;\nA 3 0 2 3 48024 6000\nC 4 java/lang/Object\n")?;
    let mut event = 13u32;
    for index in 0..6000_u32 {
        let stored = event.saturating_add(1);
        let object = index.saturating_add(3);
        lines.push_str(&format!(in alloc; "A {event} 0 {object} 4 16 0\n")?)?;
        lines.push_str(&format!(in alloc; "U {stored} 0 2 {index} 0 {object}\n")?)?;
        event = event.saturating_add(8);
    }
    lines.push_str("E 48011 0 1\n")?;
    Ok(lines)
}

/// The lines of the last flush, in the two pieces in which they are put: one takes those up to 64 KiB, and the next one the others
/// with the Z line.
fn last_lines(alloc: Global) -> Result<(String, String), Fail> {
    let mut first = String::from_str(alloc, "F 48012 6002\n")?;
    let mut second = String::new(alloc);
    for object in 1..6003_u32 {
        let line = format!(in alloc; "D {object} 48010\n")?;
        if first.len() < 65_536 {
            first.push_str(&line)?;
        } else {
            second.push_str(&line)?;
        }
    }
    second.push_str("Z 48012 0\n")?;
    Ok((first, second))
}

/// Where this put fails, the run ends with this status, and these bytes were taken.
fn is_cut_at(
    rt: &impl Abort,
    alloc: Global,
    call: u32,
    status: Status,
    taken: &[u8],
) -> Result<(), Fail> {
    let mut files = files_of(alloc, &[("Filled.class", FILLED)])?;
    let mut out = MemSink::begin(alloc, 1_000_000);
    let mut err = MemSink::begin(alloc, 1000);
    out.fail_at(u64::from(call))?;
    let found = answer(alloc, "trace Filled.class", &mut files, &mut out, &mut err)?;
    assert_eq!(rt; found, status);
    assert_eq!(rt; out.bytes(), taken);
    Ok(())
}

/// The lines of a flush take more than 64 KiB. Where the first put of them fails, none was taken, and where the second does, those
/// of the first were.
#[test]
fn the_lines_of_a_flush_are_put_in_pieces(rt: HostRuntime) -> Result<(), Fail> {
    let alloc = rt.alloc();
    let mut taken = filled_lines(alloc)?;
    let (first, second) = last_lines(alloc)?;
    // the starting state, the events 1 and 3, two for each object, and event 48,011 are put before
    is_cut_at(&rt, alloc, 12_005, Status::WriteFault, taken.as_bytes())?;
    taken.push_str(&first)?;
    is_cut_at(&rt, alloc, 12_006, Status::WriteFault, taken.as_bytes())?;
    taken.push_str(&second)?;
    is_cut_at(&rt, alloc, 12_007, Status::Done, taken.as_bytes())
}

/// The trace is written to a sink that gathers, of which one call fails, each put in turn and then the call that hands on:
/// nothing of the trace is handed on. Without that fault all of it is.
#[test]
fn each_call_of_a_gathering_sink_fails_in_turn(rt: HostRuntime) -> Result<(), Fail> {
    let alloc = rt.alloc();
    for call in 1..=10 {
        let mut files = use_files(alloc)?;
        let mut out = GatheringMemSink::begin(alloc);
        let mut err = MemSink::begin(alloc, 1000);
        out.fail_at(call)?;
        let words = words_of(alloc, USE_LINE)?;
        let status = run_process(alloc, Ok(words), &mut files, &mut out, &mut err);
        // eight puts, as above, and one call that hands on
        if call <= 9 {
            assert_eq!(rt; status, Status::WriteFault);
            assert!(rt; out.handed().is_empty());
            assert_eq!(rt; err.bytes(), b"elephant: write fault\n".as_slice());
        } else {
            assert_eq!(rt; status, Status::Done);
            assert_eq!(rt; out.handed(), USE_TRACE);
            assert!(rt; err.bytes().is_empty());
        }
    }
    Ok(())
}

/// The files are read, and one read fails, the first, the second and so on up to the last: nothing is put.
#[test]
fn each_read_of_a_run_fails_in_turn(rt: HostRuntime) -> Result<(), Fail> {
    let alloc = rt.alloc();
    for call in 1..=3 {
        let mut files = use_files(alloc)?;
        let mut out = MemSink::begin(alloc, 1000);
        let mut err = MemSink::begin(alloc, 1000);
        files.fail_at(call)?;
        let status = answer(alloc, USE_LINE, &mut files, &mut out, &mut err)?;
        // each file is read once
        if call <= 2 {
            assert_eq!(rt; status, Status::ReadFault);
            assert!(rt; out.bytes().is_empty());
            assert!(rt; err.bytes().starts_with(b"elephant: read fault "));
        } else {
            assert_eq!(rt; status, Status::Done);
            assert_eq!(rt; out.bytes(), USE_TRACE);
        }
    }
    Ok(())
}

/// A thread whose method takes from an empty stack.
const SAD: &str = "class Sad java/lang/Thread 0021\nmethod <init> ()V 0001 1 1\naload 0\n\
    invokespecial java/lang/Thread <init> ()V\nreturn\nend\nmethod run ()V 0001 1 1\npop\nreturn\nend\n\
    method main ([Ljava/lang/String;)V 0009 2 1\nnew Sad\ndup\ninvokespecial Sad <init> ()V\n\
    invokevirtual Sad start ()V\nreturn\nend\n";

const SAD_TRACE: Traced = Traced {
    line: "trace Sad.class",
    interval: 0,
    trace: "A 2 0 2 2 24 0\nN 2 2 <init> ()V\nM 4 0 2 2\nE 7 0 2\nE 9 0 1\nN 3 2 run ()V\n\
         M 11 1 3 2\nF 11 1\nD 1 8\nZ 11 2\n",
};

/// The line of an event without a meaning names its thread.
#[test]
fn a_second_thread_is_ill_typed(rt: HostRuntime) -> Result<(), Fail> {
    let alloc = rt.alloc();
    let listings = [("Sad.class", SAD)];
    let mut files = files_of(alloc, &listings)?;
    let refusal = b"elephant: ill typed 1 Sad run ()V 0\n";
    is_answered(
        alloc,
        &mut files,
        "run Sad.class",
        Status::IllTyped,
        b"",
        refusal,
    )?;
    is_ill_typed(alloc, "Sad", &listings, &SAD_TRACE, "1 Sad run ()V 0")
}
