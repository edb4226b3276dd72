//! Threads that take turns by words, and a run that keeps many objects over many flushes.

use crate::traces::{SLF, Traced, WRK, are_traced, beginning, files_of};
use et_files::Status;
use et_test_runs::is_answered;
use std::alloc::Global;
use std::test::Fail;

/// Two threads at one monitor, of which the second one comes first.
const WRK_OF_THE_SECOND: &str =
    "A 2 0 2 2 24 0\nN 2 2 <init> ()V\nM 4 0 2 2\nE 7 0 2\nN 3 2 run ()V\nM 9 1 3 2\n\
     N 4 2 add ()V\nM 10 1 4 0\nC 3 java/lang/Object\nA 11 1 3 3 16 0\nU 12 1 0 0 0 3\nE 13 1 4\n\
     E 14 1 3\nM 16 0 4 0\nA 17 0 4 3 16 0\nU 18 0 0 0 3 4\nE 19 0 4\nE 20 0 1\nF 21 3\nD 1 19\n\
     D 2 14\nD 3 17\nZ 21 0\n";

/// Two threads at one monitor.
const WRK_TRACES: [Traced; 5] = [
    Traced {
        line: "trace --limit 200 --words 0 Wrk.class",
        interval: 0,
        trace: "A 2 0 2 2 24 0\nN 2 2 <init> ()V\nM 4 0 2 2\nE 7 0 2\nN 3 2 add ()V\nM 9 0 3 0\n\
         C 3 java/lang/Object\nA 10 0 3 3 16 0\nU 11 0 0 0 0 3\nE 12 0 3\nE 13 0 1\nN 4 2 run ()V\n\
         M 15 1 4 2\nM 16 1 3 0\nA 17 1 4 3 16 0\nU 18 1 0 0 3 4\nE 19 1 3\nE 20 1 4\nF 21 3\n\
         D 1 12\nD 2 20\nD 3 17\nZ 21 0\n",
    },
    Traced {
        line: "trace --limit 200 --words 1 Wrk.class",
        interval: 0,
        trace: WRK_OF_THE_SECOND,
    },
    Traced {
        line: "trace --limit 200 --words 63 Wrk.class",
        interval: 0,
        trace: WRK_OF_THE_SECOND,
    },
    Traced {
        line: "trace --limit 200 --words 1,0 Wrk.class",
        interval: 0,
        trace: "A 2 0 2 2 24 0\nN 2 2 <init> ()V\nM 4 0 2 2\nE 7 0 2\nN 3 2 add ()V\nM 9 0 3 0\n\
         N 4 2 run ()V\nM 10 1 4 2\nC 3 java/lang/Object\nA 11 0 3 3 16 0\nU 13 0 0 0 0 3\n\
         E 15 0 3\nM 16 1 3 0\nE 17 0 1\nA 18 1 4 3 16 0\nU 20 1 0 0 3 4\nE 21 1 3\nE 22 1 4\n\
         F 23 3\nD 1 16\nD 2 22\nD 3 19\nZ 23 0\n",
    },
    Traced {
        line: "trace --limit 200 --words 0,0,1,1 Wrk.class",
        interval: 0,
        trace: "A 2 0 2 2 24 0\nN 2 2 <init> ()V\nM 4 0 2 2\nE 7 0 2\nN 3 2 add ()V\nM 9 0 3 0\n\
         N 4 2 run ()V\nM 10 1 4 2\nC 3 java/lang/Object\nA 12 0 3 3 16 0\nU 13 0 0 0 0 3\n\
         E 16 0 3\nE 17 0 1\nM 18 1 3 0\nA 19 1 4 3 16 0\nU 21 1 0 0 3 4\nE 22 1 3\nE 23 1 4\n\
         F 24 3\nD 1 16\nD 2 23\nD 3 20\nZ 24 0\n",
    },
];

/// A thread that joins itself, and is the first to go on.
const SLF_OF_THE_SECOND: &str =
    "A 2 0 2 2 24 0\nN 2 2 <init> ()V\nM 4 0 2 2\nE 7 0 2\nN 3 2 run ()V\nM 9 1 3 2\nF 200 0\n\
     Z 200 1\n";

/// The same, and then the threads take turns.
const SLF_OF_BOTH: &str =
    "A 2 0 2 2 24 0\nN 2 2 <init> ()V\nM 4 0 2 2\nE 7 0 2\nE 9 0 1\nN 3 2 run ()V\nM 10 1 3 2\n\
     F 200 1\nD 1 8\nZ 200 1\n";

/// A thread that joins itself and so waits up to the limit.
const SLF_TRACES: [Traced; 5] = [
    Traced {
        line: "trace --limit 200 --words 0 Slf.class",
        interval: 0,
        trace: "A 2 0 2 2 24 0\nN 2 2 <init> ()V\nM 4 0 2 2\nE 7 0 2\nE 9 0 1\nN 3 2 run ()V\n\
         M 11 1 3 2\nF 200 1\nD 1 8\nZ 200 1\n",
    },
    Traced {
        line: "trace --limit 200 --words 1 Slf.class",
        interval: 0,
        trace: SLF_OF_THE_SECOND,
    },
    Traced {
        line: "trace --limit 200 --words 63 Slf.class",
        interval: 0,
        trace: SLF_OF_THE_SECOND,
    },
    Traced {
        line: "trace --limit 200 --words 1,0 Slf.class",
        interval: 0,
        trace: SLF_OF_BOTH,
    },
    Traced {
        line: "trace --limit 200 --words 0,0,1,1 Slf.class",
        interval: 0,
        trace: SLF_OF_BOTH,
    },
];

#[test]
fn threads_by_words(rt: HostRuntime) -> Result<(), Fail> {
    are_traced(rt.alloc(), "Wrk", &[("Wrk.class", WRK)], &WRK_TRACES)?;
    are_traced(rt.alloc(), "Slf", &[("Slf.class", SLF)], &SLF_TRACES)
}

/// An array that is filled with 2,000 objects.
const MANY: &str =
    "class Many java/lang/Object 0021\nmethod main ([Ljava/lang/String;)V 0009 4 3\nsipush 2000\n\
    anewarray java/lang/Object\nastore 1\niconst_0\nistore 2\ngoto test\nnext:\naload 1\niload 2\n\
    new java/lang/Object\naastore\niinc 2 1\ntest:\niload 2\nsipush 2000\nif_icmplt next\nreturn\nend\n";

/// Its trace: from event 13 on, each eighth event makes an object, and the next one stores it; nothing dies before the end.
fn many_trace(alloc: Global) -> Result<String, Fail> {
    let mut trace = beginning(alloc, "Many", 100)?;
    trace.push_str("C 3 [Ljava/lang/Object;\nA 3 0 2 3 16024 2000\nC 4 java/lang/Object\n")?;
    let mut object: u32 = 3;
    for event in 4..16011_u32 {
        if event >= 13 && event % 8 == 5 && object <= 2002 {
            trace.push_str(&format!(in alloc; "A {event} 0 {object} 4 16 0\n")?)?;
        }
        if event >= 14 && event % 8 == 6 && object <= 2002 {
            let index = object.saturating_sub(3);
            trace.push_str(&format!(in alloc; "U {event} 0 2 {index} 0 {object}\n")?)?;
            object += 1;
        }
        if event % 100 == 0 {
            trace.push_str(&format!(in alloc; "F {event} 0\n")?)?;
        }
    }
    trace.push_str("E 16011 0 1\nF 16012 2002\n")?;
    for object in 1..2003_u32 {
        trace.push_str(&format!(in alloc; "D {object} 16010\n")?)?;
    }
    trace.push_str("Z 16012 0\n")?;
    Ok(trace)
}

#[test]
fn many_objects_over_many_flushes(rt: HostRuntime) -> Result<(), Fail> {
    let alloc = rt.alloc();
    let mut files = files_of(alloc, &[("Many.class", MANY)])?;
    let trace = many_trace(alloc)?;
    let line = "trace --flush 100 Many.class";
    is_answered(alloc, &mut files, line, Status::Done, trace.as_bytes(), b"")
}
