//! Programs of the whole instruction set, and their traces.

use et_asm::assemble;
use et_files::Status;
use et_io::MemFiles;
use et_test_runs::is_answered;
use std::alloc::Global;
use std::test::Fail;

const NODE: &str =
    "class Node java/lang/Object 0021\nfield next LNode; 0000\nmethod main ([Ljava/lang/String;)V 0009 4 1\n\
    new Node\nnew Node\ndup2\nputfield Node next LNode;\nswap\nputfield Node next LNode;\nreturn\nend\n";

const CHAIN: &str =
    "class Chain java/lang/Object 0021\nfield next LChain; 0000\nmethod main ([Ljava/lang/String;)V 0009 4 2\n\
    new Chain\nastore 1\nnew Chain\ndup\naload 1\nputfield Chain next LChain;\nnew Chain\ndup_x1\nswap\n\
    putfield Chain next LChain;\naconst_null\nastore 1\nnop\nnop\npop\nreturn\nend\n";

const REV: &str =
    "class Rev java/lang/Object 0021\nfield next LRev; 0000\nmethod main ([Ljava/lang/String;)V 0009 5 1\n\
    new java/lang/ref/WeakReference\ndup\nnew Rev\ndup\nnew Rev\nputfield Rev next LRev;\n\
    invokespecial java/lang/ref/WeakReference <init> (Ljava/lang/Object;)V\nnop\nnop\ndup\n\
    invokevirtual java/lang/ref/WeakReference get ()Ljava/lang/Object;\nifnull q\nnop\nq:\npop\nreturn\nend\n";

const CLR: &str =
    "class Clr java/lang/Object 0021\nfield next LClr; 0000\nmethod main ([Ljava/lang/String;)V 0009 5 1\n\
    new java/lang/ref/WeakReference\ndup\nnew Clr\ndup\nnew Clr\nputfield Clr next LClr;\n\
    invokespecial java/lang/ref/WeakReference <init> (Ljava/lang/Object;)V\ndup\n\
    invokevirtual java/lang/ref/WeakReference clear ()V\npop\nreturn\nend\n";

const TWO: &str = "class Two java/lang/Object 0021\nmethod main ([Ljava/lang/String;)V 0009 5 1\n\
    new java/lang/ref/WeakReference\ndup\nnew java/lang/ref/WeakReference\ndup\nnew Two\n\
    invokespecial java/lang/ref/WeakReference <init> (Ljava/lang/Object;)V\n\
    invokespecial java/lang/ref/WeakReference <init> (Ljava/lang/Object;)V\nnop\nnop\n\
    invokevirtual java/lang/ref/WeakReference get ()Ljava/lang/Object;\npop\nreturn\nend\n";

const DIV: &str =
    "class Div java/lang/Object 0021\nmethod main ([Ljava/lang/String;)V 0009 4 1\na:\nnew Div\nnew Div\n\
    iconst_1\niconst_0\nidiv\nb:\npop\nreturn\ncatch a b b java/lang/ArithmeticException\nend\n";

const SYN: &str =
    "class Syn java/lang/Object 0021\nmethod main ([Ljava/lang/String;)V 0009 1 1\na:\ninvokestatic Syn f ()V\n\
    b:\nreturn\nh:\npop\nreturn\ncatch a b h *\nend\nmethod f ()V 0029 1 0\ninvokestatic Syn g ()V\nreturn\n\
    end\nmethod g ()V 0029 1 0\ninvokestatic Syn k ()V\nreturn\nend\nmethod k ()V 0029 1 0\naconst_null\n\
    athrow\nend\n";

pub const USE: &str =
    "class Use java/lang/Object 0021\nmethod main ([Ljava/lang/String;)V 0009 1 1\na:\ngetstatic Bad x I\nb:\n\
    pop\nreturn\nh:\npop\nc:\ngetstatic Bad x I\nd:\npop\nreturn\nk:\npop\nreturn\ncatch a b h *\n\
    catch c d k *\nend\n";

pub const BAD: &str =
    "class Bad java/lang/Object 0021\nfield x I 0008\nmethod <clinit> ()V 0008 2 0\niconst_1\niconst_0\nidiv\n\
    pop\nreturn\nend\n";

/// The trace of the classes `Use` and `Bad`, of which the one catches what the initialization of the other throws.
pub const USE_TRACE: &[u8] =
    b"H 1 0\nC 1 [Ljava/lang/String;\nA 0 0 1 1 24 0\nC 2 Use\nN 1 2 main ([Ljava/lang/String;)V\nM 1 0 1 0\n\
    C 3 Bad\nN 2 3 <clinit> ()V\nM 3 0 2 0\nC 4 java/lang/ArithmeticException\nA 6 0 2 4 32 0\nX 7 0 2 2\n\
    C 5 java/lang/ExceptionInInitializerError\nA 7 0 3 5 32 0\nU 7 0 3 1 0 2\n\
    C 6 java/lang/NoClassDefFoundError\nA 10 0 4 6 32 0\nE 13 0 1\nF 14 4\nD 1 12\nD 2 8\nD 3 8\nD 4 11\n\
    Z 14 0\n";

const DEEP: &str =
    "class Deep java/lang/Object 0021\nmethod main ([Ljava/lang/String;)V 0009 1 1\ninvokestatic Deep f ()V\n\
    return\nend\nmethod f ()V 0009 1 0\ninvokestatic Deep f ()V\nreturn\nend\n";

const BIG_OVER: &str =
    "class Big java/lang/Object 0021\nmethod main ([Ljava/lang/String;)V 0009 1 1\nldc int 67108865\n\
    anewarray java/lang/Object\npop\nreturn\nend\n";

const ILL: &str =
    "class Ill java/lang/Object 0021\nmethod main ([Ljava/lang/String;)V 0009 2 1\niadd\nreturn\nend\n";

const STR: &str =
    "class Str java/lang/Object 0021\nmethod main ([Ljava/lang/String;)V 0009 2 1\nldc string a\nldc string a\n\
    if_acmpeq q\nnop\nq:\nreturn\nend\n";

const MUL: &str =
    "class Mul java/lang/Object 0021\nmethod main ([Ljava/lang/String;)V 0009 2 1\niconst_2\niconst_1\n\
    multianewarray [[I 2\npop\nreturn\nend\n";

pub const WRK: &str =
    "class Wrk java/lang/Thread 0021\nfield top Ljava/lang/Object; 0008\nmethod <init> ()V 0001 1 1\naload 0\n\
    invokespecial java/lang/Thread <init> ()V\nreturn\nend\nmethod run ()V 0001 1 1\ninvokestatic Wrk add ()V\n\
    return\nend\nmethod add ()V 0029 1 0\nnew java/lang/Object\nputstatic Wrk top Ljava/lang/Object;\nreturn\n\
    end\nmethod main ([Ljava/lang/String;)V 0009 2 1\nnew Wrk\ndup\ninvokespecial Wrk <init> ()V\n\
    invokevirtual Wrk start ()V\ninvokestatic Wrk add ()V\nreturn\nend\n";

pub const SLF: &str = "class Slf java/lang/Thread 0021\nmethod <init> ()V 0001 1 1\naload 0\n\
    invokespecial java/lang/Thread <init> ()V\nreturn\nend\nmethod run ()V 0001 1 1\naload 0\n\
    invokevirtual Slf join ()V\nreturn\nend\nmethod main ([Ljava/lang/String;)V 0009 2 1\nnew Slf\ndup\n\
    invokespecial Slf <init> ()V\ninvokevirtual Slf start ()V\nreturn\nend\n";

const MON: &str =
    "class Mon java/lang/Object 0021\nmethod main ([Ljava/lang/String;)V 0009 2 1\nnew Mon\nmonitorexit\nreturn\n\
    end\n";

/// A run of a class with `main` that is traced.
#[derive(Clone, Copy)]
pub struct Traced {
    /// The words, with a space between.
    pub line: &'static str,
    /// The interval of flushes.
    pub interval: u32,
    /// How the trace goes on behind the entry of `main`.
    pub trace: &'static str,
}

/// What the line `make queue` of a listing here stands for.
const MAKE_QUEUE: &str = "new java/lang/ref/ReferenceQueue\ndup\n\
    invokespecial java/lang/ref/ReferenceQueue <init> ()V\n";

/// What the line `make reference` stands for: a reference that was made is given its referent and its queue.
const MAKE_REFERENCE: &str =
    "invokespecial java/lang/ref/WeakReference <init> (Ljava/lang/Object;Ljava/lang/ref/ReferenceQueue;)V\n";

/// What the line `poll` stands for.
const POLL: &str = "invokevirtual java/lang/ref/ReferenceQueue poll ()Ljava/lang/ref/Reference;\n";

/// The listing with what these lines stand for.
fn whole(alloc: Global, listing: &str) -> Result<String, Fail> {
    let mut text = String::from_str(alloc, "")?;
    for line in listing.lines() {
        match line {
            "make queue" => text.push_str(MAKE_QUEUE)?,
            "make reference" => text.push_str(MAKE_REFERENCE)?,
            "poll" => text.push_str(POLL)?,
            other => text.push_str(&format!(in alloc; "{other}\n")?)?,
        }
    }
    Ok(text)
}

/// Files with the class of each listing, by its path.
pub fn files_of(alloc: Global, listings: &[(&str, &str)]) -> Result<MemFiles, Fail> {
    let mut files = MemFiles::begin(alloc);
    for (path, listing) in listings {
        let class = assemble(alloc, whole(alloc, listing)?.as_bytes())?;
        files.hold(path, class.as_slice())?;
    }
    Ok(files)
}

/// What the trace of a class begins with: the argument array, and the entry of `main`.
pub fn beginning(alloc: Global, class: &str, interval: u32) -> Result<String, Fail> {
    Ok(format!(in alloc;
        "H 1 {interval}\nC 1 [Ljava/lang/String;\nA 0 0 1 1 24 0\nC 2 {class}\n\
         N 1 2 main ([Ljava/lang/String;)V\nM 1 0 1 0\n"
    )?)
}

/// The class of this name is traced so, with this status and this line of a refusal.
fn is_traced(
    alloc: Global,
    files: &mut MemFiles,
    class: &str,
    row: &Traced,
    status: Status,
    refusal: &[u8],
) -> Result<(), Fail> {
    let mut trace = beginning(alloc, class, row.interval)?;
    trace.push_str(row.trace)?;
    is_answered(alloc, files, row.line, status, trace.as_bytes(), refusal)
}

/// The class of this name is traced so in each row, up to its end, where the files hold the classes of these listings.
pub fn are_traced(
    alloc: Global,
    class: &str,
    listings: &[(&str, &str)],
    rows: &[Traced],
) -> Result<(), Fail> {
    let mut files = files_of(alloc, listings)?;
    for row in rows {
        is_traced(alloc, &mut files, class, row, Status::Done, b"")?;
    }
    Ok(())
}

/// The class of this name is traced so up to an event without a meaning, which stands at this thread, method and pc.
pub fn is_ill_typed(
    alloc: Global,
    class: &str,
    listings: &[(&str, &str)],
    row: &Traced,
    place: &str,
) -> Result<(), Fail> {
    let mut files = files_of(alloc, listings)?;
    let refusal = format!(in alloc; "elephant: ill typed {place}\n")?;
    let said = refusal.as_bytes();
    is_traced(alloc, &mut files, class, row, Status::IllTyped, said)
}

const NODE_TRACES: [Traced; 1] = [Traced {
    line: "trace Node.class",
    interval: 0,
    trace: "A 2 0 2 2 24 0\nA 3 0 3 2 24 0\nU 5 0 2 0 0 3\nU 7 0 3 0 0 2\nE 8 0 1\nF 9 3\n\
         D 1 7\nD 2 6\nD 3 6\nZ 9 0\n",
}];

const CHAIN_TRACES: [Traced; 1] = [Traced {
    line: "trace Chain.class",
    interval: 0,
    trace: "A 2 0 2 2 24 0\nA 4 0 3 2 24 0\nU 7 0 3 0 0 2\nA 8 0 4 2 24 0\nU 11 0 4 0 0 3\n\
         E 17 0 1\nF 18 4\nD 1 16\nD 2 15\nD 3 15\nD 4 15\nZ 18 0\n",
}];

const STR_TRACES: [Traced; 1] = [Traced {
    line: "trace Str.class",
    interval: 0,
    trace: "C 3 java/lang/String\nA 2 0 2 3 16 0\nE 5 0 1\nF 6 1\nD 1 4\nZ 6 0\n",
}];

const MUL_TRACES: [Traced; 1] = [Traced {
    line: "trace Mul.class",
    interval: 0,
    trace: "C 3 [[I\nA 4 0 2 3 40 2\nC 4 [I\nA 4 0 3 4 32 1\nU 4 0 2 0 0 3\nA 4 0 4 4 32 1\n\
         U 4 0 2 1 0 4\nE 6 0 1\nF 7 4\nD 1 5\nD 2 4\nD 3 4\nD 4 4\nZ 7 0\n",
}];

#[test]
fn objects_that_refer_to_each_other(rt: HostRuntime) -> Result<(), Fail> {
    are_traced(rt.alloc(), "Node", &[("Node.class", NODE)], &NODE_TRACES)?;
    are_traced(
        rt.alloc(),
        "Chain",
        &[("Chain.class", CHAIN)],
        &CHAIN_TRACES,
    )?;
    are_traced(rt.alloc(), "Str", &[("Str.class", STR)], &STR_TRACES)?;
    are_traced(rt.alloc(), "Mul", &[("Mul.class", MUL)], &MUL_TRACES)
}

const REV_TRACES: [Traced; 2] = [
    Traced {
        line: "trace Rev.class",
        interval: 0,
        trace: "C 3 java/lang/ref/WeakReference\nA 2 0 2 3 16 0\nA 4 0 3 2 24 0\nA 6 0 4 2 24 0\n\
         U 7 0 3 0 0 4\nE 16 0 1\nF 17 4\nD 1 15\nD 2 14\nD 3 12\nD 4 12\nZ 17 0\n",
    },
    Traced {
        line: "trace --flush 10 Rev.class",
        interval: 10,
        trace: "C 3 java/lang/ref/WeakReference\nA 2 0 2 3 16 0\nA 4 0 3 2 24 0\nA 6 0 4 2 24 0\n\
         U 7 0 3 0 0 4\nF 10 2\nD 3 7\nD 4 7\nE 15 0 1\nF 16 2\nD 1 14\nD 2 13\nZ 16 0\n",
    },
];

const CLR_TRACES: [Traced; 1] = [Traced {
    line: "trace Clr.class",
    interval: 0,
    trace: "C 3 java/lang/ref/WeakReference\nA 2 0 2 3 16 0\nA 4 0 3 2 24 0\nA 6 0 4 2 24 0\n\
         U 7 0 3 0 0 4\nE 12 0 1\nF 13 4\nD 1 11\nD 2 10\nD 3 7\nD 4 7\nZ 13 0\n",
}];

const TWO_TRACES: [Traced; 1] = [Traced {
    line: "trace --flush 10 Two.class",
    interval: 10,
    trace: "C 3 java/lang/ref/WeakReference\nA 2 0 2 3 16 0\nA 4 0 3 3 16 0\nA 6 0 4 2 16 0\n\
         F 10 2\nD 3 7\nD 4 6\nE 13 0 1\nF 14 2\nD 1 12\nD 2 10\nZ 14 0\n",
}];

#[test]
fn weak_references(rt: HostRuntime) -> Result<(), Fail> {
    are_traced(rt.alloc(), "Rev", &[("Rev.class", REV)], &REV_TRACES)?;
    are_traced(rt.alloc(), "Clr", &[("Clr.class", CLR)], &CLR_TRACES)?;
    are_traced(rt.alloc(), "Two", &[("Two.class", TWO)], &TWO_TRACES)
}

const DIV_TRACES: [Traced; 1] = [Traced {
    line: "trace Div.class",
    interval: 0,
    trace: "A 2 0 2 2 16 0\nA 3 0 3 2 16 0\nC 3 java/lang/ArithmeticException\nA 6 0 4 3 32 0\n\
         E 9 0 1\nF 10 4\nD 1 8\nD 2 6\nD 3 6\nD 4 7\nZ 10 0\n",
}];

const SYN_TRACES: [Traced; 1] = [Traced {
    line: "trace Syn.class",
    interval: 0,
    trace: "N 2 2 f ()V\nM 2 0 2 0\nN 3 2 g ()V\nM 3 0 3 0\nN 4 2 k ()V\nM 4 0 4 0\n\
         C 3 java/lang/NullPointerException\nA 6 0 2 3 32 0\nX 7 0 4 2\nX 8 0 3 2\nX 9 0 2 2\n\
         E 12 0 1\nF 13 2\nD 1 11\nD 2 10\nZ 13 0\n",
}];

const MON_TRACES: [Traced; 1] = [Traced {
    line: "trace Mon.class",
    interval: 0,
    trace: "A 2 0 2 2 16 0\nC 3 java/lang/IllegalMonitorStateException\nA 3 0 3 3 32 0\n\
         X 4 0 1 3\nF 5 3\nD 1 3\nD 2 3\nD 3 4\nZ 5 0\n",
}];

#[test]
fn exceptions(rt: HostRuntime) -> Result<(), Fail> {
    are_traced(rt.alloc(), "Div", &[("Div.class", DIV)], &DIV_TRACES)?;
    are_traced(rt.alloc(), "Syn", &[("Syn.class", SYN)], &SYN_TRACES)?;
    are_traced(rt.alloc(), "Mon", &[("Mon.class", MON)], &MON_TRACES)
}

const BIG_OVER_TRACE: Traced = Traced {
    line: "trace BigOver.class",
    interval: 0,
    trace: "F 2 0\nZ 2 3\n",
};

#[test]
fn one_object_too_many(rt: HostRuntime) -> Result<(), Fail> {
    let mut files = files_of(rt.alloc(), &[("BigOver.class", BIG_OVER)])?;
    let refusal = b"elephant: object limit\n";
    is_traced(
        rt.alloc(),
        &mut files,
        "Big",
        &BIG_OVER_TRACE,
        Status::ObjectLimit,
        refusal,
    )
}

const ILL_TRACE: Traced = Traced {
    line: "trace Ill.class",
    interval: 0,
    trace: "F 1 0\nZ 1 2\n",
};

#[test]
fn an_event_without_a_meaning(rt: HostRuntime) -> Result<(), Fail> {
    let listings = [("Ill.class", ILL)];
    is_ill_typed(
        rt.alloc(),
        "Ill",
        &listings,
        &ILL_TRACE,
        "0 Ill main ([Ljava/lang/String;)V 0",
    )
}

const WRK_TRACES: [Traced; 2] = [
    Traced {
        line: "trace --quantum 1 Wrk.class",
        interval: 0,
        trace: "A 2 0 2 2 24 0\nN 2 2 <init> ()V\nM 4 0 2 2\nE 7 0 2\nN 3 2 run ()V\nM 9 1 3 2\n\
         N 4 2 add ()V\nM 10 0 4 0\nC 3 java/lang/Object\nA 12 0 3 3 16 0\nU 14 0 0 0 0 3\n\
         E 16 0 4\nM 17 1 4 0\nE 18 0 1\nA 19 1 4 3 16 0\nU 21 1 0 0 3 4\nE 22 1 4\nE 23 1 3\n\
         F 24 3\nD 1 17\nD 2 23\nD 3 20\nZ 24 0\n",
    },
    Traced {
        line: "trace --words 0,1,1 Wrk.class",
        interval: 0,
        trace: "A 2 0 2 2 24 0\nN 2 2 <init> ()V\nM 4 0 2 2\nE 7 0 2\nN 3 2 add ()V\nM 9 0 3 0\n\
         N 4 2 run ()V\nM 10 1 4 2\nC 3 java/lang/Object\nA 12 0 3 3 16 0\nU 15 0 0 0 0 3\n\
         E 18 0 3\nM 19 1 3 0\nA 20 1 4 3 16 0\nE 21 0 1\nU 22 1 0 0 3 4\nE 23 1 3\nE 25 1 4\n\
         F 26 3\nD 1 20\nD 2 25\nD 3 21\nZ 26 0\n",
    },
];

const SLF_TRACES: [Traced; 1] = [Traced {
    line: "trace --quantum 1 --limit 14 Slf.class",
    interval: 0,
    trace: "A 2 0 2 2 24 0\nN 2 2 <init> ()V\nM 4 0 2 2\nE 7 0 2\nN 3 2 run ()V\nM 9 1 3 2\n\
         E 10 0 1\nF 14 1\nD 1 9\nZ 14 1\n",
}];

#[test]
fn threads_in_turns(rt: HostRuntime) -> Result<(), Fail> {
    are_traced(rt.alloc(), "Wrk", &[("Wrk.class", WRK)], &WRK_TRACES)?;
    are_traced(rt.alloc(), "Slf", &[("Slf.class", SLF)], &SLF_TRACES)
}

/// Calls to the most frames, whose exception leaves each of them.
fn deep_trace(alloc: Global) -> Result<String, Fail> {
    let mut trace = beginning(alloc, "Deep", 0)?;
    trace.push_str("N 2 2 f ()V\n")?;
    for event in 2..1025 {
        trace.push_str(&format!(in alloc; "M {event} 0 2 0\n")?)?;
    }
    trace.push_str("C 3 java/lang/StackOverflowError\nA 1025 0 2 3 32 0\n")?;
    for event in 1026..2049 {
        trace.push_str(&format!(in alloc; "X {event} 0 2 2\n")?)?;
    }
    trace.push_str("X 2049 0 1 2\nF 2050 2\nD 1 2048\nD 2 2049\nZ 2050 0\n")?;
    Ok(trace)
}

#[test]
fn the_most_frames(rt: HostRuntime) -> Result<(), Fail> {
    let alloc = rt.alloc();
    let mut files = files_of(alloc, &[("Deep.class", DEEP)])?;
    let trace = deep_trace(alloc)?;
    let line = "trace Deep.class";
    is_answered(alloc, &mut files, line, Status::Done, trace.as_bytes(), b"")
}
