//! Programs with reference queues, and their traces. The lines `make queue`, `make reference` and `poll` of a listing stand for
//! calls of constructors and methods.

use crate::traces::{Traced, are_traced};
use std::test::Fail;

/// A reference whose referent dies while the reference is on the operand stack, and which is polled.
const QUE: &str = "class Que java/lang/Object 0021\n\
    method main ([Ljava/lang/String;)V 0009 6 2\nmake queue\nastore 1\n\
    new java/lang/ref/WeakReference\ndup\nnew Que\naload 1\nmake reference\nnop\npop\nnop\n\
    aload 1\npoll\npop\nreturn\nend\n";

/// A queue that is dropped while a reference waits in it, which keeps the queue reached.
const GONE: &str = "class Gone java/lang/Object 0021\n\
    method main ([Ljava/lang/String;)V 0009 6 3\nmake queue\nastore 1\n\
    new java/lang/ref/WeakReference\ndup\nnew Gone\naload 1\nmake reference\nastore 2\nnop\n\
    aconst_null\nastore 1\nnop\nnop\naload 2\npop\nreturn\nend\n";

/// A queue that is polled while it is empty, then while a reference waits in it, and then once more.
const TWICE: &str = "class Twice java/lang/Object 0021\n\
    method main ([Ljava/lang/String;)V 0009 6 3\nmake queue\nastore 1\naload 1\npoll\npop\n\
    new java/lang/ref/WeakReference\ndup\nnew Twice\naload 1\nmake reference\nastore 2\nnop\n\
    nop\naload 1\npoll\nifnonnull q\nnop\nnop\nq:\naload 1\npoll\nifnull r\nnop\nr:\nnop\n\
    return\nend\n";

/// Two references to one object, of which the later one was made to refer to it first.
const PAIR: &str = "class Pair java/lang/Object 0021\n\
    method main ([Ljava/lang/String;)V 0009 8 5\nmake queue\nastore 1\n\
    new java/lang/ref/WeakReference\nastore 2\nnew java/lang/ref/WeakReference\nastore 3\n\
    new Pair\nastore 4\naload 3\naload 4\naload 1\nmake reference\naload 2\naload 4\naload 1\n\
    make reference\naconst_null\nastore 4\nnop\naconst_null\nastore 2\naconst_null\nastore 3\n\
    nop\naload 1\npoll\npop\nnop\naload 1\npoll\npop\nnop\nreturn\nend\n";

/// A reference that loses its queue by the constructor without one, and another that is given a null queue.
const NONE: &str = "class None java/lang/Object 0021\n\
    method main ([Ljava/lang/String;)V 0009 6 3\nmake queue\nastore 1\n\
    new java/lang/ref/WeakReference\ndup\nnew None\naload 1\nmake reference\nastore 2\naload 2\n\
    new None\ninvokespecial java/lang/ref/WeakReference <init> (Ljava/lang/Object;)V\nnop\nnop\n\
    aload 1\npoll\npop\nnew java/lang/ref/WeakReference\ndup\nnew None\naconst_null\n\
    make reference\npop\nnop\nreturn\nend\n";

/// A reference that is cleared by the program.
const CLEARED: &str = "class Cleared java/lang/Object 0021\n\
    method main ([Ljava/lang/String;)V 0009 6 3\nmake queue\nastore 1\n\
    new java/lang/ref/WeakReference\ndup\nnew Cleared\naload 1\nmake reference\nastore 2\n\
    aload 2\ninvokevirtual java/lang/ref/WeakReference clear ()V\nnop\nnop\naload 1\npoll\npop\n\
    return\nend\n";

/// A loop that polls until both references came.
const CLEAN: &str = "class Clean java/lang/Object 0021\n\
    method main ([Ljava/lang/String;)V 0009 6 3\nmake queue\nastore 1\n\
    new java/lang/ref/WeakReference\ndup\nnew Clean\naload 1\nmake reference\nastore 2\n\
    new java/lang/ref/WeakReference\ndup\nnew Clean\naload 1\nmake reference\npop\nw:\naload 1\n\
    poll\nifnull w\nx:\naload 1\npoll\nifnull x\nreturn\nend\n";

/// A reference that waits in a queue and is given another one; the first queue dies, and then its new referent.
const OLD: &str = "class Old java/lang/Object 0021\n\
    method main ([Ljava/lang/String;)V 0009 6 5\nmake queue\nastore 1\n\
    new java/lang/ref/WeakReference\ndup\nnew Old\naload 1\nmake reference\nastore 2\nnop\nnop\n\
    make queue\nastore 3\nnew Old\nastore 4\naload 2\naload 4\naload 3\nmake reference\n\
    aconst_null\nastore 1\nnop\naconst_null\nastore 4\nnop\naload 3\npoll\nifnull q\nnop\nnop\n\
    q:\nreturn\nend\n";

/// A reference that waits in a queue and is given another one; it is polled from the first, and waits in the second later.
const MOVED: &str = "class Moved java/lang/Object 0021\n\
    method main ([Ljava/lang/String;)V 0009 6 4\nmake queue\nastore 1\n\
    new java/lang/ref/WeakReference\ndup\nnew Moved\naload 1\nmake reference\nastore 2\nnop\n\
    nop\nmake queue\nastore 3\naload 2\nnew Moved\naload 3\nmake reference\nnop\nnop\naload 3\n\
    poll\npop\naload 1\npoll\nifnull q\naload 2\nnew Moved\naload 3\nmake reference\nnop\nnop\n\
    aconst_null\nastore 2\nnop\naload 3\npoll\npop\nnop\nq:\nreturn\nend\n";

/// A queue that is dropped while a reference waits in it to which nothing else leads.
const LONE: &str = "class Lone java/lang/Object 0021\n\
    method main ([Ljava/lang/String;)V 0009 6 3\nmake queue\nastore 1\n\
    new java/lang/ref/WeakReference\ndup\nnew Lone\naload 1\nmake reference\nastore 2\nnop\n\
    nop\naconst_null\nastore 2\nnop\naconst_null\nastore 1\nnop\nnop\nreturn\nend\n";

/// A queue of a class below ReferenceQueue.
const SUB: &str = "class Sub java/lang/ref/ReferenceQueue 0021\n\
    method main ([Ljava/lang/String;)V 0009 6 3\nnew Sub\nastore 1\n\
    new java/lang/ref/WeakReference\ndup\nnew Sub\naload 1\nmake reference\npop\nnop\naload 1\n\
    poll\npop\nreturn\nend\n";

/// A loop in which each round makes a reference and polls once.
const LOOP: &str = "class Loop java/lang/Object 0021\n\
    method main ([Ljava/lang/String;)V 0009 6 4\nmake queue\nastore 1\niconst_0\nistore 3\n\
    loop:\niload 3\nbipush 6\nif_icmpge done\nnew java/lang/ref/WeakReference\ndup\nnew Loop\n\
    aload 1\nmake reference\nastore 2\naload 1\npoll\npop\niinc 3 1\ngoto loop\ndone:\nreturn\n\
    end\n";

/// Two references of which the later one comes to the queue first, at a flush of its own.
const ARRIVAL: &str = "class Arrival java/lang/Object 0021\n\
    method main ([Ljava/lang/String;)V 0009 8 6\nmake queue\nastore 1\n\
    new java/lang/ref/WeakReference\nastore 2\nnew java/lang/ref/WeakReference\nastore 3\n\
    new Arrival\nastore 4\nnew Arrival\nastore 5\naload 2\naload 4\naload 1\nmake reference\n\
    aload 3\naload 5\naload 1\nmake reference\naconst_null\nastore 5\nnop\naconst_null\n\
    astore 4\nnop\naconst_null\nastore 2\naconst_null\nastore 3\naload 1\npoll\npop\nnop\n\
    aload 1\npoll\npop\nnop\nreturn\nend\n";

/// A queue that is lost with a reference that waits in it, and comes back by another reference; what is polled is kept in a
/// static field.
const BACK: &str = "class Back java/lang/Object 0021\nfield kept Ljava/lang/Object; 0008\n\
    method main ([Ljava/lang/String;)V 0009 6 3\nmake queue\nastore 1\n\
    new java/lang/ref/WeakReference\ndup\naload 1\n\
    invokespecial java/lang/ref/WeakReference <init> (Ljava/lang/Object;)V\nastore 2\n\
    new java/lang/ref/WeakReference\ndup\nnew Back\naload 1\nmake reference\nnop\npop\n\
    aconst_null\nastore 1\nnop\naload 2\n\
    invokevirtual java/lang/ref/WeakReference get ()Ljava/lang/Object;\npoll\n\
    putstatic Back kept Ljava/lang/Object;\nreturn\nend\n";

/// Two threads that poll one queue, in which one reference waits; each keeps what it polled in a static field.
const SHARED: &str = "class Shared java/lang/Thread 0021\n\
    field queue Ljava/lang/ref/ReferenceQueue; 0008\nfield first Ljava/lang/Object; 0008\n\
    field second Ljava/lang/Object; 0008\nmethod main ([Ljava/lang/String;)V 0009 4 2\nmake queue\n\
    putstatic Shared queue Ljava/lang/ref/ReferenceQueue;\nnew java/lang/ref/WeakReference\ndup\n\
    new Shared\ngetstatic Shared queue Ljava/lang/ref/ReferenceQueue;\nmake reference\nastore 1\n\
    new Shared\ndup\ninvokespecial java/lang/Thread <init> ()V\ninvokevirtual Shared start ()V\n\
    getstatic Shared queue Ljava/lang/ref/ReferenceQueue;\npoll\n\
    putstatic Shared first Ljava/lang/Object;\nreturn\nend\nmethod run ()V 0001 1 1\n\
    getstatic Shared queue Ljava/lang/ref/ReferenceQueue;\npoll\n\
    putstatic Shared second Ljava/lang/Object;\nreturn\nend\n";

/// A reference that refers to its own queue, of which nothing else is kept.
const OWN: &str = "class Own java/lang/Object 0021\nmethod main ([Ljava/lang/String;)V 0009 6 3\n\
    make queue\nastore 1\nnew java/lang/ref/WeakReference\ndup\naload 1\naload 1\nmake reference\n\
    astore 2\naconst_null\nastore 1\nnop\nnop\naload 2\n\
    invokevirtual java/lang/ref/WeakReference get ()Ljava/lang/Object;\npop\nreturn\nend\n";

/// A reference that refers to itself; its queue is polled after it is lost.
const ITSELF: &str = "class Itself java/lang/Object 0021\nfield kept Ljava/lang/Object; 0008\n\
    method main ([Ljava/lang/String;)V 0009 6 2\nmake queue\nastore 1\n\
    new java/lang/ref/WeakReference\ndup\ndup\naload 1\nmake reference\nnop\nnop\n\
    invokevirtual java/lang/ref/WeakReference get ()Ljava/lang/Object;\npop\nnop\naload 1\npoll\n\
    putstatic Itself kept Ljava/lang/Object;\nreturn\nend\n";

const QUE_TRACES: [Traced; 2] = [
    Traced {
        line: "trace --flush 11 Que.class",
        interval: 11,
        trace: "C 3 java/lang/ref/ReferenceQueue\nA 2 0 2 3 16 0\nC 4 java/lang/ref/WeakReference\n\
         A 6 0 3 4 16 0\nA 8 0 4 2 16 0\nF 11 1\nD 4 9\nE 17 0 1\nF 18 3\nD 1 16\nD 2 16\nD 3 15\n\
         Z 18 0\n",
    },
    Traced {
        line: "trace Que.class",
        interval: 0,
        trace: "C 3 java/lang/ref/ReferenceQueue\nA 2 0 2 3 16 0\nC 4 java/lang/ref/WeakReference\n\
         A 6 0 3 4 16 0\nA 8 0 4 2 16 0\nE 17 0 1\nF 18 4\nD 1 16\nD 2 16\nD 3 11\nD 4 9\nZ 18 0\n",
    },
];

#[test]
fn a_reference_waits_in_its_queue(rt: HostRuntime) -> Result<(), Fail> {
    are_traced(rt.alloc(), "Que", &[("Que.class", QUE)], &QUE_TRACES)
}

const GONE_TRACES: [Traced; 2] = [
    Traced {
        line: "trace --flush 12 Gone.class",
        interval: 12,
        trace: "C 3 java/lang/ref/ReferenceQueue\nA 2 0 2 3 16 0\nC 4 java/lang/ref/WeakReference\n\
         A 6 0 3 4 16 0\nA 8 0 4 2 16 0\nF 12 1\nD 4 9\nE 19 0 1\nF 20 3\nD 1 18\nD 2 18\nD 3 18\n\
         Z 20 0\n",
    },
    Traced {
        line: "trace --flush 3 Gone.class",
        interval: 3,
        trace: "C 3 java/lang/ref/ReferenceQueue\nA 2 0 2 3 16 0\nF 3 0\n\
         C 4 java/lang/ref/WeakReference\nA 6 0 3 4 16 0\nF 6 0\nA 8 0 4 2 16 0\nF 9 0\nF 12 1\n\
         D 4 9\nF 15 0\nF 18 0\nE 19 0 1\nF 20 3\nD 1 18\nD 2 18\nD 3 18\nZ 20 0\n",
    },
];

#[test]
fn a_waiting_reference_keeps_its_queue(rt: HostRuntime) -> Result<(), Fail> {
    are_traced(rt.alloc(), "Gone", &[("Gone.class", GONE)], &GONE_TRACES)
}

const EMPTY_TRACES: [Traced; 1] = [Traced {
    line: "trace --flush 16 Twice.class",
    interval: 16,
    trace: "C 3 java/lang/ref/ReferenceQueue\nA 2 0 2 3 16 0\nC 4 java/lang/ref/WeakReference\n\
         A 9 0 3 4 16 0\nA 11 0 4 2 16 0\nF 16 1\nD 4 12\nE 24 0 1\nF 25 3\nD 1 23\nD 2 23\n\
         D 3 23\nZ 25 0\n",
}];

const CLEARED_TRACES: [Traced; 1] = [Traced {
    line: "trace --flush 13 Cleared.class",
    interval: 13,
    trace: "C 3 java/lang/ref/ReferenceQueue\nA 2 0 2 3 16 0\nC 4 java/lang/ref/WeakReference\n\
         A 6 0 3 4 16 0\nA 8 0 4 2 16 0\nF 13 1\nD 4 9\nE 19 0 1\nF 20 3\nD 1 18\nD 2 18\nD 3 18\n\
         Z 20 0\n",
}];

#[test]
fn an_empty_queue_gives_null(rt: HostRuntime) -> Result<(), Fail> {
    are_traced(
        rt.alloc(),
        "Twice",
        &[("Twice.class", TWICE)],
        &EMPTY_TRACES,
    )?;
    are_traced(
        rt.alloc(),
        "Cleared",
        &[("Cleared.class", CLEARED)],
        &CLEARED_TRACES,
    )
}

const PAIR_TRACES: [Traced; 2] = [
    Traced {
        line: "trace --flush 21 Pair.class",
        interval: 21,
        trace: "C 3 java/lang/ref/ReferenceQueue\nA 2 0 2 3 16 0\nC 4 java/lang/ref/WeakReference\n\
         A 6 0 3 4 16 0\nA 8 0 4 4 16 0\nA 10 0 5 2 16 0\nF 21 1\nD 5 20\nE 36 0 1\nF 37 4\n\
         D 1 35\nD 2 35\nD 3 29\nD 4 33\nZ 37 0\n",
    },
    Traced {
        line: "trace --flush 1 Pair.class",
        interval: 1,
        trace: "F 1 0\nC 3 java/lang/ref/ReferenceQueue\nA 2 0 2 3 16 0\nF 2 0\nF 3 0\nF 4 0\n\
         F 5 0\nC 4 java/lang/ref/WeakReference\nA 6 0 3 4 16 0\nF 6 0\nF 7 0\nA 8 0 4 4 16 0\n\
         F 8 0\nF 9 0\nA 10 0 5 2 16 0\nF 10 0\nF 11 0\nF 12 0\nF 13 0\nF 14 0\nF 15 0\nF 16 0\n\
         F 17 0\nF 18 0\nF 19 0\nF 20 0\nF 21 1\nD 5 20\nF 22 0\nF 23 0\nF 24 0\nF 25 0\nF 26 0\n\
         F 27 0\nF 28 0\nF 29 0\nF 30 1\nD 3 29\nF 31 0\nF 32 0\nF 33 0\nF 34 1\nD 4 33\nF 35 0\n\
         E 36 0 1\nF 36 2\nD 1 35\nD 2 35\nF 37 0\nZ 37 0\n",
    },
];

#[test]
fn references_wait_in_rising_order(rt: HostRuntime) -> Result<(), Fail> {
    are_traced(rt.alloc(), "Pair", &[("Pair.class", PAIR)], &PAIR_TRACES)
}

const NONE_TRACES: [Traced; 2] = [
    Traced {
        line: "trace --flush 15 None.class",
        interval: 15,
        trace: "C 3 java/lang/ref/ReferenceQueue\nA 2 0 2 3 16 0\nC 4 java/lang/ref/WeakReference\n\
         A 6 0 3 4 16 0\nA 8 0 4 2 16 0\nA 13 0 5 2 16 0\nF 15 2\nD 4 9\nD 5 13\nA 20 0 6 4 16 0\n\
         A 22 0 7 2 16 0\nE 27 0 1\nF 28 5\nD 1 26\nD 2 26\nD 3 26\nD 6 24\nD 7 23\nZ 28 0\n",
    },
    Traced {
        line: "trace --flush 1 None.class",
        interval: 1,
        trace: "F 1 0\nC 3 java/lang/ref/ReferenceQueue\nA 2 0 2 3 16 0\nF 2 0\nF 3 0\nF 4 0\n\
         F 5 0\nC 4 java/lang/ref/WeakReference\nA 6 0 3 4 16 0\nF 6 0\nF 7 0\nA 8 0 4 2 16 0\n\
         F 8 0\nF 9 0\nF 10 1\nD 4 9\nF 11 0\nF 12 0\nA 13 0 5 2 16 0\nF 13 0\nF 14 1\nD 5 13\n\
         F 15 0\nF 16 0\nF 17 0\nF 18 0\nF 19 0\nA 20 0 6 4 16 0\nF 20 0\nF 21 0\nA 22 0 7 2 16 0\n\
         F 22 0\nF 23 0\nF 24 1\nD 7 23\nF 25 1\nD 6 24\nF 26 0\nE 27 0 1\nF 27 3\nD 1 26\nD 2 26\n\
         D 3 26\nF 28 0\nZ 28 0\n",
    },
];

#[test]
fn a_null_queue_is_none(rt: HostRuntime) -> Result<(), Fail> {
    are_traced(rt.alloc(), "None", &[("None.class", NONE)], &NONE_TRACES)
}

const CLEAN_TRACES: [Traced; 2] = [
    Traced {
        line: "trace --flush 1 --limit 40 Clean.class",
        interval: 1,
        trace: "F 1 0\nC 3 java/lang/ref/ReferenceQueue\nA 2 0 2 3 16 0\nF 2 0\nF 3 0\nF 4 0\n\
         F 5 0\nC 4 java/lang/ref/WeakReference\nA 6 0 3 4 16 0\nF 6 0\nF 7 0\nA 8 0 4 2 16 0\n\
         F 8 0\nF 9 0\nF 10 1\nD 4 9\nF 11 0\nA 12 0 5 4 16 0\nF 12 0\nF 13 0\nA 14 0 6 2 16 0\n\
         F 14 0\nF 15 0\nF 16 1\nD 6 15\nF 17 0\nF 18 0\nF 19 0\nF 20 0\nF 21 0\nF 22 0\nF 23 1\n\
         D 5 22\nE 24 0 1\nF 24 3\nD 1 23\nD 2 23\nD 3 23\nF 25 0\nZ 25 0\n",
    },
    Traced {
        line: "trace --flush 2 --limit 40 Clean.class",
        interval: 2,
        trace: "C 3 java/lang/ref/ReferenceQueue\nA 2 0 2 3 16 0\nF 2 0\nF 4 0\n\
         C 4 java/lang/ref/WeakReference\nA 6 0 3 4 16 0\nF 6 0\nA 8 0 4 2 16 0\nF 8 0\nF 10 1\n\
         D 4 9\nA 12 0 5 4 16 0\nF 12 0\nA 14 0 6 2 16 0\nF 14 0\nF 16 1\nD 6 15\nF 18 0\nF 20 0\n\
         F 22 0\nE 24 0 1\nF 24 4\nD 1 23\nD 2 23\nD 3 23\nD 5 22\nF 25 0\nZ 25 0\n",
    },
];

#[test]
fn a_loop_that_polls_at_short_intervals(rt: HostRuntime) -> Result<(), Fail> {
    are_traced(
        rt.alloc(),
        "Clean",
        &[("Clean.class", CLEAN)],
        &CLEAN_TRACES,
    )
}

const VAIN_TRACES: [Traced; 2] = [
    Traced {
        line: "trace --flush 3 --limit 40 Clean.class",
        interval: 3,
        trace: "C 3 java/lang/ref/ReferenceQueue\nA 2 0 2 3 16 0\nF 3 0\n\
         C 4 java/lang/ref/WeakReference\nA 6 0 3 4 16 0\nF 6 0\nA 8 0 4 2 16 0\nF 9 0\n\
         A 12 0 5 4 16 0\nF 12 1\nD 4 9\nA 14 0 6 2 16 0\nF 15 0\nF 18 2\nD 5 16\nD 6 15\nF 21 0\n\
         F 24 0\nF 27 0\nF 30 0\nF 33 0\nF 36 0\nF 39 0\nF 40 0\nZ 40 1\n",
    },
    Traced {
        line: "trace --flush 0 --limit 40 Clean.class",
        interval: 0,
        trace: "C 3 java/lang/ref/ReferenceQueue\nA 2 0 2 3 16 0\nC 4 java/lang/ref/WeakReference\n\
         A 6 0 3 4 16 0\nA 8 0 4 2 16 0\nA 12 0 5 4 16 0\nA 14 0 6 2 16 0\nF 40 3\nD 4 9\nD 5 16\n\
         D 6 15\nZ 40 1\n",
    },
];

#[test]
fn a_loop_that_polls_in_vain(rt: HostRuntime) -> Result<(), Fail> {
    are_traced(rt.alloc(), "Clean", &[("Clean.class", CLEAN)], &VAIN_TRACES)
}

const OLD_TRACES: [Traced; 3] = [
    Traced {
        line: "trace --flush 1 Old.class",
        interval: 1,
        trace: "F 1 0\nC 3 java/lang/ref/ReferenceQueue\nA 2 0 2 3 16 0\nF 2 0\nF 3 0\nF 4 0\n\
         F 5 0\nC 4 java/lang/ref/WeakReference\nA 6 0 3 4 16 0\nF 6 0\nF 7 0\nA 8 0 4 2 16 0\n\
         F 8 0\nF 9 0\nF 10 1\nD 4 9\nF 11 0\nF 12 0\nF 13 0\nA 14 0 5 3 16 0\nF 14 0\nF 15 0\n\
         F 16 0\nF 17 0\nA 18 0 6 2 16 0\nF 18 0\nF 19 0\nF 20 0\nF 21 0\nF 22 0\nF 23 0\nF 24 0\n\
         F 25 1\nD 2 24\nF 26 0\nF 27 0\nF 28 1\nD 6 27\nF 29 0\nF 30 0\nF 31 0\nF 32 0\nE 33 0 1\n\
         F 33 3\nD 1 32\nD 3 32\nD 5 32\nF 34 0\nZ 34 0\n",
    },
    Traced {
        line: "trace --flush 14 Old.class",
        interval: 14,
        trace: "C 3 java/lang/ref/ReferenceQueue\nA 2 0 2 3 16 0\nC 4 java/lang/ref/WeakReference\n\
         A 6 0 3 4 16 0\nA 8 0 4 2 16 0\nA 14 0 5 3 16 0\nF 14 1\nD 4 9\nA 18 0 6 2 16 0\nF 28 2\n\
         D 2 24\nD 6 27\nE 33 0 1\nF 34 3\nD 1 32\nD 3 32\nD 5 32\nZ 34 0\n",
    },
    Traced {
        line: "trace --flush 28 Old.class",
        interval: 28,
        trace: "C 3 java/lang/ref/ReferenceQueue\nA 2 0 2 3 16 0\nC 4 java/lang/ref/WeakReference\n\
         A 6 0 3 4 16 0\nA 8 0 4 2 16 0\nA 14 0 5 3 16 0\nA 18 0 6 2 16 0\nF 28 3\nD 2 24\nD 4 9\n\
         D 6 27\nE 35 0 1\nF 36 3\nD 1 34\nD 3 34\nD 5 34\nZ 36 0\n",
    },
];

#[test]
fn a_reference_of_a_dead_queue_waits_still(rt: HostRuntime) -> Result<(), Fail> {
    are_traced(rt.alloc(), "Old", &[("Old.class", OLD)], &OLD_TRACES)
}

const MOVED_TRACES: [Traced; 2] = [
    Traced {
        line: "trace --flush 1 Moved.class",
        interval: 1,
        trace: "F 1 0\nC 3 java/lang/ref/ReferenceQueue\nA 2 0 2 3 16 0\nF 2 0\nF 3 0\nF 4 0\n\
         F 5 0\nC 4 java/lang/ref/WeakReference\nA 6 0 3 4 16 0\nF 6 0\nF 7 0\nA 8 0 4 2 16 0\n\
         F 8 0\nF 9 0\nF 10 1\nD 4 9\nF 11 0\nF 12 0\nF 13 0\nA 14 0 5 3 16 0\nF 14 0\nF 15 0\n\
         F 16 0\nF 17 0\nF 18 0\nA 19 0 6 2 16 0\nF 19 0\nF 20 0\nF 21 1\nD 6 20\nF 22 0\nF 23 0\n\
         F 24 0\nF 25 0\nF 26 0\nF 27 0\nF 28 0\nF 29 0\nF 30 0\nA 31 0 7 2 16 0\nF 31 0\nF 32 0\n\
         F 33 1\nD 7 32\nF 34 0\nF 35 0\nF 36 0\nF 37 0\nF 38 0\nF 39 0\nF 40 0\nF 41 1\nD 3 40\n\
         F 42 0\nE 43 0 1\nF 43 3\nD 1 42\nD 2 42\nD 5 42\nF 44 0\nZ 44 0\n",
    },
    Traced {
        line: "trace --flush 16 Moved.class",
        interval: 16,
        trace: "C 3 java/lang/ref/ReferenceQueue\nA 2 0 2 3 16 0\nC 4 java/lang/ref/WeakReference\n\
         A 6 0 3 4 16 0\nA 8 0 4 2 16 0\nA 14 0 5 3 16 0\nF 16 1\nD 4 9\nA 19 0 6 2 16 0\n\
         A 31 0 7 2 16 0\nF 32 1\nD 6 20\nE 43 0 1\nF 44 5\nD 1 42\nD 2 42\nD 3 40\nD 5 42\n\
         D 7 32\nZ 44 0\n",
    },
];

#[test]
fn a_reference_goes_to_its_new_queue(rt: HostRuntime) -> Result<(), Fail> {
    are_traced(
        rt.alloc(),
        "Moved",
        &[("Moved.class", MOVED)],
        &MOVED_TRACES,
    )
}

const LONE_TRACES: [Traced; 3] = [
    Traced {
        line: "trace Lone.class",
        interval: 0,
        trace: "C 3 java/lang/ref/ReferenceQueue\nA 2 0 2 3 16 0\nC 4 java/lang/ref/WeakReference\n\
         A 6 0 3 4 16 0\nA 8 0 4 2 16 0\nE 21 0 1\nF 22 4\nD 1 20\nD 2 17\nD 3 14\nD 4 9\nZ 22 0\n",
    },
    Traced {
        line: "trace --flush 1 Lone.class",
        interval: 1,
        trace: "F 1 0\nC 3 java/lang/ref/ReferenceQueue\nA 2 0 2 3 16 0\nF 2 0\nF 3 0\nF 4 0\n\
         F 5 0\nC 4 java/lang/ref/WeakReference\nA 6 0 3 4 16 0\nF 6 0\nF 7 0\nA 8 0 4 2 16 0\n\
         F 8 0\nF 9 0\nF 10 1\nD 4 9\nF 11 0\nF 12 0\nF 13 0\nF 14 0\nF 15 0\nF 16 0\nF 17 0\n\
         F 18 2\nD 2 17\nD 3 17\nF 19 0\nF 20 0\nE 21 0 1\nF 21 1\nD 1 20\nF 22 0\nZ 22 0\n",
    },
    Traced {
        line: "trace --flush 12 Lone.class",
        interval: 12,
        trace: "C 3 java/lang/ref/ReferenceQueue\nA 2 0 2 3 16 0\nC 4 java/lang/ref/WeakReference\n\
         A 6 0 3 4 16 0\nA 8 0 4 2 16 0\nF 12 1\nD 4 9\nE 21 0 1\nF 22 3\nD 1 20\nD 2 17\nD 3 17\n\
         Z 22 0\n",
    },
];

#[test]
fn a_queue_dies_with_what_waits_in_it(rt: HostRuntime) -> Result<(), Fail> {
    are_traced(rt.alloc(), "Lone", &[("Lone.class", LONE)], &LONE_TRACES)
}

const TWICE_TRACES: [Traced; 2] = [
    Traced {
        line: "trace --flush 1 Twice.class",
        interval: 1,
        trace: "F 1 0\nC 3 java/lang/ref/ReferenceQueue\nA 2 0 2 3 16 0\nF 2 0\nF 3 0\nF 4 0\n\
         F 5 0\nF 6 0\nF 7 0\nF 8 0\nC 4 java/lang/ref/WeakReference\nA 9 0 3 4 16 0\nF 9 0\n\
         F 10 0\nA 11 0 4 2 16 0\nF 11 0\nF 12 0\nF 13 1\nD 4 12\nF 14 0\nF 15 0\nF 16 0\nF 17 0\n\
         F 18 0\nF 19 0\nF 20 0\nF 21 0\nF 22 0\nF 23 0\nE 24 0 1\nF 24 3\nD 1 23\nD 2 23\nD 3 23\n\
         F 25 0\nZ 25 0\n",
    },
    Traced {
        line: "trace --flush 2 Twice.class",
        interval: 2,
        trace: "C 3 java/lang/ref/ReferenceQueue\nA 2 0 2 3 16 0\nF 2 0\nF 4 0\nF 6 0\nF 8 0\n\
         C 4 java/lang/ref/WeakReference\nA 9 0 3 4 16 0\nF 10 0\nA 11 0 4 2 16 0\nF 12 0\nF 14 1\n\
         D 4 12\nF 16 0\nF 18 0\nF 20 0\nF 22 0\nE 24 0 1\nF 24 3\nD 1 23\nD 2 23\nD 3 23\nF 25 0\n\
         Z 25 0\n",
    },
];

#[test]
fn a_polled_reference_is_enqueued_no_more(rt: HostRuntime) -> Result<(), Fail> {
    are_traced(
        rt.alloc(),
        "Twice",
        &[("Twice.class", TWICE)],
        &TWICE_TRACES,
    )
}

const SUB_TRACES: [Traced; 2] = [
    Traced {
        line: "trace --flush 8 Sub.class",
        interval: 8,
        trace: "A 2 0 2 2 16 0\nC 3 java/lang/ref/WeakReference\nA 4 0 3 3 16 0\nA 6 0 4 2 16 0\n\
         F 8 1\nD 4 7\nE 14 0 1\nF 15 3\nD 1 13\nD 2 13\nD 3 12\nZ 15 0\n",
    },
    Traced {
        line: "trace --flush 9 Sub.class",
        interval: 9,
        trace: "A 2 0 2 2 16 0\nC 3 java/lang/ref/WeakReference\nA 4 0 3 3 16 0\nA 6 0 4 2 16 0\n\
         F 9 2\nD 3 8\nD 4 7\nE 14 0 1\nF 15 2\nD 1 13\nD 2 13\nZ 15 0\n",
    },
];

#[test]
fn an_unreached_reference_is_not_enqueued(rt: HostRuntime) -> Result<(), Fail> {
    are_traced(rt.alloc(), "Sub", &[("Sub.class", SUB)], &SUB_TRACES)
}

const LOOP_TRACES: [Traced; 2] = [
    Traced {
        line: "trace --flush 1 Loop.class",
        interval: 1,
        trace: "F 1 0\nC 3 java/lang/ref/ReferenceQueue\nA 2 0 2 3 16 0\nF 2 0\nF 3 0\nF 4 0\n\
         F 5 0\nF 6 0\nF 7 0\nF 8 0\nF 9 0\nF 10 0\nC 4 java/lang/ref/WeakReference\n\
         A 11 0 3 4 16 0\nF 11 0\nF 12 0\nA 13 0 4 2 16 0\nF 13 0\nF 14 0\nF 15 1\nD 4 14\nF 16 0\n\
         F 17 0\nF 18 0\nF 19 0\nF 20 0\nF 21 0\nF 22 0\nF 23 0\nF 24 0\nA 25 0 5 4 16 0\nF 25 0\n\
         F 26 0\nA 27 0 6 2 16 0\nF 27 0\nF 28 0\nF 29 1\nD 6 28\nF 30 1\nD 3 29\nF 31 0\nF 32 0\n\
         F 33 0\nF 34 0\nF 35 0\nF 36 0\nF 37 0\nF 38 0\nA 39 0 7 4 16 0\nF 39 0\nF 40 0\n\
         A 41 0 8 2 16 0\nF 41 0\nF 42 0\nF 43 1\nD 8 42\nF 44 1\nD 5 43\nF 45 0\nF 46 0\nF 47 0\n\
         F 48 0\nF 49 0\nF 50 0\nF 51 0\nF 52 0\nA 53 0 9 4 16 0\nF 53 0\nF 54 0\n\
         A 55 0 10 2 16 0\nF 55 0\nF 56 0\nF 57 1\nD 10 56\nF 58 1\nD 7 57\nF 59 0\nF 60 0\n\
         F 61 0\nF 62 0\nF 63 0\nF 64 0\nF 65 0\nF 66 0\nA 67 0 11 4 16 0\nF 67 0\nF 68 0\n\
         A 69 0 12 2 16 0\nF 69 0\nF 70 0\nF 71 1\nD 12 70\nF 72 1\nD 9 71\nF 73 0\nF 74 0\n\
         F 75 0\nF 76 0\nF 77 0\nF 78 0\nF 79 0\nF 80 0\nA 81 0 13 4 16 0\nF 81 0\nF 82 0\n\
         A 83 0 14 2 16 0\nF 83 0\nF 84 0\nF 85 1\nD 14 84\nF 86 1\nD 11 85\nF 87 0\nF 88 0\n\
         F 89 0\nF 90 0\nF 91 0\nF 92 0\nF 93 0\nF 94 0\nE 95 0 1\nF 95 3\nD 1 94\nD 2 94\n\
         D 13 94\nF 96 0\nZ 96 0\n",
    },
    Traced {
        line: "trace --flush 0 Loop.class",
        interval: 0,
        trace: "C 3 java/lang/ref/ReferenceQueue\nA 2 0 2 3 16 0\nC 4 java/lang/ref/WeakReference\n\
         A 11 0 3 4 16 0\nA 13 0 4 2 16 0\nA 25 0 5 4 16 0\nA 27 0 6 2 16 0\nA 39 0 7 4 16 0\n\
         A 41 0 8 2 16 0\nA 53 0 9 4 16 0\nA 55 0 10 2 16 0\nA 67 0 11 4 16 0\nA 69 0 12 2 16 0\n\
         A 81 0 13 4 16 0\nA 83 0 14 2 16 0\nE 95 0 1\nF 96 14\nD 1 94\nD 2 94\nD 3 29\nD 4 14\n\
         D 5 43\nD 6 28\nD 7 57\nD 8 42\nD 9 71\nD 10 56\nD 11 85\nD 12 70\nD 13 94\nD 14 84\n\
         Z 96 0\n",
    },
];

#[test]
fn rounds_with_a_flush_at_each_event_or_none(rt: HostRuntime) -> Result<(), Fail> {
    are_traced(rt.alloc(), "Loop", &[("Loop.class", LOOP)], &LOOP_TRACES)
}

const SOME_FLUSHES_TRACES: [Traced; 2] = [
    Traced {
        line: "trace --flush 2 Loop.class",
        interval: 2,
        trace: "C 3 java/lang/ref/ReferenceQueue\nA 2 0 2 3 16 0\nF 2 0\nF 4 0\nF 6 0\nF 8 0\n\
         F 10 0\nC 4 java/lang/ref/WeakReference\nA 11 0 3 4 16 0\nF 12 0\nA 13 0 4 2 16 0\n\
         F 14 0\nF 16 1\nD 4 14\nF 18 0\nF 20 0\nF 22 0\nF 24 0\nA 25 0 5 4 16 0\nF 26 0\n\
         A 27 0 6 2 16 0\nF 28 0\nF 30 2\nD 3 29\nD 6 28\nF 32 0\nF 34 0\nF 36 0\nF 38 0\n\
         A 39 0 7 4 16 0\nF 40 0\nA 41 0 8 2 16 0\nF 42 0\nF 44 2\nD 5 43\nD 8 42\nF 46 0\nF 48 0\n\
         F 50 0\nF 52 0\nA 53 0 9 4 16 0\nF 54 0\nA 55 0 10 2 16 0\nF 56 0\nF 58 2\nD 7 57\n\
         D 10 56\nF 60 0\nF 62 0\nF 64 0\nF 66 0\nA 67 0 11 4 16 0\nF 68 0\nA 69 0 12 2 16 0\n\
         F 70 0\nF 72 2\nD 9 71\nD 12 70\nF 74 0\nF 76 0\nF 78 0\nF 80 0\nA 81 0 13 4 16 0\n\
         F 82 0\nA 83 0 14 2 16 0\nF 84 0\nF 86 2\nD 11 85\nD 14 84\nF 88 0\nF 90 0\nF 92 0\n\
         F 94 0\nE 95 0 1\nF 96 3\nD 1 94\nD 2 94\nD 13 94\nZ 96 0\n",
    },
    Traced {
        line: "trace --flush 3 Loop.class",
        interval: 3,
        trace: "C 3 java/lang/ref/ReferenceQueue\nA 2 0 2 3 16 0\nF 3 0\nF 6 0\nF 9 0\n\
         C 4 java/lang/ref/WeakReference\nA 11 0 3 4 16 0\nF 12 0\nA 13 0 4 2 16 0\nF 15 1\n\
         D 4 14\nF 18 0\nF 21 0\nF 24 0\nA 25 0 5 4 16 0\nA 27 0 6 2 16 0\nF 27 0\nF 30 2\nD 3 29\n\
         D 6 28\nF 33 0\nF 36 0\nA 39 0 7 4 16 0\nF 39 0\nA 41 0 8 2 16 0\nF 42 0\nF 45 2\nD 5 43\n\
         D 8 42\nF 48 0\nF 51 0\nA 53 0 9 4 16 0\nF 54 0\nA 55 0 10 2 16 0\nF 57 1\nD 10 56\n\
         F 60 1\nD 7 57\nF 63 0\nF 66 0\nA 67 0 11 4 16 0\nA 69 0 12 2 16 0\nF 69 0\nF 72 2\n\
         D 9 71\nD 12 70\nF 75 0\nF 78 0\nA 81 0 13 4 16 0\nF 81 0\nA 83 0 14 2 16 0\nF 84 0\n\
         F 87 2\nD 11 85\nD 14 84\nF 90 0\nF 93 0\nE 95 0 1\nF 96 3\nD 1 94\nD 2 94\nD 13 94\n\
         Z 96 0\n",
    },
];

#[test]
fn rounds_with_some_flushes(rt: HostRuntime) -> Result<(), Fail> {
    are_traced(
        rt.alloc(),
        "Loop",
        &[("Loop.class", LOOP)],
        &SOME_FLUSHES_TRACES,
    )
}

const ARRIVAL_TRACES: [Traced; 1] = [Traced {
    line: "trace --flush 3 Arrival.class",
    interval: 3,
    trace: "C 3 java/lang/ref/ReferenceQueue\nA 2 0 2 3 16 0\nF 3 0\n\
         C 4 java/lang/ref/WeakReference\nA 6 0 3 4 16 0\nF 6 0\nA 8 0 4 4 16 0\nF 9 0\n\
         A 10 0 5 2 16 0\nA 12 0 6 2 16 0\nF 12 0\nF 15 0\nF 18 0\nF 21 0\nF 24 1\nD 6 22\nF 27 1\n\
         D 5 25\nF 30 0\nF 33 0\nF 36 1\nD 4 33\nF 39 1\nD 3 37\nE 40 0 1\nF 41 2\nD 1 39\nD 2 39\n\
         Z 41 0\n",
}];

#[test]
fn references_wait_in_the_order_of_their_flushes(rt: HostRuntime) -> Result<(), Fail> {
    are_traced(
        rt.alloc(),
        "Arrival",
        &[("Arrival.class", ARRIVAL)],
        &ARRIVAL_TRACES,
    )
}

const BACK_TRACES: [Traced; 3] = [
    Traced {
        line: "trace --flush 16 Back.class",
        interval: 16,
        trace: "C 3 java/lang/ref/ReferenceQueue\nA 2 0 2 3 16 0\nC 4 java/lang/ref/WeakReference\n\
         A 6 0 3 4 16 0\nA 11 0 4 4 16 0\nA 13 0 5 2 16 0\nF 16 1\nD 5 14\nU 24 0 0 0 0 4\n\
         E 25 0 1\nF 26 2\nD 1 24\nD 3 24\nZ 26 0\n",
    },
    Traced {
        line: "trace --flush 20 Back.class",
        interval: 20,
        trace: "C 3 java/lang/ref/ReferenceQueue\nA 2 0 2 3 16 0\nC 4 java/lang/ref/WeakReference\n\
         A 6 0 3 4 16 0\nA 11 0 4 4 16 0\nA 13 0 5 2 16 0\nF 20 3\nD 2 18\nD 4 16\nD 5 14\n\
         C 5 java/lang/NullPointerException\nA 23 0 6 5 32 0\nX 24 0 1 6\nF 25 3\nD 1 23\nD 3 23\n\
         D 6 24\nZ 25 0\n",
    },
    Traced {
        line: "trace Back.class",
        interval: 0,
        trace: "C 3 java/lang/ref/ReferenceQueue\nA 2 0 2 3 16 0\nC 4 java/lang/ref/WeakReference\n\
         A 6 0 3 4 16 0\nA 11 0 4 4 16 0\nA 13 0 5 2 16 0\nU 24 0 0 0 0 0\nE 25 0 1\nF 26 5\n\
         D 1 24\nD 2 22\nD 3 24\nD 4 16\nD 5 14\nZ 26 0\n",
    },
];

#[test]
fn a_lost_queue_comes_back(rt: HostRuntime) -> Result<(), Fail> {
    are_traced(rt.alloc(), "Back", &[("Back.class", BACK)], &BACK_TRACES)
}

const SHARED_TRACES: [Traced; 3] = [
    Traced {
        line: "trace --flush 14 Shared.class",
        interval: 14,
        trace: "C 3 java/lang/ref/ReferenceQueue\nA 2 0 2 3 16 0\nU 5 0 0 0 0 2\n\
         C 4 java/lang/ref/WeakReference\nA 6 0 3 4 16 0\nA 8 0 4 2 24 0\nA 12 0 5 2 24 0\nF 14 1\n\
         D 4 9\nU 18 0 0 1 0 3\nE 19 0 1\nN 2 2 run ()V\nM 21 1 2 5\nU 24 1 0 2 0 0\nE 25 1 2\n\
         F 26 2\nD 1 18\nD 5 25\nZ 26 0\n",
    },
    Traced {
        line: "trace --flush 14 --quantum 1 Shared.class",
        interval: 14,
        trace: "C 3 java/lang/ref/ReferenceQueue\nA 2 0 2 3 16 0\nU 5 0 0 0 0 2\n\
         C 4 java/lang/ref/WeakReference\nA 6 0 3 4 16 0\nA 8 0 4 2 24 0\nA 12 0 5 2 24 0\nF 14 1\n\
         D 4 9\nN 2 2 run ()V\nM 17 1 2 5\nU 20 0 0 1 0 3\nE 22 0 1\nU 23 1 0 2 0 0\nE 25 1 2\n\
         F 26 2\nD 1 21\nD 5 25\nZ 26 0\n",
    },
    Traced {
        line: "trace --flush 14 --words 1 Shared.class",
        interval: 14,
        trace: "C 3 java/lang/ref/ReferenceQueue\nA 2 0 2 3 16 0\nU 5 0 0 0 0 2\n\
         C 4 java/lang/ref/WeakReference\nA 6 0 3 4 16 0\nA 8 0 4 2 24 0\nA 12 0 5 2 24 0\nF 14 1\n\
         D 4 9\nN 2 2 run ()V\nM 16 1 2 5\nU 19 1 0 2 0 3\nE 20 1 2\nU 24 0 0 1 0 0\nE 25 0 1\n\
         F 26 2\nD 1 24\nD 5 20\nZ 26 0\n",
    },
];

#[test]
fn two_threads_poll_one_queue(rt: HostRuntime) -> Result<(), Fail> {
    are_traced(
        rt.alloc(),
        "Shared",
        &[("Shared.class", SHARED)],
        &SHARED_TRACES,
    )
}

const OWN_TRACES: [Traced; 2] = [
    Traced {
        line: "trace Own.class",
        interval: 0,
        trace: "C 3 java/lang/ref/ReferenceQueue\nA 2 0 2 3 16 0\nC 4 java/lang/ref/WeakReference\n\
         A 6 0 3 4 16 0\nE 19 0 1\nF 20 3\nD 1 18\nD 2 18\nD 3 18\nZ 20 0\n",
    },
    Traced {
        line: "trace --flush 5 Own.class",
        interval: 5,
        trace: "C 3 java/lang/ref/ReferenceQueue\nA 2 0 2 3 16 0\nF 5 0\n\
         C 4 java/lang/ref/WeakReference\nA 6 0 3 4 16 0\nF 10 0\nF 15 0\nE 19 0 1\nF 20 3\n\
         D 1 18\nD 2 18\nD 3 18\nZ 20 0\n",
    },
];

#[test]
fn a_reference_to_its_own_queue(rt: HostRuntime) -> Result<(), Fail> {
    are_traced(rt.alloc(), "Own", &[("Own.class", OWN)], &OWN_TRACES)
}

const ITSELF_TRACES: [Traced; 2] = [
    Traced {
        line: "trace Itself.class",
        interval: 0,
        trace: "C 3 java/lang/ref/ReferenceQueue\nA 2 0 2 3 16 0\nC 4 java/lang/ref/WeakReference\n\
         A 6 0 3 4 16 0\nU 18 0 0 0 0 0\nE 19 0 1\nF 20 3\nD 1 18\nD 2 18\nD 3 13\nZ 20 0\n",
    },
    Traced {
        line: "trace --flush 7 Itself.class",
        interval: 7,
        trace: "C 3 java/lang/ref/ReferenceQueue\nA 2 0 2 3 16 0\nC 4 java/lang/ref/WeakReference\n\
         A 6 0 3 4 16 0\nF 7 0\nF 14 1\nD 3 13\nU 18 0 0 0 0 0\nE 19 0 1\nF 20 2\nD 1 18\nD 2 18\n\
         Z 20 0\n",
    },
];

#[test]
fn a_reference_to_itself(rt: HostRuntime) -> Result<(), Fail> {
    are_traced(
        rt.alloc(),
        "Itself",
        &[("Itself.class", ITSELF)],
        &ITSELF_TRACES,
    )
}
