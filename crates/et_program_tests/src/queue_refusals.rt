//! What is refused of references and queues: operands that are no queue, null, and methods that a class lacks. The lines `make
//! queue`, `make reference` and `poll` of a listing stand for calls of constructors and methods.

use crate::traces::{Traced, are_traced, is_ill_typed};
use std::test::Fail;

/// A constructor that is given a queue that is none.
const NOQ: &str = "class Noq java/lang/Object 0021\n\
    method main ([Ljava/lang/String;)V 0009 6 2\nnew java/lang/ref/WeakReference\ndup\nnew Noq\n\
    new Noq\nmake reference\npop\nreturn\nend\n";

/// A constructor on null, which is given a queue that is none.
const NPE: &str = "class Npe java/lang/Object 0021\n\
    method main ([Ljava/lang/String;)V 0009 4 1\naconst_null\nnew Npe\nnew Npe\nmake reference\n\
    return\nend\n";

/// A poll on null.
const NIL: &str = "class Nil java/lang/Object 0021\n\
    method main ([Ljava/lang/String;)V 0009 2 1\naconst_null\npoll\npop\nreturn\nend\n";

/// A method that ReferenceQueue does not have here.
const REM: &str = "class Rem java/lang/Object 0021\n\
    method main ([Ljava/lang/String;)V 0009 2 1\nnew java/lang/ref/ReferenceQueue\n\
    invokevirtual java/lang/ref/ReferenceQueue remove ()Ljava/lang/ref/Reference;\npop\nreturn\n\
    end\n";

/// A constructor that WeakReference has and the class that is named lacks, with an operand that is no queue.
const SEL: &str = "class Sel java/lang/Object 0021\nmethod main ([Ljava/lang/String;)V 0009 5 1\n\
    new W2\naconst_null\nnew Sel\n\
    invokespecial W2 <init> (Ljava/lang/Object;Ljava/lang/ref/ReferenceQueue;)V\nreturn\nend\n";

/// The same with null.
const SEL_NULL: &str =
    "class SelNull java/lang/Object 0021\nmethod main ([Ljava/lang/String;)V 0009 5 1\n\
    new W2\naconst_null\naconst_null\n\
    invokespecial W2 <init> (Ljava/lang/Object;Ljava/lang/ref/ReferenceQueue;)V\nreturn\nend\n";

/// The same with a queue.
const SEL_QUEUE: &str =
    "class SelQueue java/lang/Object 0021\nmethod main ([Ljava/lang/String;)V 0009 5 1\n\
    new W2\naconst_null\nnew java/lang/ref/ReferenceQueue\n\
    invokespecial W2 <init> (Ljava/lang/Object;Ljava/lang/ref/ReferenceQueue;)V\nreturn\nend\n";

/// The class that lacks it.
const W2: &str = "class W2 java/lang/ref/WeakReference 0021\n";

const NOQ_TRACE: Traced = Traced {
    line: "trace Noq.class",
    interval: 0,
    trace: "C 3 java/lang/ref/WeakReference\nA 2 0 2 3 16 0\nA 4 0 3 2 16 0\nA 5 0 4 2 16 0\n\
         F 5 0\nZ 5 2\n",
};

#[test]
fn a_queue_that_is_none(rt: HostRuntime) -> Result<(), Fail> {
    let listings = [("Noq.class", NOQ)];
    is_ill_typed(
        rt.alloc(),
        "Noq",
        &listings,
        &NOQ_TRACE,
        "0 Noq main ([Ljava/lang/String;)V 10",
    )
}

const NPE_TRACES: [Traced; 1] = [Traced {
    line: "trace Npe.class",
    interval: 0,
    trace: "A 3 0 2 2 16 0\nA 4 0 3 2 16 0\nC 3 java/lang/NullPointerException\n\
         A 5 0 4 3 32 0\nX 6 0 1 4\nF 7 4\nD 1 5\nD 2 5\nD 3 5\nD 4 6\nZ 7 0\n",
}];

#[test]
fn null_is_refused_before_what_is_no_queue(rt: HostRuntime) -> Result<(), Fail> {
    are_traced(rt.alloc(), "Npe", &[("Npe.class", NPE)], &NPE_TRACES)
}

const REM_TRACES: [Traced; 1] = [Traced {
    line: "trace Rem.class",
    interval: 0,
    trace: "C 3 java/lang/ref/ReferenceQueue\nA 2 0 2 3 16 0\nC 4 java/lang/NoSuchMethodError\n\
         A 3 0 3 4 32 0\nX 4 0 1 3\nF 5 3\nD 1 3\nD 2 3\nD 3 4\nZ 5 0\n",
}];

#[test]
fn what_queues_do_not_have_is_no_method(rt: HostRuntime) -> Result<(), Fail> {
    are_traced(rt.alloc(), "Rem", &[("Rem.class", REM)], &REM_TRACES)
}

const NIL_TRACES: [Traced; 1] = [Traced {
    line: "trace Nil.class",
    interval: 0,
    trace: "C 3 java/lang/NullPointerException\nA 3 0 2 3 32 0\nX 4 0 1 2\nF 5 2\nD 1 3\n\
         D 2 4\nZ 5 0\n",
}];

#[test]
fn null_is_no_queue_to_poll(rt: HostRuntime) -> Result<(), Fail> {
    are_traced(rt.alloc(), "Nil", &[("Nil.class", NIL)], &NIL_TRACES)
}

const SEL_TRACE: Traced = Traced {
    line: "trace Sel.class W2.class",
    interval: 0,
    trace: "C 3 W2\nA 2 0 2 3 16 0\nA 4 0 3 2 16 0\nF 4 0\nZ 4 2\n",
};

const SEL_NULL_TRACES: [Traced; 1] = [Traced {
    line: "trace SelNull.class W2.class",
    interval: 0,
    trace: "C 3 W2\nA 2 0 2 3 16 0\nC 4 java/lang/NoSuchMethodError\nA 5 0 3 4 32 0\n\
         X 6 0 1 3\nF 7 3\nD 1 5\nD 2 5\nD 3 6\nZ 7 0\n",
}];

const SEL_QUEUE_TRACES: [Traced; 1] = [Traced {
    line: "trace SelQueue.class W2.class",
    interval: 0,
    trace: "C 3 W2\nA 2 0 2 3 16 0\nC 4 java/lang/ref/ReferenceQueue\nA 4 0 3 4 16 0\n\
         C 5 java/lang/NoSuchMethodError\nA 5 0 4 5 32 0\nX 6 0 1 4\nF 7 4\nD 1 5\nD 2 5\nD 3 5\n\
         D 4 6\nZ 7 0\n",
}];

#[test]
fn what_is_no_queue_is_refused_before_selection(rt: HostRuntime) -> Result<(), Fail> {
    let listings = [
        ("Sel.class", SEL),
        ("SelNull.class", SEL_NULL),
        ("SelQueue.class", SEL_QUEUE),
        ("W2.class", W2),
    ];
    is_ill_typed(
        rt.alloc(),
        "Sel",
        &listings,
        &SEL_TRACE,
        "0 Sel main ([Ljava/lang/String;)V 7",
    )?;
    are_traced(rt.alloc(), "SelNull", &listings, &SEL_NULL_TRACES)?;
    are_traced(rt.alloc(), "SelQueue", &listings, &SEL_QUEUE_TRACES)
}
