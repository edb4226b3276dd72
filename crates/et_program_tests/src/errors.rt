//! Each exception and error that the machine itself throws: caught by a handler of its class, and the end of its thread.

use crate::programs::{
    HEAD, Part, Program, Thrown, are_done, are_thrown, is_done, library, push_part,
};
use et_io::MemFiles;
use std::alloc::Global;
use std::test::Fail;

/// The listing of `T` whose `main` does this, with a handler of this class or with none.
fn listing_of(alloc: Global, code: &str, catch: &str) -> Result<String, Fail> {
    Ok(format!(in alloc;
        "{HEAD}method main ([Ljava/lang/String;)V 0009 4 1\na:\n{code}b:\nreturn\nh:\npop\nreturn\n{catch}end\n\
         method f ()V 0009 1 0\ninvokestatic T f ()V\nreturn\nend\n"
    )?)
}

/// An exception that is thrown, and its traces.
#[derive(Clone, Copy)]
struct Throwing<'a> {
    /// The class of the exception, in `java/lang`.
    error: &'a str,
    code: &'a str,
    /// The trace up to the exception.
    before: &'a str,
    /// How it goes on where the exception is caught.
    caught: &'a str,
    /// How it goes on where it isn't.
    uncaught: &'a str,
}

/// This code throws its exception, once caught and once not, with these traces.
fn is_thrown(
    alloc: Global,
    files: &mut MemFiles,
    options: &str,
    throwing: &Throwing<'_>,
) -> Result<(), Fail> {
    let handler = format!(in alloc; "catch a b h java/lang/{}\n", throwing.error)?;
    for (catch, rest) in [(handler.as_str(), throwing.caught), ("", throwing.uncaught)] {
        let listing = listing_of(alloc, throwing.code, catch)?;
        let trace = format!(in alloc; "{}{rest}", throwing.before)?;
        is_done(alloc, files, &listing, options, &trace)?;
    }
    Ok(())
}

const ERRORS: [Throwing; 17] = [
    Throwing {
        error: "AbstractMethodError",
        code: "new Low\ninvokevirtual Abs work ()V\n",
        before: "C 3 Low\nA 2 0 2 3 16 0\nC 4 java/lang/AbstractMethodError\nA 3 0 3 4 32 0\n",
        caught: "E 6 0 1\nF 7 3\nD 1 5\nD 2 3\nD 3 4\nZ 7 0\n",
        uncaught: "X 4 0 1 3\nF 5 3\nD 1 3\nD 2 3\nD 3 4\nZ 5 0\n",
    },
    Throwing {
        error: "ArithmeticException",
        code: "lconst_1\nlconst_0\nlrem\npop2\n",
        before: "C 3 java/lang/ArithmeticException\nA 4 0 2 3 32 0\n",
        caught: "E 7 0 1\nF 8 2\nD 1 6\nD 2 5\nZ 8 0\n",
        uncaught: "X 5 0 1 2\nF 6 2\nD 1 4\nD 2 5\nZ 6 0\n",
    },
    Throwing {
        error: "ArrayIndexOutOfBoundsException",
        code: "iconst_1\nnewarray boolean\niconst_1\nbaload\npop\n",
        before: "C 3 [Z\nA 3 0 2 3 32 1\nC 4 java/lang/ArrayIndexOutOfBoundsException\n\
         A 5 0 3 4 32 0\n",
        caught: "E 8 0 1\nF 9 3\nD 1 7\nD 2 5\nD 3 6\nZ 9 0\n",
        uncaught: "X 6 0 1 3\nF 7 3\nD 1 5\nD 2 5\nD 3 6\nZ 7 0\n",
    },
    Throwing {
        error: "ArrayStoreException",
        code: "iconst_1\nanewarray java/lang/String\niconst_0\nnew Lib\naastore\n",
        before: "A 3 0 2 1 32 1\nC 3 Lib\nA 5 0 3 3 24 0\nC 4 java/lang/ArrayStoreException\n\
         A 6 0 4 4 32 0\n",
        caught: "E 9 0 1\nF 10 4\nD 1 8\nD 2 6\nD 3 6\nD 4 7\nZ 10 0\n",
        uncaught: "X 7 0 1 4\nF 8 4\nD 1 6\nD 2 6\nD 3 6\nD 4 7\nZ 8 0\n",
    },
    Throwing {
        error: "ClassCastException",
        code: "new Lib\ncheckcast java/lang/Runnable\npop\n",
        before: "C 3 Lib\nA 2 0 2 3 24 0\nC 4 java/lang/ClassCastException\nA 3 0 3 4 32 0\n",
        caught: "E 6 0 1\nF 7 3\nD 1 5\nD 2 3\nD 3 4\nZ 7 0\n",
        uncaught: "X 4 0 1 3\nF 5 3\nD 1 3\nD 2 3\nD 3 4\nZ 5 0\n",
    },
    Throwing {
        error: "ExceptionInInitializerError",
        code: "getstatic Bad s I\npop\n",
        before: "C 3 Bad\nN 2 3 <clinit> ()V\nM 3 0 2 0\nC 4 java/lang/ArithmeticException\n\
         A 6 0 2 4 32 0\nX 7 0 2 2\nC 5 java/lang/ExceptionInInitializerError\nA 7 0 3 5 32 0\n\
         U 7 0 3 1 0 2\n",
        caught: "E 10 0 1\nF 11 3\nD 1 9\nD 2 8\nD 3 8\nZ 11 0\n",
        uncaught: "X 8 0 1 3\nF 9 3\nD 1 7\nD 2 8\nD 3 8\nZ 9 0\n",
    },
    Throwing {
        error: "IllegalMonitorStateException",
        code: "aload_0\nmonitorexit\n",
        before: "C 3 java/lang/IllegalMonitorStateException\nA 3 0 2 3 32 0\n",
        caught: "E 6 0 1\nF 7 2\nD 1 5\nD 2 4\nZ 7 0\n",
        uncaught: "X 4 0 1 2\nF 5 2\nD 1 3\nD 2 4\nZ 5 0\n",
    },
    Throwing {
        error: "IllegalThreadStateException",
        code: "new java/lang/Thread\ndup\ninvokevirtual java/lang/Thread start ()V\n\
         invokevirtual java/lang/Thread start ()V\n",
        before: "C 3 java/lang/Thread\nA 2 0 2 3 24 0\nC 4 java/lang/IllegalThreadStateException\n\
         A 5 0 3 4 32 0\n",
        caught: "E 8 0 1\nN 2 3 run ()V\nM 10 1 2 2\nE 14 1 2\nF 15 3\nD 1 7\nD 2 14\nD 3 6\n\
         Z 15 0\n",
        uncaught: "X 6 0 1 3\nN 2 3 run ()V\nM 8 1 2 2\nE 12 1 2\nF 13 3\nD 1 5\nD 2 12\nD 3 6\n\
         Z 13 0\n",
    },
    Throwing {
        error: "IncompatibleClassChangeError",
        code: "new Lib\ngetfield Lib s I\npop\n",
        before: "C 3 Lib\nA 2 0 2 3 24 0\nC 4 java/lang/IncompatibleClassChangeError\n\
         A 3 0 3 4 32 0\n",
        caught: "E 6 0 1\nF 7 3\nD 1 5\nD 2 3\nD 3 4\nZ 7 0\n",
        uncaught: "X 4 0 1 3\nF 5 3\nD 1 3\nD 2 3\nD 3 4\nZ 5 0\n",
    },
    Throwing {
        error: "InstantiationError",
        code: "new java/lang/Runnable\npop\n",
        before: "C 3 java/lang/InstantiationError\nA 2 0 2 3 32 0\n",
        caught: "E 5 0 1\nF 6 2\nD 1 4\nD 2 3\nZ 6 0\n",
        uncaught: "X 3 0 1 2\nF 4 2\nD 1 2\nD 2 3\nZ 4 0\n",
    },
    Throwing {
        error: "NegativeArraySizeException",
        code: "iconst_m1\nnewarray long\npop\n",
        before: "C 3 java/lang/NegativeArraySizeException\nA 3 0 2 3 32 0\n",
        caught: "E 6 0 1\nF 7 2\nD 1 5\nD 2 4\nZ 7 0\n",
        uncaught: "X 4 0 1 2\nF 5 2\nD 1 3\nD 2 4\nZ 5 0\n",
    },
    Throwing {
        error: "NoClassDefFoundError",
        code: "new Gone\npop\n",
        before: "C 3 java/lang/NoClassDefFoundError\nA 2 0 2 3 32 0\n",
        caught: "E 5 0 1\nF 6 2\nD 1 4\nD 2 3\nZ 6 0\n",
        uncaught: "X 3 0 1 2\nF 4 2\nD 1 2\nD 2 3\nZ 4 0\n",
    },
    Throwing {
        error: "NoSuchFieldError",
        code: "getstatic Lib none I\npop\n",
        before: "C 3 java/lang/NoSuchFieldError\nA 2 0 2 3 32 0\n",
        caught: "E 5 0 1\nF 6 2\nD 1 4\nD 2 3\nZ 6 0\n",
        uncaught: "X 3 0 1 2\nF 4 2\nD 1 2\nD 2 3\nZ 4 0\n",
    },
    Throwing {
        error: "NoSuchMethodError",
        code: "invokestatic Lib none ()V\n",
        before: "C 3 java/lang/NoSuchMethodError\nA 2 0 2 3 32 0\n",
        caught: "E 5 0 1\nF 6 2\nD 1 4\nD 2 3\nZ 6 0\n",
        uncaught: "X 3 0 1 2\nF 4 2\nD 1 2\nD 2 3\nZ 4 0\n",
    },
    Throwing {
        error: "NullPointerException",
        code: "aconst_null\narraylength\npop\n",
        before: "C 3 java/lang/NullPointerException\nA 3 0 2 3 32 0\n",
        caught: "E 6 0 1\nF 7 2\nD 1 5\nD 2 4\nZ 7 0\n",
        uncaught: "X 4 0 1 2\nF 5 2\nD 1 3\nD 2 4\nZ 5 0\n",
    },
    Throwing {
        error: "StringIndexOutOfBoundsException",
        code: "ldc string Hi\niconst_2\ninvokevirtual java/lang/String charAt (I)C\npop\n",
        before: "C 3 java/lang/String\nA 2 0 2 3 16 0\n\
         C 4 java/lang/StringIndexOutOfBoundsException\nA 4 0 3 4 32 0\n",
        caught: "E 7 0 1\nF 8 2\nD 1 6\nD 3 5\nZ 8 0\n",
        uncaught: "X 5 0 1 3\nF 6 2\nD 1 4\nD 3 5\nZ 6 0\n",
    },
    Throwing {
        error: "UnsatisfiedLinkError",
        code: "new Lib\ninvokevirtual Lib bare ()V\n",
        before: "C 3 Lib\nA 2 0 2 3 24 0\nC 4 java/lang/UnsatisfiedLinkError\nA 3 0 3 4 32 0\n",
        caught: "E 6 0 1\nF 7 3\nD 1 5\nD 2 3\nD 3 4\nZ 7 0\n",
        uncaught: "X 4 0 1 3\nF 5 3\nD 1 3\nD 2 3\nD 3 4\nZ 5 0\n",
    },
];

#[test]
fn each_error_caught_and_uncaught(rt: HostRuntime) -> Result<(), Fail> {
    let mut files = library(rt.alloc())?;
    for throwing in &ERRORS {
        is_thrown(rt.alloc(), &mut files, "", throwing)?;
    }
    Ok(())
}

/// Calls up to the most frames.
const FRAMES: Part = Part {
    text: "N 2 2 f ()V\n",
    letter: "M",
    from: 2,
    to: 1025,
    rest: "0 2 0",
};

/// The exception that leaves all of them but `main`.
const LEFT: Part = Part {
    text: "C 3 java/lang/StackOverflowError\nA 1025 0 2 3 32 0\n",
    letter: "X",
    from: 1026,
    to: 2049,
    rest: "0 2 2",
};

#[test]
fn a_frame_too_many(rt: HostRuntime) -> Result<(), Fail> {
    let alloc = rt.alloc();
    let mut files = library(alloc)?;
    let mut before = String::new(alloc);
    push_part(alloc, &mut before, &FRAMES)?;
    push_part(alloc, &mut before, &LEFT)?;
    let throwing = Throwing {
        error: "StackOverflowError",
        code: "invokestatic T f ()V\n",
        before: &before,
        caught: "E 2051 0 1\nF 2052 2\nD 1 2050\nD 2 2049\nZ 2052 0\n",
        uncaught: "X 2049 0 1 2\nF 2050 2\nD 1 2048\nD 2 2049\nZ 2050 0\n",
    };
    is_thrown(alloc, &mut files, "", &throwing)
}

/// The trace of the 64 threads that are made, of which the last is not started any more.
fn threads_made(alloc: Global) -> Result<String, Fail> {
    let mut trace = String::from_str(alloc, "C 3 java/lang/Thread\n")?;
    let mut event = 2u32;
    for object in 2..66 {
        trace.push_str(&format!(in alloc; "A {event} 0 {object} 3 24 0\n")?)?;
        event = event.saturating_add(3);
    }
    trace.push_str("C 4 java/lang/OutOfMemoryError\nA 192 0 66 4 32 0\n")?;
    Ok(trace)
}

/// The trace from where `main` is left: the other threads run one after another, the first of them entered at this event.
fn threads_run(
    alloc: Global,
    leaving: &str,
    first: u32,
    ending: &str,
    end: &str,
) -> Result<String, Fail> {
    let mut trace = String::from_str(alloc, leaving)?;
    let mut deaths = String::from_str(alloc, ending)?;
    let mut event = first;
    let mut object = 2u32;
    for thread in 1..64 {
        trace.push_str(&format!(in alloc; "M {event} {thread} 2 {object}\n")?)?;
        event = event.saturating_add(4);
        trace.push_str(&format!(in alloc; "E {event} {thread} 2\n")?)?;
        deaths.push_str(&format!(in alloc; "D {object} {event}\n")?)?;
        event = event.saturating_add(2);
        object = object.saturating_add(1);
    }
    trace.push_str(&deaths)?;
    trace.push_str("D 65 192\nD 66 193\n")?;
    trace.push_str(end)?;
    Ok(trace)
}

#[test]
fn a_thread_too_many(rt: HostRuntime) -> Result<(), Fail> {
    let alloc = rt.alloc();
    let mut files = library(alloc)?;
    let before = threads_made(alloc)?;
    let caught = threads_run(
        alloc,
        "E 195 0 1\nN 2 3 run ()V\n",
        197,
        "F 574 66\nD 1 194\n",
        "Z 574 0\n",
    )?;
    let uncaught = threads_run(
        alloc,
        "X 193 0 1 66\nN 2 3 run ()V\n",
        195,
        "F 572 66\nD 1 192\n",
        "Z 572 0\n",
    )?;
    let throwing = Throwing {
        error: "OutOfMemoryError",
        code: "c:\nnew java/lang/Thread\ninvokevirtual java/lang/Thread start ()V\ngoto c\n",
        before: &before,
        caught: &caught,
        uncaught: &uncaught,
    };
    is_thrown(alloc, &mut files, "--quantum 1000000 ", &throwing)
}

/// Other instructions that throw them (JVMS 6.5).
const OTHERS: [Thrown; 17] = [
    Thrown {
        main: "4 1\niconst_1\niconst_0\nirem\npop\nreturn\nend\n",
        error: "ArithmeticException",
        event: 4,
    },
    Thrown {
        main: "4 1\nlconst_1\nlconst_0\nldiv\npop2\nreturn\nend\n",
        error: "ArithmeticException",
        event: 4,
    },
    Thrown {
        main: "4 1\niconst_m1\nanewarray Lib\npop\nreturn\nend\n",
        error: "NegativeArraySizeException",
        event: 3,
    },
    Thrown {
        main: "4 1\niconst_0\niconst_m1\nmultianewarray [[I 2\npop\nreturn\nend\n",
        error: "NegativeArraySizeException",
        event: 4,
    },
    Thrown {
        main: "4 1\naconst_null\nathrow\nreturn\nend\n",
        error: "NullPointerException",
        event: 3,
    },
    Thrown {
        main: "4 1\naconst_null\ngetfield Lib x I\npop\nreturn\nend\n",
        error: "NullPointerException",
        event: 3,
    },
    Thrown {
        main: "4 1\naconst_null\niconst_1\nputfield Lib x I\nreturn\nend\n",
        error: "NullPointerException",
        event: 4,
    },
    Thrown {
        main: "4 1\naconst_null\niconst_0\nlaload\npop2\nreturn\nend\n",
        error: "NullPointerException",
        event: 4,
    },
    Thrown {
        main: "4 1\naconst_null\niconst_0\niconst_0\ncastore\nreturn\nend\n",
        error: "NullPointerException",
        event: 5,
    },
    Thrown {
        main: "4 1\naconst_null\nmonitorenter\nreturn\nend\n",
        error: "NullPointerException",
        event: 3,
    },
    Thrown {
        main: "4 1\naconst_null\ninvokespecial java/lang/Object <init> ()V\nreturn\nend\n",
        error: "NullPointerException",
        event: 3,
    },
    Thrown {
        main: "4 1\naconst_null\ninvokeinterface java/lang/Runnable run ()V\nreturn\nend\n",
        error: "NullPointerException",
        event: 3,
    },
    Thrown {
        main: "4 1\niconst_0\nputstatic Gone x I\nreturn\nend\n",
        error: "NoClassDefFoundError",
        event: 3,
    },
    Thrown {
        main: "4 1\ninvokestatic Gone f ()V\nreturn\nend\n",
        error: "NoClassDefFoundError",
        event: 2,
    },
    Thrown {
        main: "4 1\niconst_1\nanewarray [LGone;\npop\nreturn\nend\n",
        error: "NoClassDefFoundError",
        event: 3,
    },
    Thrown {
        main: "4 1\ninvokestatic interface Lib still ()V\nreturn\nend\n",
        error: "IncompatibleClassChangeError",
        event: 2,
    },
    Thrown {
        main: "4 1\niconst_0\ninvokestatic Lib take (I)V\nreturn\nend\n",
        error: "UnsatisfiedLinkError",
        event: 3,
    },
];

/// The same where an object was made before, and the traces behind the entry of `main`.
const OTHERS_BEHIND_AN_OBJECT: [Program; 10] = [
    // ArrayIndexOutOfBoundsException.
    Program {
        main: "4 1\niconst_2\nnewarray long\niconst_m1\nlconst_0\nlastore\nreturn\nend\n",
        trace: "C 3 [J\nA 3 0 2 3 40 2\nC 4 java/lang/ArrayIndexOutOfBoundsException\n\
         A 6 0 3 4 32 0\nX 7 0 1 3\nF 8 3\nD 1 6\nD 2 6\nD 3 7\nZ 8 0\n",
    },
    Program {
        main: "4 1\niconst_0\nanewarray Lib\niconst_0\naaload\npop\nreturn\nend\n",
        trace: "C 3 [LLib;\nA 3 0 2 3 24 0\nC 4 java/lang/ArrayIndexOutOfBoundsException\n\
         A 5 0 3 4 32 0\nX 6 0 1 3\nF 7 3\nD 1 5\nD 2 5\nD 3 6\nZ 7 0\n",
    },
    // ArrayStoreException.
    Program {
        main: "4 1\niconst_1\nanewarray [J\niconst_0\niconst_1\nnewarray int\naastore\nreturn\n\
         end\n",
        trace: "C 3 [[J\nA 3 0 2 3 32 1\nC 4 [I\nA 6 0 3 4 32 1\n\
         C 5 java/lang/ArrayStoreException\nA 7 0 4 5 32 0\nX 8 0 1 4\nF 9 4\nD 1 7\nD 2 7\nD 3 7\n\
         D 4 8\nZ 9 0\n",
    },
    // ClassCastException.
    Program {
        main: "4 1\niconst_1\nnewarray int\ncheckcast [Ljava/lang/Object;\npop\nreturn\nend\n",
        trace: "C 3 [I\nA 3 0 2 3 32 1\nC 4 java/lang/ClassCastException\nA 4 0 3 4 32 0\n\
         X 5 0 1 3\nF 6 3\nD 1 4\nD 2 4\nD 3 5\nZ 6 0\n",
    },
    // IllegalMonitorStateException.
    Program {
        main: "4 1\nnew Idle\ninvokevirtual Idle hold ()V\nreturn\nend\n",
        trace: "C 3 Idle\nA 2 0 2 3 16 0\nN 2 3 hold ()V\nM 3 0 2 2\n\
         C 4 java/lang/IllegalMonitorStateException\nA 6 0 3 4 32 0\nA 9 0 4 4 32 0\nX 10 0 2 4\n\
         X 11 0 1 4\nF 12 4\nD 1 10\nD 2 9\nD 3 7\nD 4 11\nZ 12 0\n",
    },
    Program {
        main: "4 1\nnew Lib\ninstanceof [LGone;\npop\nreturn\nend\n",
        trace: "C 3 Lib\nA 2 0 2 3 24 0\nC 4 java/lang/NoClassDefFoundError\nA 3 0 3 4 32 0\n\
         X 4 0 1 3\nF 5 3\nD 1 3\nD 2 3\nD 3 4\nZ 5 0\n",
    },
    // NoSuchMethodError.
    Program {
        main: "4 1\nnew Imp\ninvokeinterface Ifc none ()V\nreturn\nend\n",
        trace: "C 3 Imp\nA 2 0 2 3 16 0\nC 4 java/lang/NoSuchMethodError\nA 3 0 3 4 32 0\n\
         X 4 0 1 3\nF 5 3\nD 1 3\nD 2 3\nD 3 4\nZ 5 0\n",
    },
    Program {
        main: "4 1\nnew Both\ninvokevirtual Both step ()V\nreturn\nend\n",
        trace: "C 3 Both\nA 2 0 2 3 16 0\nC 4 java/lang/IncompatibleClassChangeError\n\
         A 3 0 3 4 32 0\nX 4 0 1 3\nF 5 3\nD 1 3\nD 2 3\nD 3 4\nZ 5 0\n",
    },
    Program {
        main: "4 1\nnew Both\ninvokeinterface One step ()V\nreturn\nend\n",
        trace: "C 3 Both\nA 2 0 2 3 16 0\nC 4 java/lang/IncompatibleClassChangeError\n\
         A 3 0 3 4 32 0\nX 4 0 1 3\nF 5 3\nD 1 3\nD 2 3\nD 3 4\nZ 5 0\n",
    },
    // AbstractMethodError.
    Program {
        main: "4 1\nnew Idle\ninvokeinterface java/lang/Runnable run ()V\nreturn\nend\n",
        trace: "C 3 Idle\nA 2 0 2 3 16 0\nC 4 java/lang/AbstractMethodError\nA 3 0 3 4 32 0\n\
         X 4 0 1 3\nF 5 3\nD 1 3\nD 2 3\nD 3 4\nZ 5 0\n",
    },
];

#[test]
fn other_causes(rt: HostRuntime) -> Result<(), Fail> {
    are_thrown(rt.alloc(), &OTHERS)?;
    are_done(rt.alloc(), "", &OTHERS_BEHIND_AN_OBJECT)
}
