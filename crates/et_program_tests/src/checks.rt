//! The order of the checks that an instruction makes, by the numbers of the table in `docs/events.md`: a row `1 before 2`
//! fails both at one instruction, and shows the answer of the first.

use crate::programs::{
    HEAD, Part, Program, Thrown, Wanted, are_done, are_thrown, is_done, is_run, library, push_part,
    with_main,
};
use et_files::Status;
use et_io::MemFiles;
use std::alloc::Global;
use std::test::Fail;

/// A program that ends at an event without meaning.
#[derive(Clone, Copy)]
struct NoMeaning {
    /// The body of `main`, from its two numbers on.
    main: &'static str,
    /// How the trace goes on.
    trace: &'static str,
    /// The method and the pc of the event.
    place: &'static str,
}

/// The program of this listing has this trace up to an event without meaning.
fn is_ill_typed(
    alloc: Global,
    files: &mut MemFiles,
    listing: &str,
    trace: &str,
    place: &str,
) -> Result<(), Fail> {
    let refusal = format!(in alloc; "elephant: ill typed 0 {place}\n")?;
    let wanted = Wanted {
        status: Status::IllTyped,
        trace,
        refusal: &refusal,
    };
    is_run(alloc, files, listing, "", wanted)
}

/// Each of these programs ends so.
fn are_ill_typed(alloc: Global, rows: &[NoMeaning]) -> Result<(), Fail> {
    let mut files = library(alloc)?;
    for NoMeaning { main, trace, place } in rows {
        let listing = with_main(alloc, main)?;
        is_ill_typed(alloc, &mut files, &listing, trace, place)?;
    }
    Ok(())
}

/// Operands of another kind, and results without room (JVMS 4.10.2.2).
const OPERANDS: [NoMeaning; 17] = [
    // 1 before 2: nothing is on the stack, and there is no such class.
    NoMeaning {
        main: "1 1\ngetfield Gone x I\nreturn\nend\n",
        trace: "F 1 0\nZ 1 2\n",
        place: "T main ([Ljava/lang/String;)V 0",
    },
    // 1 before 2: no room for the result.
    NoMeaning {
        main: "1 1\niconst_0\nnew Gone\nreturn\nend\n",
        trace: "F 2 0\nZ 2 2\n",
        place: "T main ([Ljava/lang/String;)V 1",
    },
    // 1 before 2: no value is a float.
    NoMeaning {
        main: "1 1\niconst_0\ninvokestatic Gone f (F)V\nreturn\nend\n",
        trace: "F 2 0\nZ 2 2\n",
        place: "T main ([Ljava/lang/String;)V 1",
    },
    // 1 before 2: no descriptor of a field.
    NoMeaning {
        main: "1 1\ngetstatic Gone x V\nreturn\nend\n",
        trace: "F 1 0\nZ 1 2\n",
        place: "T main ([Ljava/lang/String;)V 0",
    },
    // 1 before 3: an int for an object, and the field is static.
    NoMeaning {
        main: "1 1\niconst_0\ngetfield Lib s I\nreturn\nend\n",
        trace: "F 2 0\nZ 2 2\n",
        place: "T main ([Ljava/lang/String;)V 1",
    },
    // 1 before 4: no room, and an interface.
    NoMeaning {
        main: "0 1\nnew Ifc\nreturn\nend\n",
        trace: "F 1 0\nZ 1 2\n",
        place: "T main ([Ljava/lang/String;)V 0",
    },
    // 1 before 5: a long for an int, of a class whose initializer throws.
    NoMeaning {
        main: "2 1\nlconst_0\nputstatic Bad s I\nreturn\nend\n",
        trace: "F 2 0\nZ 2 2\n",
        place: "T main ([Ljava/lang/String;)V 1",
    },
    // 1 before 6: a long for an index, and null.
    NoMeaning {
        main: "3 1\naconst_null\nlconst_0\niaload\nreturn\nend\n",
        trace: "F 3 0\nZ 3 2\n",
        place: "T main ([Ljava/lang/String;)V 2",
    },
    // 1 before 7: a long for an index, and no array.
    NoMeaning {
        main: "3 1\nnew Lib\nlconst_0\niaload\nreturn\nend\n",
        trace: "C 3 Lib\nA 2 0 2 3 24 0\nF 3 0\nZ 3 2\n",
        place: "T main ([Ljava/lang/String;)V 4",
    },
    // 1 before 8: no room for the result of a method without code.
    NoMeaning {
        main: "1 1\nnew Low\ninvokevirtual Abs make ()J\nreturn\nend\n",
        trace: "C 3 Low\nA 2 0 2 3 16 0\nF 2 0\nZ 2 2\n",
        place: "T main ([Ljava/lang/String;)V 3",
    },
    // 1 before 9: an object divided by zero.
    NoMeaning {
        main: "2 1\naconst_null\niconst_0\nidiv\nreturn\nend\n",
        trace: "F 3 0\nZ 3 2\n",
        place: "T main ([Ljava/lang/String;)V 2",
    },
    // 1 before 9: no int to return, and the monitor was left.
    NoMeaning {
        main: "1 1\nnew Lib\ninvokevirtual Lib lose ()I\nreturn\nend\n",
        trace: "C 3 Lib\nA 2 0 2 3 24 0\nN 2 3 lose ()I\nM 3 0 2 2\nF 5 0\nZ 5 2\n",
        place: "Lib lose ()I 2",
    },
    // 1 before 10: no argument, and native.
    NoMeaning {
        main: "1 1\ninvokestatic Lib take (I)V\nreturn\nend\n",
        trace: "F 1 0\nZ 1 2\n",
        place: "T main ([Ljava/lang/String;)V 0",
    },
    // 1 before 13: a long for a length, and one that does not fit.
    NoMeaning {
        main: "3 1\nlconst_1\nldc int 67108865\nmultianewarray [[I 2\nreturn\nend\n",
        trace: "F 3 0\nZ 3 2\n",
        place: "T main ([Ljava/lang/String;)V 3",
    },
    // 1 alone: the end of the code.
    NoMeaning {
        main: "1 1\nnop\nend\n",
        trace: "F 2 0\nZ 2 2\n",
        place: "T main ([Ljava/lang/String;)V 1",
    },
    // 1 alone: a return of another kind.
    NoMeaning {
        main: "1 1\niconst_0\nireturn\nend\n",
        trace: "F 2 0\nZ 2 2\n",
        place: "T main ([Ljava/lang/String;)V 1",
    },
    // 1 alone: no room for the exception that is caught.
    NoMeaning {
        main: "0 1\na:\ninvokestatic Lib fail ()V\nb:\nreturn\ncatch a b b *\nend\n",
        trace: "C 3 Lib\nN 2 3 fail ()V\nM 2 0 2 0\nC 4 java/lang/NullPointerException\nA 4 0 2 4 32 0\n\
         X 5 0 2 2\nF 5 0\nZ 5 2\n",
        place: "T main ([Ljava/lang/String;)V 0",
    },
];

#[test]
fn operands_are_checked_first(rt: HostRuntime) -> Result<(), Fail> {
    are_ill_typed(rt.alloc(), &OPERANDS)
}

/// Resolution (JVMS 5.4.3).
const RESOLUTION: [Thrown; 9] = [
    // 2 before 5: no such field, of a class whose initializer throws.
    Thrown {
        main: "1 1\ngetstatic Bad none I\nreturn\nend\n",
        error: "NoSuchFieldError",
        event: 2,
    },
    // 2 before 6: no such class, and null.
    Thrown {
        main: "1 1\naconst_null\ngetfield Gone x I\nreturn\nend\n",
        error: "NoClassDefFoundError",
        event: 3,
    },
    // 2 before 6: no such field, and null.
    Thrown {
        main: "1 1\naconst_null\ngetfield Lib none I\nreturn\nend\n",
        error: "NoSuchFieldError",
        event: 3,
    },
    // 2 before 6: no such method, and null.
    Thrown {
        main: "1 1\naconst_null\ninvokevirtual Lib none ()V\nreturn\nend\n",
        error: "NoSuchMethodError",
        event: 3,
    },
    // 2 before 6: a class for an interface, and null.
    Thrown {
        main: "1 1\naconst_null\ninvokeinterface Lib go ()V\nreturn\nend\n",
        error: "IncompatibleClassChangeError",
        event: 3,
    },
    // 2 before 6: an interface for a class, and null.
    Thrown {
        main: "1 1\naconst_null\ninvokevirtual Ifc own ()V\nreturn\nend\n",
        error: "IncompatibleClassChangeError",
        event: 3,
    },
    // 2 before 9: no such class, and a negative length.
    Thrown {
        main: "1 1\niconst_m1\nanewarray Gone\nreturn\nend\n",
        error: "NoClassDefFoundError",
        event: 3,
    },
    // 2 before 9: the same in each dimension.
    Thrown {
        main: "2 1\niconst_m1\niconst_m1\nmultianewarray [[LGone; 2\nreturn\nend\n",
        error: "NoClassDefFoundError",
        event: 4,
    },
    // 2 before 13: no such class, and a length that does not fit.
    Thrown {
        main: "1 1\nldc int 67108865\nanewarray Gone\nreturn\nend\n",
        error: "NoClassDefFoundError",
        event: 3,
    },
];

/// The same where an object was made before.
const RESOLUTION_BEHIND_AN_OBJECT: [Program; 2] = [
    // 2 before 7: no such method, and an object of another class.
    Program {
        main: "1 1\nnew Lib\ninvokevirtual Abs none ()V\nreturn\nend\n",
        trace: "C 3 Lib\nA 2 0 2 3 24 0\nC 4 java/lang/NoSuchMethodError\nA 3 0 3 4 32 0\n\
         X 4 0 1 3\nF 5 3\nD 1 3\nD 2 3\nD 3 4\nZ 5 0\n",
    },
    // 2 before 9: no such class to cast to; of null nothing is resolved.
    Program {
        main: "1 1\naconst_null\ncheckcast Gone\ninstanceof Gone\npop\nnew Lib\ncheckcast Gone\n\
         return\nend\n",
        trace: "C 3 Lib\nA 6 0 2 3 24 0\nC 4 java/lang/NoClassDefFoundError\nA 7 0 3 4 32 0\n\
         X 8 0 1 3\nF 9 3\nD 1 7\nD 2 7\nD 3 8\nZ 9 0\n",
    },
];

#[test]
fn resolution_is_checked_second(rt: HostRuntime) -> Result<(), Fail> {
    are_thrown(rt.alloc(), &RESOLUTION)?;
    are_done(rt.alloc(), "", &RESOLUTION_BEHIND_AN_OBJECT)
}

/// Static members and others (JVMS 6.5, getfield, getstatic, the invokes), and what `new` makes (JVMS 6.5, new).
const STATIC_AND_MADE: [Thrown; 9] = [
    // 3 before 5: a field that is not static, of a class whose initializer throws.
    Thrown {
        main: "1 1\ngetstatic Bad x I\nreturn\nend\n",
        error: "IncompatibleClassChangeError",
        event: 2,
    },
    // 3 before 5: the same, written.
    Thrown {
        main: "1 1\niconst_0\nputstatic Bad x I\nreturn\nend\n",
        error: "IncompatibleClassChangeError",
        event: 3,
    },
    // 3 before 5: a method that is not static.
    Thrown {
        main: "1 1\ninvokestatic Bad go ()V\nreturn\nend\n",
        error: "IncompatibleClassChangeError",
        event: 2,
    },
    // 3 before 6: a static field, and null.
    Thrown {
        main: "1 1\naconst_null\ngetfield Lib s I\nreturn\nend\n",
        error: "IncompatibleClassChangeError",
        event: 3,
    },
    // 3 before 6: a static method, and null.
    Thrown {
        main: "1 1\naconst_null\ninvokevirtual Lib still ()V\nreturn\nend\n",
        error: "IncompatibleClassChangeError",
        event: 3,
    },
    // 3 before 6: the same, by another invoke.
    Thrown {
        main: "1 1\naconst_null\ninvokespecial Lib still ()V\nreturn\nend\n",
        error: "IncompatibleClassChangeError",
        event: 3,
    },
    // 3 before 10: a method that is not static, and native.
    Thrown {
        main: "1 1\ninvokestatic Lib bare ()V\nreturn\nend\n",
        error: "IncompatibleClassChangeError",
        event: 2,
    },
    // 4 before 5: an abstract class with an initializer.
    Thrown {
        main: "1 1\nnew Pre\nreturn\nend\n",
        error: "InstantiationError",
        event: 2,
    },
    // 4 before 5: an interface with an initializer.
    Thrown {
        main: "1 1\nnew Con\nreturn\nend\n",
        error: "InstantiationError",
        event: 2,
    },
];

/// The same where an object was made before.
const STATIC_BEHIND_AN_OBJECT: [Program; 1] = [
    // 3 before 7: a static field, and an object of another class.
    Program {
        main: "2 1\nnew Low\niconst_0\nputfield Lib s I\nreturn\nend\n",
        trace: "C 3 Low\nA 2 0 2 3 16 0\nC 4 java/lang/IncompatibleClassChangeError\n\
         A 4 0 3 4 32 0\nX 5 0 1 3\nF 6 3\nD 1 4\nD 2 4\nD 3 5\nZ 6 0\n",
    },
];

#[test]
fn what_is_static_and_what_can_be_made(rt: HostRuntime) -> Result<(), Fail> {
    are_thrown(rt.alloc(), &STATIC_AND_MADE)?;
    are_done(rt.alloc(), "", &STATIC_BEHIND_AN_OBJECT)
}

/// Null (JVMS 2.10).
const NULL: [Thrown; 6] = [
    // 6 before 8: null, and a method without code.
    Thrown {
        main: "1 1\naconst_null\ninvokevirtual Abs work ()V\nreturn\nend\n",
        error: "NullPointerException",
        event: 3,
    },
    // 6 before 8: null, and a private method of an interface.
    Thrown {
        main: "1 1\naconst_null\ninvokeinterface Ifc own ()V\nreturn\nend\n",
        error: "NullPointerException",
        event: 3,
    },
    // 6 before 8: null, and a constructor that the class only inherits.
    Thrown {
        main: "1 1\naconst_null\ninvokespecial Son <init> ()V\nreturn\nend\n",
        error: "NullPointerException",
        event: 3,
    },
    // 6 before 9: null, and a negative index.
    Thrown {
        main: "2 1\naconst_null\niconst_m1\niaload\nreturn\nend\n",
        error: "NullPointerException",
        event: 4,
    },
    // 6 before 9: null, and a monitor that is not owned.
    Thrown {
        main: "1 1\naconst_null\nmonitorexit\nreturn\nend\n",
        error: "NullPointerException",
        event: 3,
    },
    // 6 before 10: null, and native.
    Thrown {
        main: "1 1\naconst_null\ninvokevirtual Lib bare ()V\nreturn\nend\n",
        error: "NullPointerException",
        event: 3,
    },
];

/// Initialization (JVMS 5.5).
const INITIALIZATION: [Program; 2] = [
    // 5 before 10: the initializer runs, and then the method is native.
    Program {
        main: "1 1\ninvokestatic Pre bare ()V\nreturn\nend\n",
        trace: "C 3 java/lang/String\nA 2 0 2 3 16 0\nU 2 0 0 2 0 2\nC 4 Pre\nN 2 4 <clinit> ()V\n\
         M 3 0 2 0\nE 4 0 2\nC 5 java/lang/UnsatisfiedLinkError\nA 5 0 3 5 32 0\nX 6 0 1 3\nF 7 2\n\
         D 1 5\nD 3 6\nZ 7 0\n",
    },
    // 5 before 10: at the second call the initializer has failed, and the method is native.
    Program {
        main: "1 1\na:\ninvokestatic Bad bare ()V\nb:\nreturn\nh:\npop\ninvokestatic Bad bare ()V\n\
         return\ncatch a b h *\nend\n",
        trace: "C 3 Bad\nN 2 3 <clinit> ()V\nM 3 0 2 0\nC 4 java/lang/ArithmeticException\n\
         A 6 0 2 4 32 0\nX 7 0 2 2\nC 5 java/lang/ExceptionInInitializerError\nA 7 0 3 5 32 0\n\
         U 7 0 3 1 0 2\nC 6 java/lang/NoClassDefFoundError\nA 10 0 4 6 32 0\nX 11 0 1 4\nF 12 4\n\
         D 1 10\nD 2 8\nD 3 8\nD 4 11\nZ 12 0\n",
    },
];

#[test]
fn initialization_and_null(rt: HostRuntime) -> Result<(), Fail> {
    are_done(rt.alloc(), "", &INITIALIZATION)?;
    are_thrown(rt.alloc(), &NULL)
}

/// Objects of a class that the instruction cannot take (JVMS 4.10.1.9).
const CLASSES_OF_OBJECTS: [NoMeaning; 7] = [
    // 7 before 8: an object of another class, and a method without code.
    NoMeaning {
        main: "1 1\nnew Lib\ninvokevirtual Abs work ()V\nreturn\nend\n",
        trace: "C 3 Lib\nA 2 0 2 3 24 0\nF 2 0\nZ 2 2\n",
        place: "T main ([Ljava/lang/String;)V 3",
    },
    // 7 before 8: an object of another class, and a constructor that the class only inherits.
    NoMeaning {
        main: "1 1\nnew Lib\ninvokespecial Son <init> ()V\nreturn\nend\n",
        trace: "C 3 Lib\nA 2 0 2 3 24 0\nF 2 0\nZ 2 2\n",
        place: "T main ([Ljava/lang/String;)V 3",
    },
    // 7 before 8: an argument that is no queue, and a constructor that the class only inherits.
    NoMeaning {
        main: "3 1\nnew Weak\naconst_null\nnew Lib\n\
         invokespecial Weak <init> (Ljava/lang/Object;Ljava/lang/ref/ReferenceQueue;)V\nreturn\nend\n",
        trace: "C 3 Weak\nA 2 0 2 3 16 0\nC 4 Lib\nA 4 0 3 4 24 0\nF 4 0\nZ 4 2\n",
        place: "T main ([Ljava/lang/String;)V 7",
    },
    // 7 before 9: an array of longs, and a negative index.
    NoMeaning {
        main: "2 1\niconst_1\nnewarray long\niconst_m1\niaload\nreturn\nend\n",
        trace: "C 3 [J\nA 3 0 2 3 32 1\nF 4 0\nZ 4 2\n",
        place: "T main ([Ljava/lang/String;)V 4",
    },
    // 7 before 9: an array of ints, and an index above the last.
    NoMeaning {
        main: "3 1\niconst_1\nnewarray int\niconst_1\nnew Lib\naastore\nreturn\nend\n",
        trace: "C 3 [I\nA 3 0 2 3 32 1\nC 4 Lib\nA 5 0 3 4 24 0\nF 5 0\nZ 5 2\n",
        place: "T main ([Ljava/lang/String;)V 7",
    },
    // 7 before 10: an object of another class, and native.
    NoMeaning {
        main: "1 1\nnew Low\ninvokevirtual Lib bare ()V\nreturn\nend\n",
        trace: "C 3 Low\nA 2 0 2 3 16 0\nF 2 0\nZ 2 2\n",
        place: "T main ([Ljava/lang/String;)V 3",
    },
    // 7 alone: what is thrown is no Throwable.
    NoMeaning {
        main: "1 1\nnew Lib\nathrow\nend\n",
        trace: "C 3 Lib\nA 2 0 2 3 24 0\nF 2 0\nZ 2 2\n",
        place: "T main ([Ljava/lang/String;)V 3",
    },
];

#[test]
fn classes_of_objects(rt: HostRuntime) -> Result<(), Fail> {
    are_ill_typed(rt.alloc(), &CLASSES_OF_OBJECTS)
}

/// Selection (JVMS 6.5, the invokes), lengths and bounds (JVMS 6.5, multianewarray, aastore).
const SELECTION_AND_BOUNDS: [Program; 6] = [
    // 8 before 10: a constructor that the class only inherits, and native.
    Program {
        main: "1 1\nnew Son\ninvokespecial Son <init> ()V\nreturn\nend\n",
        trace: "C 3 Son\nA 2 0 2 3 16 0\nC 4 java/lang/NoSuchMethodError\nA 3 0 3 4 32 0\nX 4 0 1 3\nF 5 3\n\
         D 1 3\nD 2 3\nD 3 4\nZ 5 0\n",
    },
    // 8 behind 7: a queue as the argument, and a constructor that the class only inherits.
    Program {
        main: "3 1\nnew Weak\naconst_null\nnew java/lang/ref/ReferenceQueue\n\
         invokespecial Weak <init> (Ljava/lang/Object;Ljava/lang/ref/ReferenceQueue;)V\nreturn\nend\n",
        trace: "C 3 Weak\nA 2 0 2 3 16 0\nC 4 java/lang/ref/ReferenceQueue\nA 4 0 3 4 16 0\n\
         C 5 java/lang/NoSuchMethodError\nA 5 0 4 5 32 0\nX 6 0 1 4\nF 7 4\nD 1 5\nD 2 5\nD 3 5\nD 4 6\n\
         Z 7 0\n",
    },
    // 8 before 10: a private method of an interface, and native.
    Program {
        main: "1 1\nnew Imp\ninvokeinterface Ifc own ()V\nreturn\nend\n",
        trace: "C 3 Imp\nA 2 0 2 3 16 0\nC 4 java/lang/IncompatibleClassChangeError\nA 3 0 3 4 32 0\nX 4 0 1 3\n\
         F 5 3\nD 1 3\nD 2 3\nD 3 4\nZ 5 0\n",
    },
    // 8 before 10: an object without the interface, and native.
    Program {
        main: "1 1\nnew Lib\ninvokeinterface Ifc own ()V\nreturn\nend\n",
        trace: "C 3 Lib\nA 2 0 2 3 24 0\nC 4 java/lang/IncompatibleClassChangeError\nA 3 0 3 4 32 0\nX 4 0 1 3\n\
         F 5 3\nD 1 3\nD 2 3\nD 3 4\nZ 5 0\n",
    },
    // 9 before 13: a negative length behind one that does not fit.
    Program {
        main: "2 1\nldc int 67108865\niconst_m1\nmultianewarray [[I 2\nreturn\nend\n",
        trace: "C 3 java/lang/NegativeArraySizeException\nA 4 0 2 3 32 0\nX 5 0 1 2\nF 6 2\nD 1 4\nD 2 5\n\
         Z 6 0\n",
    },
    // Within 9 the bounds before the type of the element.
    Program {
        main: "3 1\niconst_1\nanewarray java/lang/String\niconst_1\nnew Lib\naastore\nreturn\nend\n",
        trace: "A 3 0 2 1 32 1\nC 3 Lib\nA 5 0 3 3 24 0\nC 4 java/lang/ArrayIndexOutOfBoundsException\n\
         A 6 0 4 4 32 0\nX 7 0 1 4\nF 8 4\nD 1 6\nD 2 6\nD 3 6\nD 4 7\nZ 8 0\n",
    },
];

#[test]
fn selection_and_bounds(rt: HostRuntime) -> Result<(), Fail> {
    are_done(rt.alloc(), "", &SELECTION_AND_BOUNDS)
}

/// Initializers and monitors of another thread (JVMS 5.5, 2.11.10), and native code (JVMS 5.6).
const WAITING: [Program; 3] = [
    // 5 before 10: another thread runs the initializer, and the method is native.
    Program {
        main: "2 1\nnew Spin\ndup\ninvokespecial java/lang/Thread <init> ()V\n\
         invokevirtual Spin start ()V\nnop\nnop\nnop\ninvokestatic Slow bare ()V\nreturn\nend\n",
        trace: "C 3 Spin\nA 2 0 2 3 24 0\nN 2 3 run ()V\nM 7 1 2 2\nC 4 Slow\nN 3 4 <clinit> ()V\n\
         M 11 1 3 0\nF 60 0\nZ 60 1\n",
    },
    // 10 before 11: native, and a monitor that a thread which has ended still owns.
    Program {
        main: "2 2\nnew Hold\ndup\ninvokespecial java/lang/Thread <init> ()V\nastore_1\naload_1\n\
         invokevirtual Hold start ()V\naload_1\ninvokevirtual Hold join ()V\naload_1\n\
         invokevirtual Hold bare ()V\nreturn\nend\n",
        trace: "C 3 Hold\nA 2 0 2 3 24 0\nN 2 3 run ()V\nM 9 1 2 2\nE 15 1 2\n\
         C 4 java/lang/UnsatisfiedLinkError\nA 20 0 3 4 32 0\nX 21 0 1 3\nF 22 3\nD 1 20\nD 2 20\n\
         D 3 21\nZ 22 0\n",
    },
    // 11 alone: the same monitor.
    Program {
        main: "2 2\nnew Hold\ndup\ninvokespecial java/lang/Thread <init> ()V\nastore_1\naload_1\n\
         invokevirtual Hold start ()V\naload_1\ninvokevirtual Hold join ()V\naload_1\n\
         invokevirtual Hold go ()V\nreturn\nend\n",
        trace: "C 3 Hold\nA 2 0 2 3 24 0\nN 2 3 run ()V\nM 9 1 2 2\nE 15 1 2\nF 60 0\nZ 60 1\n",
    },
];

#[test]
fn threads_that_wait(rt: HostRuntime) -> Result<(), Fail> {
    are_done(rt.alloc(), "--quantum 1 --limit 60 ", &WAITING)
}

/// The listing of `T` whose `main` calls `f`, which calls itself up to the most frames and then does this there.
fn deep(alloc: Global, code: &str) -> Result<String, Fail> {
    Ok(format!(in alloc;
        "{HEAD}method main ([Ljava/lang/String;)V 0009 0 1\ninvokestatic T f ()V\nreturn\nend\n\
         method f ()V 0009 2 0\na:\ninvokestatic T f ()V\nb:\nreturn\nh:\npop\n{code}return\n\
         catch a b h java/lang/StackOverflowError\nend\n"
    )?)
}

/// Calls up to the most frames.
const DESCENT: Part = Part {
    text: "N 2 2 f ()V\n",
    letter: "M",
    from: 2,
    to: 1025,
    rest: "0 2 0",
};

/// The trace of these calls, and of the exception that the last of them throws and catches.
fn descent(alloc: Global) -> Result<String, Fail> {
    let mut trace = String::new(alloc);
    push_part(alloc, &mut trace, &DESCENT)?;
    trace.push_str("C 3 java/lang/StackOverflowError\nA 1025 0 2 3 32 0\n")?;
    Ok(trace)
}

/// What is done at the most frames, how the trace goes on there, and how it ends.
#[derive(Clone, Copy)]
struct AtTheMost {
    code: &'static str,
    /// What the event makes, and the calls that are left then.
    up: Part,
    end: &'static str,
}

const AT_THE_MOST: [AtTheMost; 8] = [
    // 2 before 12: no such method.
    AtTheMost {
        code: "invokestatic Lib none ()V\n",
        up: Part {
            text: "C 4 java/lang/NoSuchMethodError\nA 1028 0 3 4 32 0\n",
            letter: "X",
            from: 1029,
            to: 2052,
            rest: "0 2 3",
        },
        end: "X 2052 0 1 3\nF 2053 3\nD 1 2051\nD 2 1026\nD 3 2052\nZ 2053 0\n",
    },
    // 3 before 12: a method that is not static.
    AtTheMost {
        code: "invokestatic Lib go ()V\n",
        up: Part {
            text: "C 4 java/lang/IncompatibleClassChangeError\nA 1028 0 3 4 32 0\n",
            letter: "X",
            from: 1029,
            to: 2052,
            rest: "0 2 3",
        },
        end: "X 2052 0 1 3\nF 2053 3\nD 1 2051\nD 2 1026\nD 3 2052\nZ 2053 0\n",
    },
    // 6 before 12: null.
    AtTheMost {
        code: "aconst_null\ninvokevirtual Lib go ()V\n",
        up: Part {
            text: "C 4 java/lang/NullPointerException\nA 1029 0 3 4 32 0\n",
            letter: "X",
            from: 1030,
            to: 2053,
            rest: "0 2 3",
        },
        end: "X 2053 0 1 3\nF 2054 3\nD 1 2052\nD 2 1026\nD 3 2053\nZ 2054 0\n",
    },
    // 8 before 12: a method without code.
    AtTheMost {
        code: "new Low\ninvokevirtual Abs work ()V\n",
        up: Part {
            text: "C 4 Low\nA 1028 0 3 4 16 0\nC 5 java/lang/AbstractMethodError\n\
             A 1029 0 4 5 32 0\n",
            letter: "X",
            from: 1030,
            to: 2053,
            rest: "0 2 4",
        },
        end: "X 2053 0 1 4\nF 2054 4\nD 1 2052\nD 2 1026\nD 3 1029\nD 4 2053\nZ 2054 0\n",
    },
    // 10 before 12: native.
    AtTheMost {
        code: "new Lib\ninvokevirtual Lib bare ()V\n",
        up: Part {
            text: "C 4 Lib\nA 1028 0 3 4 24 0\nC 5 java/lang/UnsatisfiedLinkError\n\
             A 1029 0 4 5 32 0\n",
            letter: "X",
            from: 1030,
            to: 2053,
            rest: "0 2 4",
        },
        end: "X 2053 0 1 4\nF 2054 4\nD 1 2052\nD 2 1026\nD 3 1029\nD 4 2053\nZ 2054 0\n",
    },
    // 12 alone: a frame too many, and the same call one frame below.
    AtTheMost {
        code: "invokestatic Lib still ()V\n",
        up: Part {
            text: "A 1028 0 3 3 32 0\nX 1029 0 2 3\nC 4 Lib\nN 3 4 still ()V\nM 1032 0 3 0\n\
             E 1033 0 3\n",
            letter: "E",
            from: 1034,
            to: 2056,
            rest: "0 2",
        },
        end: "E 2056 0 1\nF 2057 3\nD 1 2055\nD 2 1026\nD 3 1030\nZ 2057 0\n",
    },
    // 12 before what the event would make: the class does not begin, and its constants are not set.
    AtTheMost {
        code: "getstatic Pre s I\n",
        up: Part {
            text: "A 1028 0 3 3 32 0\nX 1029 0 2 3\nC 4 java/lang/String\nA 1032 0 4 4 16 0\n\
             U 1032 0 0 2 0 4\nC 5 Pre\nN 3 5 <clinit> ()V\nM 1033 0 3 0\nE 1034 0 3\n",
            letter: "E",
            from: 1036,
            to: 2058,
            rest: "0 2",
        },
        end: "E 2058 0 1\nF 2059 3\nD 1 2057\nD 2 1026\nD 3 1030\nZ 2059 0\n",
    },
    // No check fails: a built-in method has no frame.
    AtTheMost {
        code: "new Lib\ninvokespecial java/lang/Object <init> ()V\n",
        up: Part {
            text: "C 4 Lib\nA 1028 0 3 4 24 0\n",
            letter: "E",
            from: 1030,
            to: 2053,
            rest: "0 2",
        },
        end: "E 2053 0 1\nF 2054 3\nD 1 2052\nD 2 1026\nD 3 1028\nZ 2054 0\n",
    },
];

#[test]
fn checks_at_the_most_frames(rt: HostRuntime) -> Result<(), Fail> {
    let alloc = rt.alloc();
    let mut files = library(alloc)?;
    for AtTheMost { code, up, end } in &AT_THE_MOST {
        let listing = deep(alloc, code)?;
        let mut trace = descent(alloc)?;
        push_part(alloc, &mut trace, up)?;
        trace.push_str(end)?;
        is_done(alloc, &mut files, &listing, "", &trace)?;
    }
    Ok(())
}

/// What is done at the most frames instead, and how the trace goes on there.
const NO_MEANING_AT_THE_MOST: [NoMeaning; 2] = [
    // 1 before 12: no argument.
    NoMeaning {
        main: "invokestatic Lib take (I)V\n",
        trace: "F 1027 1\nD 2 1026\nZ 1027 2\n",
        place: "T f ()V 5",
    },
    // 7 before 12: an object of another class.
    NoMeaning {
        main: "new Low\ninvokevirtual Lib go ()V\n",
        trace: "C 4 Low\nA 1028 0 3 4 16 0\nF 1028 1\nD 2 1026\nZ 1028 2\n",
        place: "T f ()V 8",
    },
];

#[test]
fn no_meaning_at_the_most_frames(rt: HostRuntime) -> Result<(), Fail> {
    let alloc = rt.alloc();
    let mut files = library(alloc)?;
    for NoMeaning { main, trace, place } in &NO_MEANING_AT_THE_MOST {
        let listing = deep(alloc, main)?;
        let mut whole = descent(alloc)?;
        whole.push_str(trace)?;
        is_ill_typed(alloc, &mut files, &listing, &whole, place)?;
    }
    Ok(())
}

/// 11 before 12: the monitor of a thread that has ended is still owned, and the call at the most frames waits for it.
const WAITING_AT_THE_MOST: &str =
    "class T java/lang/Object 0021\nfield lock LHold; 0008\nmethod main ([Ljava/lang/String;)V 0009 2 2\n\
     new Hold\ndup\ninvokespecial java/lang/Thread <init> ()V\ndup\nputstatic T lock LHold;\nastore_1\n\
     aload_1\ninvokevirtual Hold start ()V\naload_1\ninvokevirtual Hold join ()V\ninvokestatic T f ()V\n\
     return\nend\nmethod f ()V 0009 2 0\na:\ninvokestatic T f ()V\nb:\nreturn\nh:\npop\n\
     getstatic T lock LHold;\ninvokevirtual Hold go ()V\nreturn\n\
     catch a b h java/lang/StackOverflowError\nend\n";

const WAITED: Part = Part {
    text: "C 3 Hold\nA 2 0 2 3 24 0\nU 6 0 0 0 0 2\nN 2 3 run ()V\nM 11 1 2 2\nE 17 1 2\nN 3 2 f ()V\n",
    letter: "M",
    from: 21,
    to: 1044,
    rest: "0 3 0",
};

#[test]
fn waiting_at_the_most_frames(rt: HostRuntime) -> Result<(), Fail> {
    let alloc = rt.alloc();
    let mut files = library(alloc)?;
    let mut trace = String::new(alloc);
    push_part(alloc, &mut trace, &WAITED)?;
    trace.push_str(
        "C 4 java/lang/StackOverflowError\nA 1044 0 3 4 32 0\nF 1100 1\nD 3 1045\nZ 1100 1\n",
    )?;
    let options = "--quantum 1 --limit 1100 ";
    is_done(alloc, &mut files, WAITING_AT_THE_MOST, options, &trace)
}

/// The last check: the objects and slots that the event makes.
const TOO_MANY: [Program; 3] = [
    // The elements of each array count, of whatever size.
    Program {
        main: "1 1\nldc int 67108865\nnewarray boolean\nreturn\nend\n",
        trace: "F 2 0\nZ 2 3\n",
    },
    // An array whose elements do not fit beside it.
    Program {
        main: "2 1\niconst_2\nldc int 67108864\nmultianewarray [[I 2\nreturn\nend\n",
        trace: "F 3 0\nZ 3 3\n",
    },
    // More objects than can be numbered.
    Program {
        main: "2 1\nldc int 16777214\niconst_0\nmultianewarray [[I 2\nreturn\nend\n",
        trace: "F 3 0\nZ 3 3\n",
    },
];

#[test]
fn what_does_not_fit(rt: HostRuntime) -> Result<(), Fail> {
    let alloc = rt.alloc();
    let mut files = library(alloc)?;
    for Program { main, trace } in &TOO_MANY {
        let listing = with_main(alloc, main)?;
        let wanted = Wanted {
            status: Status::ObjectLimit,
            trace,
            refusal: "elephant: object limit\n",
        };
        is_run(alloc, &mut files, &listing, "", wanted)?;
    }
    Ok(())
}
