//! Whole runs of programs that print: what `run` writes, and their traces. What is printed is what a JVM prints, but for a
//! surrogate that stands without its partner in one call.

use et_asm::assemble;
use et_files::Status;
use et_io::MemFiles;
use et_test_runs::is_answered;
use std::alloc::Global;
use std::process::Abort;
use std::test::Fail;

/// Files with a class of this name, whose `main` has this body.
fn files_with(alloc: Global, name: &str, body: &str) -> Result<MemFiles, Fail> {
    let text = format!(in alloc;
        "class {name} java/lang/Object 0021\nmethod main ([Ljava/lang/String;)V 0009 {body}return\nend\n"
    )?;
    let path = format!(in alloc; "{name}.class")?;
    let bytes = assemble(alloc, text.as_bytes())?;
    let mut files = MemFiles::begin(alloc);
    files.hold(path.as_str(), &bytes)?;
    Ok(files)
}

/// A program by its name and its body, and what it prints.
type Printing = (&'static str, &'static str, &'static [u8]);

const HELLO: Printing = (
    "Hello",
    "2 1\ngetstatic java/lang/System out Ljava/io/PrintStream;\nldc string Hi\n\
     invokevirtual java/io/PrintStream println (Ljava/lang/String;)V\n",
    b"Hi\n",
);

/// A null and the least int behind it.
const BUILDER: Printing = (
    "Bui",
    "6 1\ngetstatic java/lang/System out Ljava/io/PrintStream;\nnew java/lang/StringBuilder\ndup\n\
     invokespecial java/lang/StringBuilder <init> ()V\naconst_null\n\
     invokevirtual java/lang/StringBuilder append (Ljava/lang/String;)Ljava/lang/StringBuilder;\n\
     ldc int -2147483648\n\
     invokevirtual java/lang/StringBuilder append (I)Ljava/lang/StringBuilder;\n\
     invokevirtual java/lang/StringBuilder toString ()Ljava/lang/String;\n\
     invokevirtual java/io/PrintStream print (Ljava/lang/String;)V\n",
    b"null-2147483648",
);

/// A constant and a string of the same units that was made.
const EQUAL: Printing = (
    "Equal",
    "6 1\ngetstatic java/lang/System out Ljava/io/PrintStream;\nldc string ab\n\
     new java/lang/StringBuilder\ndup\nldc string ab\n\
     invokespecial java/lang/StringBuilder <init> (Ljava/lang/String;)V\n\
     invokevirtual java/lang/StringBuilder toString ()Ljava/lang/String;\n\
     invokevirtual java/lang/String equals (Ljava/lang/Object;)Z\n\
     invokevirtual java/io/PrintStream println (Z)V\n",
    b"true\n",
);

/// A builder is no string, whatever its units are.
const UNLIKE: Printing = (
    "Unlike",
    "5 1\ngetstatic java/lang/System out Ljava/io/PrintStream;\nldc string ab\n\
     new java/lang/StringBuilder\ndup\nldc string ab\n\
     invokespecial java/lang/StringBuilder <init> (Ljava/lang/String;)V\n\
     invokevirtual java/lang/String equals (Ljava/lang/Object;)Z\n\
     invokevirtual java/io/PrintStream println (Z)V\n",
    b"false\n",
);

/// A long, a char, truth values and an empty line.
const KINDS: Printing = (
    "Kinds",
    "6 1\ngetstatic java/lang/System out Ljava/io/PrintStream;\nldc2_w -9223372036854775808\n\
     invokevirtual java/io/PrintStream println (J)V\n\
     getstatic java/lang/System out Ljava/io/PrintStream;\nldc int 65601\n\
     invokevirtual java/io/PrintStream println (C)V\n\
     getstatic java/lang/System out Ljava/io/PrintStream;\niconst_2\n\
     invokevirtual java/io/PrintStream println (Z)V\n\
     getstatic java/lang/System out Ljava/io/PrintStream;\niconst_0\n\
     invokevirtual java/io/PrintStream print (Z)V\n\
     getstatic java/lang/System out Ljava/io/PrintStream;\n\
     invokevirtual java/io/PrintStream println ()V\n",
    b"-9223372036854775808\nA\ntrue\nfalse\n",
);

/// One unit of each length, and a pair of surrogates in one call.
const UNITS: Printing = (
    "Units",
    "2 1\ngetstatic java/lang/System out Ljava/io/PrintStream;\n\
     ldc string %C0%80%C3%A9%DF%BF%E0%A0%80%EF%BF%BF%ED%A0%BD%ED%B0%98\n\
     invokevirtual java/io/PrintStream println (Ljava/lang/String;)V\n",
    b"\x00\xC3\xA9\xDF\xBF\xE0\xA0\x80\xEF\xBF\xBF\xF0\x9F\x90\x98\n",
);

/// The same pair in two calls.
const SPLIT: Printing = (
    "Split",
    "2 1\ngetstatic java/lang/System out Ljava/io/PrintStream;\nldc string %ED%A0%BD\n\
     invokevirtual java/io/PrintStream print (Ljava/lang/String;)V\n\
     getstatic java/lang/System out Ljava/io/PrintStream;\nldc string %ED%B0%98\n\
     invokevirtual java/io/PrintStream print (Ljava/lang/String;)V\n",
    b"??",
);

/// A builder that is doubled until its text would be too long: then it stays as it was.
const LONGEST: Printing = (
    "Longest",
    "3 2\nnew java/lang/StringBuilder\ndup\nldc string x\n\
     invokespecial java/lang/StringBuilder <init> (Ljava/lang/String;)V\nastore 1\nagain:\naload 1\n\
     aload 1\ninvokevirtual java/lang/StringBuilder toString ()Ljava/lang/String;\n\
     invokevirtual java/lang/StringBuilder append (Ljava/lang/String;)Ljava/lang/StringBuilder;\npop\n\
     goto again\nlong:\npop\ngetstatic java/lang/System out Ljava/io/PrintStream;\naload 1\n\
     invokevirtual java/lang/StringBuilder length ()I\n\
     invokevirtual java/io/PrintStream println (I)V\ncatch again long long java/lang/OutOfMemoryError\n",
    b"32768\n",
);

/// A char that isn't there, by the exception that is thrown for it.
const BEHIND: Printing = (
    "Behind",
    "3 1\nbegin:\nldc string abc\niconst_3\ninvokevirtual java/lang/String charAt (I)C\npop\nbehind:\n\
     pop\ngetstatic java/lang/System out Ljava/io/PrintStream;\nldc string abc\niconst_2\n\
     invokevirtual java/lang/String charAt (I)C\ninvokevirtual java/io/PrintStream println (C)V\n\
     catch begin behind behind java/lang/IndexOutOfBoundsException\n",
    b"c\n",
);

/// A system stream is never written.
const WRITTEN: Printing = (
    "Put",
    "2 1\naconst_null\nputstatic java/lang/System out Ljava/io/PrintStream;\n",
    b"",
);

/// A builder of a null string is none.
const UNBUILT: Printing = (
    "NullText",
    "6 1\nnew java/lang/StringBuilder\ndup\naconst_null\n\
     invokespecial java/lang/StringBuilder <init> (Ljava/lang/String;)V\npop\n",
    b"",
);

/// Strings of 65,535 units, so many that they would have too many together: each is dropped before the next is made.
const DROPPED: Printing = (
    "Dropped",
    "3 4\nnew java/lang/StringBuilder\ndup\ninvokespecial java/lang/StringBuilder <init> ()V\nastore 1\n\
     ldc int 65535\nistore 2\nfill:\naload 1\nbipush 120\n\
     invokevirtual java/lang/StringBuilder append (C)Ljava/lang/StringBuilder;\npop\niinc 2 -1\niload 2\n\
     ifne fill\nsipush 1100\nistore 2\nmore:\naload 1\n\
     invokevirtual java/lang/StringBuilder toString ()Ljava/lang/String;\nastore 3\niinc 2 -1\niload 2\n\
     ifne more\ngetstatic java/lang/System out Ljava/io/PrintStream;\naload 3\n\
     invokevirtual java/lang/String length ()I\ninvokevirtual java/io/PrintStream println (I)V\n",
    b"65535\n",
);

/// The program prints this, under any options.
fn prints(rt: &impl Abort, alloc: Global, options: &str, program: Printing) -> Result<(), Fail> {
    let (name, body, printed) = program;
    let mut files = files_with(alloc, name, body)?;
    let line = format!(in alloc; "run {options}{name}.class")?;
    is_answered(alloc, &mut files, line.as_str(), Status::Done, printed, b"")
}

#[test]
fn programs_print(rt: HostRuntime) -> Result<(), Fail> {
    let alloc = rt.alloc();
    let programs: [Printing; 11] = [
        HELLO, BUILDER, EQUAL, UNLIKE, KINDS, UNITS, SPLIT, LONGEST, BEHIND, WRITTEN, UNBUILT,
    ];
    for program in programs {
        prints(&rt, alloc, "", program)?;
        prints(&rt, alloc, "--flush 2 --quantum 1 ", program)?;
    }
    Ok(())
}

#[test]
fn texts_of_dead_strings_are_forgotten(rt: HostRuntime) -> Result<(), Fail> {
    prints(&rt, rt.alloc(), "--flush 1000 ", DROPPED)
}

/// What comes before the limit is printed, and before an event that has no meaning: a builder is no string.
#[test]
fn what_was_printed_stays(rt: HostRuntime) -> Result<(), Fail> {
    let alloc = rt.alloc();
    let (name, body, _) = HELLO;
    let mut files = files_with(alloc, name, body)?;
    for (line, printed) in [
        ("run --limit 3 Hello.class", "".as_bytes()),
        ("run --limit 4 Hello.class", "Hi\n".as_bytes()),
    ] {
        is_answered(alloc, &mut files, line, Status::Done, printed, b"")?;
    }
    let mut wrong = files_with(
        alloc,
        "Wrong",
        "3 1\ngetstatic java/lang/System out Ljava/io/PrintStream;\ndup\nldc string before\n\
         invokevirtual java/io/PrintStream print (Ljava/lang/String;)V\nnew java/lang/StringBuilder\n\
         invokevirtual java/io/PrintStream print (Ljava/lang/String;)V\n",
    )?;
    let said = b"elephant: ill typed 0 Wrong main ([Ljava/lang/String;)V 12\n";
    let line = "run Wrong.class";
    is_answered(alloc, &mut wrong, line, Status::IllTyped, b"before", said)
}

/// The print stream is made where System.out is read first, and no record tells that the static has it.
#[test]
fn programs_that_print_are_traced(rt: HostRuntime) -> Result<(), Fail> {
    let alloc = rt.alloc();
    let (name, body, _) = HELLO;
    let mut hello = files_with(alloc, name, body)?;
    let trace = b"H 1 0\nC 1 [Ljava/lang/String;\nA 0 0 1 1 24 0\nC 2 Hello\n\
                  N 1 2 main ([Ljava/lang/String;)V\nM 1 0 1 0\nC 3 java/io/PrintStream\nA 2 0 2 3 16 0\n\
                  C 4 java/lang/String\nA 3 0 3 4 16 0\nE 5 0 1\nF 6 1\nD 1 4\nZ 6 0\n";
    let line = "trace Hello.class";
    is_answered(alloc, &mut hello, line, Status::Done, trace, b"")?;
    let (name, body, _) = EQUAL;
    let mut equal = files_with(alloc, name, body)?;
    let trace = b"H 1 3\nC 1 [Ljava/lang/String;\nA 0 0 1 1 24 0\nC 2 Equal\n\
                  N 1 2 main ([Ljava/lang/String;)V\nM 1 0 1 0\nC 3 java/io/PrintStream\nA 2 0 2 3 16 0\n\
                  C 4 java/lang/String\nA 3 0 3 4 16 0\nF 3 0\nC 5 java/lang/StringBuilder\n\
                  A 4 0 4 5 16 0\nF 6 0\nA 8 0 5 4 16 0\nF 9 2\nD 4 7\nD 5 8\nE 11 0 1\nF 12 1\nD 1 10\n\
                  Z 12 0\n";
    let line = "trace --flush 3 Equal.class";
    is_answered(alloc, &mut equal, line, Status::Done, trace, b"")
}
