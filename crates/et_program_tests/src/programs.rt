//! Programs of one class `T` that differ in its methods alone, run beside classes that serve all of them.

use crate::traces::beginning;
use et_asm::assemble;
use et_files::Status;
use et_io::MemFiles;
use et_test_runs::is_answered;
use std::alloc::Global;
use std::test::Fail;

/// The classes beside `T`, by the paths of their files.
const CLASSES: [(&str, &str); 18] = [
    (
        "Lib.class",
        "class Lib java/lang/Object 0021\nfield x I 0000\nfield s I 0008\nmethod go ()V 0001 0 1\n\
         return\nend\nmethod still ()V 0009 0 0\nreturn\nend\nmethod bare ()V 0101\n\
         method take (I)V 0109\nmethod fail ()V 0009 1 0\naconst_null\nathrow\nend\n\
         method lose ()I 0021 1 1\naload_0\nmonitorexit\nreturn\nend\n",
    ),
    (
        "Abs.class",
        "class Abs java/lang/Object 0421\nmethod work ()V 0401\nmethod make ()J 0401\n",
    ),
    ("Low.class", "class Low Abs 0021\n"),
    (
        "Weak.class",
        "class Weak java/lang/ref/WeakReference 0021\n",
    ),
    (
        "Nat.class",
        "class Nat java/lang/Object 0021\nmethod <init> ()V 0101\n",
    ),
    ("Son.class", "class Son Nat 0021\n"),
    (
        "Ifc.class",
        "class Ifc java/lang/Object 0601\nmethod own ()V 0102\n",
    ),
    (
        "Imp.class",
        "class Imp java/lang/Object 0021\ninterface Ifc\n",
    ),
    (
        "Pre.class",
        "class Pre java/lang/Object 0421\nfield s I 0008\nfield t Ljava/lang/String; 0018 string text\n\
         method bare ()V 0109\nmethod <clinit> ()V 0008 0 0\nreturn\nend\n",
    ),
    (
        "Con.class",
        "class Con java/lang/Object 0601\nmethod <clinit> ()V 0008 0 0\nreturn\nend\n",
    ),
    (
        "Bad.class",
        "class Bad java/lang/Object 0021\nfield x I 0000\nfield s I 0008\nmethod go ()V 0001 0 1\n\
         return\nend\nmethod bare ()V 0109\nmethod <clinit> ()V 0008 2 0\niconst_1\niconst_0\nidiv\npop\n\
         return\nend\n",
    ),
    (
        "One.class",
        "class One java/lang/Object 0601\nmethod step ()V 0001 0 1\nreturn\nend\n",
    ),
    (
        "Two.class",
        "class Two java/lang/Object 0601\nmethod step ()V 0001 0 1\nreturn\nend\n",
    ),
    (
        "Both.class",
        "class Both java/lang/Object 0021\ninterface One\ninterface Two\n",
    ),
    (
        "Idle.class",
        "class Idle java/lang/Object 0021\ninterface java/lang/Runnable\nmethod hold ()V 0021 1 1\na:\n\
         aload_0\nmonitorexit\nreturn\nb:\npop\nreturn\ncatch a b b *\nend\n",
    ),
    (
        "Slow.class",
        "class Slow java/lang/Object 0021\nmethod bare ()V 0109\nmethod <clinit> ()V 0008 0 0\na:\n\
         goto a\nend\n",
    ),
    (
        "Spin.class",
        "class Spin java/lang/Thread 0021\nmethod run ()V 0001 0 1\ninvokestatic Slow bare ()V\nreturn\n\
         end\n",
    ),
    (
        "Hold.class",
        "class Hold java/lang/Thread 0021\nmethod run ()V 0001 1 1\naload_0\nmonitorenter\nreturn\nend\n\
         method bare ()V 0121\nmethod go ()V 0021 0 1\nreturn\nend\n",
    ),
];

/// The operands of each command: `T`, which has `main`, and the other classes.
const PATHS: &str =
    "T.class Lib.class Abs.class Low.class Weak.class Nat.class Son.class Ifc.class Imp.class Pre.class Con.class Bad.class One.class Two.class Both.class Idle.class Slow.class Spin.class Hold.class";

/// What the listing of `T` begins with.
pub const HEAD: &str = "class T java/lang/Object 0021\n";

/// Files with the classes beside `T`.
pub fn library(alloc: Global) -> Result<MemFiles, Fail> {
    let mut files = MemFiles::begin(alloc);
    for (path, listing) in CLASSES {
        let class = assemble(alloc, listing.as_bytes())?;
        files.hold(path, class.as_slice())?;
    }
    Ok(files)
}

/// What is to come of a program.
#[derive(Clone, Copy)]
pub struct Wanted<'a> {
    pub status: Status,
    /// How the trace goes on behind the entry of `main`.
    pub trace: &'a str,
    pub refusal: &'a str,
}

/// `trace` with these options answers so, where `T` is the class of this listing.
pub fn is_run(
    alloc: Global,
    files: &mut MemFiles,
    listing: &str,
    options: &str,
    wanted: Wanted<'_>,
) -> Result<(), Fail> {
    let class = assemble(alloc, listing.as_bytes())?;
    files.hold("T.class", class.as_slice())?;
    let line = format!(in alloc; "trace {options}{PATHS}")?;
    let mut trace = beginning(alloc, "T", 0)?;
    trace.push_str(wanted.trace)?;
    let refusal = wanted.refusal.as_bytes();
    is_answered(
        alloc,
        files,
        &line,
        wanted.status,
        trace.as_bytes(),
        refusal,
    )
}

/// `trace` goes on so behind the entry of `main`, up to the end of the run.
pub fn is_done(
    alloc: Global,
    files: &mut MemFiles,
    listing: &str,
    options: &str,
    trace: &str,
) -> Result<(), Fail> {
    let wanted = Wanted {
        status: Status::Done,
        trace,
        refusal: "",
    };
    is_run(alloc, files, listing, options, wanted)
}

/// The listing of `T` with this `main`, from its two numbers on.
pub fn with_main(alloc: Global, body: &str) -> Result<String, Fail> {
    Ok(format!(in alloc; "{HEAD}method main ([Ljava/lang/String;)V 0009 {body}")?)
}

/// A program that ends by itself.
#[derive(Clone, Copy)]
pub struct Program {
    /// The body of `main`, from its two numbers on.
    pub main: &'static str,
    /// How the trace goes on.
    pub trace: &'static str,
}

/// Each of these programs is run so.
pub fn are_done(alloc: Global, options: &str, rows: &[Program]) -> Result<(), Fail> {
    let mut files = library(alloc)?;
    for Program { main, trace } in rows {
        let listing = with_main(alloc, main)?;
        is_done(alloc, &mut files, &listing, options, trace)?;
    }
    Ok(())
}

/// A program whose `main` is left by an error, before which it makes no object.
#[derive(Clone, Copy)]
pub struct Thrown {
    /// The body of `main`, from its two numbers on.
    pub main: &'static str,
    /// The class of the error, in `java/lang`.
    pub error: &'static str,
    /// The event that throws it.
    pub event: u32,
}

/// How the trace goes on: the arguments of `main` die as the error is made, and the error as `main` is left.
fn trace_of(alloc: Global, error: &str, event: u32) -> Result<String, Fail> {
    let left = event.saturating_add(1);
    let end = event.saturating_add(2);
    Ok(format!(in alloc;
        "C 3 java/lang/{error}\nA {event} 0 2 3 32 0\nX {left} 0 1 2\nF {end} 2\nD 1 {event}\nD 2 {left}\n\
         Z {end} 0\n"
    )?)
}

/// Each of these programs is left by its error.
pub fn are_thrown(alloc: Global, rows: &[Thrown]) -> Result<(), Fail> {
    let mut files = library(alloc)?;
    for Thrown { main, error, event } in rows {
        let listing = with_main(alloc, main)?;
        let trace = trace_of(alloc, error, *event)?;
        is_done(alloc, &mut files, &listing, "", &trace)?;
    }
    Ok(())
}

/// A part of a long trace: a text, and then lines of one letter, one for each event from one up to another, with the
/// same numbers behind.
#[derive(Clone, Copy)]
pub struct Part {
    pub text: &'static str,
    pub letter: &'static str,
    pub from: u32,
    pub to: u32,
    pub rest: &'static str,
}

/// The trace of this part, behind what stands before.
pub fn push_part(alloc: Global, trace: &mut String, part: &Part) -> Result<(), Fail> {
    trace.push_str(part.text)?;
    for event in part.from..part.to {
        trace.push_str(&format!(in alloc; "{} {event} {}\n", part.letter, part.rest)?)?;
    }
    Ok(())
}
