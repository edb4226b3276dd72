//! Class files that don't link, and class files that link and are run.

use crate::first_path::TRACE;
use crate::rows::{Refused, are_refused};
use et_asm::assemble;
use et_files::Status;
use et_io::MemFiles;
use et_test_runs::is_answered;
use std::alloc::Global;
use std::test::Fail;

/// Listings, by the paths of the class files that they make.
const LISTINGS: [(&str, &str); 12] = [
    (
        "Box.class",
        "class Box java/lang/Object 0021\nmethod main ([Ljava/lang/String;)V 0009 1 1\n\
         new Box\npop\nreturn\nend\n",
    ),
    (
        "Use.class",
        "class Use java/lang/Object 0021\nmethod main ([Ljava/lang/String;)V 0009 1 1\n\
         getstatic Bad x I\npop\nreturn\nend\n",
    ),
    (
        "Bad.class",
        "class Bad java/lang/Object 0021\nfield x I 0008\nmethod <clinit> ()V 0008 2 0\n\
         iconst_1\niconst_0\nidiv\npop\nreturn\nend\n",
    ),
    (
        "Thread.class",
        "class java/lang/Thread java/lang/Object 0021\nmethod main ([Ljava/lang/String;)V 0009 1 1\n\
         return\nend\n",
    ),
    (
        "Builder.class",
        "class java/lang/StringBuilder java/lang/Object 0021\n\
         method main ([Ljava/lang/String;)V 0009 1 1\nreturn\nend\n",
    ),
    (
        "Sub.class",
        "class Sub Gone 0021\nmethod main ([Ljava/lang/String;)V 0009 1 1\nreturn\nend\n",
    ),
    (
        "Loop.class",
        "class Loop Loop 0021\nmethod main ([Ljava/lang/String;)V 0009 1 1\nreturn\nend\n",
    ),
    (
        "Text.class",
        "class Text java/lang/String 0021\nmethod main ([Ljava/lang/String;)V 0009 1 1\n\
         return\nend\n",
    ),
    (
        "Upper.class",
        "class p/Upper java/lang/Object 0021\nmethod main ([Ljava/lang/String;)V 0009 1 1\n\
         return\nend\nmethod m ()V 0000 1 1\nreturn\nend\n",
    ),
    (
        "Lower.class",
        "class q/Lower p/Upper 0021\nmethod m ()V 0001 1 1\nreturn\nend\n",
    ),
    (
        "Near.class",
        "class p/Near p/Upper 0021\nmethod m ()V 0001 1 1\nreturn\nend\n",
    ),
    (
        "Odd.class",
        "class a%20%25 Gone 0021\nmethod main ([Ljava/lang/String;)V 0009 1 1\nreturn\nend\n",
    ),
];

fn all_files(alloc: Global) -> Result<MemFiles, Fail> {
    let mut files = MemFiles::begin(alloc);
    for (path, listing) in LISTINGS {
        let class = assemble(alloc, listing.as_bytes())?;
        files.hold(path, class.as_slice())?;
    }
    Ok(files)
}

#[test]
fn faults_of_linking(rt: HostRuntime) -> Result<(), Fail> {
    let alloc = rt.alloc();
    let mut files = all_files(alloc)?;
    let rows: [(&str, &[u8]); 12] = [
        ("trace Box.class Box.class", b"elephant: link 1 Box\n"),
        ("trace Thread.class", b"elephant: link 1 java/lang/Thread\n"),
        (
            "trace Builder.class",
            b"elephant: link 1 java/lang/StringBuilder\n",
        ),
        ("trace Sub.class", b"elephant: link 2 Sub\n"),
        ("trace Odd.class", b"elephant: link 2 a%20%25\n"),
        ("trace Loop.class", b"elephant: link 3 Loop\n"),
        ("trace Text.class", b"elephant: link 4 Text\n"),
        (
            "trace Upper.class Lower.class",
            b"elephant: link 5 q/Lower\n",
        ),
        ("trace Bad.class", b"elephant: link 6 Bad\n"),
        // The class of the first file is the one that has to have `main`.
        ("trace Bad.class Box.class", b"elephant: link 6 Bad\n"),
        // The least kind is answered, and of that kind the first class.
        ("trace Bad.class Sub.class", b"elephant: link 2 Sub\n"),
        (
            "trace Box.class Odd.class Sub.class",
            b"elephant: link 2 a%20%25\n",
        ),
    ];
    for (line, refusal) in rows {
        is_answered(alloc, &mut files, line, Status::LinkFault, b"", refusal)?;
    }
    Ok(())
}

/// A program that doesn't link, with a file that is not there or no class.
const UNREAD: [Refused; 2] = [
    Refused {
        line: "trace Sub.class No.class",
        status: Status::Absent,
        refusal: b"elephant: absent No.class\n",
    },
    Refused {
        line: "trace Box.class Box.class Cut.class",
        status: Status::BadClass,
        refusal: b"elephant: bad class Cut.class 11 4\n",
    },
];

#[test]
fn each_file_is_read_before_any_is_linked(rt: HostRuntime) -> Result<(), Fail> {
    let alloc = rt.alloc();
    let mut files = all_files(alloc)?;
    files.hold("Cut.class", b"\xca\xfe\xba\xbe")?;
    are_refused(alloc, &mut files, &UNREAD)
}

#[test]
fn what_links_is_run(rt: HostRuntime) -> Result<(), Fail> {
    let alloc = rt.alloc();
    let mut files = all_files(alloc)?;
    let upper = b"H 1 0\nC 1 [Ljava/lang/String;\nA 0 0 1 1 24 0\nC 2 p/Upper\n\
        N 1 2 main ([Ljava/lang/String;)V\nM 1 0 1 0\nE 2 0 1\nF 3 1\nD 1 1\nZ 3 0\n";
    let rows: [(&str, &[u8]); 3] = [
        ("trace Upper.class", upper),
        // Classes that are not touched say nothing.
        ("trace Box.class Bad.class", TRACE),
        ("trace Upper.class Near.class Box.class", upper),
    ];
    for (line, trace) in rows {
        is_answered(alloc, &mut files, line, Status::Done, trace, b"")?;
    }
    Ok(())
}
