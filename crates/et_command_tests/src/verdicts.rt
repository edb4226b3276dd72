//! The command `verify` on whole programs: which are verified, which method is rejected, and in which order refusals come.

use crate::first_path::BOX;
use crate::rows::{Refused, Written, are_done, are_refused};
use et_asm::assemble;
use et_files::Status;
use et_io::MemFiles;
use et_test_runs::is_answered;
use std::alloc::Global;
use std::test::Fail;

/// Bodies of `main` with their room, by the names of their classes.
const MAINS: [(&str, &str); 8] = [
    ("Ill", "2 1\niadd\nreturn\n"),
    ("Sev", "1 1\nnew Sev\nathrow\n"),
    ("Falls", "1 1\nnop\nnop\n"),
    ("Unreached", "1 1\nreturn\npop\npop\nreturn\n"),
    ("Split", "4 4\nlconst_1\npop\nreturn\n"),
    (
        "Joi",
        "2 1\naload 0\nifnonnull two\niconst_0\ngoto join\ntwo:\niconst_0\niconst_0\njoin:\npop\nreturn\n",
    ),
    (
        "Unread",
        "2 2\naload 0\nifnonnull two\niconst_0\nistore 1\ngoto join\ntwo:\naconst_null\nastore 1\n\
         join:\nreturn\n",
    ),
    (
        "Read",
        "2 2\naload 0\nifnonnull two\niconst_0\nistore 1\ngoto join\ntwo:\naconst_null\nastore 1\n\
         join:\naload 1\npop\nreturn\n",
    ),
];

/// Two methods, of which the second returns another kind than its descriptor's.
const RESULT: &str =
    "class Result java/lang/Object 0021\nmethod main ([Ljava/lang/String;)V 0009 2 1\n\
     invokestatic Result two ()I\npop\nreturn\nend\nmethod two ()I 0009 1 0\naconst_null\nareturn\nend\n";

/// The class files of these listings, and Box, of which one is cut off.
fn files(alloc: Global) -> Result<MemFiles, Fail> {
    let mut files = MemFiles::begin(alloc);
    for (name, body) in MAINS {
        let text = format!(in alloc;
            "class {name} java/lang/Object 0021\nmethod main ([Ljava/lang/String;)V 0009 {body}end\n"
        )?;
        let path = format!(in alloc; "{name}.class")?;
        let bytes = assemble(alloc, text.as_bytes())?;
        files.hold(path.as_str(), &bytes)?;
    }
    let bytes = assemble(alloc, RESULT.as_bytes())?;
    files.hold("Result.class", &bytes)?;
    files.hold("Box.class", &BOX)?;
    files.hold("Cut.class", &BOX[..80])?;
    Ok(files)
}

const VERIFIED: [Written; 6] = [
    ("verify Box.class", b"verified 1\n"),
    ("verify -- Box.class", b"verified 1\n"),
    ("verify Sev.class", b"verified 1\n"),
    ("verify Unreached.class", b"verified 1\n"),
    ("verify Unread.class", b"verified 1\n"),
    ("verify Unread.class Box.class", b"verified 2\n"),
];

#[test]
fn methods_with_typings_are_counted(rt: HostRuntime) -> Result<(), Fail> {
    let alloc = rt.alloc();
    let mut files = files(alloc)?;
    are_done(alloc, &mut files, &VERIFIED)
}

#[test]
fn the_first_method_without_a_typing_is_named(rt: HostRuntime) -> Result<(), Fail> {
    let alloc = rt.alloc();
    let mut files = files(alloc)?;
    let rows: [(&str, &str); 7] = [
        ("verify Ill.class", "Ill main ([Ljava/lang/String;)V"),
        ("verify Falls.class", "Falls main ([Ljava/lang/String;)V"),
        ("verify Split.class", "Split main ([Ljava/lang/String;)V"),
        ("verify Joi.class", "Joi main ([Ljava/lang/String;)V"),
        ("verify Read.class", "Read main ([Ljava/lang/String;)V"),
        ("verify Result.class Ill.class", "Result two ()I"),
        (
            "verify Box.class Ill.class Result.class",
            "Ill main ([Ljava/lang/String;)V",
        ),
    ];
    for (line, method) in rows {
        let refusal = format!(in alloc; "elephant: rejected {method}\n")?;
        is_answered(
            alloc,
            &mut files,
            line,
            Status::Rejected,
            b"",
            refusal.as_bytes(),
        )?;
    }
    Ok(())
}

/// Words, files, classes and programs that are refused, before any method is looked at.
const REFUSED: [Refused; 5] = [
    Refused {
        line: "verify",
        status: Status::Usage,
        refusal: b"elephant: usage\n",
    },
    Refused {
        line: "verify --flush 1 Box.class",
        status: Status::Usage,
        refusal: b"elephant: usage\n",
    },
    Refused {
        line: "verify No.class",
        status: Status::Absent,
        refusal: b"elephant: absent No.class\n",
    },
    Refused {
        line: "verify Ill.class Cut.class",
        status: Status::BadClass,
        refusal: b"elephant: bad class Cut.class 11 80\n",
    },
    Refused {
        line: "verify Ill.class Ill.class",
        status: Status::LinkFault,
        refusal: b"elephant: link 1 Ill\n",
    },
];

#[test]
fn other_refusals_come_first(rt: HostRuntime) -> Result<(), Fail> {
    let alloc = rt.alloc();
    let mut files = files(alloc)?;
    are_refused(alloc, &mut files, &REFUSED)?;
    files.fail_at(6)?;
    let said = b"elephant: read fault Box.class\n";
    let line = "verify Box.class";
    is_answered(alloc, &mut files, line, Status::ReadFault, b"", said)
}
