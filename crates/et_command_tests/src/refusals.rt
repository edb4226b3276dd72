//! Refusals of files: which of several is answered, one that is not taken, and a set of files beyond its limit.

use crate::first_path::BOX;
use et_asm::assemble;
use et_files::Status;
use et_io::{Files, Found, MemFiles, MemSink};
use et_test_runs::{answer, is_answered};
use std::alloc::Global;
use std::test::Fail;

/// Of three files the first is no class file, and the second read would fail: the fault of the first is answered, and nothing
/// more is read.
#[test]
fn a_fault_stands_before_a_later_read(rt: HostRuntime) -> Result<(), Fail> {
    let alloc = rt.alloc();
    let mut files = MemFiles::begin(alloc);
    files.hold("Cut.class", &BOX[..10])?;
    files.hold("Box.class", &BOX)?;
    files.fail_at(2)?;
    let mut out = MemSink::begin(alloc, 1000);
    let mut err = MemSink::begin(alloc, 1000);
    let line = "trace Cut.class Box.class Box.class";
    let status = answer(alloc, line, &mut files, &mut out, &mut err)?;
    assert_eq!(rt; status, Status::BadClass);
    assert!(rt; out.bytes().is_empty());
    assert!(rt; err.bytes().starts_with(b"elephant: bad class Cut.class "));
    // the second read is still to come
    assert!(rt; matches!(&files.read(alloc, "Box.class", 1000)?, Found::Failed));
    Ok(())
}

/// A class whose superclass is not given.
const SUB: &str = "class Sub Gone 0021\nmethod main ([Ljava/lang/String;)V 0009 1 1\nreturn\nend\n";

/// A class without `main`.
const BARE: &str = "class Bare java/lang/Object 0021\n";

/// Files with the classes of these listings, and with `Box` whole and cut off.
fn files_with_faults(alloc: Global) -> Result<MemFiles, Fail> {
    let mut files = MemFiles::begin(alloc);
    files.hold("Sub.class", &assemble(alloc, SUB.as_bytes())?)?;
    files.hold("Bare.class", &assemble(alloc, BARE.as_bytes())?)?;
    files.hold("Box.class", &BOX)?;
    files.hold("Cut.class", &BOX[..10])?;
    Ok(files)
}

/// A refusal that cannot be written leaves the answer as it is.
#[test]
fn a_refusal_that_is_not_taken(rt: HostRuntime) -> Result<(), Fail> {
    let alloc = rt.alloc();
    let rows = [
        // a name that stands twice, a superclass that is not given, and no `main`
        ("trace Box.class Box.class", Status::LinkFault),
        ("trace Sub.class", Status::LinkFault),
        ("trace Bare.class", Status::LinkFault),
        ("trace Cut.class", Status::BadClass),
        ("trace No.class", Status::Absent),
        ("curve Box.class", Status::BadTrace),
        ("trace", Status::Usage),
    ];
    for (line, wanted) in rows {
        let mut files = files_with_faults(alloc)?;
        let mut out = MemSink::begin(alloc, 1000);
        let mut err = MemSink::begin(alloc, 1000);
        err.fail_at(1)?;
        let status = answer(alloc, line, &mut files, &mut out, &mut err)?;
        assert_eq!(rt; status, wanted, "{line}");
        assert!(rt; out.bytes().is_empty());
    }
    Ok(())
}

fn letter(number: u16) -> u8 {
    b'A' + (number % 17) as u8
}

/// The name of a class, of three letters, by its number, which is at most 4,096.
fn name_of(number: u16) -> [u8; 3] {
    [
        letter(number % 16),
        letter(number / 16 % 16),
        letter(number / 256),
    ]
}

/// The class of the 4,097th file is one too many.
#[test]
fn one_file_too_many(rt: HostRuntime) -> Result<(), Fail> {
    let alloc = rt.alloc();
    let mut files = MemFiles::begin(alloc);
    let mut line = String::from_str(alloc, "trace")?;
    for number in 0..4097_u16 {
        let mut class = Vec::from_slice(alloc, &BOX)?;
        let name = name_of(number);
        for (i, letter) in name.iter().enumerate() {
            class[13 + i] = *letter;
        }
        let path = format!(in alloc; "{number}")?;
        files.hold(&path, &class)?;
        line.push(' ')?;
        line.push_str(&path)?;
    }
    is_answered(
        alloc,
        &mut files,
        &line,
        Status::LinkFault,
        b"",
        b"elephant: link 7 AAQ\n",
    )
}
