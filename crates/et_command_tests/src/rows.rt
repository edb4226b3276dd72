//! What the tests of commands share: files, tables of answers, and runs of which a write fails.

use et_files::Status;
use et_io::{MemFiles, MemSink};
use et_test_runs::{answer, is_answered};
use std::alloc::Global;
use std::test::Fail;

/// Files with one file.
pub fn files_with(alloc: Global, path: &str, bytes: &[u8]) -> Result<MemFiles, Fail> {
    let mut files = MemFiles::begin(alloc);
    files.hold(path, bytes)?;
    Ok(files)
}

/// Words, with a space between, and what is written.
pub type Written = (&'static str, &'static [u8]);

/// The words of each row write this, and are done.
pub fn are_done(alloc: Global, files: &mut MemFiles, rows: &[Written]) -> Result<(), Fail> {
    for (line, output) in rows {
        is_answered(alloc, files, line, Status::Done, output, b"")?;
    }
    Ok(())
}

/// Words that are refused before anything is written.
#[derive(Clone, Copy)]
pub struct Refused {
    /// The words, with a space between.
    pub line: &'static str,
    pub status: Status,
    /// The line on the error stream.
    pub refusal: &'static [u8],
}

/// The words of each row are refused so.
pub fn are_refused(alloc: Global, files: &mut MemFiles, rows: &[Refused]) -> Result<(), Fail> {
    for row in rows {
        is_answered(alloc, files, row.line, row.status, b"", row.refusal)?;
    }
    Ok(())
}

/// The status of a run of which this put fails, the first being 1, and what was taken up to there.
pub fn failed_at(
    alloc: Global,
    files: &mut MemFiles,
    line: &str,
    call: u32,
) -> Result<(Status, MemSink), Fail> {
    let mut out = MemSink::begin(alloc, 1000);
    let mut err = MemSink::begin(alloc, 1000);
    out.fail_at(u64::from(call))?;
    let status = answer(alloc, line, files, &mut out, &mut err)?;
    Ok((status, out))
}
