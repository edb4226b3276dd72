//! A run of the program in memory, with its answer, its output and the line of its refusal.
use et_files::Status;
use et_io::{MemFiles, MemSink};
use et_top::run_elephant;
use std::alloc::Global;
use std::test::Fail;

/// The words of a line, which stand with a space between.
pub fn words_of(alloc: Global, line: &str) -> Result<Vec<String>, Fail> {
    let mut words = Vec::new(alloc);
    for word in line.split(' ') {
        words.push(String::from_str(alloc, word)?)?;
    }
    Ok(words)
}

/// The answer of the program to these words, which stand with a space between. It fails where there is no memory for the words.
pub fn answer(
    alloc: Global,
    line: &str,
    files: &mut MemFiles,
    out: &mut MemSink,
    err: &mut MemSink,
) -> Result<Status, Fail> {
    Ok(run_elephant(alloc, Ok(words_of(alloc, line)?), files, out, err))
}

/// The program answers these words so: with this status, this output and this line of a refusal. It fails where it doesn't.
pub fn is_answered(
    alloc: Global,
    files: &mut MemFiles,
    line: &str,
    status: Status,
    output: &[u8],
    refusal: &[u8],
) -> Result<(), Fail> {
    let mut out = MemSink::begin(alloc, 1);
    let mut err = MemSink::begin(alloc, 1000);
    let found = answer(alloc, line, files, &mut out, &mut err)?;
    if found != status {
        return Err(Fail::new(format_args!("{line}: the status is {found:?}, and not {status:?}")));
    }
    if out.bytes() != output {
        return Err(Fail::new(format_args!("{line}: the output is another")));
    }
    if err.bytes() != refusal {
        return Err(Fail::new(format_args!("{line}: the line of the refusal is another")));
    }
    Ok(())
}
