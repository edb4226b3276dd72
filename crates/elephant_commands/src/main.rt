//! Runs the program on eight command lines in a row, each over the real files and streams, as `elephant` does on its own.
//! Behind what each writes stands a line with its status. The process ends with the status of the last, which is refused.
#![tactic(auto)]

use et_files::Status;
use et_io::{HostFiles, HostSink};
use et_top::{WordsFault, run_process, run_without_memory};
use std::alloc::{AllocError, Global};
use std::io;
use std::process::ExitCode;

/// The command lines in their order, the words of each with a space between. Their files stand in data/.
const COMMAND_LINES: [&str; 8] = [
    "replay --mark-sweep 96 --semispace 100 --nursery 48 --old 200 --refcount 200 T",
    "trace --words 0,1,1 Wrk.class",
    "run --flush 7 Hello.class",
    "asm Box.txt",
    "convert Row1.trace",
    "curve Box.trace2",
    "bench 1",
    "trace BoxFadd.class",
];

fn words_of(alloc: Global, line: &str) -> Result<Vec<String>, AllocError> {
    let mut words = Vec::new(alloc);
    for word in line.split(' ') {
        words.push(String::from_str(alloc, word)?)?;
    }
    Ok(words)
}

fn run_line(rt: &HostRuntime, line: &str) -> Status {
    let words = words_of(rt.alloc(), line).map_err(|_| WordsFault::NoMemory);
    let mut files = HostFiles::begin(rt);
    let mut err = HostSink::begin(rt.stderr());
    match HostSink::gathering(rt.alloc(), rt.stdout()) {
        Ok(mut out) => run_process(rt.alloc(), words, &mut files, &mut out, &mut err),
        Err(_) => run_without_memory(rt.alloc(), &mut err),
    }
}

fn main(rt: HostRuntime) -> io::Result<ExitCode> {
    let mut last = ExitCode::SUCCESS;
    for line in COMMAND_LINES {
        let status = run_line(&rt, line).number();
        println!(rt; "{line}: status {status}")?;
        last = ExitCode::from(status);
    }
    Ok(last)
}
