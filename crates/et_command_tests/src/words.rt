//! Lines of words, and what they ask for.
use et_base::NoMemory;
use et_command::{Command, Generations, Models, read_words};
use et_state::Schedule;
use std::alloc::Global;
use std::process::Abort;
use std::test::Fail;

/// The words of a line, with a space between; a line without words has none.
fn words_of(alloc: Global, line: &str) -> Result<Vec<String>, NoMemory> {
    let mut words = Vec::new(alloc);
    if line.is_empty() {
        return Ok(words);
    }
    for word in line.split(' ') {
        words.push(String::from_str(alloc, word)?)?;
    }
    Ok(words)
}

fn is_refused(rt: &impl Abort, alloc: Global, line: &str) -> Result<(), Fail> {
    let words = words_of(alloc, line)?;
    let asked = read_words(alloc, &words)?;
    assert!(rt; asked.is_none(), "{line}");
    Ok(())
}

#[test]
fn each_rule_of_the_words_refuses(rt: HostRuntime) -> Result<(), Fail> {
    let lines = [
        "",
        "bench",
        "bench x",
        "bench -1",
        "bench 9223372036854775808",
        "bench 000000000000000000001",
        "bench 1 2",
        "bench --flush 1 1",
        "--flush 1 trace A",
        "trace",
        "trace --",
        "trace --flush x A",
        "trace --flush= A",
        "trace --flush -1 A",
        "trace --flush 1099511627777 A",
        "trace --limit 000000000000000000001 A",
        "trace --flush",
        "trace --flush A",
        "trace --flush -- A",
        "trace --depth 1 A",
        "trace --flush 1 --flush 2 A",
        "trace --quantum 0 A",
        "trace --quantum 1 --words 0 A",
        "trace --words 64 A",
        "trace --words 0, A",
        "trace --words= A",
        "trace --format 0 A",
        "trace --format 3 A",
        "trace --format 1 --format 1 A",
        "run",
        "run --format 1 A",
        "run --flush 1 --flush 2 A",
        "run --quantum 1 --words 0 A",
        "run --limit 1099511627777 A",
        "run --mark-sweep 1 A",
        "asm",
        "asm A B",
        "asm --flush 1 A",
        "curve",
        "curve A B",
        "snapshot A",
        "snapshot 1 A",
        "snapshot A 1099511627777",
        "snapshot A 1 2",
        "snapshot --event 1 A",
        "convert",
        "convert A B",
        "convert --format 2 A",
        "replay T",
        "replay --mark-sweep 1",
        "replay --mark-sweep 0 T",
        "replay --mark-sweep 1152921504606846977 T",
        "replay --nursery 48 T",
        "replay --old 48 T",
        "replay --mark-sweep 1 T U",
    ];
    for line in lines.iter() {
        is_refused(&rt, rt.alloc(), line)?;
    }
    Ok(())
}

/// The interval, the limit, the quantum (0 for words), the number of files and the last of them.
fn traces(
    rt: &impl Abort,
    alloc: Global,
    line: &str,
    options: (u64, u64, u64),
    count: usize,
    last: &str,
) -> Result<(), Fail> {
    let words = words_of(alloc, line)?;
    let Some(
        Command::Trace {
            options: asked,
            paths,
        },
    ) = read_words(alloc, &words)?
    else {
        panic!(rt; "{line}");
    };
    let quantum = match asked.schedule {
        Schedule::Quantum(quantum) => quantum,
        Schedule::Words(_) => 0,
    };
    assert_eq!(rt; (asked.interval, asked.limit, quantum), options, "{line}");
    assert_eq!(rt; paths.len(), count, "{line}");
    let path = paths.last().map(|path| path.as_str());
    assert_eq!(rt; path, Some(last), "{line}");
    Ok(())
}

#[test]
fn options_stand_before_the_files(rt: HostRuntime) -> Result<(), Fail> {
    let plain = (0, 1_000_000_000, 100);
    traces(&rt, rt.alloc(), "trace A", plain, 1, "A")?;
    traces(&rt, rt.alloc(), "trace --flush=00 -- A", plain, 1, "A")?;
    traces(&rt, rt.alloc(), "trace A -- B", plain, 3, "B")?;
    traces(&rt, rt.alloc(), "trace -- -- A", plain, 2, "A")?;
    traces(&rt, rt.alloc(), "trace A --flush=1", plain, 2, "--flush=1")?;
    let most = (1 << 40, 1 << 40, 1 << 40);
    let line = "trace --limit=1099511627776 --quantum 1099511627776 --flush 1099511627776 A B";
    traces(&rt, rt.alloc(), line, most, 2, "B")?;
    traces(
        &rt,
        rt.alloc(),
        "trace --words 0,1,063 A",
        (0, 1_000_000_000, 0),
        1,
        "A",
    )
}

/// A line whose schedule has so many words.
fn line_of(alloc: Global, count: usize) -> Result<String, Fail> {
    let mut line = String::from_str(alloc, "trace --words=0")?;
    for _ in 1..count {
        line.push_str(",1")?;
    }
    line.push_str(" A")?;
    Ok(line)
}

#[test]
fn a_schedule_has_at_most_1024_words(rt: HostRuntime) -> Result<(), Fail> {
    let most = line_of(rt.alloc(), 1024)?;
    traces(&rt, rt.alloc(), &most, (0, 1_000_000_000, 0), 1, "A")?;
    let more = line_of(rt.alloc(), 1025)?;
    is_refused(&rt, rt.alloc(), &more)
}

#[test]
fn a_replay_names_its_models(rt: HostRuntime) -> Result<(), Fail> {
    let words = words_of(
        rt.alloc(),
        "replay --old 200 --mark-sweep=96 --nursery 48 T",
    )?;
    let Some(Command::Replay { models, path }) = read_words(rt.alloc(), &words)? else {
        panic!(rt; "replay");
    };
    let wanted = Models {
        mark_sweep: Some(96),
        semispace: None,
        generational: Some(Generations {
            nursery: 48,
            old: 200,
        }),
        ref_count: None,
    };
    assert_eq!(rt; models, wanted);
    assert_eq!(rt; path, "T");
    Ok(())
}

#[test]
fn a_path_may_look_like_an_option(rt: HostRuntime) -> Result<(), Fail> {
    let words = words_of(rt.alloc(), "curve -- --x")?;
    let Some(Command::Curve(path)) = read_words(rt.alloc(), &words)? else {
        panic!(rt; "curve");
    };
    assert_eq!(rt; path, "--x");
    let words = words_of(rt.alloc(), "asm A")?;
    let Some(Command::Assemble(path)) = read_words(rt.alloc(), &words)? else {
        panic!(rt; "asm");
    };
    assert_eq!(rt; path, "A");
    Ok(())
}
