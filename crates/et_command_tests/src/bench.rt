//! The command `bench`, at small sizes.
ghost use Rattle.std.specs.Prelude.{◌≡◌, ◌≤◌, ◌<◌};

use et_base::Steps;
use et_command::{Command, read_words};
use et_files::Status;
use et_io::MemSink;
use et_test_runs::bench_run;
use std::alloc::Global;
use std::marker::Brand;
use std::process::Abort;
use std::sync::ledger::{Blank, Ledger};
use std::test::Fail;

/// How the summary of the listing with the number 1 and these others was written.
fn summed_up<L: Ledger>(
    alloc: Global,
    cells: u32,
    rounds: u32,
    out: &mut MemSink,
    blank: Blank,
) -> Status
    requires cells { (1 ≤ cells) × (cells ≤ 50000) }
    requires rounds { rounds ≤ 40000 }
    requires name { blank.name ≡ L.name }
    requires parts { blank.parts ≡ L.parts }
    requires counts { 0 < L.parts }
{
    let mut visits = Steps::<L>::begin(blank);
    bench_run(alloc, 1, cells, rounds, out, &mut visits)
}

/// That summary is this.
fn is_summed_up(
    rt: &impl Abort,
    alloc: Global,
    cells: u32,
    rounds: u32,
    summary: &[u8],
) -> Result<(), Fail>
    requires cells { (1 ≤ cells) × (cells ≤ 50000) }
    requires rounds { rounds ≤ 40000 }
{
    let mut out = MemSink::begin(alloc, 10);
    let status = summed_up::<Brand>(alloc, cells, rounds, &mut out, Blank::new(1));
    assert_eq!(rt; status, Status::Done);
    assert_eq!(rt; out.bytes(), summary);
    Ok(())
}

#[test]
fn cells_that_are_dropped(rt: HostRuntime) -> Result<(), Fail> {
    let summary = b"events=36 objects=4 deaths=4 flushes=1 live=0\n\
        mark-sweep capacity=4000000 collections=0 marked=0 swept=0 peak=112\n";
    is_summed_up(&rt, rt.alloc(), 2, 0, summary)
}

#[test]
fn a_round_that_throws(rt: HostRuntime) -> Result<(), Fail> {
    let summary = b"events=95 objects=6 deaths=5 flushes=1 live=16\n\
        mark-sweep capacity=4000000 collections=0 marked=0 swept=0 peak=152\n";
    is_summed_up(&rt, rt.alloc(), 1, 1, summary)
}

#[test]
fn a_summary_that_is_not_taken(rt: HostRuntime) -> Result<(), Fail> {
    let alloc = rt.alloc();
    let mut out = MemSink::begin(alloc, 10);
    out.fail_at(3)?;
    let status = summed_up::<Brand>(alloc, 2, 0, &mut out, Blank::new(1));
    assert_eq!(rt; status, Status::WriteFault);
    assert_eq!(rt; out.bytes(), b"events=36 objects=4 ".as_slice());
    Ok(())
}

#[test]
fn a_number_stands_alone(rt: HostRuntime) -> Result<(), Fail> {
    let alloc = rt.alloc();
    let mut words = Vec::new(alloc);
    words.push(String::from_str(alloc, "bench")?)?;
    words.push(String::from_str(alloc, "9223372036854775807")?)?;
    match read_words(alloc, &words)? {
        Some(Command::Bench(number)) => assert_eq!(rt; number, 9_223_372_036_854_775_807),
        _ => panic!(rt; "bench"),
    }
    Ok(())
}
