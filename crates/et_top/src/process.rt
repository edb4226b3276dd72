//! What a process does: its words, the top call with the four models and a counter of its own, and its output handed
//! on.
ghost use Rattle.std.specs.Prelude.{◌≡◌, ◌<◌, IsTrue, IfOk, OnErr, false, map, drop, option_map, string_bytes};
ghost use Rattle.std.specs.Vec.Iter.{into_iter_items};
ghost use Rattle.et_io.specs.Faults.{count_after};
ghost use Rattle.et_io.specs.Sink.{taken_bytes};
ghost use Rattle.et_top.specs.Process.{AnswersProcess, AnswersWords, EndsAs, status_of_words};
ghost use Rattle.et_files.specs.Refusals.{status_of};
ghost use Rattle.et_files.specs.Status.{is_read_status, is_write_status, is_whole};

use crate::top::elephant;
use et_base::{NoMemory, Steps};
use et_files::{Refusal, Status, refuse};
use et_io::{Files, GatheringSink, Sink};
use et_models::{Generational, MarkSweep, SemiSpace};
use et_refcount::RefCount;
use et_replay::HeapModel;
use std::alloc::Global;
use std::env::{self, Args, Env};
use std::io::ErrorKind;
use std::marker::Brand;
use std::sync::ledger::{Blank, Ledger};

/// Why a process has no words.
#[derive(Clone, Copy, Debug, PartialEq, Eq)]
pub enum WordsFault {
    /// The bytes of a word are not UTF-8.
    NotUtf8,
    /// Memory ran out.
    NoMemory,
}

/// The words behind the first one, in their order.
fn behind_first(alloc: Global, mut all: Args) -> Result<Vec<String>, NoMemory>
    ensures { IfOk result (λ words. words.items ≡ drop 1 (into_iter_items all)) }
{
    let mut words = Vec::new(alloc);
    let _name = all.next();
    for word in all {
        words.push(word)?;
    }
    Ok(words)
}

/// The words of the process behind the program's name, all of them. Of what the system hands over nothing is known.
pub fn words(rt: &(impl Env + AllocGlobal)) -> Result<Vec<String>, WordsFault> {
    match env::args(rt) {
        Ok(all) => behind_first(rt.alloc(), all).map_err(|_| WordsFault::NoMemory),
        Err(error) if error.kind() == ErrorKind::OutOfMemory => Err(WordsFault::NoMemory),
        Err(_) => Err(WordsFault::NotUtf8),
    }
}

/// The top call with new models, one of each kind in the order of their lines, and a counter of visits of its own.
fn with_models<F: Files, O: Sink, E: Sink, L: Ledger>(
    alloc: Global,
    words: &[String],
    files: &mut F,
    out: &mut O,
    err: &mut E,
    blank: Blank,
) -> Result<Status, NoMemory>
    requires name { blank.name ≡ L.name }
    requires parts { blank.parts ≡ L.parts }
    requires counts { 0 < L.parts }
    ensures words { IfOk result (AnswersWords F.Files O.Sink files.old files.new out.old out.new
        (map string_bytes words.now)) }
    ensures read_fault { IfOk result (λ status. F.faults files.new
        ≡ count_after (is_read_status status) (F.faults files.old)) }
    ensures write_fault { IfOk result (λ status. O.faults out.new
        ≡ count_after (is_write_status status) (O.faults out.old)) }
    ensures files { OnErr result (files.new ≡ files.old) }
    ensures out { OnErr result (out.new ≡ out.old) }
{
    let mut models: Vec<Box<dyn HeapModel>> = Vec::new(alloc);
    models.push(Box::new(alloc, MarkSweep::begin(alloc))?)?;
    models.push(Box::new(alloc, SemiSpace::begin(alloc))?)?;
    models.push(Box::new(alloc, Generational::begin(alloc))?)?;
    models.push(Box::new(alloc, RefCount::begin(alloc))?)?;
    let mut visits = Steps::<L>::begin(blank);
    Ok(elephant(alloc, words, files, out, err, models, &mut visits))
}

/// What is said of words that are not there.
fn of_words<'a>(fault: WordsFault) -> Refusal<'a>
    ensures { status_of result ≡ status_of_words fault }
{
    match fault {
        WordsFault::NotUtf8 => Refusal::Usage,
        WordsFault::NoMemory => Refusal::NoMemory,
    }
}

/// All that a process does, and the status with which it ends: the top call on its words, with four models of a heap
/// in the order of their lines, mark-sweep, semispace, generational and refcount, and a counter of visits that is
/// dropped then.
///
/// Words that are not there are refused as such that are no command, or for want of memory; then no file is read and
/// nothing is put to out.
pub fn run_elephant<F: Files, O: Sink, E: Sink>(
    alloc: Global,
    words: Result<Vec<String>, WordsFault>,
    files: &mut F,
    out: &mut O,
    err: &mut E,
) -> Status
    ensures { AnswersProcess F.Files O.Sink files.old files.new out.old out.new words result }
{
    match words {
        Ok(words) => {
            match with_models::<F, O, E, Brand>(alloc, &words, files, out, err, Blank::new(1)) {
                Ok(status) => status,
                Err(_) => refuse(alloc, err, &Refusal::NoMemory),
            }
        }
        Err(fault) => refuse(alloc, err, &of_words(fault)),
    }
}

/// The status with which a process ends that came to this one: a whole output is handed on, and where that fails the
/// status is `WriteFault`, with its line.
fn hand_on_whole<O: GatheringSink, E: Sink>(
    alloc: Global,
    out: &mut O,
    err: &mut E,
    status: Status,
) -> Status
    ensures ends { EndsAs status result (O.faults out.old) (O.faults out.new) }
    ensures taken { O.taken out.new ≡ O.taken out.old }
    ensures handed { IsTrue (is_whole result) →
        O.handed out.new ≡ option_map taken_bytes (O.taken out.new) }
    ensures refused { is_whole status ≡ false → out.new ≡ out.old }
{
    if !status.is_whole() {
        return status;
    }
    if out.hand_on() {
        status
    } else {
        refuse(alloc, err, &Refusal::WriteFault)
    }
}

/// All that a process does where its output is gathered: `run_elephant`, and then what is left of a whole output is handed
/// on. Where that fails, the status is `WriteFault`, with its line, and what was taken may be the whole output. The sink
/// itself may hand on what it took, and fail at it, before.
pub fn run_process<F: Files, O: GatheringSink, E: Sink>(
    alloc: Global,
    words: Result<Vec<String>, WordsFault>,
    files: &mut F,
    out: &mut O,
    err: &mut E,
) -> Status
    ensures process { AnswersProcess
        F.Files O.Sink files.old files.new out.old out.new words result }
    ensures handed { IsTrue (is_whole result) →
        O.handed out.new ≡ option_map taken_bytes (O.taken out.new) }
{
    let status = run_elephant(alloc, words, files, out, err);
    hand_on_whole(alloc, out, err, status)
}

/// The status of a process for whose output there is no memory to gather it, with its line.
pub fn run_without_memory<E: Sink>(alloc: Global, err: &mut E) -> Status
    ensures { result ≡ Status.NoMemory }
{
    refuse(alloc, err, &Refusal::NoMemory)
}
