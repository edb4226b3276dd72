//! The run of a program, of which the trace is written, or what it prints.
ghost use Rattle.std.specs.Prelude.{◌≡◌, ◌<◌, ℕ, Bool, false, Ok, Result, IfErr, OnErr, length};
ghost use Rattle.et_io.specs.Faults.{Rose, count_after, is_write_fault};
ghost use Rattle.et_graph.specs.Graph.{Graph, Decides};
ghost use Rattle.et_state.specs.Options.{AreOptions};
ghost use Rattle.et_program.specs.Entries.{Linked, method_at};
ghost use Rattle.et_files.specs.Faults.{Fault};
ghost use Rattle.et_files.specs.Refusals.{status_of};
ghost use Rattle.et_files.specs.Status.{is_read_status, is_write_status};
ghost use Rattle.et_files.specs.Told.{Tells, IsFileRefusal, cause_of, is_reading, status_of_result};
ghost use Rattle.et_top.specs.Runs.{defines, history_of, status_of_run};
ghost use Rattle.et_top.specs.Top.{GivesDefined, status_of_end};
ghost use Rattle.et_top.specs.Visits.{IsBeforeRun};

use crate::answers::{answer, answer_fault};
use crate::discard::Discard;
use et_base::{End, MethodId, Steps};
use et_files::{Escaped, Refusal, Status, refuse};
use et_io::{RunFault, Sink};
use et_link::{MethodInfo, Program};
use et_loop::Ran;
use et_state::Options;
use std::alloc::Global;
use std::sync::ledger::Ledger;

/// The method of this number. Where the program has none, its `main`.
fn method_or_main(program: &Program, method: MethodId) -> &MethodInfo
    ensures value { method < length program.now.methods →
        result.now ≡ method_at program.now method }
    ensures class { result.now.class < length program.now.classes }
{
    if method.number() < program.method_count() {
        program.method(method)
    } else {
        program.method(program.main())
    }
}

/// What the program says of a history that ended so. Where the next event has no meaning, it names the method.
fn ended(program: &Program, end: End) -> Result<(), Refusal<'_>>
    ensures { status_of_result result ≡ status_of_end end }
{
    match end {
        End::Finished | End::EventLimit => Ok(()),
        End::IllTyped { thread, method, pc } => {
            let method = method_or_main(program, method);
            Err(Refusal::IllTyped {
                thread: thread.number(),
                class: Escaped(program.class(method.class).name.as_slice()),
                method: Escaped(method.name.as_slice()),
                descriptor: Escaped(method.descriptor.as_slice()),
                pc,
            })
        }
        End::ObjectLimit => Err(Refusal::ObjectLimit),
    }
}

/// The status of a history that ended so. Where the next event has no meaning, or there is no room for an object, err is
/// told so.
pub fn answer_end<E: Sink>(alloc: Global, program: &Program, end: End, err: &mut E) -> Status
    ensures status { result ≡ status_of_end end }
    ensures no_read { is_read_status result ≡ false }
    ensures no_write { is_write_status result ≡ false }
    ensures of_run { IsBeforeRun result → ⊥ }
{
    answer(alloc, ended(program, end), err)
}

/// The status of a run, of which err is told where it isn't done.
fn answer_run<E: Sink>(
    alloc: Global,
    program: &Program,
    ran: Result<Ran, RunFault>,
    err: &mut E,
) -> Status
    ensures status { result ≡ status_of_run ran }
    ensures no_read { is_read_status result ≡ false }
    ensures writes { is_write_status result ≡ is_write_fault ran }
    ensures of_run { IsBeforeRun result → ⊥ }
{
    match ran {
        Ok(ran) => answer_end(alloc, program, ran.end, err),
        Err(fault) => answer_fault(alloc, fault, err),
    }
}

/// What is written of a history.
#[derive(Clone, Copy, Debug, PartialEq, Eq)]
pub enum Output {
    /// Its trace.
    Trace,
    /// What its events print.
    Prints,
}

/// The history of the program, of which the output goes to out.
fn run_program<O: Sink, E: Sink, L: Ledger>(
    alloc: Global,
    output: Output,
    options: &Options,
    program: &Program,
    out: &mut O,
    err: &mut E,
    visits: &mut Steps<L>,
) -> Status
    requires options { AreOptions options.now }
    ensures gives { (from to : ℕ) (reached : Graph → ℕ → Bool) → Decides reached →
        GivesDefined reached (O.taken out.old) (O.taken out.new) visits.old visits.new
        (Rose from to) (Rose (O.faults out.old) (O.faults out.new))
        (history_of output options.now program.now) result }
    ensures write_fault { O.faults out.new
        ≡ count_after (is_write_status result) (O.faults out.old) }
    ensures no_read { is_read_status result ≡ false }
    ensures of_run { IsBeforeRun result → ⊥ }
{
    match output {
        Output::Trace => {
            let ran = et_run::run(alloc, program, options, out, &mut Discard, visits);
            answer_run(alloc, program, ran, err)
        }
        Output::Prints => {
            let ran = et_run::run(alloc, program, options, &mut Discard, out, visits);
            answer_run(alloc, program, ran, err)
        }
    }
}

/// A program that was loaded, or why there is none.
type Loaded<'a> = Result<Program, Refusal<'a>>;

/// The history of the program that was loaded, of which the output goes to out; or why there is none.
pub fn run<O: Sink, E: Sink, L: Ledger>(
    alloc: Global,
    output: Output,
    options: &Options,
    loaded: Loaded<'_>,
    out: &mut O,
    err: &mut E,
    visits: &mut Steps<L>,
) -> Status
    requires options { AreOptions options.now }
    requires file { IfErr loaded (λ refusal. IsFileRefusal (cause_of refusal)) }
    ensures gives { (from to : ℕ) (found : Result Linked Fault) →
        Tells (Rose from to) (λ program. program) found loaded.entry →
        (reached : Graph → ℕ → Bool) → Decides reached →
        GivesDefined reached (O.taken out.old) (O.taken out.new) visits.old visits.new
        (Rose from to) (Rose (O.faults out.old) (O.faults out.new))
        (defines output options.now found) result }
    ensures usage { result ≡ Status.Usage → ⊥ }
    ensures read_fault { is_read_status result ≡ is_reading loaded.entry }
    ensures write_fault { O.faults out.new
        ≡ count_after (is_write_status result) (O.faults out.old) }
    ensures refused { IfErr loaded.entry (λ refusal. result ≡ status_of refusal) }
    ensures no_visits { IsBeforeRun result → visits.new ≡ visits.old }
    ensures unread { OnErr loaded.entry (visits.new ≡ visits.old) }
{
    match loaded {
        Ok(program) => run_program(alloc, output, options, &program, out, err, visits),
        Err(refusal) => refuse(alloc, err, &refusal),
    }
}
