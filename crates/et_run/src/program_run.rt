//! The run of a linked program.
ghost use Rattle.std.specs.Prelude.{◌≡◌, ℕ, Bool, ◌≤◌, IfOk, OnErr};
ghost use Rattle.et_state.specs.Start.{start};
ghost use Rattle.et_event.specs.Start.{start_records};
ghost use Rattle.et_graph.specs.Graph.{Graph, Decides};
ghost use Rattle.et_history.specs.Settings.{said_by};
ghost use Rattle.et_history.specs.Whole.{whole_setting, whole_start, whole_visits_of, whole_said};
ghost use Rattle.et_io.specs.Faults.{is_write_fault};
ghost use Rattle.et_loop.specs.Ends.{IsOver, IsCutOff};
ghost use Rattle.et_loop.specs.Said.{CountsWrite};
ghost use Rattle.et_state.specs.Options.{AreOptions};
ghost use Rattle.et_run.specs.WithTexts.{state_of};

use crate::first::start_lines;
use crate::guest::ProgramGuest;
use crate::named::NamedProgram;
use crate::with_texts::MachineWithTexts;
use et_base::{NoMemory, Steps};
use et_history::laws::{histories_say_the_same, traces_are_the_same};
use et_history::run_laws::linked_programs_run_soundly;
use et_io::{RunFault, Sink};
use et_loop::{Ran, Started, run_guest};
use et_program::Program;
use et_state::{Machine, Options};
use et_strings::Texts;
use std::alloc::Global;
use std::sync::ledger::Ledger;

/// The machine in its first state, which has no texts, and the records of that state.
fn first<'a>(alloc: Global, program: &'a Program) -> Result<Started<ProgramGuest<'a>>, NoMemory>
    ensures state { IfOk result (λ x. state_of x.guest ≡ start program.now) }
    ensures records { IfOk result (λ x. x.made ≡ start_records program.now) }
{
    let machine = Machine::begin(alloc, program)?;
    let made = start_lines(alloc, program)?;
    let texts = Texts::begin(alloc);
    let guest = ProgramGuest::of(MachineWithTexts { machine, texts });
    Ok(Started { guest, made })
}

/// Runs a linked program from its first state, and writes the trace of its history to the one sink, and what its events print to
/// the other. That history frees nothing, but the machine keeps only what was not reported. It has a stamp for each object,
/// and searches nothing but at a flush: the visits of objects are at most those of the history's flushes, eight for each event,
/// and one for each object that an event makes.
///
/// `Write` comes exactly where a put failed, and one of the two sinks counted one fault. After `Write` and after `NoMemory` the
/// one sink took a prefix of the trace, and the other a prefix of what is printed; the run was cut off in one turn, and the
/// visits are at most those that the turns up to it may make.
pub fn run<O: Sink, P: Sink, L: Ledger>(
    alloc: Global,
    program: &Program,
    options: &Options,
    trace: &mut O,
    printed: &mut P,
    visits: &mut Steps<L>,
) -> Result<Ran, RunFault>
    requires options { AreOptions options.now }
    ensures over { (reached : Graph → ℕ → Bool) → Decides reached → IfOk result (λ ran.
        IsOver reached (whole_setting program.now options.now) (whole_said (said_by program.now))
        whole_visits_of (whole_start program.now) (start_records program.now)
        (O.taken trace.old) (O.taken trace.new) (P.taken printed.old) (P.taken printed.new)
        visits.old visits.new ran) }
    ensures cut_off { (reached : Graph → ℕ → Bool) → Decides reached → OnErr result
        (IsCutOff reached (whole_setting program.now options.now) (whole_said (said_by program.now))
        whole_visits_of (whole_start program.now) (start_records program.now)
        (O.taken trace.old) (O.taken trace.new) (P.taken printed.old) (P.taken printed.new)
        visits.old visits.new) }
    ensures write { CountsWrite (is_write_fault result)
        (O.faults trace.old) (O.faults trace.new) (P.faults printed.old) (P.faults printed.new) }
    ensures never_falls { O.faults trace.old ≤ O.faults trace.new }
    ensures printed_never_falls { P.faults printed.old ≤ P.faults printed.new }
{
    // Laws: they tell the prover, and do nothing.
    program.is_linked();
    linked_programs_run_soundly();
    traces_are_the_same();
    histories_say_the_same();
    let Ok(first) = first(alloc, program) else {
        return Err(RunFault::NoMemory);
    };
    let named = NamedProgram::of(program);
    run_guest(alloc, &named, options, first, trace, printed, visits)
}
