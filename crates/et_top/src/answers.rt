//! What the program answers of a fault of a run, and of a text that was written.
ghost use Rattle.std.specs.Prelude.{◌≡◌, false};
ghost use Rattle.et_io.specs.Faults.{is_write_fault};
ghost use Rattle.et_files.specs.Refusals.{status_of};
ghost use Rattle.et_files.specs.Status.{is_read_status, is_write_status};
ghost use Rattle.et_files.specs.Told.{status_of_result};
ghost use Rattle.et_top.specs.Told.{refusal_of, status_of_writing};
ghost use Rattle.et_top.specs.Visits.{IsBeforeRun};

use et_files::{Refusal, Status, refuse};
use et_io::{RunFault, Sink};
use std::alloc::Global;

/// What the program says of a fault of a run.
fn of_fault<'a>(fault: RunFault) -> Refusal<'a>
    ensures { result ≡ refusal_of fault }
{
    match fault {
        RunFault::Write => Refusal::WriteFault,
        RunFault::NoMemory => Refusal::NoMemory,
    }
}

/// The status of a fault of a run, of which err is told.
pub fn answer_fault<E: Sink>(alloc: Global, fault: RunFault, err: &mut E) -> Status
    ensures status { result ≡ status_of (refusal_of fault) }
    ensures no_read { is_read_status result ≡ false }
    ensures of_run { IsBeforeRun result → ⊥ }
{
    refuse(alloc, err, &of_fault(fault))
}

/// What became of a text that was written, or was not.
pub fn written<'a>(wrote: Result<(), RunFault>) -> Result<(), Refusal<'a>>
    ensures { status_of_result result ≡ status_of_writing wrote }
{
    match wrote {
        Ok(()) => Ok(()),
        Err(fault) => Err(of_fault(fault)),
    }
}

/// The status of what was done, or was refused, of which err is told.
pub fn answer<E: Sink>(alloc: Global, done: Result<(), Refusal<'_>>, err: &mut E) -> Status
    ensures { result ≡ status_of_result done.entry }
{
    match done {
        Ok(()) => Status::Done,
        Err(refusal) => refuse(alloc, err, &refusal),
    }
}
