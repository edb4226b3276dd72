//! The verdict on a program: whether each of its methods has a typing.
ghost use Rattle.std.specs.Prelude.{◌≡◌, ◌<◌, ℕ, Bool, false, length, string_bytes, IfOk};
ghost use Rattle.et_graph.specs.Graph.{Graph};
ghost use Rattle.et_io.specs.Faults.{Rose, count_after};
ghost use Rattle.et_program.specs.Entries.{Linked};
ghost use Rattle.et_files.specs.Status.{is_read_status, is_write_status};
ghost use Rattle.et_files.specs.Refusals.{status_of};
ghost use Rattle.et_top.specs.Told.{IsRejectionOf, TellsVerdict};
ghost use Rattle.et_top.specs.Top.{verified_text, Verifies, GivesDefined};
ghost use Rattle.et_verify.specs.Typings.{IsVerified};
ghost use Rattle.et_verify.specs.Verdicts.{verified_count};

use crate::answers::{answer, written};
use et_base::{MethodId, NoMemory};
use et_files::{Escaped, Refusal, Status, refuse};
use et_io::{Sink, put_all};
use et_link::Program;
use et_verify::{VerifyFault, verify};
use std::alloc::Global;

/// The line of a program of which so many methods were verified.
fn verified_line(alloc: Global, count: u32) -> Result<String, NoMemory>
    ensures { IfOk result (λ line. string_bytes line ≡ verified_text count) }
{
    Ok(format!(in alloc; "verified {count}\n")?)
}

/// Writes the line of a program whose methods, so many, have typings.
fn put_count<O: Sink, E: Sink>(alloc: Global, count: u32, out: &mut O, err: &mut E) -> Status
    ensures gives { (p : Linked) → IsVerified p → count ≡ verified_count p →
        (reached : Graph → ℕ → Bool) (old new from to : ℕ) →
        GivesDefined reached (O.taken out.old) (O.taken out.new) old new (Rose from to)
        (Rose (O.faults out.old) (O.faults out.new)) (Verifies p) result }
    ensures write_fault { O.faults out.new
        ≡ count_after (is_write_status result) (O.faults out.old) }
    ensures no_read { is_read_status result ≡ false }
    ensures usage { result ≡ Status.Usage → ⊥ }
{
    match verified_line(alloc, count) {
        Ok(line) => answer(alloc, written(put_all(out, line.as_bytes())), err),
        Err(_) => refuse(alloc, err, &Refusal::NoMemory),
    }
}

/// What is said of a method that has no typing.
fn rejection(program: &Program, method: MethodId) -> Refusal<'_>
    requires { method < length program.now.methods }
    ensures names { IsRejectionOf program.now method result }
    ensures status { status_of result ≡ Status.Rejected }
{
    let info = program.method(method);
    Refusal::Rejected {
        class: Escaped(program.class(info.class).name.as_slice()),
        method: Escaped(info.name.as_slice()),
        descriptor: Escaped(info.descriptor.as_slice()),
    }
}

/// What is said of a program that isn't verified.
fn unverified(program: &Program, fault: VerifyFault) -> Refusal<'_>
    requires { (m : ℕ) → fault ≡ VerifyFault.Rejected m → m < length program.now.methods }
    ensures { TellsVerdict program.now fault result }
{
    match fault {
        VerifyFault::Rejected { method } => rejection(program, method),
        VerifyFault::NoMemory => Refusal::NoMemory,
    }
}

/// Verifies the program. How many of its methods have code goes to out; where one has no typing, err is told which is the
/// first.
pub fn tell_verdict<O: Sink, E: Sink>(
    alloc: Global,
    program: &Program,
    out: &mut O,
    err: &mut E,
) -> Status
    ensures gives { (reached : Graph → ℕ → Bool) (old new from to : ℕ) →
        GivesDefined reached (O.taken out.old) (O.taken out.new) old new (Rose from to)
        (Rose (O.faults out.old) (O.faults out.new)) (Verifies program.now) result }
    ensures write_fault { O.faults out.new
        ≡ count_after (is_write_status result) (O.faults out.old) }
    ensures no_read { is_read_status result ≡ false }
    ensures usage { result ≡ Status.Usage → ⊥ }
{
    match verify(alloc, program) {
        Ok(count) => put_count(alloc, count, out, err),
        Err(fault) => refuse(alloc, err, &unverified(program, fault)),
    }
}
