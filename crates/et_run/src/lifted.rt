//! Events of a thread that are instructions of its topmost frame, one after the other while its frames are lifted out of the
//! machine.
ghost use Rattle.std.specs.Prelude.{◌≡◌, ◌+◌, ◌*◌, ◌<◌, ◌≤◌, ◌^◌, false, length, Ok, Some};
ghost use Rattle.et_event.specs.declared.rows.Row.TheVariants as row_kinds;
ghost use Rattle.et_event.specs.Programs.{AreElementsWithin};
ghost use Rattle.et_event.specs.Runnable.{IsRunnable};
ghost use Rattle.et_event.specs.Sites.{decoded_at, present_body, running_method};
ghost use Rattle.et_event.specs.Table.{row_of as row_in_table};
ghost use Rattle.et_event.specs.Sound.{IsSoundFor};
ghost use Rattle.et_heap.specs.Objects.{Objects};
ghost use Rattle.et_refs.specs.Reads.{IsReadable};
ghost use Rattle.et_refs.specs.Steps.{StepsOver};
ghost use Rattle.et_run.specs.Lifted.{RunsOver};
ghost use Rattle.et_state.specs.declared.stage.Turn.TheVariants as turns;
ghost use Rattle.et_state.specs.State.{kept_of};
ghost use Rattle.et_state.specs.Threads.{turn_of};
ghost use Rattle.et_state.specs.Words.{IsUnended, thread_at};

use et_base::{ClassId, Steps, ThreadId};
use et_code::{Instr, decode};
use et_event::{Division, Number, Row, code_of, method_of, row_of};
use et_graph::{Stamps, stamp_each};
use et_heap::Heap;
use et_history::spoken_laws::events_lead_to_sound_states;
use et_ops::{divide, push_constant, run_frame};
use et_program::{MethodInfo, Program};
use et_refs::{heap_step, index_in};
use et_state::{Machine, Running};
use std::sync::ledger::Ledger;

/// Does the instruction at the pc of the frame that runs, an `ldc`, `ldc_w` or `ldc2_w` that was decoded, where it loads a number.
/// `true` where it was done; else all is as before.
#[inline(always)]
fn constant_step(
    program: &Program,
    class: ClassId,
    running: &mut Running,
    decoded: &(Instr, usize),
) -> bool
    requires class { class < length program.now.classes }
    requires method { class ≡ (running_method program.now running.old.frame).class }
    requires there { decoded_at program.now running.old.frame ≡ Ok decoded.now }
    requires at_row { row_in_table decoded.now.0.opcode ≡ Some row_kinds.PoolConstant }
    requires next { decoded.now.1 < 2 ^ 32 }
    ensures { (heap : Objects) →
        StepsOver program.now heap heap result running.old running.new }
{
    let Some(index) = index_in(&decoded.0) else {
        return false;
    };
    let pool = program.pool(class);
    push_constant(running, pool, index, decoded.1 as u32).is_done()
}

/// .. an `idiv`, `irem`, `ldiv` or `lrem`, where its divisor isn't 0.
#[inline(always)]
fn division_step(
    program: &Program,
    running: &mut Running,
    number: Number,
    division: Division,
    decoded: &(Instr, usize),
) -> bool
    requires there { decoded_at program.now running.old.frame ≡ Ok decoded.now }
    requires at_row { row_in_table decoded.now.0.opcode ≡ Some (row_kinds.Divide number division) }
    requires next { decoded.now.1 < 2 ^ 32 }
    ensures { (heap : Objects) →
        StepsOver program.now heap heap result running.old running.new }
{
    divide(running, number, division, decoded.1 as u32).is_done()
}

/// Does the instruction at the pc of the frame that runs, where it loads a number of the pool, divides by another number than 0,
/// or reads the heap or writes a number to it, and these two only where it may visit objects. `true` where it was done; else all
/// is as before. It visits objects four times at most.
#[inline(always)]
fn further_step<L: Ledger>(
    program: &Program,
    method: &MethodInfo,
    code: &[u8],
    heap: &mut Heap,
    running: &mut Running,
    may_visit: bool,
    visits: &mut Steps<L>,
) -> bool
    requires class { method.now.class < length program.now.classes }
    requires method { method.now ≡ running_method program.now running.old.frame }
    requires code { code.now ≡ (present_body method.now.code).code }
    requires few { length code.now < 2 ^ 16 }
    requires sound { IsReadable program.now heap.old running.old.frame }
    requires elements { AreElementsWithin program.now }
    ensures steps { StepsOver program.now heap.old heap.new result running.old running.new }
    ensures visits { visits.new ≤ visits.old + 4 }
    ensures unread { may_visit ≡ false → visits.new ≡ visits.old }
{
    let pc = running.pc() as usize;
    if pc >= code.len() {
        return false;
    }
    let Ok(decoded) = decode(code, pc) else {
        return false;
    };
    match row_of(decoded.0.opcode) {
        Some(Row::PoolConstant) => constant_step(program, method.class, running, &decoded),
        Some(Row::Divide(number, division)) => {
            division_step(program, running, number, division, &decoded)
        }
        Some(Row::Heap(row)) => {
            if !may_visit {
                return false;
            }
            heap_step(program, method.class, heap, running, &decoded, row, visits)
        }
        Some(_) | None => false,
    }
}

/// Does up to so many events of a thread, as long as they are instructions that change nothing but its topmost frame and numbers
/// in the heap, and read nothing else but numbers of the pool and the heap; and answers how many. Those that read and change
/// nothing else than the frame are done in a loop of their own. Each object that one of them loses gets the number of the event
/// before it as its stamp. They tell nothing. The first one visits no object, so that what a refused one visits is within what
/// the events before it may.
#[inline(always)]
pub(crate) fn lifted_events<L: Ledger>(
    program: &Program,
    machine: &mut Machine,
    thread: ThreadId,
    stamps: &mut Stamps,
    most: u64,
    visits: &mut Steps<L>,
) -> u64
    requires runnable { IsRunnable program.now }
    requires sound { IsSoundFor program.now (kept_of machine.old) }
    requires thread { IsUnended machine.old.guest thread }
    requires turn { turn_of (thread_at machine.old.guest thread) ≡ turns.Instruction }
    requires clock { machine.old.guest.clock + most ≤ 2 ^ 40 }
    requires places { length machine.old.heap ≤ length stamps.old }
    ensures few { result ≤ most }
    ensures runs { RunsOver program.now thread result machine.old machine.new stamps.old
        stamps.new }
    ensures visits { visits.new ≤ visits.old + 8 * result }
{
    let method = method_of(program, machine, thread);
    let code = code_of(method);
    let e = machine.clock();
    let mut running = machine.lift(thread);
    // Law: it tells the prover, and does nothing.
    events_lead_to_sound_states();
    let heap = &mut machine.heap;
    let mut count = 0;
    'steps: loop {
        count += run_frame(code, &mut running, stamps, e + count, most - count);
        if count == most {
            break;
        }
        if !further_step(program, method, code, heap, &mut running, 0 < count, visits) {
            break;
        }
        stamp_each(stamps, running.lost(), e + count);
        count += 1;
    }
    machine.land(thread, running);
    machine.pass_events(count);
    count
}
