//! The family of a turn, by which the event call of the turn is chosen. No operand is decoded.
ghost use Rattle.std.specs.Prelude.{◌≡◌};
ghost use Rattle.et_event.specs.Beginning.{BeginsEvent};
ghost use Rattle.et_event.specs.Families.{family_of, family_of_row};
ghost use Rattle.et_event.specs.Table.{row_of as row_in_table};
ghost use Rattle.et_state.specs.declared.stage.Turn.TheVariants as turns;
ghost use Rattle.et_state.specs.State.{kept_of};
ghost use Rattle.et_state.specs.Threads.{turn_of};
ghost use Rattle.et_state.specs.Words.{thread_at};

use et_base::ThreadId;
use et_base::numbers::u8_at;
use et_event::{Family, Row, code_of, method_of, row_of};
use et_program::Program;
use et_state::{Machine, Turn};

/// The family of the instructions of an opcode.
#[inline(always)]
fn opcode_family(opcode: u8) -> Family
    ensures { result ≡ family_of_row (row_in_table opcode) }
{
    match row_of(opcode) {
        None | Some(Row::Frame(_) | Row::PoolConstant | Row::Divide(_, _)) => Family::Ops,
        Some(Row::Heap(_)) => Family::Refs,
        Some(Row::Call(_)) => Family::Calls,
        Some(Row::Throw) => Family::Throw,
        Some(Row::Monitor(_)) => Family::Sync,
    }
}

/// The family of the instruction at which a thread stands, by the byte there. The instructions that are made wider by a
/// `wide` are of the same family as that opcode, which has no row.
#[inline(always)]
fn instruction_family(program: &Program, machine: &Machine, thread: ThreadId) -> Family
    requires begins { BeginsEvent program.now machine.now thread }
    requires turn { turn_of (thread_at machine.now.guest thread) ≡ turns.Instruction }
    ensures { result ≡ family_of program.now (kept_of machine.now) thread }
{
    let code = code_of(method_of(program, machine, thread));
    match u8_at(code, machine.pc(thread) as usize) {
        Some((opcode, _)) => opcode_family(opcode),
        None => Family::Ops,
    }
}

/// The family of the turn of a thread that has not ended.
#[inline(always)]
pub(crate) fn turn_family(program: &Program, machine: &Machine, thread: ThreadId) -> Family
    requires { BeginsEvent program.now machine.now thread }
    ensures { result ≡ family_of program.now (kept_of machine.now) thread }
{
    match machine.turn(thread) {
        Turn::Instruction => instruction_family(program, machine, thread),
        Turn::Unwind => Family::Throw,
        Turn::EndThread => Family::Sync,
        Turn::Entry | Turn::Initialize => Family::Calls,
    }
}
