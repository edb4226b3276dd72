//! The code of frames, and where they go on.
ghost use Rattle.std.specs.Prelude.{◌≡◌, ◌+◌, ◌<◌, ◌≤◌, ◌^◌, ◌++◌, [], length};
ghost use Rattle.et_code.specs.Decoding.{instruction_at};
ghost use Rattle.et_state.specs.Words.{HasFrame, top, steps_top};
ghost use Rattle.et_program.specs.Entries.{method_at};
ghost use Rattle.et_event.specs.Frames.{next_place_of as behind_of, behind_or};
ghost use Rattle.et_event.specs.Sites.{present_body};
ghost use Rattle.et_calls.specs.Sizes.{call_size as size_of_call};

use et_base::numbers::u8_at;
use et_base::{MethodId, ThreadId, Value};
use et_code::decode;
use et_code::opcode::{INVOKEINTERFACE, INVOKESPECIAL, INVOKESTATIC, INVOKEVIRTUAL};
use et_event::{code_of, give};
use et_program::Program;
use et_state::Machine;

/// The code of the method of this number; it is empty where there is no such method, and where that has none.
fn code_at(program: &Program, method: MethodId) -> &[u8]
    ensures bytes { result.now ≡ (present_body (method_at program.now method).code).code }
    ensures few { length result.now < 2 ^ 16 }
{
    if method.number() >= program.method_count() {
        return b"";
    }
    code_of(program.method(method))
}

/// How many bytes a call takes that has this opcode (JVMS 6.5); 0 for other opcodes.
#[inline(always)]
fn call_size(opcode: u8) -> usize
    ensures { result ≡ size_of_call opcode }
{
    match opcode {
        INVOKEVIRTUAL | INVOKESPECIAL | INVOKESTATIC => 3,
        INVOKEINTERFACE => 5,
        _ => 0,
    }
}

/// The pc behind the instruction at a pc; where there is none, that pc. How long a call is, its opcode says.
#[tactic(auto, using(et_event::proofs::Constants::at_end))]
fn behind_at(code: &[u8], pc: u32) -> u32
    requires { length code.now < 2 ^ 16 }
    ensures { result ≡ behind_or pc (instruction_at code.now pc) }
{
    let at = pc as usize;
    let Some((opcode, _next)) = u8_at(code, at) else {
        return pc;
    };
    let size = call_size(opcode);
    if size > 0 && at + size <= code.len() {
        return pc + size as u32;
    }
    match decode(code, at) {
        Ok((_instr, next)) => next as u32,
        Err(_) => pc,
    }
}

/// The pc behind the instruction at which the frame stands.
fn behind(program: &Program, machine: &Machine, thread: ThreadId) -> u32
    requires { HasFrame machine.now.guest thread }
    ensures { result ≡ behind_of program.now (top machine.now.guest thread) }
{
    let method = machine.frame_method(thread).unwrap_or(MethodId::new(0));
    behind_at(code_at(program, method), machine.pc(thread))
}

/// The frame gets what a call returns, and goes on behind it.
#[tactic(auto, using(crate::proofs::Returning::resumed_once))]
#[inline(always)]
pub(crate) fn resume(program: &Program, machine: &mut Machine, thread: ThreadId, values: &[Value])
    requires frame { HasFrame machine.old.guest thread }
    requires room { length values.now + length (top machine.old.guest thread).operands
        ≤ (top machine.old.guest thread).room }
    ensures { machine.new ≡ steps_top machine.old thread (record
        (top machine.old.guest thread) {
          pc = behind_of program.now (top machine.old.guest thread);
          operands = values.now ++ (top machine.old.guest thread).operands;
        }) [] }
{
    let next = behind(program, machine, thread);
    give(machine, thread, values);
    machine.set_pc(thread, next);
}
