//! The code that a thread runs, and what is decoded from it.
ghost use Rattle.std.specs.Prelude.{◌≡◌, false, ◌<◌, ◌^◌, IfOk, IfSome, length, Some};
ghost use Rattle.et_code.specs.Decoding.{instruction_at};
ghost use Rattle.et_code.specs.Rules.{KeepsRules};
ghost use Rattle.et_state.specs.Words.{HasFrame, top};
ghost use Rattle.et_event.specs.Sites.{present_body, running_method as method_in, natural_of};
ghost use Rattle.et_event.specs.Table.{row_of as row_in_table};
ghost use Rattle.et_event.specs.declared.rows.Row.{Row};
ghost use Rattle.et_event.specs.Places.{Runs, is_frame};

use et_base::{MethodId, ThreadId};
use et_code::{CodeFault, Instr, decode};
use et_program::{MethodInfo, Program};
use et_state::Machine;

/// The method that the topmost frame of a thread runs.
pub fn method_of<'a>(program: &'a Program, machine: &Machine, thread: ThreadId) -> &'a MethodInfo
    requires frame { HasFrame machine.now.guest thread }
    requires runs { Runs program.now (top machine.now.guest thread) }
    ensures method { result.now ≡ method_in program.now (top machine.now.guest thread) }
    ensures class { result.now.class < length program.now.classes }
{
    let method = machine.frame_method(thread).unwrap_or(MethodId::new(0));
    program.method(method)
}

/// The code of a method, borrowed; it is empty where the method is abstract, native or built in. Code keeps the rules of the
/// standard (JVMS 4.9.1).
pub fn code_of(method: &MethodInfo) -> &[u8]
    ensures bytes { result.now ≡ (present_body method.now.code).code }
    ensures few { length result.now < 2 ^ 16 }
    ensures rules { IfSome method.now.code (λ body. KeepsRules body) }
    ensures locals { (present_body method.now.code).max_locals < 2 ^ 16 }
{
    match &method.code {
        Some(code) => code.raw().code.as_slice(),
        None => b"",
    }
}

/// The instruction at a pc, which is in the code then, and the pc behind it. An index into the pool has 16 bits.
#[tactic(auto, using(crate::proofs::Constants::at_end))]
pub(crate) fn instruction(code: &[u8], pc: u32) -> Result<(Instr, u32), CodeFault>
    requires { length code.now < 2 ^ 16 }
    ensures decoded { result ≡ instruction_at code.now pc }
    ensures within { IfOk result (λ x. pc < length code.now) }
    ensures index { IfOk result (λ x. (r : Row) →
        row_in_table x.0.opcode ≡ Some r → is_frame r ≡ false → natural_of x.0.first < 2 ^ 16) }
{
    let pc = pc as usize;
    if pc >= code.len() {
        return Err(CodeFault::Short);
    }
    let (instr, next) = decode(code, pc)?;
    Ok((instr, next as u32))
}
