//! What the verifier answers.
ghost use Rattle.std.specs.Prelude.{◌≡◌, ◌<◌, ℕ, Err, length};
ghost use Rattle.et_verify.specs.Verdicts.{Verifies};

use crate::method::{Room, has_typing};
use et_base::{MethodId, NoMemory};
use et_program::Program;
use std::alloc::Global;

/// Why a program is not verified.
#[derive(Debug, Drop)]
pub enum VerifyFault {
    /// The first method, in the order of the files, that has no typing.
    Rejected {
        /// The method.
        method: MethodId,
    },
    /// Memory ran out.
    NoMemory,
}

impl From<NoMemory> for VerifyFault {
    ghost use Rattle.std.specs.Prelude.{◌≡◌};
    ghost use Rattle.et_verify.specs.declared.verdict.VerifyFault.TheVariants.{NoMemory};

    ghost from_gives = { λ _ fault. fault ≡ NoMemory };

    fn from(_: NoMemory) -> Self {
        VerifyFault::NoMemory
    }
}

/// Verifies the methods with code of the files of a program, and says how many there are. `Rejected` gives exactly the first of
/// them, in the order of the files, that has no typing (JVMS 4.10, of which the classes of references and the calls of
/// constructors are left out).
///
/// The time is linear in the code, but for code in which local variables lose their types on a way back: what stands between
/// a target of branches and the next ones is looked at again as often as a local variable at the target does. The room is, at
/// each target of the largest method, a byte for each operand and four for each local variable that was written on the way
/// there, some 60 more, and ten for each byte of the code. Methods leave the room of 64 targets at most to those behind them.
pub fn verify(alloc: Global, program: &Program) -> Result<u32, VerifyFault>
    ensures verdict { Verifies program.now result }
    ensures within { (m : ℕ) → result ≡ Err (VerifyFault.Rejected m) →
        m < length program.now.methods }
{
    // A law: it tells the prover, and does nothing.
    program.is_linked();
    let methods = program.file_methods();
    let mut room = Room::new(alloc);
    let mut count = 0;
    for method in methods {
        if !has_typing(alloc, &mut room, program, *method)? {
            return Err(VerifyFault::Rejected { method: *method });
        }
        if program.method(*method).code.is_some() {
            count += 1;
        }
    }
    Ok(count)
}
